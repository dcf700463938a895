// The seats whose Reveals serve for a dealer: a list in a fixed array.
ghost use Rattle.std.specs.Prelude.{◌≡◌, ℕ, ◌<◌, ◌≤◌, List, [], ◌∷◌, ◌++◌, length, take};

use std::marker::Model;

// They are t + 1 at most, and t is 15 at most.
#[derive(Drop)]
pub(crate) struct ServingSeats {
    seats: [u8; 16],
    count: usize,
}

impl Model for ServingSeats {
    ghost Value = { List ℕ };

    ghost view = { λ serving. take serving.count serving.seats };

    ghost invariant = { λ serving. serving.count ≤ 16 };
}

impl ServingSeats {
    pub(crate) fn new() -> ServingSeats
        ensures { result ≡ [] }
    {
        ServingSeats {
            seats: [0; 16],
            count: 0,
        }
    }

    pub(crate) fn len(&self) -> usize
        ensures { result ≡ length self.now }
    {
        self.count
    }

    pub(crate) fn push(&mut self, seat: u8)
        requires room { length self.old < 16 }
        ensures { self.new ≡ self.old ++ seat ∷ [] }
    {
        self.seats[self.count] = seat;
        self.count += 1;
    }

    pub(crate) fn as_slice(&self) -> &[u8]
        ensures { result.now ≡ self.now }
    {
        &self.seats[..self.count]
    }
}
