// Where each taken record begins, by kind, writer and second seat.
ghost use Rattle.std.specs.Prelude.{◌≡◌, ◌^◌, ◌<◌, ◌≤◌, true, false, replicate, slice_set};
ghost use Rattle.board_index.specs.State.{is_indexed, slot, look, truth_at, noted_truths};

use protocol::kind::Kind;

// A row of a table has the numbers 0 to 32: the seats, and 0 where a kind has no second seat.
#[derive(Drop)]
pub struct Index {
    // 0 where no record is taken: the Opening stands there, and it has no entry. An Option would double the table.
    pub places: [u32; 6534],
    // Whether the Answer of a dealer to a complainer is taken and true.
    pub truths: [bool; 1089],
}

fn pair_slot(writer: u8, second: u8) -> usize
    ensures { result ≡ Rattle.board_index.specs.State.pair_slot writer second }
{
    writer as usize * 33 + second as usize
}

fn slot_of(kind: Kind, writer: u8, second: u8) -> usize
    requires { is_indexed kind ≡ true }
    ensures { result ≡ slot kind writer second }
{
    (kind.number() as usize - 2) * 1089 + pair_slot(writer, second)
}

impl Index {
    pub fn empty() -> Index
        ensures places { result.places ≡ replicate 6534 0 }
        ensures truths { result.truths ≡ replicate 1089 false }
    {
        Index {
            places: [0; 6534],
            truths: [false; 1089],
        }
    }

    // Where the record begins, if one is taken.
    pub fn find(&self, kind: Kind, writer: u8, second: u8) -> Option<usize>
        requires { is_indexed kind ≡ true }
        ensures { result ≡ look self.now.places kind writer second }
    {
        if writer > 32 || second > 32 {
            return None;
        }
        let place = self.places[slot_of(kind, writer, second)];
        if place == 0 {
            return None;
        }
        Some(place as usize)
    }

    // Whether the Answer of a dealer to a complainer is taken and true.
    pub fn is_true(&self, dealer: u8, complainer: u8) -> bool
        ensures { result ≡ truth_at self.now.truths dealer complainer }
    {
        if dealer > 32 || complainer > 32 {
            return false;
        }
        self.truths[pair_slot(dealer, complainer)]
    }

    // Notes where a record begins, and of an Answer whether it is true.
    pub fn note(&mut self, kind: Kind, writer: u8, second: u8, place: usize, truth: bool)
        requires { (is_indexed kind ≡ true) × ((writer ≤ 32) × ((second ≤ 32) × (place < 2 ^ 32))) }
        ensures places { self.new.places ≡ slice_set self.old.places (slot kind writer second) place }
        ensures truths { self.new.truths ≡ noted_truths kind self.old.truths writer second truth }
    {
        self.places[slot_of(kind, writer, second)] = place as u32;
        if let Kind::Answer = kind {
            self.truths[pair_slot(writer, second)] = truth;
        }
    }
}
