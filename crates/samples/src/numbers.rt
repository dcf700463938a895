// Numbers without end: each comes from the one before. Tests use the higher digits, as the lowest ones repeat soon.
ghost use Rattle.std.specs.Prelude.{◌≡◌, ℕ, Some};
ghost use Rattle.samples.specs.Following.{following};

use std::marker::Model;

// Known by the number that comes next.
#[derive(Drop)]
pub struct Numbers {
    next: u32,
}

impl Model for Numbers {
    ghost Value = { ℕ };

    ghost view = { λ numbers. numbers.next };
}

impl Numbers {
    // The first number is `first` itself.
    pub fn starting_at(first: u32) -> Numbers
        ensures { result ≡ first }
    {
        Numbers { next: first }
    }

    // The first number is the one that follows the seed.
    pub fn from_seed(seed: u32) -> Numbers
        ensures { result ≡ following seed }
    {
        Numbers {
            next: seed.wrapping_mul(1664525).wrapping_add(1013904223),
        }
    }

    // The next number: never none, so a test need not say what it does without one.
    pub fn draw(&mut self) -> u32
        ensures number { result ≡ self.old }
        ensures later { self.new ≡ following self.old }
    {
        let number = self.next;
        *self = Numbers::from_seed(number);
        number
    }
}

impl Iterator for Numbers {
    type Item = u32;

    ghost next_gives = { λ numbers number later. (number ≡ Some numbers) × (later ≡ following numbers) };

    fn next(&mut self) -> Option<u32> {
        Some(self.draw())
    }
}
