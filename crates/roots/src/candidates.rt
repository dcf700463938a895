// What tells one group of roots from another: its candidates, their product, and its numbers.
ghost use Rattle.std.specs.Prelude.{◌≡◌, ℕ, Bool, true};
ghost use Rattle.group.specs.Monoid.{Commutative};
ghost use Rattle.group.specs.Meaning.{Meaning, Lawful, products};
ghost use Rattle.roots.specs.Candidates.{AreRoots, AreNumbers};

pub trait Candidates<const Q: u32> {
    const NUMBER: u16;

    const W: usize;

    const S: usize;

    const UNIT: u32;

    const G: u32;

    const H: u32;

    // The constants as clauses name them.
    ghost NUMBER: { ℕ };

    ghost W: { ℕ };

    ghost S: { ℕ };

    ghost UNIT: { ℕ };

    ghost G: { ℕ };

    ghost H: { ℕ };

    ghost meaning: { Meaning };

    ghost lawful: { Lawful meaning };

    // The numbers that can be multiplied, each candidate among them.
    ghost factor: { ℕ → Bool };

    ghost commutative: { Commutative factor (products meaning) };

    ghost numbers: { AreNumbers meaning NUMBER W S UNIT G H };

    ghost roots: { AreRoots meaning factor Q };

    fn is_candidate(number: u32) -> bool
        ensures { result ≡ meaning.candidate number };

    fn product(a: u32, b: u32) -> u32
        requires first { factor a ≡ true }
        requires second { factor b ≡ true }
        ensures { result ≡ meaning.product a b };
}
