// A commutative operation with its unit, and powers by square and multiply.
ghost use Rattle.std.specs.Prelude.{◌≡◌, ℕ, Bool, true};
ghost use Rattle.group.specs.Monoid.{Monoid, Commutative, power};

pub trait Operation {
    type Item: Copy;

    ghost monoid: { Monoid ℕ };

    ghost member: { ℕ → Bool };

    ghost commutative: { Commutative member monoid };

    ghost number_of: { Self.Item → ℕ };

    ghost inside: { (x : Self.Item) → member (number_of x) ≡ true };

    fn unit() -> Self::Item
        ensures { number_of result ≡ monoid.unit };

    fn combine(a: Self::Item, b: Self::Item) -> Self::Item
        ensures { number_of result ≡ monoid.op (number_of a) (number_of b) };
}

// u^n.
pub fn raised<O: Operation>(u: O::Item, n: u32) -> O::Item
    ensures { O.number_of result ≡ power O.monoid (O.number_of u) n }
{
    let mut acc = O::unit();
    let mut base = u;
    let mut left = n;
    while left > 0 {
        if left % 2 == 1 {
            acc = O::combine(acc, base);
        }
        base = O::combine(base, base);
        left /= 2;
    }
    acc
}
