// The product of all factors, members or not.
ghost use Rattle.std.specs.Prelude.{◌≡◌, ⊤, true};
ghost use Rattle.group.specs.Meaning.{products};

use crate::candidates::Candidates;
use group::operation::Operation;
use std::alloc::AllocError;
use std::marker::PhantomData;

// A number that can be multiplied.
pub struct Factor<const Q: u32, C: Candidates<Q>> {
    value: u32,
    of: PhantomData<C>,
    ghost ok: { C.factor value ≡ true },
}

// By hand: no derive of Clone takes a ghost field of a generic type.
impl<const Q: u32, C: Candidates<Q>> Clone for Factor<Q, C> {
    ghost is_clone = { λ it copy. copy ≡ it };

    ghost is_infallible = { λ _. ⊤ };

    fn clone(&self) -> Result<Self, AllocError> {
        Ok(*self)
    }
}

impl<const Q: u32, C: Candidates<Q>> Copy for Factor<Q, C> {}

impl<const Q: u32, C: Candidates<Q>> Factor<Q, C> {
    pub fn new(value: u32) -> Factor<Q, C>
        requires { C.factor value ≡ true }
        ensures { result.value ≡ value }
    {
        Factor {
            value,
            of: PhantomData,
        }
    }

    pub fn number(self) -> u32
        ensures { result ≡ self.value }
    {
        self.value
    }
}

pub struct Factors<const Q: u32, C>(PhantomData<C>);

impl<const Q: u32, C: Candidates<Q>> Operation for Factors<Q, C> {
    type Item = Factor<Q, C>;

    ghost monoid = { products C.meaning };

    ghost member = { C.factor };

    ghost commutative = { C.commutative };

    ghost number_of = { λ x. x.value };

    ghost inside = { λ x. x.ok };

    fn unit() -> Factor<Q, C> {
        Factor::new(C::UNIT)
    }

    fn combine(a: Factor<Q, C>, b: Factor<Q, C>) -> Factor<Q, C> {
        Factor::new(C::product(a.value, b.value))
    }
}
