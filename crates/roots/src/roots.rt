// The group of the roots.
ghost use Rattle.std.specs.Prelude.{◌≡◌, ⊤, true, refl};
ghost use Rattle.roots.specs.CandidateLaws.{below_order};

use crate::candidates::Candidates;
use crate::factors::{Factor, Factors};
use group::fault::GroupFault;
use group::group::Group;
use group::modular::Modular;
use group::operation::raised;
use std::alloc::AllocError;
use std::marker::PhantomData;

pub struct Roots<const Q: u32, C>(pub PhantomData<C>);

// A candidate whose Q-th power is the unit.
#[derive_where(PartialEq, Eq)]
pub struct Root<const Q: u32, C: Candidates<Q>> {
    value: u32,
    #[derive_where(skip)]
    of: PhantomData<C>,
    ghost ok: { C.meaning.member value ≡ true },
}

// By hand: no derive of Clone takes a ghost field of a generic type.
impl<const Q: u32, C: Candidates<Q>> Clone for Root<Q, C> {
    ghost is_clone = { λ it copy. copy ≡ it };

    ghost is_infallible = { λ _. ⊤ };

    fn clone(&self) -> Result<Self, AllocError> {
        Ok(*self)
    }
}

impl<const Q: u32, C: Candidates<Q>> Copy for Root<Q, C> {}

impl<const Q: u32, C: Candidates<Q>> Root<Q, C> {
    fn new(value: u32) -> Root<Q, C>
        requires { C.meaning.member value ≡ true }
        ensures { result.value ≡ value }
    {
        Root {
            value,
            of: PhantomData,
        }
    }
}

impl<const Q: u32, C: Candidates<Q>> Group for Roots<Q, C> {
    const NUMBER: u16 = C::NUMBER;

    const W: usize = C::W;

    const S: usize = C::S;

    type Element = Root<Q, C>;

    type Scalar = Modular<Q>;

    ghost NUMBER = { C.NUMBER };

    ghost W = { C.W };

    ghost S = { C.S };

    ghost meaning = { C.meaning };

    ghost lawful = { C.lawful };

    ghost number_of = { λ x. x.value };

    ghost inside = { λ x. x.ok };

    ghost scalar_of = { λ x. x.value };

    ghost below = { λ x. below_order C.roots x.below };

    ghost number_is = { C.numbers.number_is };

    ghost width_is = { C.numbers.w_is };

    ghost scalar_width_is = { C.numbers.s_is };

    ghost equal = { λ a b. refl };

    fn unit() -> Root<Q, C> {
        Root::new(C::UNIT)
    }

    fn g() -> Root<Q, C> {
        Root::new(C::G)
    }

    fn h() -> Root<Q, C> {
        Root::new(C::H)
    }

    fn product(a: Root<Q, C>, b: Root<Q, C>) -> Root<Q, C> {
        Root::new(C::product(a.value, b.value))
    }

    fn element_number(a: Root<Q, C>) -> u32 {
        a.value
    }

    fn element(number: u32, place: usize) -> Result<Root<Q, C>, GroupFault> {
        if !C::is_candidate(number) {
            return Err(GroupFault::NoCandidate { place });
        }
        if raised::<Factors<Q, C>>(Factor::new(number), Q).number() != C::UNIT {
            return Err(GroupFault::NoMember { place });
        }
        Ok(Root::new(number))
    }

    fn known_element(number: u32) -> Root<Q, C> {
        Root::new(number)
    }

    fn scalar_number(x: Modular<Q>) -> u32 {
        x.get()
    }

    fn scalar(number: u32, place: usize) -> Result<Modular<Q>, GroupFault> {
        if number >= Q {
            return Err(GroupFault::NoCandidate { place });
        }
        Ok(Modular::new(number))
    }

    fn reduced(n: u32) -> Modular<Q> {
        Modular::reduced(n)
    }

    fn add(x: Modular<Q>, y: Modular<Q>) -> Modular<Q> {
        x + y
    }

    fn multiply(x: Modular<Q>, y: Modular<Q>) -> Modular<Q> {
        x * y
    }

    fn negate(x: Modular<Q>) -> Modular<Q> {
        -x
    }

    fn invert(x: Modular<Q>) -> Option<Modular<Q>> {
        x.inverse()
    }
}
