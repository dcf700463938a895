// Powers of the elements of any group.
ghost use Rattle.std.specs.Prelude.{◌≡◌};
ghost use Rattle.group.specs.Monoid.{power};
ghost use Rattle.group.specs.Meaning.{products};
ghost use Rattle.group.specs.Powers.{PowerLaws};

use crate::group::Group;
use crate::operation::{Operation, raised};
use std::marker::PhantomData;

// The product of a group's elements.
pub struct Products<G> {
    of: PhantomData<G>,
}

impl<G: Group> Operation for Products<G> {
    type Item = G::Element;

    ghost monoid = { products G.Group.meaning };

    ghost member = { G.Group.meaning.member };

    ghost commutative = { G.Group.lawful.commutative };

    ghost number_of = { G.Group.number_of };

    ghost inside = { G.Group.inside };

    fn unit() -> G::Element {
        G::unit()
    }

    fn combine(a: G::Element, b: G::Element) -> G::Element {
        G::product(a, b)
    }
}

// u^x.
pub fn power_of<G: Group>(u: G::Element, x: G::Scalar) -> G::Element
    ensures { G.number_of result ≡ power (products G.meaning) (G.number_of u) (G.scalar_of x) }
{
    raised::<Products<G>>(u, G::scalar_number(x))
}

// The powers of every group obey the laws of exponents: a theorem, which its contract states.
pub fn powers_obey_laws()
    ensures { PowerLaws }
{}
