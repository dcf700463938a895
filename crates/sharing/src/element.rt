// A group's element: the product as sum, the power as scaling.
ghost use Rattle.std.specs.Prelude.{◌≡◌, ℕ, true, List};
ghost use Rattle.group.specs.Meaning.{products};
ghost use Rattle.group.specs.Code.{code, code_at};
ghost use Rattle.group.specs.CodeLaws.{code_length};
ghost use Rattle.sharing.specs.Codes.{element_refused};
ghost use Rattle.sharing.specs.LinearLaws.{element_judged};

use crate::linear::Linear;
use group::codes::{read_code, read_element, write_element};
use group::fault::GroupFault;
use group::group::Group;
use group::powers::power_of;
use std::marker::PhantomData;

// E is a parameter, since a struct that holds an associated type cannot be `Copy`.
#[derive_where(Clone, Copy; E)]
pub struct Element<G, E> {
    pub value: E,
    pub of: PhantomData<G>,
}

impl<G, E> Element<G, E> {
    fn new(value: E) -> Element<G, E>
        ensures { result.value ≡ value }
    {
        Element {
            value,
            of: PhantomData,
        }
    }
}

impl<E: Copy + PartialEq, G: Group<Element = E>> Linear<G> for Element<G, E> {
    ghost Value = { ℕ };

    ghost of = { λ x. G.Group.number_of x.value };

    ghost member = { G.Group.meaning.member };

    ghost sum = { products G.Group.meaning };

    ghost commutative = { G.Group.lawful.commutative };

    ghost inside = { λ x. G.Group.inside x.value };

    ghost width = { G.Group.meaning.w };

    ghost encoded = { code G.Group.meaning.w };

    ghost encoded_length = { code_length G.Group.meaning.w };

    ghost refusal = { element_refused G.Group.meaning };

    ghost decoded = { λ bytes at. code_at bytes G.Group.meaning.w at };

    ghost judged = { element_judged G.Group.meaning };

    ghost exponent = { G.Group.lawful.order };

    fn zero() -> Element<G, E> {
        Element::new(G::unit())
    }

    fn add(self, other: Element<G, E>) -> Element<G, E> {
        Element::new(G::product(self.value, other.value))
    }

    fn scale(self, by: G::Scalar) -> Element<G, E> {
        Element::new(power_of::<G>(self.value, by))
    }

    fn code_width() -> usize {
        G::W
    }

    fn read(codes: &[u8], at: usize) -> Result<Element<G, E>, GroupFault> {
        Ok(Element::new(read_element::<G>(codes, at)?))
    }

    fn known(codes: &[u8], at: usize) -> Element<G, E> {
        Element::new(G::known_element(read_code(codes, at, G::W)))
    }

    fn write(self, out: &mut [u8], at: usize) {
        write_element::<G>(self.value, out, at);
    }
}
