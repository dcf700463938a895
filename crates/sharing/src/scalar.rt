// A group's scalar: the sum and the product modulo q.
ghost use Rattle.std.specs.Prelude.{◌≡◌, ℕ, true, List, nat_lt};
ghost use Rattle.std.proofs.lemmas.Bool.{lt-ltb};
ghost use Rattle.group.specs.Code.{code, code_at};
ghost use Rattle.group.specs.CodeLaws.{code_length};
ghost use Rattle.sharing.specs.Linear.{scalar_sum};
ghost use Rattle.sharing.specs.Codes.{scalar_refused};
ghost use Rattle.sharing.specs.LinearLaws.{scalar_commutative, scalar_exponent, scalar_judged};

use crate::linear::Linear;
use group::codes::{read_code, read_scalar, write_scalar};
use group::fault::GroupFault;
use group::group::Group;
use std::marker::PhantomData;

// S is a parameter, since a struct that holds an associated type cannot be `Copy`.
#[derive_where(Clone, Copy; S)]
pub struct Scalar<G, S> {
    pub value: S,
    pub of: PhantomData<G>,
}

impl<G, S> Scalar<G, S> {
    fn new(value: S) -> Scalar<G, S>
        ensures { result.value ≡ value }
    {
        Scalar {
            value,
            of: PhantomData,
        }
    }
}

impl<S: Copy, G: Group<Scalar = S>> Linear<G> for Scalar<G, S> {
    ghost Value = { ℕ };

    ghost of = { λ x. G.Group.scalar_of x.value };

    ghost member = { λ x. nat_lt x G.Group.meaning.q };

    ghost sum = { scalar_sum G.Group.meaning.q };

    ghost commutative = { scalar_commutative G.Group.lawful };

    ghost inside = { λ x. lt-ltb (G.Group.scalar_of x.value) G.Group.meaning.q (G.Group.below x.value) };

    ghost width = { G.Group.meaning.s };

    ghost encoded = { code G.Group.meaning.s };

    ghost encoded_length = { code_length G.Group.meaning.s };

    ghost refusal = { scalar_refused G.Group.meaning };

    ghost decoded = { λ bytes at. code_at bytes G.Group.meaning.s at };

    ghost judged = { scalar_judged G.Group.meaning };

    ghost exponent = { scalar_exponent G.Group.meaning.q };

    fn zero() -> Scalar<G, S> {
        Scalar::new(G::reduced(0))
    }

    fn add(self, other: Scalar<G, S>) -> Scalar<G, S> {
        Scalar::new(G::add(self.value, other.value))
    }

    fn scale(self, by: S) -> Scalar<G, S> {
        Scalar::new(G::multiply(by, self.value))
    }

    fn code_width() -> usize {
        G::S
    }

    fn read(codes: &[u8], at: usize) -> Result<Scalar<G, S>, GroupFault> {
        Ok(Scalar::new(read_scalar::<G>(codes, at)?))
    }

    fn known(codes: &[u8], at: usize) -> Scalar<G, S> {
        Scalar::new(G::reduced(read_code(codes, at, G::S)))
    }

    fn write(self, out: &mut [u8], at: usize) {
        write_scalar::<G>(self.value, out, at);
    }
}
