// A pair of any two values that can be added and scaled, part by part.
ghost use Rattle.std.specs.Prelude.{◌≡◌, ℕ, ◌+◌, true, List, ◌++◌};
ghost use Rattle.std.proofs.lemmas.Bool.{and_from};
ghost use Rattle.sharing.specs.Linear.{pair_sum, both_members};
ghost use Rattle.sharing.specs.Codes.{first_of};
ghost use Rattle.sharing.specs.LinearLaws.{pair_commutative, pair_exponent, pair_judged, pair_length};

use crate::linear::Linear;
use group::fault::GroupFault;
use group::group::Group;

#[derive(Clone, Copy)]
pub struct Pair<A, B> {
    pub left: A,
    pub right: B,
}

impl<G: Group, A: Linear<G>, B: Linear<G>> Linear<G> for Pair<A, B> {
    ghost Value = { A.Linear.Value × B.Linear.Value };

    ghost of = { λ p. (A.Linear.of p.left, B.Linear.of p.right) };

    ghost member = { both_members A.Linear.member B.Linear.member };

    ghost sum = { pair_sum A.Linear.sum B.Linear.sum };

    ghost commutative = { pair_commutative A.Linear.member B.Linear.member A.Linear.sum B.Linear.sum A.Linear.commutative B.Linear.commutative };

    ghost inside = { λ p. and_from _ _ (A.Linear.inside p.left) (B.Linear.inside p.right) };

    ghost width = { A.Linear.width + B.Linear.width };

    ghost encoded = { λ v. A.Linear.encoded v.0 ++ B.Linear.encoded v.1 };

    ghost encoded_length = { pair_length A.Linear.encoded B.Linear.encoded A.Linear.encoded_length B.Linear.encoded_length };

    ghost refusal = { λ bytes at. first_of (A.Linear.refusal bytes at) (B.Linear.refusal bytes (at + A.Linear.width)) };

    ghost decoded = { λ bytes at. (A.Linear.decoded bytes at, B.Linear.decoded bytes (at + A.Linear.width)) };

    ghost judged = { pair_judged A.Linear.member B.Linear.member A.Linear.refusal B.Linear.refusal A.Linear.decoded B.Linear.decoded A.Linear.width A.Linear.judged B.Linear.judged };

    ghost exponent = { pair_exponent A.Linear.member B.Linear.member A.Linear.sum B.Linear.sum G.Group.meaning.q A.Linear.exponent B.Linear.exponent };

    fn zero() -> Pair<A, B> {
        Pair {
            left: A::zero(),
            right: B::zero(),
        }
    }

    fn add(self, other: Pair<A, B>) -> Pair<A, B> {
        Pair {
            left: self.left.add(other.left),
            right: self.right.add(other.right),
        }
    }

    fn scale(self, by: G::Scalar) -> Pair<A, B> {
        Pair {
            left: self.left.scale(by),
            right: self.right.scale(by),
        }
    }

    fn code_width() -> usize {
        A::code_width() + B::code_width()
    }

    fn read(codes: &[u8], at: usize) -> Result<Pair<A, B>, GroupFault> {
        let left = A::read(codes, at)?;
        let right = B::read(codes, at + A::code_width())?;
        Ok(Pair { left, right })
    }

    fn known(codes: &[u8], at: usize) -> Pair<A, B> {
        let left = A::known(codes, at);
        let right = B::known(codes, at + A::code_width());
        Pair { left, right }
    }

    fn write(self, out: &mut [u8], at: usize) {
        self.left.write(out, at);
        self.right.write(out, at + A::code_width());
    }
}
