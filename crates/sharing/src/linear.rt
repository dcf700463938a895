// What can be added and scaled by the scalars of a group, and stands in bytes as a code.
ghost use Rattle.std.specs.Prelude.{◌≡◌, ℕ, ◌+◌, ◌^◌, ◌<◌, ◌≤◌, Bool, true, List, length, None, Option as Maybe};
ghost use Rattle.std.proofs.Math.Seq.{paste};
ghost use Rattle.group.specs.declared.fault.GroupFault.{GroupFault as Fault};
ghost use Rattle.group.specs.Monoid.{Monoid, Commutative};
ghost use Rattle.group.specs.Reading.{Reads};
ghost use Rattle.sharing.specs.Linear.{Exponent, scaled};

use group::fault::GroupFault;
use group::group::Group;

pub trait Linear<G: Group>: Copy {
    ghost Value: { Type 0 };

    ghost of: { Self → Value };

    ghost member: { Value → Bool };

    ghost sum: { Monoid Value };

    ghost commutative: { Commutative member sum };

    ghost inside: { (x : Self) → member (of x) ≡ true };

    // The code of a value, and the code that stands at a place in bytes: what is said against it, and its value.
    ghost width: { ℕ };

    ghost encoded: { Value → List ℕ };

    ghost encoded_length: { (v : Value) → length (encoded v) ≡ width };

    ghost refusal: { List ℕ → ℕ → Maybe Fault };

    ghost decoded: { List ℕ → ℕ → Value };

    ghost judged: { (bytes : List ℕ) (at : ℕ) → refusal bytes at ≡ None → member (decoded bytes at) ≡ true };

    // The unit of the sum.
    fn zero() -> Self
        ensures { of result ≡ sum.unit };

    fn add(self, other: Self) -> Self
        ensures { of result ≡ sum.op (of self) (of other) };

    fn scale(self, by: G::Scalar) -> Self
        ensures { of result ≡ scaled sum (G.Group.scalar_of by) (of self) };

    fn code_width() -> usize
        requires { width < 2 ^ 64 }
        ensures { result ≡ width };

    fn read(codes: &[u8], at: usize) -> Result<Self, GroupFault>
        requires { at + width ≤ length codes.now }
        ensures { Reads (refusal codes.now at) of (decoded codes.now at) result };

    // Reads a code that is known to be none that the group refuses: no test is made.
    fn known(codes: &[u8], at: usize) -> Self
        requires within { at + width ≤ length codes.now }
        requires taken { refusal codes.now at ≡ None }
        ensures { of result ≡ decoded codes.now at };

    fn write(self, out: &mut [u8], at: usize)
        requires { at + width ≤ length out.old }
        ensures { out.new ≡ paste out.old at (encoded (of self)) width };

    // Scalars count modulo q.
    ghost exponent: { Exponent G.Group.meaning.q member sum };
}
