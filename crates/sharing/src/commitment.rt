// Pedersen commitments to shares, and the equation that a share is tested by.
ghost use Rattle.std.specs.Prelude.{◌≡◌};
ghost use Rattle.sharing.specs.Commitment.{commitment};

use crate::pair::Pair;
use crate::scalar::Scalar;
use group::group::Group;
use group::powers::power_of;

// A share (s, s').
pub type Share<G> = Pair<Scalar<G, <G as Group>::Scalar>, Scalar<G, <G as Group>::Scalar>>;

// g^s·h^s'.
pub fn commit<G: Group>(share: Share<G>) -> G::Element
    ensures { G.number_of result ≡ commitment G.meaning (G.scalar_of share.left.value, G.scalar_of share.right.value) }
{
    let blinded = power_of::<G>(G::h(), share.right.value);
    G::product(power_of::<G>(G::g(), share.left.value), blinded)
}
