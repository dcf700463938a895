// The test of a share against the commitments of its dealer, both read from bytes.
ghost use Rattle.std.specs.Prelude.{◌≡◌, ◌+◌};
ghost use Rattle.dealing.specs.Dealing.{DealtSharesOpen};
ghost use Rattle.dealing.specs.Refusals.{sides_of};

use crate::fault::DealingFault;
use crate::sides::Sides;
use group::group::Group;
use sharing::commitment::{Share, commit};
use sharing::element::Element;
use sharing::evaluation::evaluate;
use sharing::linear::Linear;

// The share passes where both sides are equal.
pub fn test_share<G: Group>(
    t: u8,
    commitments: &[u8],
    share: &[u8],
    seat: u8,
) -> Result<Sides, DealingFault>
    ensures { result ≡ sides_of G.meaning (t + 1) commitments.now share.now seat }
{
    let count = t as usize + 1;
    if commitments.len() != count * G::W || share.len() != 2 * G::S {
        return Err(DealingFault::Length);
    }
    if seat < 1 || seat > 32 {
        return Err(DealingFault::NoSeat);
    }
    let value = evaluate::<G, Element<G, G::Element>>(commitments, 0, count, seat)?;
    let opening = <Share<G> as Linear<G>>::read(share, 0)?;
    Ok(Sides {
        committed: G::element_number(commit::<G>(opening)),
        value: G::element_number(value.value),
    })
}

// Each share that is drawn up passes: a theorem, which its contract states.
pub fn dealt_shares_open()
    ensures { DealtSharesOpen }
{}
