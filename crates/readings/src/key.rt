// The key of a finished ceremony, and its code.
ghost use Rattle.std.specs.Prelude.{◌≡◌, length};
ghost use Rattle.protocol.specs.Board.{exposure_of, first_or, key_part, key};
ghost use Rattle.protocol.specs.Readings.{key_fault};
ghost use Rattle.board.specs.State.{board};
ghost use Rattle.board.specs.Posting.{answer_of};
ghost use Rattle.readings.specs.Outputs.{after_key};

use crate::reveals::revealed_share;
use board::ceremony::Ceremony;
use group::codes::write_element;
use group::group::Group;
use group::powers::power_of;
use protocol::fault::CeremonyFault;
use protocol::phase::Phase;

// A_0 of a dealer, the unit where it has no Exposure.
fn first_of<G: Group>(ceremony: &Ceremony<'_, G>, dealer: u8) -> G::Element
    ensures { G.number_of result ≡ first_or G.meaning.unit (exposure_of (board ceremony.now) dealer) }
{
    ceremony.first_exposed(dealer).unwrap_or(G::unit())
}

// A dealer's factor of the key: A_0, or g^z where the dealer is contested.
#[tactic(auto, unfolding(protocol::specs::Board::key_part))]
fn key_part<G: Group>(ceremony: &Ceremony<'_, G>, dealer: u8) -> G::Element
    ensures { G.number_of result ≡ key_part G.meaning (board ceremony.now) dealer }
{
    if ceremony.is_contested(dealer) {
        let share = revealed_share(ceremony, dealer);
        return power_of::<G>(G::g(), share.left.value);
    }
    first_of(ceremony, dealer)
}

// The product over the qualified dealers. It is the key once the ceremony is finished.
pub fn key_of<G: Group>(ceremony: &Ceremony<'_, G>) -> G::Element
    ensures { G.number_of result ≡ key G.meaning (board ceremony.now) }
{
    (1..ceremony.n() + 1)
        .rev()
        .filter(|i| ceremony.is_qualified(*i))
        .fold(
            G::unit(),
            |product, i| G::product(key_part(ceremony, i), product),
        )
}

// Writes the key's code at the start of an output, and tells its length.
#[tactic(auto, unfolding(protocol::specs::Readings::key_fault, protocol::specs::Refusals::first_fault))]
pub fn write_key<G: Group>(
    ceremony: &Ceremony<'_, G>,
    out: &mut [u8],
) -> Result<usize, CeremonyFault>
    ensures answer { result ≡ answer_of (key_fault G.meaning (board ceremony.now) (length out.old)) G.meaning.w }
    ensures output { out.new ≡ after_key G.meaning (board ceremony.now) out.old }
{
    if ceremony.phase() != Phase::Finished {
        return Err(CeremonyFault::OutOfPhase { place: 0 });
    }
    let width = G::W;
    if out.len() < width {
        return Err(CeremonyFault::SmallOutput);
    }
    write_element::<G>(key_of(ceremony), out, 0);
    Ok(width)
}
