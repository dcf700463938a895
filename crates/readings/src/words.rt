// The words for the states of a seat.
ghost use Rattle.std.specs.Prelude.{◌≡◌, length};
ghost use Rattle.protocol.specs.Readings.{word_of, word_fault};
ghost use Rattle.board.specs.Posting.{answer_of};
ghost use Rattle.readings.specs.Outputs.{after_word};

use protocol::fault::CeremonyFault;
use protocol::state::SeatState;

pub fn word(state: SeatState) -> &'static [u8]
    ensures { result.now ≡ word_of state }
{
    state.word().as_bytes()
}

// Writes the word of a state at the start of an output, and tells its length.
#[tactic(auto, unfolding(protocol::specs::Readings::word_fault))]
pub fn write_word(state: SeatState, out: &mut [u8]) -> Result<usize, CeremonyFault>
    ensures answer { result ≡ answer_of (word_fault state (length out.old)) (length (word_of state)) }
    ensures output { out.new ≡ after_word state out.old }
{
    let text = word(state);
    let size = text.len();
    if out.len() < size {
        return Err(CeremonyFault::SmallOutput);
    }
    out[..size].copy_from_slice(text);
    Ok(size)
}
