// The states of the seats, and the seat list.
ghost use Rattle.std.specs.Prelude.{◌≡◌, length, nat_lt};
ghost use Rattle.protocol.specs.Board.{starts};
ghost use Rattle.protocol.specs.Readings.{state_of as seat_state, row_of as seat_row, seat_list_fault};
ghost use Rattle.board.specs.State.{board};
ghost use Rattle.board.specs.Posting.{answer_of};
ghost use Rattle.readings.specs.Outputs.{after_seat_list};

use board::ceremony::Ceremony;
use group::group::Group;
use protocol::fault::CeremonyFault;
use protocol::kind::Kind;
use protocol::phase::Phase;
use protocol::row::SeatRow;
use protocol::state::SeatState;

// Whether Close 3 is still to come.
fn are_answers_open<G: Group>(ceremony: &Ceremony<'_, G>) -> bool
    ensures { result ≡ nat_lt (starts (board ceremony.now).taken) 4 }
{
    matches!(
        ceremony.phase(),
        Phase::Unopened | Phase::Dealing | Phase::Complaining | Phase::Answering
    )
}

// The state of a seat; absent where there is no such seat.
#[tactic(auto, unfolding(protocol::specs::Readings::state_of))]
pub fn state_of<G: Group>(ceremony: &Ceremony<'_, G>, seat: u8) -> SeatState
    ensures { result ≡ seat_state G.meaning (board ceremony.now) seat }
{
    if !ceremony.has(Kind::Deal, seat, 0) {
        return SeatState::Absent;
    }
    if are_answers_open(ceremony) {
        return SeatState::Dealt;
    }
    if ceremony.is_contested(seat) {
        return SeatState::Contested;
    }
    if ceremony.is_qualified(seat) {
        return SeatState::Qualified;
    }
    SeatState::Out
}

// The row of a seat.
fn row_of<G: Group>(ceremony: &Ceremony<'_, G>, seat: u8) -> SeatRow
    ensures { result ≡ seat_row G.meaning (board ceremony.now) seat }
{
    SeatRow {
        state: state_of(ceremony, seat),
        complaints: ceremony.count_naming(Kind::Complaint, seat),
    }
}

// Writes the rows of all seats, that of seat 1 first. Rows behind them stay.
#[tactic(auto, unfolding(protocol::specs::Readings::seat_list_fault, protocol::specs::Refusals::first_fault))]
pub fn seat_list<G: Group>(
    ceremony: &Ceremony<'_, G>,
    rows: &mut [SeatRow],
) -> Result<(), CeremonyFault>
    ensures answer { result ≡ answer_of (seat_list_fault G.meaning (board ceremony.now) (length rows.old)) tt }
    ensures rows { rows.new ≡ after_seat_list G.meaning (board ceremony.now) rows.old }
{
    if ceremony.phase() == Phase::Unopened {
        return Err(CeremonyFault::OutOfPhase { place: 0 });
    }
    let n = ceremony.n();
    if rows.len() < n as usize {
        return Err(CeremonyFault::SmallOutput);
    }
    // By index, as rows in a lent slice are written here; the row k is that of seat k + 1.
    for k in 0..n {
        rows[k as usize] = row_of(ceremony, k + 1);
    }
    Ok(())
}
