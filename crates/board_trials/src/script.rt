// A script: records with what the ceremony answers to each, and what can be read off it in between.
ghost use Rattle.std.specs.Prelude.{◌≡◌};

use super::record::Record;
use board::ceremony::Ceremony;
use group::codes::write_element;
use group::group::Group;
use group::powers::power_of;
use protocol::fault::CeremonyFault;
use protocol::phase::Phase;
use protocol::report::{Layer, Report};
use protocol::row::SeatRow;
use protocol::state::SeatState;
use readings::key::write_key;
use readings::reveals::revealed_share;
use readings::seats::seat_list;
use sharing::commitment::Share;
use std::process::Abort;
use std::test::Fail;

#[derive(Clone, Copy)]
pub(super) enum Step {
    // Taken, with so many equations tested.
    Taken(Record, u8),
    // Refused with a number, at a place, for a reason: as numbers, which a test by the fault's name would not see.
    Refused(Record, u8, usize, u8),
    Phase(Phase),
    Seats(&'static [(SeatState, u8)]),
    // The share that is revealed of a dealer.
    Share(u8, u32, u32),
    // The logarithm of the key, and the bytes of its code.
    Key(u32),
    Code([u8; 4]),
    // No key, no seat list, and no seat list in two rows.
    NoKey,
    NoSeats,
    FewRows,
}

// From the number alone, as the documents have it, to compare with the layer that is told.
fn layer_of(number: u8) -> Layer {
    match number {
        1..=3 => Layer::Frame,
        9 => Layer::Group,
        14 | 15 => Layer::Custodian,
        _ => Layer::Ceremony,
    }
}

pub(super) fn check_refused<T: Drop>(
    rt: &impl Abort,
    answer: Result<T, CeremonyFault>,
    number: u8,
    place: usize,
    reason: u8,
) -> Result<(), Fail> {
    let Err(fault) = answer else {
        return Err(Fail::new("taken"));
    };
    let layer = layer_of(number);
    assert_eq!(rt;
        fault.report(),
        Report {
            number,
            layer,
            place,
            reason,
        }
    );
    Ok(())
}

// Hands a record to the opening call or to the posting call.
fn hand<G: Group>(ceremony: &mut Ceremony<'_, G>, record: Record) -> Result<u8, CeremonyFault>
    ensures { ceremony.new.area.ghost_name ≡ ceremony.old.area.ghost_name }
{
    let bytes = record.bytes::<G>();
    match record {
        Record::Opening(_, _) | Record::Start(_) => ceremony.open(bytes.as_slice()).map(|()| 0),
        _ => ceremony.post(bytes.as_slice()),
    }
}

// What stands in a row before the seat list is written.
const UNWRITTEN: SeatRow = SeatRow {
    state: SeatState::Out,
    complaints: 77,
};

// The seat list has these rows; the rows behind them stay.
fn check_seats<G: Group>(
    rt: &impl Abort,
    ceremony: &Ceremony<'_, G>,
    seats: &[(SeatState, u8)],
) -> Result<(), Fail> {
    let mut rows = [UNWRITTEN; 8];
    seat_list(ceremony, &mut rows)?;
    let mut expected = [UNWRITTEN; 8];
    for (row, (state, complaints)) in expected.iter_mut().zip(seats.iter().copied()) {
        *row = SeatRow { state, complaints };
    }
    assert_eq!(rt; rows, expected);
    Ok(())
}

// Refused for two rows, and they stay.
fn check_no_seats<G: Group>(
    rt: &impl Abort,
    ceremony: &Ceremony<'_, G>,
    number: u8,
) -> Result<(), Fail> {
    let mut rows = [UNWRITTEN; 2];
    check_refused(rt, seat_list(ceremony, &mut rows), number, 0, 0)?;
    assert_eq!(rt; rows, [UNWRITTEN; 2]);
    Ok(())
}

// The bytes behind the key's code stay.
fn check_code<G: Group>(
    rt: &impl Abort,
    ceremony: &Ceremony<'_, G>,
    code: [u8; 4],
) -> Result<(), Fail> {
    let mut out = [0xFF; 4];
    check_refused(rt, write_key(ceremony, &mut out[..1]), 14, 0, 0)?;
    assert_eq!(rt; out, [0xFF; 4]);
    assert_eq!(rt; write_key(ceremony, &mut out)?, G::W);
    assert_eq!(rt; out, code);
    Ok(())
}

fn check_key<G: Group>(rt: &impl Abort, ceremony: &Ceremony<'_, G>, log: u32) -> Result<(), Fail> {
    let mut code = [0xFF; 4];
    write_element::<G>(power_of::<G>(G::g(), G::reduced(log)), &mut code, 0);
    check_code(rt, ceremony, code)
}

// Refused, and the output stays.
fn check_no_key<G: Group>(rt: &impl Abort, ceremony: &Ceremony<'_, G>) -> Result<(), Fail> {
    let mut out = [0xFF; 4];
    check_refused(rt, write_key(ceremony, &mut out), 4, 0, 0)?;
    assert_eq!(rt; out, [0xFF; 4]);
    Ok(())
}

fn numbers_of<G: Group>(share: Share<G>) -> (u32, u32) {
    (
        G::scalar_number(share.left.value),
        G::scalar_number(share.right.value),
    )
}

fn check_share<G: Group>(
    rt: &impl Abort,
    ceremony: &Ceremony<'_, G>,
    dealer: u8,
    share: (u32, u32),
) -> Result<(), Fail> {
    let revealed = numbers_of::<G>(revealed_share(ceremony, dealer));
    assert_eq!(rt; revealed, share);
    Ok(())
}

// A script is data, so a step is matched where it is played.
fn take_step<G: Group>(
    rt: &impl Abort,
    ceremony: &mut Ceremony<'_, G>,
    step: Step,
) -> Result<(), Fail>
    ensures { ceremony.new.area.ghost_name ≡ ceremony.old.area.ghost_name }
{
    match step {
        Step::Taken(record, equations) => {
            assert_eq!(rt; hand(ceremony, record)?, equations);
            Ok(())
        }
        Step::Refused(record, number, place, reason) => {
            check_refused(rt, hand(ceremony, record), number, place, reason)
        }
        Step::Phase(phase) => {
            assert_eq!(rt; ceremony.phase(), phase);
            Ok(())
        },
        Step::Seats(seats) => check_seats(rt, ceremony, seats),
        Step::Share(dealer, s, blinding) => check_share(rt, ceremony, dealer, (s, blinding)),
        Step::Key(log) => check_key(rt, ceremony, log),
        Step::Code(code) => check_code(rt, ceremony, code),
        Step::NoKey => check_no_key(rt, ceremony),
        Step::NoSeats => check_no_seats(rt, ceremony, 4),
        Step::FewRows => check_no_seats(rt, ceremony, 14),
    }
}

pub(super) fn play<G: Group>(
    rt: &impl Abort,
    ceremony: &mut Ceremony<'_, G>,
    script: &[Step],
) -> Result<(), Fail>
    ensures { ceremony.new.area.ghost_name ≡ ceremony.old.area.ghost_name }
{
    for step in script {
        take_step(rt, ceremony, *step)?;
    }
    Ok(())
}

// Plays a script in two parts from the beginning, over an area of bytes.
pub(super) fn play_over<G: Group>(
    rt: &impl Abort,
    area: &mut [u8],
    first: &[Step],
    rest: &[Step],
) -> Result<(), Fail> {
    let mut ceremony = Ceremony::<G>::new(area);
    play(rt, &mut ceremony, first)?;
    play(rt, &mut ceremony, rest)
}

// Plays a script in two parts, over an area with room for six seats.
pub(super) fn play_in<G: Group>(
    rt: &impl Abort,
    first: &[Step],
    rest: &[Step],
) -> Result<(), Fail> {
    play_over::<G>(rt, &mut [0; 1518], first, rest)
}
