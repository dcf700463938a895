// Who is qualified at Close 3, the seat list in each phase, and the words.
use super::record::Record;
use super::script::{Step, check_refused, play_in};
use binary_polynomials::BinaryPolynomials;
use protocol::phase::Phase;
use protocol::state::SeatState;
use readings::words::write_word;
use residues::Residues;
use std::process::Abort;
use std::test::Fail;

// Seat 1 has t complaints and seat 2 has t + 1, all truly answered; seat 3 does not answer, seat 4 answers falsely.
const JUDGED: &[Step] = &[
    Step::Taken(Record::Opening(6, 1), 0),
    Step::Taken(Record::Deal(1, (2, 1), (1, 0)), 0),
    Step::Taken(Record::Deal(2, (3, 0), (2, 1)), 0),
    Step::Taken(Record::Deal(3, (1, 2), (2, 0)), 0),
    Step::Seats(&[
        (SeatState::Dealt, 0),
        (SeatState::Dealt, 0),
        (SeatState::Dealt, 0),
        (SeatState::Absent, 0),
        (SeatState::Absent, 0),
        (SeatState::Absent, 0),
    ]),
    Step::Taken(Record::Deal(4, (1, 2), (2, 0)), 0),
    Step::Taken(Record::Deal(5, (1, 2), (2, 0)), 0),
    Step::Taken(Record::Close(1), 0),
    Step::Taken(Record::Complaint(2, 1), 0),
    Step::Taken(Record::Complaint(1, 2), 0),
    Step::Taken(Record::Complaint(3, 2), 0),
    Step::Taken(Record::Complaint(1, 3), 0),
    Step::Taken(Record::Complaint(6, 4), 0),
    Step::Taken(Record::Close(2), 0),
    Step::Taken(Record::Answer(1, 2, 4, 1), 1),
    Step::Taken(Record::Answer(2, 1, 5, 1), 1),
    Step::Taken(Record::Answer(2, 3, 9, 3), 1),
    Step::Taken(Record::Answer(4, 6, 13, 3), 1),
    Step::Seats(&[
        (SeatState::Dealt, 1),
        (SeatState::Dealt, 2),
        (SeatState::Dealt, 1),
        (SeatState::Dealt, 1),
        (SeatState::Dealt, 0),
        (SeatState::Absent, 0),
    ]),
    Step::Taken(Record::Close(3), 0),
    Step::Phase(Phase::Exposing),
    Step::Seats(&[
        (SeatState::Qualified, 1),
        (SeatState::Out, 2),
        (SeatState::Out, 1),
        (SeatState::Out, 1),
        (SeatState::Qualified, 0),
        (SeatState::Absent, 0),
    ]),
    Step::Taken(Record::Exposure(1, 2, 1), 0),
    Step::Refused(Record::Exposure(2, 3, 2), 7, 4, 0),
    Step::Taken(Record::Close(4), 0),
    Step::Taken(Record::Close(5), 0),
    Step::Seats(&[
        (SeatState::Qualified, 1),
        (SeatState::Out, 2),
        (SeatState::Out, 1),
        (SeatState::Out, 1),
        (SeatState::Contested, 0),
        (SeatState::Absent, 0),
    ]),
    Step::Taken(Record::Reveal(6, 5, 13, 2), 1),
    Step::Taken(Record::Reveal(2, 5, 5, 2), 1),
    Step::Taken(Record::Close(6), 0),
    Step::Key(3),
];

// Seat 2 has t + 1 complaints, so t dealers are qualified.
const VOID: &[Step] = &[
    Step::Taken(Record::Opening(3, 1), 0),
    Step::Taken(Record::Deal(1, (2, 1), (1, 0)), 0),
    Step::Taken(Record::Deal(2, (3, 0), (2, 1)), 0),
    Step::Taken(Record::Close(1), 0),
    Step::Taken(Record::Complaint(1, 2), 0),
    Step::Taken(Record::Complaint(3, 2), 0),
    Step::Taken(Record::Close(2), 0),
    Step::Taken(Record::Answer(2, 1, 5, 1), 1),
    Step::Taken(Record::Answer(2, 3, 9, 3), 1),
    Step::Taken(Record::Close(3), 0),
    Step::Phase(Phase::Void),
    Step::NoKey,
    Step::FewRows,
    Step::Seats(&[
        (SeatState::Qualified, 0),
        (SeatState::Out, 2),
        (SeatState::Absent, 0),
    ]),
    Step::Refused(Record::Opening(3, 1), 4, 2, 0),
    Step::Refused(Record::Close(3), 4, 2, 0),
    Step::Refused(Record::Close(4), 4, 2, 0),
    Step::Refused(Record::Close(8), 4, 2, 0),
    Step::Refused(Record::Exposure(1, 2, 1), 4, 2, 0),
    Step::Refused(Record::Complaint(0, 9), 4, 2, 0),
    Step::Refused(Record::Bytes(&[2, 0, 8, 0]), 3, 0, 0),
];

// One complaint less, and the ceremony goes on.
const NOT_VOID: &[Step] = &[
    Step::Taken(Record::Opening(3, 1), 0),
    Step::Taken(Record::Deal(1, (2, 1), (1, 0)), 0),
    Step::Taken(Record::Deal(2, (3, 0), (2, 1)), 0),
    Step::Taken(Record::Close(1), 0),
    Step::Taken(Record::Complaint(3, 2), 0),
    Step::Taken(Record::Close(2), 0),
    Step::Taken(Record::Answer(2, 3, 9, 3), 1),
    Step::Taken(Record::Close(3), 0),
    Step::Phase(Phase::Exposing),
    Step::NoKey,
];

#[test]
fn dealers_judged(rt: HostRuntime) -> Result<(), Fail> {
    play_in::<Residues>(&rt, JUDGED, &[])?;
    play_in::<BinaryPolynomials>(&rt, JUDGED, &[])
}

// The scripts say phases by name; these are the names' numbers.
#[test]
fn phases_numbered(rt: HostRuntime) {
    let phases = [
        Phase::Unopened,
        Phase::Dealing,
        Phase::Complaining,
        Phase::Answering,
        Phase::Exposing,
        Phase::Objecting,
        Phase::Revealing,
        Phase::Finished,
        Phase::Void,
    ];
    for (number, phase) in (0..9).zip(phases) {
        assert_eq!(rt; phase.number(), number);
    }
}

#[test]
fn void_ceremony(rt: HostRuntime) -> Result<(), Fail> {
    play_in::<Residues>(&rt, VOID, &[])?;
    play_in::<BinaryPolynomials>(&rt, VOID, &[])?;
    play_in::<Residues>(&rt, NOT_VOID, &[])
}

// An output with less room than the word stays as it was.
fn check_small(rt: &impl Abort, state: SeatState, out: &mut [u8]) -> Result<(), Fail> {
    check_refused(rt, write_word(state, out), 14, 0, 0)?;
    assert!(rt; out.iter().all(|byte| *byte == 0xFF));
    Ok(())
}

// The bytes behind the word stay.
fn check_word(rt: &impl Abort, state: SeatState, text: &[u8]) -> Result<(), Fail> {
    let mut out = [0xFF; 10];
    assert_eq!(rt; write_word(state, &mut out)?, text.len());
    assert!(rt; out.starts_with(text));
    assert!(rt; out.iter().skip(text.len()).all(|byte| *byte == 0xFF));
    Ok(())
}

#[test]
fn words(rt: HostRuntime) -> Result<(), Fail> {
    check_word(&rt, SeatState::Absent, b"absent")?;
    check_word(&rt, SeatState::Dealt, b"dealt")?;
    check_word(&rt, SeatState::Out, b"out")?;
    check_word(&rt, SeatState::Qualified, b"qualified")?;
    check_word(&rt, SeatState::Contested, b"contested")?;
    write_word(SeatState::Out, &mut [0xFF; 3])?;
    check_small(&rt, SeatState::Absent, &mut [0xFF; 5])?;
    check_small(&rt, SeatState::Dealt, &mut [0xFF; 4])?;
    check_small(&rt, SeatState::Out, &mut [0xFF; 2])?;
    check_small(&rt, SeatState::Qualified, &mut [0xFF; 8])?;
    check_small(&rt, SeatState::Contested, &mut [])
}
