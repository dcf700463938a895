// Refusals in each phase of a ceremony, and which test decides where two apply.
use super::record::Record;
use super::script::{Step, play_in};
use binary_polynomials::BinaryPolynomials;
use protocol::phase::Phase;
use protocol::state::SeatState;
use residues::Residues;
use std::test::Fail;

// No scalar of either group.
const WRONG: u32 = 0xFFFFFF;

// Seat 1 will be contested by Objections, seat 4 for want of an Exposure; seat 3 is absent, and seat 5 will be out.
const DEALING: &[Step] = &[
    Step::Taken(Record::Opening(5, 1), 0),
    Step::Refused(Record::Complaint(0, 9), 4, 2, 0),
    Step::Refused(Record::Answer(0, 9, WRONG, WRONG), 4, 2, 0),
    Step::Refused(Record::ExposureCodes(9, 0, 0), 4, 2, 0),
    Step::Refused(Record::Objection(0, 9, WRONG, WRONG), 4, 2, 0),
    Step::Refused(Record::Reveal(0, 9, WRONG, WRONG), 4, 2, 0),
    Step::Refused(Record::Close(0), 4, 4, 0),
    Step::Refused(Record::Close(2), 4, 4, 0),
    Step::Refused(Record::Close(8), 4, 4, 0),
    Step::Refused(Record::Deal(0, (2, 1), (1, 0)), 5, 4, 0),
    Step::Refused(Record::Deal(6, (2, 1), (1, 0)), 5, 4, 0),
    Step::Refused(Record::DealCodes(255, 0, 0), 5, 4, 0),
    Step::Refused(Record::DealCodes(1, 0, 0), 9, 5, 1),
    Step::Taken(Record::Deal(1, (2, 1), (1, 0)), 0),
    Step::Refused(Record::Deal(1, (2, 1), (1, 0)), 8, 4, 0),
    Step::Refused(Record::DealCodes(1, 0, 0), 8, 4, 0),
    Step::Taken(Record::Deal(5, (3, 0), (2, 1)), 0),
    Step::Taken(Record::Deal(4, (1, 2), (2, 0)), 0),
    Step::Taken(Record::Deal(2, (3, 0), (2, 1)), 0),
    Step::Taken(Record::Close(1), 0),
    Step::Phase(Phase::Complaining),
    Step::Refused(Record::Deal(3, (2, 1), (1, 0)), 4, 2, 0),
    Step::Refused(Record::Close(1), 4, 4, 0),
    Step::Refused(Record::Complaint(0, 1), 5, 4, 0),
    Step::Refused(Record::Complaint(6, 6), 5, 4, 0),
    Step::Refused(Record::Complaint(1, 0), 5, 5, 0),
    Step::Refused(Record::Complaint(1, 6), 5, 5, 0),
    Step::Refused(Record::Complaint(1, 1), 6, 5, 0),
    Step::Refused(Record::Complaint(3, 3), 6, 5, 0),
    Step::Refused(Record::Complaint(1, 3), 7, 5, 0),
    Step::Taken(Record::Complaint(3, 1), 0),
    Step::Refused(Record::Complaint(3, 1), 8, 4, 0),
    Step::Taken(Record::Complaint(1, 5), 0),
    Step::Taken(Record::Close(2), 0),
    Step::Phase(Phase::Answering),
    Step::Refused(Record::Complaint(2, 1), 4, 2, 0),
    Step::Refused(Record::Answer(0, 3, 5, 1), 5, 4, 0),
    Step::Refused(Record::Answer(6, 0, WRONG, 1), 5, 4, 0),
    Step::Refused(Record::Answer(1, 0, 5, 1), 5, 5, 0),
    Step::Refused(Record::Answer(1, 6, WRONG, 1), 5, 5, 0),
    Step::Refused(Record::Answer(1, 1, WRONG, 1), 6, 5, 0),
    Step::Refused(Record::Answer(1, 2, WRONG, 1), 7, 5, 0),
    Step::Refused(Record::Answer(3, 1, 5, 1), 7, 5, 0),
    Step::Refused(Record::Answer(2, 3, 5, 1), 7, 5, 0),
    Step::Refused(Record::Answer(1, 3, WRONG, WRONG), 9, 6, 1),
    Step::Taken(Record::Answer(1, 3, 5, 1), 1),
    Step::Refused(Record::Answer(1, 3, WRONG, 1), 8, 4, 0),
    Step::Taken(Record::Answer(5, 1, 6, 1), 1),
    Step::Refused(Record::Answer(5, 1, 5, 1), 8, 4, 0),
    Step::Refused(Record::Close(2), 4, 4, 0),
    Step::Taken(Record::Close(3), 0),
];

// The Exposure of seat 1 is false.
const EXPOSING: &[Step] = &[
    Step::Phase(Phase::Exposing),
    Step::Refused(Record::Answer(1, 3, 5, 1), 4, 2, 0),
    Step::Refused(Record::Exposure(0, 2, 1), 5, 4, 0),
    Step::Refused(Record::ExposureCodes(6, 0, 0), 5, 4, 0),
    Step::Refused(Record::ExposureCodes(3, 0, 0), 7, 4, 0),
    Step::Refused(Record::Exposure(5, 3, 2), 7, 4, 0),
    Step::Refused(Record::ExposureCodes(1, 0, 0), 9, 5, 1),
    Step::Taken(Record::Exposure(1, 2, 2), 0),
    Step::Refused(Record::ExposureCodes(1, 0, 0), 8, 4, 0),
    Step::Taken(Record::Exposure(2, 3, 2), 0),
    Step::Taken(Record::Close(4), 0),
    Step::Phase(Phase::Objecting),
    Step::Refused(Record::Exposure(4, 1, 2), 4, 2, 0),
    Step::Refused(Record::Objection(0, 0, 5, 1), 5, 4, 0),
    Step::Refused(Record::Objection(6, 1, WRONG, 1), 5, 4, 0),
    Step::Refused(Record::Objection(1, 0, 5, 1), 5, 5, 0),
    Step::Refused(Record::Objection(1, 6, WRONG, 1), 5, 5, 0),
    Step::Refused(Record::Objection(3, 3, WRONG, 1), 6, 5, 0),
    Step::Refused(Record::Objection(1, 3, WRONG, 1), 7, 5, 0),
    Step::Refused(Record::Objection(1, 5, WRONG, 1), 7, 5, 0),
    Step::Refused(Record::Objection(1, 4, 3, 2), 7, 5, 0),
    Step::Refused(Record::Objection(2, 1, WRONG, WRONG), 9, 6, 1),
    Step::Refused(Record::Objection(2, 1, 5, 1), 10, 6, 1),
    Step::Refused(Record::Objection(2, 1, 6, 1), 10, 6, 1),
    Step::Refused(Record::Objection(1, 2, 5, 1), 10, 6, 2),
    Step::Taken(Record::Objection(3, 1, 5, 1), 2),
    Step::Refused(Record::Objection(3, 1, WRONG, 1), 8, 4, 0),
    Step::Taken(Record::Objection(5, 1, 7, 1), 2),
    Step::Refused(Record::Close(4), 4, 4, 0),
    Step::Seats(&[
        (SeatState::Contested, 1),
        (SeatState::Qualified, 0),
        (SeatState::Absent, 0),
        (SeatState::Qualified, 0),
        (SeatState::Out, 1),
    ]),
    Step::Taken(Record::Close(5), 0),
    Step::Phase(Phase::Revealing),
    Step::Refused(Record::Objection(4, 1, 6, 1), 4, 2, 0),
    Step::Refused(Record::Reveal(6, 6, WRONG, 1), 5, 4, 0),
    Step::Refused(Record::Reveal(1, 0, WRONG, 1), 5, 5, 0),
    Step::Refused(Record::Reveal(1, 2, WRONG, 1), 7, 5, 0),
    Step::Refused(Record::Reveal(3, 3, 5, 1), 7, 5, 0),
    Step::Refused(Record::Reveal(1, 5, 5, 1), 7, 5, 0),
    Step::Refused(Record::Reveal(2, 1, WRONG, WRONG), 9, 6, 1),
    Step::Refused(Record::Reveal(2, 1, 5, 1), 10, 6, 1),
    Step::Refused(Record::Close(5), 4, 4, 0),
    Step::Refused(Record::Close(6), 11, 4, 0),
    Step::Taken(Record::Reveal(1, 1, 3, 1), 1),
    Step::Refused(Record::Reveal(1, 1, WRONG, 1), 8, 4, 0),
    Step::Refused(Record::Close(6), 11, 4, 0),
    Step::Taken(Record::Reveal(3, 1, 5, 1), 1),
    Step::Refused(Record::Close(6), 11, 4, 0),
    Step::Taken(Record::Reveal(5, 4, 11, 2), 1),
    Step::Taken(Record::Reveal(4, 4, 9, 2), 1),
    Step::Taken(Record::Reveal(2, 4, 5, 2), 1),
    Step::Share(1, 2, 1),
    Step::Share(4, 1, 2),
    Step::NoKey,
    Step::Taken(Record::Close(6), 0),
    Step::Phase(Phase::Finished),
    Step::FewRows,
    Step::Key(6),
    Step::Seats(&[
        (SeatState::Contested, 1),
        (SeatState::Qualified, 0),
        (SeatState::Absent, 0),
        (SeatState::Contested, 0),
        (SeatState::Out, 1),
    ]),
    Step::Refused(Record::Opening(5, 1), 4, 2, 0),
    Step::Refused(Record::Close(6), 4, 2, 0),
    Step::Refused(Record::Close(7), 4, 2, 0),
    Step::Refused(Record::Deal(3, (2, 1), (1, 0)), 4, 2, 0),
    Step::Refused(Record::Reveal(0, 9, WRONG, 1), 4, 2, 0),
    Step::Refused(Record::Bytes(&[2, 0, 8, 0]), 3, 0, 0),
    Step::Refused(Record::Bytes(&[]), 1, 0, 0),
];

#[test]
fn residues_refused(rt: HostRuntime) -> Result<(), Fail> {
    play_in::<Residues>(&rt, DEALING, EXPOSING)
}

#[test]
fn polynomials_refused(rt: HostRuntime) -> Result<(), Fail> {
    play_in::<BinaryPolynomials>(&rt, DEALING, EXPOSING)
}
