// Refusals before a ceremony is opened, of Openings, and of bytes that are no record.
use super::record::Record;
use super::script::{Step, play_in};
use binary_polynomials::BinaryPolynomials;
use protocol::phase::Phase;
use residues::Residues;
use std::test::Fail;

// Every posting is refused in the same way, whatever its bytes.
const UNOPENED: &[Step] = &[
    Step::Refused(Record::Bytes(&[]), 4, 0, 0),
    Step::Refused(Record::Bytes(&[255]), 4, 0, 0),
    Step::Refused(Record::Bytes(&[2, 0, 99, 0]), 4, 0, 0),
    Step::Refused(Record::Bytes(&[9, 0, 8, 0, 1]), 4, 0, 0),
    Step::Refused(Record::Deal(1, (2, 1), (1, 0)), 4, 0, 0),
    Step::Refused(Record::Complaint(0, 0), 4, 0, 0),
    Step::Refused(Record::Close(1), 4, 0, 0),
    Step::Refused(Record::Close(0), 4, 0, 0),
    Step::NoSeats,
    Step::NoKey,
    Step::Phase(Phase::Unopened),
];

// Of an area that is too small for 32 seats.
const OPENINGS: &[Step] = &[
    Step::Refused(Record::Start(&[]), 1, 0, 0),
    Step::Refused(Record::Start(&[1, 0, 1]), 1, 0, 0),
    Step::Refused(Record::Start(&[1, 0, 1, 0]), 1, 0, 0),
    Step::Refused(Record::Start(&[22, 0, 1, 0]), 1, 0, 0),
    Step::Refused(Record::Start(&[9, 0, 8, 0, 1]), 1, 0, 0),
    Step::Refused(Record::Start(&[3, 0, 8, 0, 1]), 2, 2, 0),
    Step::Refused(Record::Start(&[2, 0, 1, 1]), 2, 2, 0),
    Step::Refused(Record::Start(&[2, 0, 16, 0]), 2, 2, 0),
    Step::Refused(Record::Start(&[2, 0, 1, 0]), 3, 0, 0),
    Step::Refused(Record::Start(&[6, 0, 1, 0, 9, 9, 0, 9]), 3, 0, 0),
    Step::Refused(
        Record::Start(&[
            22, 0, 1, 0, 3, 0, 0, 9, 0, 0, 0, 0, 0, 0, 0, 0, 0, 0, 0, 0, 0, 0, 0, 0,
        ]),
        12,
        4,
        0,
    ),
    Step::Refused(
        Record::Start(&[
            22, 0, 1, 0, 1, 1, 3, 1, 0, 0, 0, 0, 0, 0, 0, 0, 0, 0, 0, 0, 0, 0, 0, 0,
        ]),
        12,
        4,
        0,
    ),
    Step::Refused(Record::Opening(0, 0), 12, 6, 0),
    Step::Refused(Record::Opening(33, 1), 12, 6, 0),
    Step::Refused(Record::Opening(33, 200), 12, 6, 0),
    Step::Refused(Record::Opening(255, 0), 12, 6, 0),
    Step::Refused(Record::Opening(1, 1), 12, 7, 0),
    Step::Refused(Record::Opening(2, 1), 12, 7, 0),
    Step::Refused(Record::Opening(3, 255), 12, 7, 0),
    Step::Refused(Record::Opening(32, 16), 12, 7, 0),
    Step::Refused(Record::Opening(32, 15), 13, 0, 0),
    Step::Phase(Phase::Unopened),
    Step::Taken(Record::Opening(3, 1), 0),
    Step::Refused(Record::Opening(3, 1), 4, 2, 0),
    Step::Refused(Record::Opening(33, 1), 4, 2, 0),
    Step::Refused(Record::Opening(32, 15), 4, 2, 0),
    Step::Refused(Record::Start(&[2, 0, 1, 0]), 3, 0, 0),
    Step::Refused(Record::Start(&[3, 0, 8, 0, 1]), 2, 2, 0),
    Step::Refused(Record::Start(&[]), 1, 0, 0),
    Step::Phase(Phase::Dealing),
];

// Also lengths that are wrong in both groups, of kinds that are out of phase.
const NO_RECORDS: &[Step] = &[
    Step::Taken(Record::Opening(3, 1), 0),
    Step::Refused(Record::Bytes(&[]), 1, 0, 0),
    Step::Refused(Record::Bytes(&[1, 0, 2]), 1, 0, 0),
    Step::Refused(Record::Bytes(&[1, 0, 2, 0]), 1, 0, 0),
    Step::Refused(Record::Bytes(&[0, 0, 8, 0]), 1, 0, 0),
    Step::Refused(Record::Bytes(&[4, 0, 3, 0, 1]), 1, 0, 0),
    Step::Refused(Record::Bytes(&[4, 0, 3, 0, 1, 2, 0]), 1, 0, 0),
    Step::Refused(Record::Bytes(&[4, 1, 3, 0, 1, 2]), 1, 0, 0),
    Step::Refused(Record::Bytes(&[9, 0, 99, 0]), 1, 0, 0),
    Step::Refused(Record::Bytes(&[2, 0, 0, 0]), 2, 2, 0),
    Step::Refused(Record::Bytes(&[2, 0, 1, 0]), 2, 2, 0),
    Step::Refused(Record::Bytes(&[2, 0, 9, 0]), 2, 2, 0),
    Step::Refused(Record::Bytes(&[2, 0, 16, 0]), 2, 2, 0),
    Step::Refused(Record::Bytes(&[2, 0, 17, 0]), 2, 2, 0),
    Step::Refused(Record::Bytes(&[3, 0, 8, 1, 1]), 2, 2, 0),
    Step::Refused(
        Record::Bytes(&[
            22, 0, 1, 0, 1, 0, 3, 1, 0, 0, 0, 0, 0, 0, 0, 0, 0, 0, 0, 0, 0, 0, 0, 0,
        ]),
        2,
        2,
        0,
    ),
    Step::Refused(Record::Bytes(&[2, 0, 2, 0]), 3, 0, 0),
    Step::Refused(Record::Bytes(&[8, 0, 2, 0, 1, 4, 0, 4, 0, 0]), 3, 0, 0),
    Step::Refused(Record::Bytes(&[3, 0, 3, 0, 1]), 3, 0, 0),
    Step::Refused(Record::Bytes(&[5, 0, 3, 0, 1, 2, 0]), 3, 0, 0),
    Step::Refused(Record::Bytes(&[9, 0, 4, 0, 1, 2, 0, 0, 0, 0, 0]), 3, 0, 0),
    Step::Refused(Record::Bytes(&[8, 0, 5, 0, 1, 4, 0, 4, 0, 0]), 3, 0, 0),
    Step::Refused(Record::Bytes(&[9, 0, 6, 0, 1, 2, 0, 0, 0, 0, 0]), 3, 0, 0),
    Step::Refused(Record::Bytes(&[9, 0, 7, 0, 1, 2, 0, 0, 0, 0, 0]), 3, 0, 0),
    Step::Refused(Record::Bytes(&[2, 0, 8, 0]), 3, 0, 0),
    Step::Refused(Record::Bytes(&[4, 0, 8, 0, 1, 0]), 3, 0, 0),
    Step::Phase(Phase::Dealing),
];

#[test]
fn openings_refused(rt: HostRuntime) -> Result<(), Fail> {
    play_in::<Residues>(&rt, UNOPENED, OPENINGS)?;
    play_in::<BinaryPolynomials>(&rt, UNOPENED, OPENINGS)
}

#[test]
fn frames_refused(rt: HostRuntime) -> Result<(), Fail> {
    play_in::<Residues>(&rt, NO_RECORDS, &[])?;
    play_in::<BinaryPolynomials>(&rt, NO_RECORDS, &[])
}
