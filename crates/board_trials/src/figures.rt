// The worked figures: openings, sizes of areas, and a whole ceremony with a contested dealer.
use super::record::Record;
use super::script::{Step, play_over};
use binary_polynomials::BinaryPolynomials;
use board::opening::area_needed;
use protocol::phase::Phase;
use protocol::state::SeatState;
use residues::Residues;
use std::test::Fail;

const OPENING: Record = Record::Start(&[
    22, 0, 1, 0, 1, 0, 3, 1, 0, 0, 0, 0, 0, 0, 0, 0, 0, 0, 0, 0, 0, 0, 0, 0,
]);

// Dealer 3 makes no Exposure.
const UNTIL_REVEALS: &[Step] = &[
    Step::Taken(OPENING, 0),
    Step::Taken(Record::Bytes(&[7, 0, 2, 0, 1, 0x90, 0, 4, 0]), 0),
    Step::Taken(Record::DealCodes(2, 64, 144), 0),
    Step::Taken(Record::DealCodes(3, 324, 16), 0),
    Step::Taken(Record::Close(1), 0),
    Step::Taken(Record::Bytes(&[4, 0, 3, 0, 2, 1]), 0),
    Step::Taken(Record::Close(2), 0),
    Step::Taken(Record::Bytes(&[8, 0, 4, 0, 1, 2, 4, 0, 1, 0]), 1),
    Step::Taken(Record::Bytes(&[3, 0, 8, 0, 3]), 0),
    Step::Taken(Record::Bytes(&[7, 0, 5, 0, 1, 0x10, 0, 4, 0]), 0),
    Step::Taken(Record::ExposureCodes(2, 64, 16), 0),
    Step::Taken(Record::Close(4), 0),
    Step::Taken(Record::Close(5), 0),
    Step::Phase(Phase::Revealing),
    Step::Seats(&[
        (SeatState::Qualified, 1),
        (SeatState::Qualified, 0),
        (SeatState::Contested, 0),
    ]),
    Step::NoKey,
];

const BY_SEAT_1: Record = Record::Bytes(&[8, 0, 7, 0, 1, 3, 3, 0, 2, 0]);

const BY_SEAT_2: Record = Record::Bytes(&[8, 0, 7, 0, 2, 3, 5, 0, 2, 0]);

const FIRST_1: &[Step] = &[
    Step::Taken(BY_SEAT_1, 1),
    Step::Taken(BY_SEAT_2, 1),
    Step::Share(3, 1, 2),
    Step::Taken(Record::Close(6), 0),
    Step::Phase(Phase::Finished),
    Step::Code([0x12, 0, 0xFF, 0xFF]),
    Step::Key(6),
];

const FIRST_2: &[Step] = &[
    Step::Taken(BY_SEAT_2, 1),
    Step::Refused(Record::Close(6), 11, 4, 0),
    Step::Taken(BY_SEAT_1, 1),
    Step::Share(3, 1, 2),
    Step::Taken(Record::Close(6), 0),
    Step::Phase(Phase::Finished),
    Step::Code([0x12, 0, 0xFF, 0xFF]),
];

// One seat, and t = 0: its Deal and its Exposure have one code each.
const ALONE: &[Step] = &[
    Step::Taken(Record::Opening(1, 0), 0),
    Step::Taken(Record::Bytes(&[5, 0, 2, 0, 1, 0x90, 0]), 0),
    Step::Taken(Record::Close(1), 0),
    Step::Taken(Record::Close(2), 0),
    Step::Taken(Record::Close(3), 0),
    Step::Taken(Record::Bytes(&[5, 0, 5, 0, 1, 0x10, 0]), 0),
    Step::Taken(Record::Close(4), 0),
    Step::Taken(Record::Close(5), 0),
    Step::Taken(Record::Close(6), 0),
    Step::Seats(&[(SeatState::Qualified, 0)]),
    Step::Code([0x10, 0, 0xFF, 0xFF]),
];

#[test]
fn sizes(rt: HostRuntime) {
    assert_eq!(rt; area_needed::<Residues>(3, 1), 354);
    assert_eq!(rt; area_needed::<Residues>(1, 0), 78);
    assert_eq!(rt; area_needed::<BinaryPolynomials>(3, 1), 408);
    assert_eq!(rt; area_needed::<Residues>(32, 15), 38454);
    assert_eq!(rt; area_needed::<BinaryPolynomials>(32, 15), 45494);
}

#[test]
fn openings(rt: HostRuntime) -> Result<(), Fail> {
    let small = [
        Step::Refused(OPENING, 13, 0, 0),
        Step::Phase(Phase::Unopened),
    ];
    play_over::<Residues>(&rt, &mut [0; 353], &small, &[])?;
    let equal = [Step::Refused(Record::Opening(2, 1), 12, 7, 0)];
    let many = [Step::Refused(Record::Opening(33, 1), 12, 6, 0)];
    play_over::<Residues>(&rt, &mut [0; 354], &equal, &many)
}

#[test]
fn alone(rt: HostRuntime) -> Result<(), Fail> {
    play_over::<Residues>(&rt, &mut [0; 78], ALONE, &[])
}

#[test]
fn contested_dealer(rt: HostRuntime) -> Result<(), Fail> {
    play_over::<Residues>(&rt, &mut [0; 354], UNTIL_REVEALS, FIRST_1)?;
    play_over::<Residues>(&rt, &mut [0; 354], UNTIL_REVEALS, FIRST_2)
}
