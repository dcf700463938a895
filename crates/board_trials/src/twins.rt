// A refusal changes nothing: two ceremonies are posted the same records, but for those that the first one refuses.
ghost use Rattle.std.specs.Prelude.{◌≡◌};

use super::record::{Record, RecordBytes};
use super::script::{Step, play};
use binary_polynomials::BinaryPolynomials;
use board::ceremony::Ceremony;
use group::group::Group;
use protocol::report::Report;
use protocol::row::SeatRow;
use protocol::state::SeatState;
use readings::seats::seat_list;
use residues::Residues;
use samples::numbers::Numbers;
use std::array;
use std::process::Abort;
use std::test::Fail;

const OPENED: &[Step] = &[Step::Taken(Record::Opening(3, 1), 0)];

// A whole ceremony: dealer 2 is contested by Objections, dealer 3 for want of an Exposure.
const RECORDS: &[Record; 24] = &[
    Record::Deal(1, (2, 1), (1, 0)),
    Record::Deal(2, (3, 0), (2, 1)),
    Record::Deal(3, (1, 2), (2, 0)),
    Record::Close(1),
    Record::Complaint(2, 1),
    Record::Complaint(1, 3),
    Record::Complaint(3, 2),
    Record::Close(2),
    Record::Answer(1, 2, 4, 1),
    Record::Answer(3, 1, 3, 2),
    Record::Answer(2, 3, 9, 3),
    Record::Close(3),
    Record::Exposure(1, 2, 1),
    Record::Exposure(2, 3, 1),
    Record::Close(4),
    Record::Objection(1, 2, 5, 1),
    Record::Objection(3, 2, 9, 3),
    Record::Close(5),
    Record::Reveal(1, 2, 5, 1),
    Record::Reveal(3, 2, 9, 3),
    Record::Reveal(2, 3, 5, 2),
    Record::Reveal(3, 3, 7, 2),
    Record::Reveal(1, 3, 3, 2),
    Record::Close(6),
];

// As a call, so that nothing about them goes into a proof.
fn records() -> &'static [Record; 24] {
    RECORDS
}

// How often each number came, as refusals and phases are told by numbers.
#[derive(Drop)]
struct Counts([u32; 16]);

impl Counts {
    fn add(&mut self, number: u8) {
        let count = &mut self.0[number as usize % 16];
        *count = count.wrapping_add(1);
    }

    // Each number from one on, below another, came.
    fn check_all(&self, rt: &impl Abort, from: usize, end: usize) {
        for (number, count) in self.0.iter().enumerate().take(end).skip(from) {
            assert!(rt; *count > 0, "{}", number);
        }
    }
}

// The refusals, with 0 for none, and the phases in which a record found the ceremony.
#[derive(Drop)]
struct Seen {
    refusals: Counts,
    phases: Counts,
}

// The higher digits of numbers.
fn noise(seed: u32) -> [u8; 32] {
    let mut numbers = Numbers::from_seed(seed);
    array::from_fn(|_| (numbers.draw() / 16777216) as u8)
}

// A record of the ceremony, counted round.
fn nth<G: Group>(n: u32) -> RecordBytes {
    records()[n as usize % 24].bytes::<G>()
}

// Any bytes, a frame around any bytes, a record with other seats, a damaged record, or a record out of its turn.
// A number picks, since it is drawn: an enum would be made of it for this one match.
fn disturbance<G: Group>(random: u32) -> RecordBytes {
    let n = Numbers::from_seed(random).draw() / 256;
    let size = (n / 8 % 33) as usize;
    match random / 65536 % 5 {
        0 => RecordBytes::new(noise(n), size),
        1 => {
            let mut bytes = noise(n);
            bytes[..4].copy_from_slice(&[size.saturating_sub(2) as u8, 0, (n % 10) as u8, 0]);
            RecordBytes::new(bytes, size)
        }
        2 => {
            let mut record = nth::<G>(n);
            record.bytes[4] = (n / 32 % 5) as u8;
            record.bytes[5] = (n / 256 % 5) as u8;
            record
        }
        3 => {
            let mut record = nth::<G>(n);
            record.bytes[(n / 32 % 12) as usize] ^= (n / 512 % 256) as u8;
            record
        }
        _ => nth::<G>(n),
    }
}

// Three disturbances before each record of the ceremony.
fn record_for<G: Group>(turn: u32, random: u32) -> RecordBytes {
    if turn % 4 == 3 {
        nth::<G>(turn / 4)
    } else {
        disturbance::<G>(random)
    }
}

// How many equations are tested for a taken record, by its kind's number as it stands in the bytes.
fn equations_of(bytes: &[u8]) -> u8 {
    match bytes.get(2) {
        Some(4 | 7) => 1,
        Some(6) => 2,
        _ => 0,
    }
}

// By numbers, which are what is told. A refused record tells by its reason how many equations were tested: an Objection's up to 2, a Reveal's 1.
fn check_reason(rt: &impl Abort, report: Report, bytes: &[u8]) {
    match report.number {
        9 => assert!(rt; report.reason == 1 || report.reason == 2),
        10 => assert!(rt; 1 <= report.reason && report.reason <= equations_of(bytes)),
        _ => assert_eq!(rt; report.reason, 0),
    }
}

fn check_same<G: Group>(
    rt: &impl Abort,
    first: &Ceremony<'_, G>,
    second: &Ceremony<'_, G>,
) -> Result<(), Fail> {
    assert_eq!(rt; first.n(), second.n());
    assert_eq!(rt; first.t(), second.t());
    assert_eq!(rt; first.phase(), second.phase());
    let row = SeatRow {
        state: SeatState::Absent,
        complaints: 77,
    };
    let mut rows = [row; 4];
    seat_list(first, &mut rows)?;
    let mut others = [row; 4];
    seat_list(second, &mut others)?;
    assert_eq!(rt; rows, others);
    Ok(())
}

// Posts a record to the first ceremony, and to the second one if the first one takes it.
fn post_both<G: Group>(
    rt: &impl Abort,
    first: &mut Ceremony<'_, G>,
    second: &mut Ceremony<'_, G>,
    bytes: &[u8],
    seen: &mut Seen,
) -> Result<(), Fail>
    ensures first { first.new.area.ghost_name ≡ first.old.area.ghost_name }
    ensures second { second.new.area.ghost_name ≡ second.old.area.ghost_name }
{
    seen.phases.add(first.phase().number());
    match first.post(bytes) {
        Ok(equations) => {
            seen.refusals.add(0);
            assert_eq!(rt; equations, equations_of(bytes));
            assert_eq!(rt; second.post(bytes)?, equations);
            Ok(())
        }
        Err(fault) => {
            seen.refusals.add(fault.report().number);
            check_reason(rt, fault.report(), bytes);
            Ok(())
        }
    }
}

fn post_turns<G: Group>(
    rt: &impl Abort,
    first: &mut Ceremony<'_, G>,
    second: &mut Ceremony<'_, G>,
    seed: u32,
    seen: &mut Seen,
) -> Result<(), Fail>
    ensures first { first.new.area.ghost_name ≡ first.old.area.ghost_name }
    ensures second { second.new.area.ghost_name ≡ second.old.area.ghost_name }
{
    play(rt, first, OPENED)?;
    play(rt, second, OPENED)?;
    for (turn, random) in (0..96).zip(Numbers::starting_at(seed)) {
        let record = record_for::<G>(turn, random);
        post_both(rt, first, second, record.as_slice(), seen)?;
        check_same(rt, first, second)?;
    }
    Ok(())
}

// The areas are the same at the end, byte for byte.
fn check_twins<G: Group>(rt: &impl Abort, seed: u32, seen: &mut Seen) -> Result<(), Fail> {
    let mut area = [0xA5; 450];
    let mut other = [0xA5; 450];
    let mut first = Ceremony::<G>::new(&mut area);
    let mut second = Ceremony::<G>::new(&mut other);
    post_turns(rt, &mut first, &mut second, seed, seen)?;
    first.release();
    second.release();
    assert_eq!(rt; area, other);
    Ok(())
}

fn check_seeds<G: Group>(rt: &impl Abort) -> Result<(), Fail> {
    let mut seen = Seen {
        refusals: Counts([0; 16]),
        phases: Counts([0; 16]),
    };
    for seed in 0..200u32 {
        check_twins::<G>(rt, seed.wrapping_mul(2654435761), &mut seen)?;
    }
    seen.refusals.check_all(rt, 0, 12);
    seen.phases.check_all(rt, 1, 9);
    Ok(())
}

#[test]
fn residues_unchanged(rt: HostRuntime) -> Result<(), Fail> {
    check_seeds::<Residues>(&rt)
}

#[test]
fn polynomials_unchanged(rt: HostRuntime) -> Result<(), Fail> {
    check_seeds::<BinaryPolynomials>(&rt)
}
