// A whole board, record by record, from its Opening to the key.
ghost use Rattle.std.specs.Prelude.{◌≡◌};

use board::ceremony::Ceremony;
use group::group::Group;
use protocol::fault::CeremonyFault;
use protocol::row::SeatRow;
use protocol::state::SeatState;
use readings::key::write_key;
use readings::seats::seat_list;
use replay::replay::replay;
use replay::replayed::Replayed;
use std::{fmt, io};

// A record's kind and the seats that it names. By its bytes, since what is no record of a board is told too.
#[derive(Clone, Copy)]
struct Named<'a>(&'a [u8]);

impl fmt::Display for Named<'_> {
    fn fmt<W: fmt::Write>(&self, f: &mut fmt::Formatter<W>) -> fmt::Result {
        match self.0 {
            [_, _, 1, 0, ..] => write!(f, "Opening"),
            [_, _, 2, 0, writer, ..] => write!(f, "Deal by {writer}"),
            [_, _, 3, 0, writer, dealer, ..] => write!(f, "Complaint by {writer} about {dealer}"),
            [_, _, 4, 0, writer, seat, ..] => write!(f, "Answer by {writer} to {seat}"),
            [_, _, 5, 0, writer, ..] => write!(f, "Exposure by {writer}"),
            [_, _, 6, 0, writer, dealer, ..] => write!(f, "Objection by {writer} to {dealer}"),
            [_, _, 7, 0, writer, dealer, ..] => write!(f, "Reveal by {writer} for {dealer}"),
            [_, _, 8, 0, phase, ..] => write!(f, "Close {phase}"),
            _ => write!(f, "no record of a board"),
        }
    }
}

// Bytes in hexadecimal digits, each behind a space. Each program has these lines; a crate for them would be longer.
#[derive(Clone, Copy)]
struct Hex<'a>(&'a [u8]);

impl fmt::Display for Hex<'_> {
    fn fmt<W: fmt::Write>(&self, f: &mut fmt::Formatter<W>) -> fmt::Result {
        for byte in self.0 {
            write!(f, " {byte:02x}")?;
        }
        Ok(())
    }
}

// Opens the ceremony with an Opening, and posts any other record; tells how many equations were tested.
// By the bytes, since what is no record is given too.
fn give<G: Group>(ceremony: &mut Ceremony<'_, G>, bytes: &[u8]) -> Result<u8, CeremonyFault>
    ensures { ceremony.new.area.ghost_name ≡ ceremony.old.area.ghost_name }
{
    if let [_, _, 1, 0, ..] = bytes {
        ceremony.open(bytes)?;
        return Ok(0);
    }
    ceremony.post(bytes)
}

// Gives the records one after another, and tells what became of each.
fn give_all<G: Group>(
    rt: &impl Print,
    ceremony: &mut Ceremony<'_, G>,
    records: &[&[u8]],
) -> io::Result<()>
    ensures { ceremony.new.area.ghost_name ≡ ceremony.old.area.ghost_name }
{
    for bytes in records {
        // The name first: a record is given once it is told.
        print!(rt; "{}", Named(bytes))?;
        match give(ceremony, bytes) {
            Ok(equations) => println!(rt; ": taken, equations tested: {equations}")?,
            Err(fault) => println!(rt; ": {}", fault.report())?,
        }
    }
    Ok(())
}

// Prints the list of five seats.
fn print_seats<G: Group>(rt: &impl Print, ceremony: &Ceremony<'_, G>) -> io::Result<()> {
    let mut rows = [SeatRow {
        state: SeatState::Absent,
        complaints: 0,
    }; 5];
    if let Err(fault) = seat_list(ceremony, &mut rows) {
        return println!(rt; "seat list: {}", fault.report());
    }
    for (k, row) in rows.iter().enumerate() {
        println!(rt;
            "seat {}: {}, complaints: {}",
            k + 1,
            row.state,
            row.complaints
        )?;
    }
    Ok(())
}

fn print_key<G: Group>(rt: &impl Print, ceremony: &Ceremony<'_, G>) -> io::Result<()> {
    // An element's code has four bytes at most. Outputs and areas are lent, so they are fixed arrays.
    let mut code = [0u8; 4];
    match write_key(ceremony, &mut code) {
        Ok(length) => println!(rt; "key:{}", Hex(&code[..length])),
        Err(fault) => println!(rt; "key: {}", fault.report()),
    }
}

// Makes a ceremony, gives it the records of a board of five seats, and prints what can be read off it.
pub(crate) fn show_board<G: Group>(rt: &impl Print, records: &[&[u8]]) -> io::Result<()> {
    println!(rt; "a board in group {}", G::NUMBER)?;
    // Five seats with the threshold 2 need 934 bytes in group 1 and 1094 in group 2.
    let mut area = [0u8; 1094];
    let mut ceremony = Ceremony::<G>::new(&mut area);
    // Where a write fails, what comes behind it is told all the same.
    let given = give_all(rt, &mut ceremony, records);
    let seats = print_seats(rt, &ceremony);
    let key = print_key(rt, &ceremony);
    given?;
    seats?;
    key
}

// Opens a ceremony of one seat, replays a file into it, and prints what that came to.
pub(crate) fn show_replay<G: Group>(
    rt: &impl Print,
    opening: &[u8],
    file: &[u8],
) -> io::Result<()> {
    // One seat with the threshold 0 needs 78 bytes in group 1.
    let mut area = [0u8; 78];
    let mut ceremony = Ceremony::<G>::new(&mut area);
    let opened = ceremony.open(opening);
    let Replayed {
        taken,
        refused,
        equations,
        broken,
    } = replay(&mut ceremony, file);
    print_key(rt, &ceremony)?;
    if let Err(fault) = opened {
        println!(rt; "Opening: {}", fault.report())?;
    }
    println!(rt; "replayed: taken {taken}, refused {refused}, equations tested: {equations}")?;
    match broken {
        Some(place) => println!(rt; "a frame is broken at {place}"),
        None => Ok(()),
    }
}
