// The kinds of records, each by the number that stands in its frame.
ghost use Rattle.std.specs.Prelude.{Some};
ghost use Rattle.protocol.specs.Text.{unknown_text};

use std::error::Error;
use std::fmt;

// Letter and Sheet are private: they never stand on a board.
#[derive(Clone, Copy, Debug, PartialEq, Eq)]
pub enum Kind {
    Opening = 1,
    Deal = 2,
    Complaint = 3,
    Answer = 4,
    Exposure = 5,
    Objection = 6,
    Reveal = 7,
    Close = 8,
    Letter = 16,
    Sheet = 17,
}

// A number that no kind has.
#[derive(Clone, Copy, Debug, PartialEq, Eq)]
pub struct UnknownKind(pub u32);

impl fmt::Display for UnknownKind {
    ghost output = { λ e. Some (unknown_text e) };

    fn fmt<W: fmt::Write>(&self, f: &mut fmt::Formatter<W>) -> fmt::Result {
        write!(f, "no kind of record has the number {}", self.0)
    }
}

impl Error for UnknownKind {}
