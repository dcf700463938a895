// What a refusal is told as: its number, its layer, a byte offset in what was handed over, and a reason.
ghost use Rattle.std.specs.Prelude.{Some};
ghost use Rattle.protocol.specs.Text.{report_text};

use std::fmt;

#[derive(Clone, Copy, Debug, PartialEq, Eq)]
pub enum Layer {
    Frame,
    Group,
    Ceremony,
    Custodian,
}

#[derive(Clone, Copy, Debug, PartialEq, Eq)]
pub struct Report {
    // A number, since it is what the table of refusals lists.
    pub number: u8,
    pub layer: Layer,
    pub place: usize,
    pub reason: u8,
}

impl fmt::Display for Report {
    ghost output = { λ r. Some (report_text r) };

    fn fmt<W: fmt::Write>(&self, f: &mut fmt::Formatter<W>) -> fmt::Result {
        write!(
            f,
            "refused with {} at {}, reason {}",
            self.number, self.place, self.reason
        )
    }
}
