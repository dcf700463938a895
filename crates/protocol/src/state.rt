// The state of a seat, and the word for it.
ghost use Rattle.std.specs.Prelude.{◌≡◌, Some};
ghost use Rattle.protocol.specs.Readings.{word_of};

use std::fmt;

#[derive(Clone, Copy, Debug, PartialEq, Eq)]
pub enum SeatState {
    Absent,
    Dealt,
    Out,
    Qualified,
    Contested,
}

impl SeatState {
    pub fn word(self) -> &'static str
        ensures { result.now ≡ word_of self }
    {
        match self {
            SeatState::Absent => "absent",
            SeatState::Dealt => "dealt",
            SeatState::Out => "out",
            SeatState::Qualified => "qualified",
            SeatState::Contested => "contested",
        }
    }
}

impl fmt::Display for SeatState {
    ghost output = { λ state. Some (word_of state) };

    fn fmt<W: fmt::Write>(&self, f: &mut fmt::Formatter<W>) -> fmt::Result {
        f.write_str(self.word())
    }
}
