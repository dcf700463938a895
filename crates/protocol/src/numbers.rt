// The numbers of kinds and phases.
ghost use Rattle.std.specs.Prelude.{◌≡◌};
ghost use Rattle.protocol.specs.Record.{kind_number, Decodes};
ghost use Rattle.protocol.specs.Board.{phase_number};

use crate::kind::{Kind, UnknownKind};
use crate::phase::Phase;

impl Kind {
    pub fn number(self) -> u8
        ensures { result ≡ kind_number self }
    {
        self as u8
    }
}

impl TryFrom<u32> for Kind {
    type Error = UnknownKind;

    ghost try_from_gives = { Decodes };

    #[tactic(auto, unfolding(crate::specs::Record::kind_with))]
    fn try_from(number: u32) -> Result<Kind, UnknownKind> {
        match number {
            1 => Ok(Kind::Opening),
            2 => Ok(Kind::Deal),
            3 => Ok(Kind::Complaint),
            4 => Ok(Kind::Answer),
            5 => Ok(Kind::Exposure),
            6 => Ok(Kind::Objection),
            7 => Ok(Kind::Reveal),
            8 => Ok(Kind::Close),
            16 => Ok(Kind::Letter),
            17 => Ok(Kind::Sheet),
            _ => Err(UnknownKind(number)),
        }
    }
}

impl Phase {
    pub fn number(self) -> u8
        ensures { result ≡ phase_number self }
    {
        self as u8
    }
}
