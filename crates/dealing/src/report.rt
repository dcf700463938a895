// The number, the place and the reason of a refusal, and its text; and a group's fault as a dealing's.
ghost use Rattle.std.specs.Prelude.{◌≡◌, Some};
ghost use Rattle.dealing.specs.Refusals.{number_of, place_of, reason_of, refusal_text};
ghost use Rattle.dealing.specs.declared.fault.DealingFault.TheVariants.{Code};

use crate::fault::DealingFault;
use group::fault::GroupFault;
use std::fmt;

impl DealingFault {
    // A number, as the table of refusals has it.
    pub fn number(self) -> u8
        ensures { result ≡ number_of self }
    {
        match self {
            DealingFault::Length => 3,
            DealingFault::NoSeat => 5,
            DealingFault::Code(_) => 9,
            DealingFault::Output => 14,
        }
    }

    pub fn place(self) -> usize
        ensures { result ≡ place_of self }
    {
        match self {
            DealingFault::Code(fault) => fault.place(),
            DealingFault::Length | DealingFault::NoSeat | DealingFault::Output => 0,
        }
    }

    pub fn reason(self) -> u8
        ensures { result ≡ reason_of self }
    {
        match self {
            DealingFault::Code(fault) => fault.reason(),
            DealingFault::Length | DealingFault::NoSeat | DealingFault::Output => 0,
        }
    }
}

impl fmt::Display for DealingFault {
    ghost output = { λ fault. Some (refusal_text fault) };

    fn fmt<W: fmt::Write>(&self, f: &mut fmt::Formatter<W>) -> fmt::Result {
        let number = self.number();
        let place = self.place();
        let reason = self.reason();
        write!(f, "refused with {number} at {place}, reason {reason}")
    }
}

// By hand: a derived From has no contract, and `?` needs it.
impl From<GroupFault> for DealingFault {
    ghost from_gives = { λ e r. r ≡ Code e };

    fn from(e: GroupFault) -> DealingFault {
        DealingFault::Code(e)
    }
}
