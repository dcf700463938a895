// The number of a group's reason, and the place of the refused code.
ghost use Rattle.std.specs.Prelude.{◌≡◌};
ghost use Rattle.group.specs.Reading.{reason_of, place_of};

use crate::fault::GroupFault;

impl GroupFault {
    // A number, as the table of refusals has it.
    pub fn reason(self) -> u8
        ensures { result ≡ reason_of self }
    {
        match self {
            GroupFault::NoCandidate { .. } => 1,
            GroupFault::NoMember { .. } => 2,
        }
    }

    pub fn place(self) -> usize
        ensures { result ≡ place_of self }
    {
        match self {
            GroupFault::NoCandidate { place } | GroupFault::NoMember { place } => place,
        }
    }
}
