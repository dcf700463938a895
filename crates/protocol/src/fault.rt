// Why a call is refused, in layers: the group's fault inside the record's, the record's inside the ceremony's,
// the ceremony's inside the custodian's. A place is an offset into the bytes handed over.
use group::fault::GroupFault;

// What is wrong with the bytes of a record.
#[derive(Clone, Copy, Debug, PartialEq, Eq)]
pub enum RecordFault {
    Frame { place: usize },
    Kind { place: usize },
    Length { place: usize },
    Code(GroupFault),
}

// The two equations that a share is tested by, by their numbers.
#[derive(Clone, Copy, Debug, PartialEq, Eq)]
pub enum Equation {
    First = 1,
    Second = 2,
}

// Why a ceremony refuses a call.
#[derive(Clone, Copy, Debug, PartialEq, Eq)]
pub enum CeremonyFault {
    Record(RecordFault),
    OutOfPhase { place: usize },
    NoSeat { place: usize },
    EqualSeats { place: usize },
    Missing { place: usize },
    Repeated { place: usize },
    Unequal { place: usize, equation: Equation },
    FewReveals { place: usize },
    Parameter { place: usize },
    SmallArea,
    SmallOutput,
}

// Why a custodian refuses a call.
#[derive(Clone, Copy, Debug, PartialEq, Eq)]
pub enum CustodianFault {
    Ceremony(CeremonyFault),
    TooSmall,
    Stranger { place: usize },
}
