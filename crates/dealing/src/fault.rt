// Why a call of a dealing is refused.
use group::fault::GroupFault;

#[derive(Clone, Copy, Debug, PartialEq, Eq)]
pub enum DealingFault {
    // The codes handed over are not as many bytes as t asks for.
    Length,
    // The seat is not 1 to 32. The value at 0 is the secret itself.
    NoSeat,
    Code(GroupFault),
    // The output is too small.
    Output,
}
