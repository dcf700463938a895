// Both sides of the equation that a share is tested by, as the numbers of elements.
#[derive(Clone, Copy, Debug, PartialEq, Eq)]
pub struct Sides {
    // g^s·h^s'
    pub committed: u32,
    // the value of the commitments at the seat
    pub value: u32,
}
