// A row of the seat list.
use crate::state::SeatState;

#[derive(Clone, Copy, Debug, PartialEq, Eq)]
pub struct SeatRow {
    pub state: SeatState,
    // How many Complaints about the seat are taken.
    pub complaints: u8,
}
