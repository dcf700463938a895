// Codes amid other bytes: made here from the bytes of a number, and read by the group under test.
ghost use Rattle.std.specs.Prelude.{◌≤◌};

use group::codes::{read_element, read_scalar};
use group::fault::GroupFault;
use group::group::Group;

// Where the code stands in the eight bytes.
pub(super) const PLACE: usize = 2;

// Eight bytes with the code of n at the place; the others are 0xAA.
pub(super) fn coded(n: u32, width: usize) -> [u8; 8]
    requires { width ≤ 4 }
{
    let mut bytes = [0xAA; 8];
    bytes[PLACE..PLACE + width].copy_from_slice(&n.to_le_bytes()[..width]);
    bytes
}

// The number of the element whose code stands at the place. It and the next differ in the group's calls alone: a trait for
// both would be longer than they are.
pub(super) fn element_read<G: Group>(bytes: &[u8; 8]) -> Result<u32, GroupFault> {
    let element = read_element::<G>(bytes, PLACE)?;
    Ok(G::element_number(element))
}

// The number of the scalar whose code stands at the place.
pub(super) fn scalar_read<G: Group>(bytes: &[u8; 8]) -> Result<u32, GroupFault> {
    let scalar = read_scalar::<G>(bytes, PLACE)?;
    Ok(G::scalar_number(scalar))
}
