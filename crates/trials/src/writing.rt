// What is written, and that it reads back.
ghost use Rattle.std.specs.Prelude.{◌≤◌};

use super::codes::{PLACE, coded, element_read, scalar_read};
use super::powers::Powers;
use binary_polynomials::BinaryPolynomials;
use group::codes::{write_element, write_scalar};
use group::fault::GroupFault;
use group::group::Group;
use residues::Residues;
use samples::numbers::Numbers;
use std::process::Abort;
use std::test::Fail;

// The code of the number stands amid the bytes, and reads back.
fn check_code(
    rt: &impl Abort,
    bytes: &[u8; 8],
    number: u32,
    width: usize,
    read: Result<u32, GroupFault>,
)
    requires { width ≤ 4 }
{
    assert_eq!(rt; *bytes, coded(number, width), "{}", number);
    assert_eq!(rt; read, Ok(number));
}

// This and the next differ in the group's calls alone, and have the rest in common above.
fn check_element<G: Group>(rt: &impl Abort, element: G::Element) {
    let number = G::element_number(element);
    let mut bytes = [0xAA; 8];
    write_element::<G>(element, &mut bytes, PLACE);
    check_code(rt, &bytes, number, G::W, element_read::<G>(&bytes));
}

fn check_scalar<G: Group>(rt: &impl Abort, scalar: G::Scalar) {
    let number = G::scalar_number(scalar);
    let mut bytes = [0xAA; 8];
    write_scalar::<G>(scalar, &mut bytes, PLACE);
    check_code(rt, &bytes, number, G::S, scalar_read::<G>(&bytes));
}

// The first powers of h, from the unit on.
fn check_elements<G: Group>(rt: &impl Abort) {
    for element in Powers::<G>::of(G::h()).take(300) {
        check_element::<G>(rt, element);
    }
}

fn check_scalars<G: Group>(rt: &impl Abort) {
    check_scalar::<G>(rt, G::reduced(0));
    check_scalar::<G>(rt, G::negate(G::reduced(1)));
    for n in Numbers::from_seed(1).take(300) {
        check_scalar::<G>(rt, G::reduced(n));
    }
}

#[test]
fn elements_read_back(rt: HostRuntime) {
    check_elements::<Residues>(&rt);
    check_elements::<BinaryPolynomials>(&rt);
}

#[test]
fn scalars_read_back(rt: HostRuntime) {
    check_scalars::<Residues>(&rt);
    check_scalars::<BinaryPolynomials>(&rt);
}

// The lowest byte comes first, and the bytes around the code stay.
#[test]
fn bytes_written(rt: HostRuntime) -> Result<(), Fail> {
    let mut bytes = [0xAA; 8];
    write_element::<Residues>(Residues::element(0x0400, 0)?, &mut bytes, 5);
    assert_eq!(rt; bytes, [0xAA, 0xAA, 0xAA, 0xAA, 0xAA, 0x00, 0x04, 0xAA]);
    write_scalar::<Residues>(Residues::reduced(0x0123), &mut bytes, 0);
    assert_eq!(rt; bytes, [0x23, 0x01, 0xAA, 0xAA, 0xAA, 0x00, 0x04, 0xAA]);
    write_element::<BinaryPolynomials>(BinaryPolynomials::element(0x012345, 0)?, &mut bytes, 2);
    assert_eq!(rt; bytes, [0x23, 0x01, 0x45, 0x23, 0x01, 0x00, 0x04, 0xAA]);
    write_scalar::<BinaryPolynomials>(BinaryPolynomials::reduced(0x01FEDC), &mut bytes, 5);
    assert_eq!(rt; bytes, [0x23, 0x01, 0x45, 0x23, 0x01, 0xDC, 0xFE, 0x01]);
    Ok(())
}
