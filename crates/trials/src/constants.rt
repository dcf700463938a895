// The constants of each group, as generic code names them.
use binary_polynomials::BinaryPolynomials;
use group::group::Group;
use residues::Residues;
use std::process::Abort;

fn check_constants<G: Group>(rt: &impl Abort, number: u16, width: usize, scalar_width: usize) {
    assert_eq!(rt; G::NUMBER, number);
    assert_eq!(rt; G::W, width);
    assert_eq!(rt; G::S, scalar_width);
}

#[test]
fn constants_of_both_groups(rt: HostRuntime) {
    check_constants::<Residues>(&rt, 1, 2, 2);
    check_constants::<BinaryPolynomials>(&rt, 2, 3, 3);
}
