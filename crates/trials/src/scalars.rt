// The scalars against plain numbers modulo q.
ghost use Rattle.std.specs.Prelude.{◌<◌};

use binary_polynomials::BinaryPolynomials;
use group::group::Group;
use residues::Residues;
use samples::numbers::Numbers;
use std::process::Abort;

// The number of a scalar, with room to multiply it.
fn number_of<G: Group>(x: G::Scalar) -> u64 {
    G::scalar_number(x).into()
}

// q stands beside the group's name, here and in the other tests: a trait with a constant would be more for one number.
fn check_sums<G: Group>(rt: &impl Abort, q: u32, a: u32, b: u32)
    requires { 0 < q }
{
    let x = G::reduced(a);
    let y = G::reduced(b);
    let m = u64::from(a % q);
    let n = u64::from(b % q);
    let q = u64::from(q);
    assert_eq!(rt; number_of::<G>(x), m, "{}", a);
    assert_eq!(rt; number_of::<G>(G::add(x, y)), (m + n) % q, "{} {}", a, b);
    assert_eq!(rt; number_of::<G>(G::multiply(x, y)), m * n % q, "{} {}", a, b);
    assert_eq!(rt; number_of::<G>(G::negate(x)), (q - m) % q, "{}", a);
}

// The product with the inverse is 1; only 0 has none.
fn check_inverse<G: Group>(rt: &impl Abort, a: u32) {
    let x = G::reduced(a);
    match G::invert(x) {
        Some(y) => assert_eq!(rt; G::scalar_number(G::multiply(y, x)), 1, "{}", a),
        None => assert_eq!(rt; G::scalar_number(x), 0, "{}", a),
    }
}

fn check_scalars<G: Group>(rt: &impl Abort, q: u32)
    requires { 0 < q }
{
    let mut numbers = Numbers::starting_at(1);
    for _ in 0..300 {
        let (a, b) = (numbers.draw(), numbers.draw());
        check_sums::<G>(rt, q, a, b);
        check_inverse::<G>(rt, a);
    }
}

// 0, the first and the last scalars, and numbers that have to be reduced.
fn check_edges<G: Group>(rt: &impl Abort, q: u32)
    requires { 0 < q }
{
    for a in [0, 1, 2, q - 1, q, u32::MAX] {
        check_sums::<G>(rt, q, a, q - 1);
        check_sums::<G>(rt, q, q - 1, a);
        check_inverse::<G>(rt, a);
    }
    assert!(rt; G::invert(G::reduced(0)).is_none());
}

#[test]
fn residue_scalars(rt: HostRuntime) {
    check_edges::<Residues>(&rt, 1019);
    check_scalars::<Residues>(&rt, 1019);
}

#[test]
fn polynomial_scalars(rt: HostRuntime) {
    check_edges::<BinaryPolynomials>(&rt, 131071);
    check_scalars::<BinaryPolynomials>(&rt, 131071);
}
