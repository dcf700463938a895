// Products against plain numbers, and against polynomials that are multiplied first and divided after.
use binary_polynomials::BinaryPolynomials;
use group::group::Group;
use residues::Residues;
use samples::numbers::Numbers;
use std::test::Fail;

fn product_of<G: Group>(a: u32, b: u32) -> Result<u32, Fail> {
    let product = G::product(G::element(a, 0)?, G::element(b, 0)?);
    Ok(G::element_number(product))
}

// The product as polynomials over GF(2), where nothing is taken away.
fn carryless(a: u64, b: u64) -> u64 {
    let mut sum = 0;
    for k in 0..17u32 {
        if b >> k & 1 == 1 {
            sum ^= a << k;
        }
    }
    sum
}

// What long division by z^17 + z^3 + 1 leaves of a polynomial of degree below 34.
fn remainder(polynomial: u64) -> u64 {
    let mut rest = polynomial;
    for k in (17..34u32).rev() {
        if rest >> k & 1 == 1 {
            rest ^= 131081 << (k - 17);
        }
    }
    rest
}

// Not one with the test of residues: what is drawn and what is expected would come as closures, longer than the loop.
#[test]
fn polynomial_products(rt: HostRuntime) -> Result<(), Fail> {
    let mut numbers = Numbers::starting_at(1);
    for _ in 0..500 {
        let a = numbers.draw() / 8 % 131071 + 1;
        let b = numbers.draw() / 8 % 131071 + 1;
        let expected = remainder(carryless(a.into(), b.into()));
        assert_eq!(rt;
            u64::from(product_of::<BinaryPolynomials>(a, b)?),
            expected,
            "{}",
            a
        );
    }
    Ok(())
}

// Squares are members, so each factor is one.
#[test]
fn residue_products(rt: HostRuntime) -> Result<(), Fail> {
    let mut numbers = Numbers::starting_at(1);
    for _ in 0..500 {
        let a = numbers.draw() / 8 % 2038 + 1;
        let b = numbers.draw() / 8 % 2038 + 1;
        let product = product_of::<Residues>(a * a % 2039, b * b % 2039)?;
        assert_eq!(rt; product, a * b % 2039 * a % 2039 * b % 2039, "{}", a);
    }
    Ok(())
}

#[test]
fn worked_products(rt: HostRuntime) -> Result<(), Fail> {
    assert_eq!(rt; product_of::<Residues>(4, 510)?, 1);
    assert_eq!(rt; product_of::<BinaryPolynomials>(65536, 2)?, 9);
    Ok(())
}
