// Whole dealings: each share passes, and does not with a bit changed.
use super::sample::scalar_codes;
use binary_polynomials::BinaryPolynomials;
use dealing::deal::Coefficients;
use dealing::trial::test_share;
use group::group::Group;
use residues::Residues;
use std::process::Abort;
use std::test::Fail;

// The bytes from a place on are as they were before.
pub(super) fn check_rest(rt: &impl Abort, bytes: &[u8], from: usize) {
    for (k, byte) in bytes.iter().enumerate().skip(from) {
        assert_eq!(rt; *byte, 0xAA, "{}", k);
    }
}

// The length of what follows it, the kind, the dealer's seat.
fn check_head(rt: &impl Abort, record: &[u8; 80], size: usize, seat: u8) {
    assert_eq!(rt; record[0] as usize + 2, size);
    assert_eq!(rt; &record[1..5], [0, 2, 0, seat].as_slice());
}

fn check_share<G: Group>(
    rt: &impl Abort,
    coefficients: Coefficients,
    commitments: &[u8],
    seat: u8,
) -> Result<(), Fail> {
    let t = coefficients.t;
    let mut share = [0xAA; 12];
    let size = coefficients.draw_up_share::<G>(seat, &mut share)?;
    assert_eq!(rt; size, 2 * G::S);
    check_rest(rt, &share, size);
    if size > 12 {
        return Err(Fail::new("too long a share"));
    }
    let sides = test_share::<G>(t, commitments, &share[..size], seat)?;
    assert_eq!(rt; sides.committed, sides.value, "t = {}, seat {}", t, seat);
    share[0] ^= 1;
    match test_share::<G>(t, commitments, &share[..size], seat) {
        Ok(changed) => {
            assert_ne!(rt;
                changed.committed,
                changed.value,
                "t = {}, seat {}",
                t, seat
            )
        }
        // The changed code may be that of no scalar.
        Err(fault) => assert_eq!(rt; fault.number(), 9, "t = {}, seat {}", t, seat),
    }
    Ok(())
}

fn check_dealing<G: Group>(rt: &impl Abort, seat: u8, t: u8) -> Result<(), Fail> {
    let codes = scalar_codes::<G, 128>(t.into());
    let count = t as usize + 1;
    let given = 2 * (count * G::S);
    let mut record = [0xAA; 80];
    if given > 128 {
        return Err(Fail::new("too many coefficients"));
    }
    let coefficients = Coefficients {
        t,
        codes: &codes[..given],
    };
    let size = coefficients.draw_up_deal::<G>(seat, &mut record)?;
    assert_eq!(rt; size, 5 + count * G::W, "t = {}", t);
    check_head(rt, &record, size, seat);
    check_rest(rt, &record, size);
    if size < 5 || size > 80 {
        return Err(Fail::new("no record"));
    }
    for j in 1..33 {
        check_share::<G>(rt, coefficients, &record[5..size], j)?;
    }
    Ok(())
}

// Each t from 0 to 15, with the dealer at the next of the seats.
fn check_dealings<G, I>(rt: &impl Abort, seats: I) -> Result<(), Fail>
where
    G: Group,
    I: Iterator<Item = u8> + Drop,
    requires { I.can_next seats }
{
    for (t, seat) in (0..16).zip(seats) {
        check_dealing::<G>(rt, seat, t)?;
    }
    Ok(())
}

#[test]
fn residue_dealings(rt: HostRuntime) -> Result<(), Fail> {
    check_dealings::<Residues, _>(&rt, 1..17)
}

#[test]
fn polynomial_dealings(rt: HostRuntime) -> Result<(), Fail> {
    check_dealings::<BinaryPolynomials, _>(&rt, (17..33).rev())
}
