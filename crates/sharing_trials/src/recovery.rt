// The values at t + 1 different seats interpolate to the first coefficient: of scalars, of elements and of pairs.
ghost use Rattle.std.specs.Prelude.{◌<◌, ◌≤◌};

use super::sample::{element_codes, scalar_codes};
use binary_polynomials::BinaryPolynomials;
use group::group::Group;
use residues::Residues;
use sharing::commitment::Share;
use sharing::element::Element;
use sharing::evaluation::evaluate;
use sharing::interpolation::interpolate;
use sharing::linear::Linear;
use sharing::scalar::Scalar;
use sharing::seats::are_different_seats;
use std::array;
use std::process::Abort;
use std::test::Fail;

// Different seats, since an odd step comes round only after 32.
fn pick_seats(start: u32, step: u32) -> [u8; 16] {
    array::from_fn(|k| (start.wrapping_add(step.wrapping_mul(k as u32)) % 32 + 1) as u8)
}

// The codes of the values at the seats, one after another.
fn values_at<G: Group, L: Linear<G>>(codes: &[u8; 128], seats: &[u8]) -> Result<[u8; 128], Fail>
    requires from { 0 < L.width }
    requires to { L.width ≤ 8 }
{
    if seats.len() > 16 {
        return Err(Fail::new("more than 16 seats"));
    }
    let mut values = [0; 128];
    for (value, seat) in values.chunks_exact_mut(L::code_width()).zip(seats) {
        evaluate::<G, L>(codes, 0, seats.len(), *seat)?.write(value, 0);
    }
    Ok(values)
}

// The code of what the values at some seats interpolate to.
fn recovered<G: Group, L: Linear<G>>(values: &[u8; 128], seats: &[u8]) -> Result<[u8; 8], Fail>
    requires { L.width ≤ 8 }
{
    if seats.len() > 16 || !are_different_seats(seats) {
        return Err(Fail::new("these are not up to 16 different seats"));
    }
    let mut code = [0; 8];
    interpolate::<G, L>(seats, values, 0)?.write(&mut code, 0);
    Ok(code)
}

fn check_recovery<G: Group, L: Linear<G>>(
    rt: &impl Abort,
    what: &str,
    codes: &[u8; 128],
    seats: &[u8],
) -> Result<(), Fail>
    requires from { 0 < L.width }
    requires to { L.width ≤ 8 }
{
    let values = values_at::<G, L>(codes, seats)?;
    let code = recovered::<G, L>(&values, seats)?;
    let width = L::code_width();
    assert_eq!(rt;
        &code[..width],
        &codes[..width],
        "{} at {} seats",
        what,
        seats.len()
    );
    Ok(())
}

// Scalars, elements and pairs, at the first seats of a row.
fn check_seats<G: Group>(rt: &impl Abort, seed: u32, seats: &[u8]) -> Result<(), Fail> {
    let scalars = scalar_codes::<G, 128>(seed);
    check_recovery::<G, Scalar<G, G::Scalar>>(rt, "scalars", &scalars, seats)?;
    check_recovery::<G, Share<G>>(rt, "pairs", &scalars, seats)?;
    let elements = element_codes::<G, 128>(seed);
    check_recovery::<G, Element<G, G::Element>>(rt, "elements", &elements, seats)
}

fn check_thresholds<G: Group>(rt: &impl Abort, start: u32, step: u32) -> Result<(), Fail> {
    let seats = pick_seats(start, step);
    for t in 0..16 {
        check_seats::<G>(rt, start.wrapping_add(t as u32), &seats[..=t])?;
    }
    Ok(())
}

fn check_starts<G: Group>(rt: &impl Abort) -> Result<(), Fail> {
    for start in 0..8 {
        check_thresholds::<G>(rt, start * 5, start * 2 + 1)?;
    }
    Ok(())
}

#[test]
fn residues_recovered(rt: HostRuntime) -> Result<(), Fail> {
    check_starts::<Residues>(&rt)
}

#[test]
fn polynomials_recovered(rt: HostRuntime) -> Result<(), Fail> {
    check_starts::<BinaryPolynomials>(&rt)
}
