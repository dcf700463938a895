// Values on a polynomial against sums of plain numbers.
ghost use Rattle.std.specs.Prelude.{◌<◌, ◌≤◌};

use binary_polynomials::BinaryPolynomials;
use group::codes::write_code;
use group::group::Group;
use residues::Residues;
use samples::numbers::Numbers;
use sharing::evaluation::evaluate;
use sharing::scalar::Scalar;
use std::array;
use std::process::Abort;
use std::test::Fail;

fn sample_numbers(seed: u32, q: u32) -> [u32; 16]
    requires { 0 < q }
{
    let mut numbers = Numbers::from_seed(seed);
    array::from_fn(|_| numbers.draw() / 8 % q)
}

// The codes of the numbers one after another.
fn codes_of(numbers: &[u32; 16], width: usize) -> [u8; 64]
    requires { 0 < width }
{
    let mut codes = [0; 64];
    for (code, n) in codes.chunks_exact_mut(width).zip(numbers) {
        write_code(code, 0, width, *n);
    }
    codes
}

// The sum of j^k·v_k over the first coefficients, term by term.
fn plain_value(numbers: &[u32], seat: u8, q: u64) -> u64
    requires { 0 < q }
{
    let mut sum = 0u64;
    let mut power = 1u64;
    for n in numbers {
        sum = sum.wrapping_add(power.wrapping_mul(u64::from(*n))) % q;
        power = power.wrapping_mul(u64::from(seat)) % q;
    }
    sum
}

// The values at every seat of a polynomial with `count` coefficients.
fn check_values<G: Group>(rt: &impl Abort, q: u32, count: usize) -> Result<(), Fail>
    requires q { 0 < q }
    requires count { count ≤ 16 }
{
    let numbers = sample_numbers(count as u32, q);
    let codes = codes_of(&numbers, G::S);
    for seat in 1..33 {
        let value = evaluate::<G, Scalar<G, G::Scalar>>(&codes, 0, count, seat)?;
        assert_eq!(rt;
            u64::from(G::scalar_number(value.value)),
            plain_value(&numbers[..count], seat, u64::from(q)),
            "{} coefficients at {}",
            count,
            seat
        );
    }
    Ok(())
}

fn check_counts<G: Group>(rt: &impl Abort, q: u32) -> Result<(), Fail>
    requires { 0 < q }
{
    for count in 1..17 {
        check_values::<G>(rt, q, count)?;
    }
    Ok(())
}

#[test]
fn residue_values(rt: HostRuntime) -> Result<(), Fail> {
    check_counts::<Residues>(&rt, 1019)
}

#[test]
fn polynomial_values(rt: HostRuntime) -> Result<(), Fail> {
    check_counts::<BinaryPolynomials>(&rt, 131071)
}
