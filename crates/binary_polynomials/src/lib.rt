// Group 2: polynomials over GF(2) modulo z^17 + z^3 + 1, bit k the coefficient of z^k.
#![tactic(auto)]

ghost use Rattle.std.specs.Prelude.{◌≡◌, ◌<◌, true, nat_lt};
ghost use Rattle.std.proofs.lemmas.Bool.{lt-ltb};
ghost use Rattle.binary_polynomials.specs.Polynomials.{polynomials, times_reduced, times_z, ProductIsRemainder};
ghost use Rattle.binary_polynomials.specs.PolynomialLaws.{polynomials_lawful, all_polynomials, polynomials_are_roots, polynomials_numbers};

use roots::candidates::Candidates;
use roots::roots::Roots;

const LIMIT: u32 = 131072;

const Q: u32 = 131071;

// z^17 + z^3 + 1.
const MODULUS: u32 = 131081;

// z times a.
#[tactic(auto, unfolding(crate::specs::Polynomials::times_z))]
fn shifted(a: u32) -> u32
    requires { a < 131072 }
    ensures { result ≡ times_z a }
{
    (a * 2) ^ (a / 65536 % 2 * MODULUS)
}

pub type BinaryPolynomials = Roots<Q, NonzeroPolynomials>;

// The candidates of group 2. All polynomials of degree below 17 can be multiplied, 0 among them.
pub struct NonzeroPolynomials;

impl Candidates<Q> for NonzeroPolynomials {
    const NUMBER: u16 = 2;

    const W: usize = 3;

    const S: usize = 3;

    const UNIT: u32 = 1;

    const G: u32 = 2;

    const H: u32 = 3;

    ghost NUMBER = { 2 };

    ghost W = { 3 };

    ghost S = { 3 };

    ghost UNIT = { 1 };

    ghost G = { 2 };

    ghost H = { 3 };

    ghost meaning = { polynomials };

    ghost lawful = { polynomials_lawful };

    ghost factor = { λ u. nat_lt u 131072 };

    ghost commutative = { all_polynomials };

    ghost numbers = { polynomials_numbers };

    ghost roots = { polynomials_are_roots };

    fn is_candidate(number: u32) -> bool {
        (1..LIMIT).contains(&number)
    }

    // The sum of z^k·a over the bits k of b that are set.
    fn product(a: u32, b: u32) -> u32 {
        let mut sum = 0;
        let mut x = a;
        let mut y = b;
        for _k in 0..17u32 {
            sum ^= y % 2 * x;
            x = shifted(x);
            y /= 2;
        }
        sum
    }
}

// The product is the remainder of the product of polynomials by z^17 + z^3 + 1: a theorem, which its contract states.
pub fn product_is_remainder()
    ensures { ProductIsRemainder }
{}
