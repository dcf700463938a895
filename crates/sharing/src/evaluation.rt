// The value of a polynomial at a seat, whose coefficients stand in bytes as codes one after another.
ghost use Rattle.std.specs.Prelude.{◌≡◌, ◌+◌, ◌*◌, ◌≤◌, length, None, MatchResult};
ghost use Rattle.group.specs.Reading.{Reads};
ghost use Rattle.sharing.specs.Value.{value_at};
ghost use Rattle.sharing.specs.Codes.{decoded_from, refused_from, Judges};

use crate::linear::Linear;
use group::fault::GroupFault;
use group::group::Group;

// Tests `count` codes in their order; the first that is refused is told.
pub fn judge_codes<G: Group, L: Linear<G>>(
    codes: &[u8],
    at: usize,
    count: usize,
) -> Result<(), GroupFault>
    requires { at + count * L.width ≤ length codes.now }
    ensures { Judges (refused_from (L.refusal codes.now) L.width at count) result }
{
    // By index: the place of a refused code is told.
    for k in 0..count {
        L::read(codes, at + k * L::code_width())?;
    }
    Ok(())
}

// Horner's rule, over codes that are known to be none that the group refuses.
pub fn value_of_known<G: Group, L: Linear<G>>(codes: &[u8], at: usize, count: usize, seat: u8) -> L
    requires within { at + count * L.width ≤ length codes.now }
    requires taken { refused_from (L.refusal codes.now) L.width at count ≡ None }
    ensures { L.of result ≡ value_at L.sum (decoded_from (L.decoded codes.now) L.width at count) seat }
{
    let j = G::reduced(seat as u32);
    let mut value = L::zero();
    // By index: what a code says depends on its place in the bytes, also in `known`.
    for k in (0..count).rev() {
        let coefficient = L::known(codes, at + k * L::code_width());
        value = coefficient.add(value.scale(j));
    }
    value
}

// The value at a seat of the polynomial with these coefficients, or the refusal of the first code that is refused.
pub fn evaluate<G: Group, L: Linear<G>>(
    codes: &[u8],
    at: usize,
    count: usize,
    seat: u8,
) -> Result<L, GroupFault>
    requires { at + count * L.width ≤ length codes.now }
    ensures { Reads (refused_from (L.refusal codes.now) L.width at count) L.of (value_at L.sum (decoded_from (L.decoded codes.now) L.width at count) seat) result }
{
    judge_codes::<G, L>(codes, at, count)?;
    Ok(value_of_known::<G, L>(codes, at, count, seat))
}
