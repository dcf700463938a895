// Interpolation at zero, from entries of different seats that stand in bytes as codes one after another.
ghost use Rattle.std.specs.Prelude.{◌≡◌, ◌+◌, ◌*◌, ◌≤◌, length, None};
ghost use Rattle.group.specs.Reading.{Reads};
ghost use Rattle.sharing.specs.Codes.{refused_from};
ghost use Rattle.sharing.specs.Interpolation.{Seats, minus, factor, weight, interpolated, entries_from};

use crate::evaluation::judge_codes;
use crate::linear::Linear;
use group::fault::GroupFault;
use group::group::Group;

// l - m modulo q.
fn difference_of<G: Group>(l: u8, m: u8) -> G::Scalar
    requires { (l ≤ 32) × (m ≤ 32) }
    ensures { G.scalar_of result ≡ minus G.meaning.q l m }
{
    G::add(G::reduced(l as u32), G::negate(G::reduced(m as u32)))
}

// l / (l - m) modulo q, and 1 where l is m.
pub fn factor_of<G: Group>(l: u8, m: u8) -> G::Scalar
    requires { (l ≤ 32) × (m ≤ 32) }
    ensures { G.scalar_of result ≡ factor G.meaning.q l m }
{
    if l == m {
        return G::reduced(1);
    }
    match G::invert(difference_of::<G>(l, m)) {
        Some(inverse) => G::multiply(G::reduced(l as u32), inverse),
        None => unreachable!(),
    }
}

// The weight of the seat m among these seats.
pub fn weight_of<G: Group>(seats: &[u8], m: u8) -> G::Scalar
    requires { (Seats seats.now) × (m ≤ 32) }
    ensures { G.scalar_of result ≡ weight G.meaning.q seats.now m }
{
    let mut product = G::reduced(1);
    for l in seats {
        product = G::multiply(product, factor_of::<G>(*l, m));
    }
    product
}

// The sum of weight times entry, over codes that are known to be none that the group refuses.
pub fn interpolate_known<G: Group, L: Linear<G>>(seats: &[u8], codes: &[u8], at: usize) -> L
    requires seats { Seats seats.now }
    requires within { at + length seats.now * L.width ≤ length codes.now }
    requires taken { refused_from (L.refusal codes.now) L.width at (length seats.now) ≡ None }
    ensures { L.of result ≡ interpolated L.sum G.Group.meaning.q (entries_from (L.decoded codes.now) L.width at seats.now) }
{
    let mut sum = L::zero();
    // The index tells the place of the entry's code, on which depends what the code says.
    for (k, m) in seats.iter().enumerate() {
        let entry = L::known(codes, at + k * L::code_width());
        sum = sum.add(entry.scale(weight_of::<G>(seats, *m)));
    }
    sum
}

// What the entries interpolate to, or the refusal of the first code that is refused.
pub fn interpolate<G: Group, L: Linear<G>>(
    seats: &[u8],
    codes: &[u8],
    at: usize,
) -> Result<L, GroupFault>
    requires seats { Seats seats.now }
    requires within { at + length seats.now * L.width ≤ length codes.now }
    ensures { Reads (refused_from (L.refusal codes.now) L.width at (length seats.now)) L.of (interpolated L.sum G.Group.meaning.q (entries_from (L.decoded codes.now) L.width at seats.now)) result }
{
    judge_codes::<G, L>(codes, at, seats.len())?;
    Ok(interpolate_known::<G, L>(seats, codes, at))
}
