// Codes that pseudo-random numbers give, one after another.
ghost use Rattle.std.specs.Prelude.{◌<◌, ◌^◌};
ghost use Rattle.std.specs.Iterator.{IsFinite};

use group::group::Group;
use group::powers::power_of;
use samples::numbers::Numbers;
use sharing::element::Element;
use sharing::linear::Linear;
use sharing::scalar::Scalar;
use std::marker::PhantomData;

// The codes of the values, as far as they have room.
fn codes_of<G, L, I, const N: usize>(values: I) -> [u8; N]
where
    G: Group,
    L: Linear<G>,
    I: Iterator<Item = L> + Drop,
    requires width { (0 < L.width) × (L.width < 2 ^ 64) }
    requires can { I.can_next values }
    requires ends { IsFinite (I.remaining values) }
{
    let mut codes = [0; N];
    for (code, value) in codes.chunks_exact_mut(L::code_width()).zip(values) {
        value.write(code, 0);
    }
    codes
}

// 32 scalars, as far as they have room.
pub(super) fn scalar_codes<G: Group, const N: usize>(seed: u32) -> [u8; N] {
    let numbers = Numbers::from_seed(seed).take(32);
    codes_of(numbers.map(|n| Scalar::<G, G::Scalar> {
        value: G::reduced(n / 8),
        of: PhantomData,
    }))
}

// 16 powers of g, as far as they have room.
pub(super) fn element_codes<G: Group, const N: usize>(seed: u32) -> [u8; N] {
    let numbers = Numbers::from_seed(seed).take(16);
    codes_of(numbers.map(|n| Element::<G, G::Element> {
        value: power_of::<G>(G::g(), G::reduced(n / 8)),
        of: PhantomData,
    }))
}
