// The whole numbers below Q, counted modulo Q: a type for each Q.
ghost use Rattle.std.specs.Prelude.{◌≡◌, ◌+◌, ◌-◌, ◌*◌, ◌%◌, ◌<◌, Some, None};
ghost use Rattle.group.specs.Meaning.{Prime};

use std::ops::{Add, Mul, Neg};

#[derive(Clone, Copy)]
pub struct Modular<const Q: u32> {
    value: u32,
    ghost below: { value < Q },
}

impl<const Q: u32> Modular<Q> {
    pub fn get(self) -> u32
        ensures { result ≡ self.entry.value }
    {
        self.value
    }

    pub fn new(n: u32) -> Modular<Q>
        requires { n < Q }
        ensures { result.value ≡ n }
    {
        Modular { value: n }
    }

    pub fn reduced(n: u32) -> Modular<Q>
        requires { 0 < Q }
        ensures { result.value ≡ n % Q }
    {
        Modular { value: n % Q }
    }

    // Only 0 has no inverse. Each turn keeps inverse·self = rest modulo Q, and rest falls to 1.
    pub fn inverse(self) -> Option<Modular<Q>>
        requires { Prime Q }
        ensures { elim result [ Some y ↦ (y.value * self.entry.value) % Q ≡ 1 | None ↦ self.entry.value ≡ 0 ] }
    {
        if self.value == 0 {
            return None;
        }
        let mut inverse = Modular::<Q>::new(1);
        let mut rest = self.value;
        while rest > 1 {
            inverse = inverse * Modular::<Q>::new(Q - Q / rest);
            rest = Q % rest;
        }
        Some(inverse)
    }
}

impl<const Q: u32> Add for Modular<Q> {
    type Output = Modular<Q>;

    ghost add_gives = { λ x y sum. sum.value ≡ (x.value + y.value) % Q };

    fn add(self, other: Modular<Q>) -> Modular<Q> {
        let sum = self.value as u64 + other.value as u64;
        Modular {
            value: (sum % Q as u64) as u32,
        }
    }
}

impl<const Q: u32> Mul for Modular<Q> {
    type Output = Modular<Q>;

    ghost mul_gives = { λ x y product. product.value ≡ (x.value * y.value) % Q };

    fn mul(self, other: Modular<Q>) -> Modular<Q> {
        let product = self.value as u64 * other.value as u64;
        Modular {
            value: (product % Q as u64) as u32,
        }
    }
}

impl<const Q: u32> Neg for Modular<Q> {
    type Output = Modular<Q>;

    ghost neg_gives = { λ x negative. negative.value ≡ (Q - x.value) % Q };

    fn neg(self) -> Modular<Q> {
        Modular {
            value: (Q - self.value) % Q,
        }
    }
}
