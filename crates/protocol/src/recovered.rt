// What recovery answers: the logarithm of the key, or two openings of one first commitment and the logarithm of h.
#[derive(Clone, Copy, Debug, PartialEq, Eq)]
pub enum Recovered {
    Logarithm {
        x: u32,
    },
    Openings {
        dealer: u8,
        from_sheets: (u32, u32),
        from_reveals: (u32, u32),
        logarithm_of_h: u32,
    },
}
