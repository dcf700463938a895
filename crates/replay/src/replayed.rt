// What a replay came to: how many records were taken and refused, how many equations were tested,
// and where the first broken frame begins, at which it stopped.
#[derive(Clone, Copy, Debug, Default, PartialEq, Eq)]
pub struct Replayed {
    pub taken: usize,
    pub refused: usize,
    pub equations: usize,
    pub broken: Option<usize>,
}
