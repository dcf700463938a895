// The phases of a ceremony, by their numbers.
#[derive(Clone, Copy, Debug, PartialEq, Eq)]
pub enum Phase {
    Unopened = 0,
    Dealing = 1,
    Complaining = 2,
    Answering = 3,
    Exposing = 4,
    Objecting = 5,
    Revealing = 6,
    Finished = 7,
    Void = 8,
}
