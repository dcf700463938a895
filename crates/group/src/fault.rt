// Why a group refuses a code, and where the code stands in the bytes handed over.
#[derive(Clone, Copy, Debug, PartialEq, Eq)]
pub enum GroupFault {
    NoCandidate { place: usize },
    NoMember { place: usize },
}
