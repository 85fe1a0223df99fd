//! What is told of a witness that is restored.

use witness::Judgement;

/// What is told of what a text is restored to.
#[derive(Clone, Copy, PartialEq, Eq)]
pub struct Restored {
    /// The judgement.
    pub judgement: Judgement,
    /// The bad property that is claimed, with the first frame in which it is 1, where there is one.
    pub first: Option<(usize, u64)>,
}
