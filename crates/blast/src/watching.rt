//! What is told of a lowering while it is made.

/// What is told, line by line of a model that is lowered, how far its circuit is. It has no part in what is made.
pub trait Watch {
    /// So many gates are made by now.
    fn made(&mut self, gates: usize);
}

/// What is told and tells nobody.
#[derive(Drop)]
pub struct Unwatched;

impl Watch for Unwatched {
    fn made(&mut self, _gates: usize) {}
}
