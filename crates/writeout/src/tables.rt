//! Where a writing has what.

/// By the positions of the model's lines the node of each, and the state of each state, 0 where there is none; and the state that is 1 in the first
/// frame alone, or 0.
#[derive(Drop)]
pub(crate) struct Tables {
    pub(crate) nodes: Vec<u32>,
    pub(crate) leaves: Vec<u32>,
    pub(crate) first: u32,
}
