//! Nodes of a model that grows.

/// A node with a value: its id, and how many bits it has.
#[derive(Clone, Copy)]
pub struct Node {
    /// Its id.
    pub id: u32,
    /// Its width, from 1 to 64.
    pub width: u64,
}
