//! What may be wanting where lines are added.

/// What is wanting. The lines that were added before stand.
#[derive(Clone, Copy, Debug, PartialEq, Eq)]
pub enum Shortage {
    /// The list has 1,048,576 items.
    TooManyItems,
    /// A growth was refused.
    NoMemory,
}
