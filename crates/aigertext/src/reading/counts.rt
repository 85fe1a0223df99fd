//! The numbers of a header.

/// The numbers of a header: the greatest variable, and how many of each section there are.
#[derive(Clone, Copy)]
pub(crate) struct Counts {
    /// The greatest variable.
    pub(crate) variables: u32,
    /// How many inputs.
    pub(crate) inputs: u32,
    /// How many latches.
    pub(crate) latches: u32,
    /// How many outputs.
    pub(crate) outputs: u32,
    /// How many gates.
    pub(crate) gates: u32,
    /// How many bad properties.
    pub(crate) bads: u32,
    /// How many constraints.
    pub(crate) constraints: u32,
    /// How many justice properties.
    pub(crate) justice: u32,
    /// How many fairness constraints.
    pub(crate) fair: u32,
}
