//! Where a reading of an invariant is.

/// The line that is expected next.
#[derive(Clone, Copy, PartialEq, Eq)]
pub enum Expected {
    /// That of the count of latches.
    Inputs,
    /// That of the outputs.
    Outputs,
    /// That of the count of cubes.
    Count,
    /// That of the latches' names.
    Names,
    /// That of the output's name.
    Output,
    /// That of a cube, or the end.
    Cubes,
    /// None: the end was told.
    Nothing,
}
