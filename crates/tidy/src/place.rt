//! Where a line stands in the text of a witness.

/// Where a line stands: what the definition of a tidied text goes by.
#[derive(Clone, Copy)]
pub enum Place {
    /// In front of the first status line.
    Front,
    /// Behind a witness, in front of the next status line.
    Between,
    /// Behind the status line of a witness of words, in front of its claims.
    Claims,
    /// Among the parts of a witness of words.
    Parts,
    /// Behind the status line of a witness of bits, in front of its claim.
    BitClaim,
    /// The line of the initial values.
    Initial,
    /// The line of the first frame.
    First,
    /// A later frame's line, where the first has bits.
    Frames,
    /// A later frame's line, where the first is empty.
    Empties,
    /// In what claims nothing or is no witness, where a later witness is wanted.
    Skipped,
    /// In what claims nothing or is no witness, where it is wanted.
    Passed,
    /// Behind the witness that is wanted, or behind a comment that has no end.
    Over,
}
