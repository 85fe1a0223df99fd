//! The exit statuses.

/// A command is done, a witness is accepted, or help or the version is shown.
pub const DONE: u8 = 0;

/// A witness is not accepted.
pub const NOT_ACCEPTED: u8 = 1;

/// The input is refused.
pub const REFUSED: u8 = 2;

/// A device failed, or memory was wanting.
pub const DEVICE: u8 = 3;

/// The words of the command line are refused.
pub const WORDS_REFUSED: u8 = 4;
