//! What a device answers where it fails.
use thiserror::Error;

/// A source or a sink failed.
#[derive(Clone, Copy, Debug, PartialEq, Eq, Error)]
pub enum DeviceFault {
    /// The one fault; why it came a source or a sink tells by itself.
    #[error("device")]
    Failed,
}
