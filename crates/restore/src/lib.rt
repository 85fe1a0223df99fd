//! Counterexamples over the engine form of a circuit as witnesses of the circuit: what their texts say, how they are read,
//! what is wrong with one that says none, and what is restored of them.
#![tactic(auto)]

mod digits;
mod fault;
mod form_claim;
pub mod form_laws;
mod form_restoring;
mod frame_reader;
pub mod laws;
mod marks;
mod place;
mod play;
mod progress;
mod restorer;
mod restoring;
mod told;
mod writer;

pub use fault::{RestoreFault, RestoreWhy};
pub use form_restoring::{restore_form, restore_form_with};
pub use frame_reader::FrameReader;
pub use restoring::{restore, restore_with};
pub use told::Restored;
pub use writer::Writer;
