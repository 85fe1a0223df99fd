//! The engine form of a circuit: every latch begins with 0, and there are bad properties alone; and a circuit whose outputs
//! are bad properties. The laws of their definitions stand in `laws`.
#![tactic(auto)]

mod choice;
mod copies;
mod fault;
mod form;
mod latches;
pub mod laws;
mod leaves;
mod literals;
mod moves;
mod outputs;
mod properties;
mod sizes;
mod table;

pub use fault::EngineFault;
pub use form::{engine_form, why_no_form};
pub use outputs::outputs_as_bads;
pub use sizes::input_count;
