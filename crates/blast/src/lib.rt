//! Lowering of word-level models to and-inverter circuits, and of their texts.
#![tactic(auto)]

mod conversion;
mod fault;
mod items;
mod latches;
pub mod laws;
mod lowering;
mod names;
mod nodes;
mod placed;
mod properties;
mod refusals;
mod watching;
mod widths;

pub use conversion::{convert, convert_watched};
pub use fault::{ConvertFault, LowerFault};
pub use lowering::{lower, lower_watched};
pub use watching::{Unwatched, Watch};
pub use widths::{bound, cost, cost_and_bound};
