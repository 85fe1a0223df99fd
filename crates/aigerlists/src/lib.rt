//! The lists of a file in any numbering, and the circuits that they are, after "AIGER 1.9 and Beyond".
#![tactic(auto)]

mod definitions;
mod fault;
pub mod laws;
mod loose;
mod numbered;
mod numbering;
mod numbers;
mod readiness;
mod renumbering;
mod undefined;
mod variable_numbers;
mod variable_pages;

pub use fault::LooseFault;
pub use loose::{GateLine, LatchLine, Loose};
pub use numbered::{Numbered, Numbering};
