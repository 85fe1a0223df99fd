//! An order of numbers in which each stands behind all that it needs, or a circle of needs.
#![tactic(auto)]

mod fault;
pub mod laws;
mod ordering;
mod walk;

pub use fault::OrderFault;
pub use ordering::order;
