//! Witness circuits as certificates that a bad property of a circuit never rises, and the circuit that tests one. The laws of
//! their definitions stand in `laws`.
#![tactic(auto)]

mod conditions;
mod copies;
mod fault;
pub mod laws;
mod making;
mod mapping;
mod owing;
mod sizes;
mod starts;
mod witness_fault;

pub use fault::TestFault;
pub use making::test_circuit;
pub use owing::{owed_formula, owed_formula_over_form};
pub use witness_fault::WitnessFault;
