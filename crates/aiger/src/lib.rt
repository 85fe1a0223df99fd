//! Literals, and-inverter circuits with names, and their traces, after "AIGER 1.9 and Beyond".
#![tactic(auto)]

mod circuit;
mod fault;
mod flat_names;
mod justice;
pub mod laws;
mod lists;
mod literal;
mod names;

pub use circuit::{Circuit, GREATEST_COUNT, Gate, Latch, Reset, Section, push_counted};
pub use fault::CircuitFault;
pub use justice::push_justice;
pub use lists::{CircuitLists, Properties};
pub use literal::Lit;
pub use names::{LONGEST_NAME, NameKeeper, is_good_name};
