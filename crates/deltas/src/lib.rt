//! Deltas: the numbers by which the binary form of a circuit names its gates' operands, seven bits a byte, lowest first
//! ("AIGER 1.9 and Beyond", binary format).
#![tactic(auto)]

pub mod laws;
mod pairs;
mod reading;
mod writing;

pub use pairs::{DeltaPair, read_pair};
pub use reading::{DeltaFault, read};
pub use writing::write;
