//! Circuits as text, after "AIGER 1.9 and Beyond".
#![tactic(auto)]

mod fault;
mod forms;
pub mod laws;
mod reading;
mod writing;

pub use fault::{ReadFault, Why};
pub use forms::Form;
pub use reading::{read, read_numbered};
pub use writing::{write, write_ascii, write_binary};
