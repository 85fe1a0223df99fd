//! Texts of models of the whole safety language, after "Btor2, BtorMC and Boolector 3.0".
#![tactic(auto)]

mod constants;
mod decimals;
mod digits;
mod forms;
mod kinds;
pub mod laws;
mod pieces;
mod reading;
mod says;
mod signs;
mod words;
mod writing;

pub use reading::read;
pub use writing::write;
