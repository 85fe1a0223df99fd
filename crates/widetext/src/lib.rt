//! Texts of models with words of any width, after "Btor2, BtorMC and Boolector 3.0".
#![tactic(auto)]

mod constants;
mod digits;
pub mod laws;
mod reading;

pub use constants::{cannot_fit, digits_at, number_of};
pub use reading::read;
