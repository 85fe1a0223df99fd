//! The texts of witnesses as tools write them, made the strict texts that the judges take.
#![tactic(auto)]

mod fault;
pub mod laws;
mod line;
mod place;
mod tidier;
mod tidying;

pub use fault::TidyFault;
pub use place::Place;
pub use tidying::tidy;
