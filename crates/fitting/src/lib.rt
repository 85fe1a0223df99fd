//! Models with words of any width, fitted line by line into models of the profile.
#![tactic(auto)]

mod constants;
mod digits;
mod fault;
mod fitter;
mod forms;
pub mod laws;
mod leaves;
mod models;
mod names;
mod operators;
mod placed;
mod transitions;
mod unfitted;
mod words;

pub use constants::body_digits;
pub use digits::constant_digits;
pub use fault::FitFault;
pub use fitter::Fitter;
pub use models::fit;
pub use names::symbol_before;
pub use placed::{Fitted, fit_with_places};
pub use unfitted::Unfitted;
