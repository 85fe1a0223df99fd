//! Witnesses over a model with words of any width, of those over the model of the profile that it is fitted into.
#![tactic(auto)]

mod assignments;
mod digits;
mod frame;
mod known;
pub mod laws;
mod names;
mod titles;
mod told_pieces;
mod unfitter;
mod unfitting;
mod words;

pub use digits::add_digits;
pub use names::Names;
pub use titles::{Titles, add_name};
pub use unfitting::{unfit, unfit_by};
