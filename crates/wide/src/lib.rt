//! Models with words of any width up to a greatest one, as checked lists of lines.
#![tactic(auto)]

mod constant;
mod entries;
pub mod laws;
mod model;
mod numbers;

pub use constant::{Constant, Line, Spelling};
pub use model::{WideModel, constant_fits};
