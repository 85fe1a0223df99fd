//! Models of the whole safety language of BTOR2, as checked lists of lines.
#![tactic(auto)]

mod bodies;
mod entries;
mod fault;
pub mod laws;
mod line;
mod model;
mod sorts;

pub use fault::LineFault;
pub use line::{Line, Operand, Says};
pub use model::FullModel;
pub use sorts::Sort;
