//! Lists of wide items in which each array has a leaf for each of its cells.
#![tactic(auto)]

mod bodies;
mod digits;
mod inits;
mod known;
pub mod laws;
mod leaves;
mod lines;
mod names;
mod nexts;
mod putting;
mod splitting;
mod table;
mod written;

pub use splitting::split_arrays;
pub use written::{Celled, write_out, write_out_with_words};
