//! Models of the whole safety language of BTOR2, written out as lists of wide items.
#![tactic(auto)]

mod arrays;
mod choices;
mod fault;
mod forms;
mod known;
mod late;
pub mod laws;
mod leaves;
mod lines;
mod lists;
mod live;
mod needs;
mod nodes;
mod operands;
mod ordered;
mod putting;
mod states;
mod symbols;
mod tables;
mod way;
mod writing;

pub use fault::WriteFault;
pub use writing::{Written, write_out, write_out_with_nodes};
