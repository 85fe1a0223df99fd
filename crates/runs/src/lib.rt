//! Runs of models, with the words of all nodes, and of circuits, with the bits of all variables, frame by frame. The
//! laws of its definitions stand in `laws`.
#![tactic(auto)]

mod arranging;
mod bit_passes;
mod bit_run;
mod fault;
pub mod laws;
mod nodes;
mod passes;
mod resolving;
mod word_run;

pub use bit_run::BitRun;
pub use fault::NewFault;
pub use word_run::WordRun;
