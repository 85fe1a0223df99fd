//! Vectors of operators: the lines that write them, judged by the evaluator and by the circuits that the operators are
//! lowered to.
#![tactic(auto)]

mod circuits;
mod judging;
mod lines;

pub use judging::{Report, judge_vectors};
pub use lines::{LinesFault, Vector};
