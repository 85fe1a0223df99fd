//! What the words of a command line ask for, done: one command on its files, or the judgements of a list.
#![tactic(auto)]

mod line_words;
mod lists;
mod running;
mod told_lines;

pub use running::{Surroundings, run_on_words};
