//! Judging a witness over a model of the whole language by the list of words that the model is written out as.
#![tactic(auto)]

mod addresses;
mod compared;
mod first_words;
mod judging;
pub mod laws;
mod making;
mod owners;
mod spreading;
mod values;
mod word_lines;

pub use compared::StateWords;
pub use judging::{judge_full, judge_full_with_rises, of_values};
pub use making::WordLines;
pub use owners::value_of_word;
pub use spreading::spread_full;
pub use values::{Value, Values};
