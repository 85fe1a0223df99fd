//! Judging witnesses with the frames in which their claims are first reached.
#![tactic(auto)]

mod bit_noter;
mod first_rises;
pub mod laws;
mod noting;
mod word_noter;

pub use bit_noter::BitNoter;
pub use first_rises::FirstRises;
pub use noting::{judge_bits_with_rises, judge_words_with_rises};
pub use word_noter::note_words;
