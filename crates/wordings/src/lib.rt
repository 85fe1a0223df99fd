//! What the words of a command line say: by a table of the commands and their words, an order or a list of judgements.
#![tactic(auto)]

mod contents;
pub mod laws;
mod parts;
mod reading;
mod table;
mod taking;
mod tasks;
mod worked;

pub use reading::{list_said, order_said, request_said};
pub use table::{Kind, Verb, Word, verb_of, verbs, word_of, words_of};
