//! The words of the command line: the orders that they give, or what stands in place of one, as help.
#![tactic(auto)]

mod help_table;
mod reading_words;
mod refused_words;
mod terminals;

pub use help_table::{CommandFiles, command_at};
pub use reading_words::{given_words, order, request};
pub use terminals::{Terminals, request_at};
