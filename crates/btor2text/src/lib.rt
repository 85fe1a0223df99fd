//! Word-level models as text, after "Btor2, BtorMC and Boolector 3.0".
#![tactic(auto)]

mod constants;
mod fault;
mod forms;
mod items;
mod known_words;
pub mod laws;
mod line;
mod operators;
mod places;
mod reading;
mod tokens;
mod writing;

pub use fault::{ReadFault, Why};
pub use forms::{Constant, Extension, Form, Leaf, Link, Property};
pub use items::{body_at, symbol_at};
pub use known_words::KnownWords;
pub use operators::{binary_of, unary_of};
pub use places::{plain_at, sort_at};
pub use reading::read;
pub use tokens::next_token;
pub use writing::write;
