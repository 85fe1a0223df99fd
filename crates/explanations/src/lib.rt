//! What refusals mean and what to do about them, and the text that tells it of those that are asked for.
#![tactic(auto)]

mod explaining;
mod table;

pub use explaining::{Sought, explain};
pub use table::{Explanation, Part, refusal_table};
