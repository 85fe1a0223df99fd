//! Judging a witness over a model with words of any width by the model of the profile that it is fitted into, while its text streams.
#![tactic(auto)]

mod assigned;
mod giving;
mod hearing;
mod judging;
pub mod laws;
mod making;
mod rising;
mod spreader;
mod spreading;
mod words;

pub use hearing::{Both, Hearer};
pub use judging::{judge_spread, judge_spread_by};
pub use making::Lines;
pub use rising::{RiseHearer, judge_spread_with_rises};
pub use spreader::{Part, begins_part, part_behind};
pub use spreading::{spread, spread_by, spread_heard};
