//! Lists of wide items that grow by lines under the ids 1, 2, 3, .., and arrays as words in them.
#![tactic(auto)]

pub mod laws;
mod maker;
mod shortage;

pub use maker::ListMaker;
pub use shortage::Shortage;
