//! Witnesses over models with words of any width: what they need to know of such a model, and how they are judged by the model that it is fitted into.
#![tactic(auto)]

mod fault;
pub mod laws;
mod shape;

pub use fault::UnfitFault;
pub use shape::{Shape, first_init_without_next};
