//! Witnesses over a model of the whole language and over the model of the profile that it is fitted into, the one from the other.
#![tactic(auto)]

pub mod laws;
mod naming;
mod titles;
mod unfitting;

pub use naming::names_of;
pub use unfitting::unfit_full;
