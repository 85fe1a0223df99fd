//! The whole safety language of BTOR2: definitions and laws.
#![tactic(auto)]

pub mod laws;
