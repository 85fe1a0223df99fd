//! Lists with words of any width, fitted into lists with narrower words, as into models of the profile.
#![tactic(auto)]

pub mod laws;
