//! Laws over the definitions of several crates: what can be reached is accepted, and all ways of saying so have one meaning; a
//! strict text is tidied already; and where reading a text stops, the text stops to be the beginning of one. They stand in a crate
//! of their own, on which no code stands, so that nothing waits for them.
#![tactic(auto)]

pub mod first_faults;
pub mod reaching;
pub mod strict_texts;
