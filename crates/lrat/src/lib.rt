//! Proofs with hints as texts, and how they are judged over a formula.
#![tactic(auto)]

mod coded;
pub mod laws;
mod lrat_judge;
mod scan;
mod step_reader;
mod text_judge;
mod token;
mod word_at;

pub use lrat_judge::LratJudge;
