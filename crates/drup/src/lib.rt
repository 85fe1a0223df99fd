//! Formulas of clauses, what follows from clauses by unit propagation, and how proofs by it are judged.
#![tactic(auto)]

mod alike;
mod clause_blocks;
mod clause_list;
mod clauses;
mod fault;
mod formula;
mod formula_text;
mod hinted_judge;
mod hints;
mod id_places;
mod judgement;
pub mod laws;
mod lines;
mod lists;
mod literal;
mod named;
mod number;
mod passes;
mod places;
mod plain_lists;
mod proof_judge;
mod propagator;
mod starts;
mod step_judge;
mod step_reader;
mod sweep;
mod text_judge;
mod trail;
mod watches;
mod why;
mod word;

pub use fault::{ClauseFault, FormulaFault};
pub use formula::Formula;
pub use formula_text::write_formula;
pub use hinted_judge::HintedJudge;
pub use judgement::Judgement;
pub use lines::{Place, is_blank, is_too_many};
pub use number::Number;
pub use proof_judge::ProofJudge;
pub use propagator::Propagator;
pub use step_judge::StepJudge;
pub use why::Why;
pub use word::{Said, Word};
