//! The commands but for their files: each does what a verb does, and tells it on its streams.
#![tactic(auto)]

mod answers;
mod assumed;
mod certifying;
mod circuits;
mod files;
mod fitted;
mod json;
mod judgements;
pub mod laws;
mod lifting;
mod models;
mod named_files;
mod names;
mod objects;
mod progress;
mod reasons;
mod refusals;
mod restoring;
mod subjects;
mod telling;
mod tidying;
mod vector_reports;
mod waving;

pub use answers::{Answer, answered};
pub use certifying::{check_proof, write_obligation};
pub use circuits::{check_circuit, check_circuit_with};
pub use files::{LateFile, NoFile, Stream, open_input};
pub use fitted::{check_fitted, check_fitted_with, spread_witness, unfit_witness};
pub use lifting::{
    lift_counterexample, lift_fitted_counterexample, lift_fitted_form_witness, lift_fitted_witness,
    lift_form_witness, lift_witness,
};
pub use models::{check_model, check_model_with, show, show_whole, tell_cost, tell_cost_fitted};
pub use named_files::{NamedFiles, NoName, ResultName};
pub use objects::write_failed;
pub use progress::{Counted, Progress, Watched, Work};
pub use restoring::{restore_counterexample, restore_witness};
pub use telling::{end, tell, tell_device, tell_no_memory, tell_output, write_refusal};
pub use tidying::tidy_witness;
pub use vector_reports::compare_vectors;
pub use waving::dump_witness;
