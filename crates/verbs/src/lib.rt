//! What the program does with texts, said once: each verb over sources and sinks, with a record as its answer. No file, no
//! clock and no name of a file is in it, and nothing is told.
#![tactic(auto)]

mod asked;
mod certifying;
mod claims;
mod converting;
mod dumping;
mod fits;
mod fitted;
mod given;
mod judging;
mod judging_whole;
mod lifting;
mod lifting_fitted;
mod lowering;
mod outcomes;
mod owing;
mod reading;
mod refusals;
mod restoring;
mod subjects;
mod told;
mod unfitting;
mod whole;
mod whole_model;

pub use certifying::{JudgedCertificate, certify, owe};
pub use converting::{convert, convert_for_engines, convert_outputs, convert_outputs_for_engines};
pub use dumping::dump;
pub use fitted::fit;
pub use given::{GivenCircuit, GivenModel, Lowered};
pub use judging::{
    JudgedOverCircuit, JudgedOverModel, judge_for_circuit, judge_for_model, judge_over_circuit,
    judge_over_model,
};
pub use judging_whole::{JudgedFitted, judge_fitted_for};
pub use lifting::{FoundLifted, Lifted, lift, lift_found, lift_from_form};
pub use lifting_fitted::{
    FoundLiftedFitted, LiftedFitted, lift_fitted, lift_found_fitted, lift_from_form_fitted,
};
pub use lowering::{
    Cost, cost_of, cost_of_fitted, lower, lower_fitted, lower_fitted_for_engines, lower_for_engines,
};
pub use outcomes::Outcome;
pub use reading::{read_model, read_whole_model};
pub use refusals::{Claimed, Device, Fault, Refusal};
pub use restoring::{FoundRestored, Restored, restore_found, restore_from_form};
pub use subjects::{Counts, Lines, Named, Subject};
pub use unfitting::{judge_fitted, spread, unfit};
pub use whole_model::WholeModel;
