//! Lifting witnesses of circuits to witnesses of the models that they lower.
#![tactic(auto)]

pub mod engine_laws;
mod engine_lifting;
mod fault;
mod form_lifting;
pub mod laws;
mod lifter;
mod lifting;
mod pieces;

pub use engine_lifting::lift_restored;
pub use fault::LiftFault;
pub use form_lifting::lift_form;
pub use lifting::{lift, lift_with_rises};
pub use pieces::add_name_in_frame;
