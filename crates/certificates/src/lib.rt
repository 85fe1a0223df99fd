//! Invariants of circuits by cubes of states, what the texts of invariants say, the formulas that nothing satisfies exactly
//! where cubes are an invariant, and how certificates are judged: invariants with proofs of that. The laws of the definitions
//! stand in `laws`.
#![tactic(auto)]

mod certificate_fault;
mod claim_fault;
mod claims;
mod cubes;
mod expected;
mod fault;
mod judging;
mod kept;
pub mod laws;
mod names;
mod obligations;
mod progress;
mod proof_form;
mod reader;
mod why;
mod words;

pub use certificate_fault::CertificateFault;
pub use claim_fault::ClaimFault;
pub use claims::owed_formula;
pub use fault::ObligationFault;
pub use judging::{judge_certificate, judge_proof};
pub use kept::Invariant;
pub use obligations::obligation;
pub use proof_form::ProofForm;
pub use reader::read_invariant;
pub use why::{InvariantFault, InvariantWhy};
