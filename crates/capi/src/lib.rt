//! The library for C programs: what the verbs do, over whole texts in memory. `include/hwtool.h` says what each call takes and
//! answers, and what the caller owes.
#![tactic(auto)]

mod answers;
mod buffers;
mod certifying;
mod claiming;
mod fitted;
mod flags;
mod judging;
mod lifting;
mod lifting_fitted;
mod lowering;
mod names;
mod restoring;

pub use answers::{Claim, Refusal, Verdict};
