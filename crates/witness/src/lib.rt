//! Judges of witnesses: texts that claim that bad properties rise.
#![tactic(auto)]

mod bit_judge;
pub mod bit_laws;
mod bit_line;
mod bit_lines;
mod bit_play;
mod bit_reader;
mod claim_scan;
mod cut_line;
mod fault;
mod given;
mod judgement;
mod judging;
pub mod laws;
mod plain_line;
mod verdicts;
mod why;
mod word_claims;
mod word_fields;
mod word_judge;
mod word_line;
mod word_lines;
mod word_play;
mod word_reader;
mod word_value;

pub use bit_judge::BitJudge;
pub use bit_line::are_bits;
pub use bit_lines::BitLines;
pub use bit_play::first_violated;
pub use cut_line::CutLine;
pub use fault::JudgeFault;
pub use judgement::Judgement;
pub use judging::{judge_bits, judge_words};
pub use verdicts::{Breach, judgement_of, note_breach};
pub use why::Why;
pub use word_judge::WordJudge;
