//! Tests of the libraries up to texts and gates, of what no clause says and no row of the crate `cli_rows` shows, and what tests
//! here and in the crates above speak of. They stand in crates of their own because a crate with tests is proved twice, and in
//! several because those of the lower libraries need not wait for the upper ones.
#![tactic(auto)]

#[cfg(test)]
mod circuits;
#[cfg(test)]
mod devices;
#[cfg(test)]
mod engine_forms;
#[cfg(test)]
mod gate_makers;
#[cfg(test)]
mod guarding_circuits;
#[cfg(test)]
mod kept_rows;
#[cfg(test)]
mod models;
#[cfg(test)]
mod operator_tables;
#[cfg(test)]
mod printing;
#[cfg(test)]
mod proof_cuts;
#[cfg(test)]
mod refused_memory;
pub mod samples;
#[cfg(test)]
mod sizes;
#[cfg(test)]
mod sources_and_sinks;
#[cfg(test)]
mod tidied_witnesses;
#[cfg(test)]
mod wide_texts;
