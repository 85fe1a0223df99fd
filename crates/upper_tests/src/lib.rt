//! Tests of the libraries that stand on texts and gates: lowerings, runs, witnesses, lifting and the way back from engines,
//! of what no clause says and no row of the crate `cli_rows` shows.
#![tactic(auto)]

#[cfg(test)]
mod cuts;
#[cfg(test)]
mod judging;
#[cfg(test)]
mod large;
#[cfg(test)]
mod made;
#[cfg(test)]
mod no_memory_left;
#[cfg(test)]
mod restoring;
#[cfg(test)]
mod sizes;
#[cfg(test)]
mod texts;
#[cfg(test)]
mod too_big;
#[cfg(test)]
mod witnesses;
