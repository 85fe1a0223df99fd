//! What the program does: each command over sources and sinks.
#![tactic(auto)]

mod destinations;
mod on_files;
mod outputs;
mod running;
#[cfg(test)]
mod tests;

pub use destinations::{FileName, FileOutput, SystemFiles};
pub use on_files::run_on_files;
pub use outputs::run_to_file;
pub use running::run;
