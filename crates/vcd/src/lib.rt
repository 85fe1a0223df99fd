//! Value change dumps of the frames of witnesses over models.
#![tactic(auto)]

mod apart;
mod changes;
mod declarations;
mod fault;
pub mod laws;
mod names;
mod scope;
mod signals;
mod waver;
mod waving;

pub use fault::WaveFault;
pub use scope::Shown;
pub use waving::wave;
