//! The lines that make words of any width in a model of the profile: each operator by pieces of at most 64 bits.
#![tactic(auto)]

mod constants;
mod cuts;
mod increments;
mod joins;
pub mod laws;
mod maker;
mod moves;
mod node;
mod order;
mod overflows;
mod piecewise;
mod product_overflows;
mod products;
mod quotients;
mod shifts;
mod shortage;
mod signed;
mod signed_quotients;
mod sizes;
mod sums;
mod tests;
mod turns;

pub use constants::constant;
pub use cuts::cut;
pub use increments::{dec, inc, neg};
pub use joins::{concat, sext, slice, uext};
pub use maker::Maker;
pub use node::Node;
pub use order::{ugt, ugte, ult, ulte};
pub use overflows::{saddo, ssubo, uaddo, usubo};
pub use piecewise::{bitwise, choice, not};
pub use product_overflows::{smulo, umulo};
pub use products::mul;
pub use quotients::{udiv, urem};
pub use shifts::{sll, sra, srl};
pub use shortage::Shortage;
pub use signed::{sgt, sgte, slt, slte};
pub use signed_quotients::{sdiv, sdivo, smod, srem};
pub use sums::{add, sub};
pub use tests::{eq, neq, redand, redor, redxor};
pub use turns::{rol, ror};
