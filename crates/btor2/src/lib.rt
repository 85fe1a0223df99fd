//! Word-level models as checked lists of items, and their traces, after "Btor2, BtorMC and Boolector 3.0".
#![tactic(auto)]

mod decimal;
mod fault;
mod item;
pub mod laws;
mod leaves;
mod model;
mod name_bytes;
mod operands;
mod symbol;

pub use decimal::Decimal;
pub use fault::PushFault;
pub use item::{Body, Item};
pub use leaves::Leaves;
pub use model::Model;
pub use operands::Operands;
pub use symbol::{Symbol, SymbolFault, printed_front};
