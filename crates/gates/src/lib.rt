//! Gate makers, and the circuits of the word operators over any of them. The laws of its definitions stand in `laws`.
#![tactic(auto)]

mod adders;
mod bit_lists;
mod bitwise;
mod bound;
mod builders;
mod chains;
mod choices;
mod comparisons;
mod copies;
mod division;
mod fault;
mod folding;
pub mod laws;
mod literals;
mod maker;
mod multiplication;
mod overflows;
mod pair;
mod plain;
mod shared;
mod shifts;
mod signed_division;
mod sizes;
mod table;

pub use adders::{Added, add};
pub use bitwise::equal;
pub use bound::{Op, gate_bound};
pub use builders::{binary_bits, unary_bits};
pub use choices::ite_bits;
pub use comparisons::less;
pub use copies::{all_hold, literal_of, push_gates};
pub use division::{Divided, divide};
pub use fault::GateFault;
pub use literals::{disjunction, mux, xor};
pub use maker::{Bits, Gates};
pub use multiplication::mul;
pub use overflows::overflow;
pub use plain::PlainGates;
pub use shared::HashGates;
pub use shifts::{rotate, shift};
pub use signed_division::{sdiv, smod, srem};
pub use table::{Table, variable_literal};
