//! What a circuit is made of.
ghost use Rattle.std.specs.Prelude.{◌≡◌, []};

use crate::circuit::{Gate, Latch};
use crate::literal::Lit;
use crate::names::NameKeeper;
use base::Rows;
use std::alloc::Global;

/// What a circuit puts out, and what is asked of it.
#[derive(Drop)]
pub struct Properties {
    /// The outputs.
    pub outputs: Vec<Lit>,
    /// The bad properties.
    pub bads: Vec<Lit>,
    /// The constraints.
    pub constraints: Vec<Lit>,
    /// The justice properties, a row of literals for each.
    pub justice: Rows<Lit>,
    /// The fairness constraints.
    pub fair: Vec<Lit>,
}

impl Properties {
    /// None. It takes no memory.
    pub fn new(alloc: Global) -> Properties
        ensures outputs { result.outputs.items ≡ [] }
        ensures bads { result.bads.items ≡ [] }
        ensures constraints { result.constraints.items ≡ [] }
        ensures justice { result.justice ≡ [] }
        ensures fair { result.fair.items ≡ [] }
    {
        Properties {
            outputs: Vec::new(alloc),
            bads: Vec::new(alloc),
            constraints: Vec::new(alloc),
            justice: Rows::new(alloc),
            fair: Vec::new(alloc),
        }
    }
}

/// The lists of a circuit, and the names of its positions. They need not be those of a circuit: a literal may be of a
/// variable that is not there.
#[derive(Drop)]
pub struct CircuitLists {
    /// How many inputs there are.
    pub inputs: u32,
    /// The latches: their next literals, and how they begin.
    pub latches: Vec<Latch>,
    /// The gates: their operands.
    pub gates: Vec<Gate>,
    /// The properties.
    pub properties: Properties,
    /// The names.
    pub names: NameKeeper,
}
