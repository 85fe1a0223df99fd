//! The literals that stand for the variables of a circuit.
ghost use Rattle.std.specs.Prelude.{◌≡◌, ◌+◌, ◌*◌, ◌<◌, ◌≤◌, ◌++◌, ◌∷◌, [], length, map, slice_index, IfErr, OnOk};
ghost use Rattle.std.specs.List.{range_with_len};
ghost use Rattle.aiger.specs.Limits.{greatest_count};

use crate::fault::GateFault;
use aiger::Lit;
use std::alloc::Global;

/// The literal of a variable.
pub fn variable_literal(variable: u32) -> Lit
    requires { variable ≤ greatest_count }
    ensures { result ≡ 2 * variable }
{
    Lit::new(2 * variable)
}

/// The literals that stand for false, for so many variables, and for what is put behind them. False and these variables
/// stand for themselves, and take no memory.
#[derive(Drop)]
pub struct Table {
    inputs: u32,
    more: Vec<Lit>,
}

impl std::marker::Model for Table {
    ghost use Rattle.std.specs.Prelude.{List, ℕ};
    ghost use Rattle.gates.specs.Tables.{table_of, IsTable};

    ghost Value = { List ℕ };

    ghost view = { table_of };

    ghost invariant = { IsTable };
}

impl Table {
    /// The literals of false and so many variables. It takes no memory.
    pub fn new(alloc: Global, inputs: u32) -> Table
        requires { inputs ≤ greatest_count }
        ensures { result ≡ map (λ k. 2 * k) (range_with_len 0 (inputs + 1)) }
    {
        Table {
            inputs,
            more: Vec::new(alloc),
        }
    }

    /// The literal that stands for a variable.
    pub fn at(&self, variable: u32) -> Lit
        requires { variable < length self.now }
        ensures { result ≡ slice_index self.now variable }
    {
        if variable <= self.inputs {
            variable_literal(variable)
        } else {
            self.more[(variable - self.inputs - 1) as usize]
        }
    }

    /// Puts the literal of the next variable behind the others.
    ///
    /// Error: `NoMemory`.
    pub fn push(&mut self, lit: Lit) -> Result<(), GateFault>
        ensures ok { OnOk result (self.new ≡ self.old ++ lit ∷ []) }
        ensures memory { IfErr result (λ e. e ≡ GateFault.NoMemory) }
    {
        match self.more.push(lit) {
            Ok(()) => Ok(()),
            Err(_) => Err(GateFault::NoMemory),
        }
    }
}
