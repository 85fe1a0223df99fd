//! The gate maker that makes each gate anew.
ghost use Rattle.std.specs.Prelude.{◌≡◌, ◌+◌, ◌*◌, ◌<◌, ◌≤◌, ◌↔◌, [], IfOk, IfErr, OnErr, IsErrOf};
ghost use Rattle.aiger.specs.Limits.{greatest_count};
ghost use Rattle.aiger.specs.Net.{variables, IsDefined};
ghost use Rattle.aiger.specs.Circuit.{net, with_gate};
ghost use Rattle.gates.specs.Made.{MakesAnd, RefusesGate, gates_only};
ghost use Rattle.gates.specs.Shared.{HasValuations};

use crate::fault::GateFault;
use crate::laws::gates_have_valuations;
use crate::maker::Gates;
use crate::pair::{Pair, pair_of};
use aiger::{Circuit, CircuitFault, Lit};
use std::alloc::Global;
use std::marker::Model;

/// A gate maker that makes each gate that it is asked for.
#[derive(Drop)]
pub struct PlainGates {
    circuit: Circuit,
}

impl Model for PlainGates {
    ghost use Rattle.std.specs.Prelude.{◌≡◌};
    ghost use Rattle.aiger.specs.Net.{Net};
    ghost use Rattle.aiger.specs.Circuit.{net};
    ghost use Rattle.gates.specs.Made.{gates_only};

    ghost Value = { Net };

    ghost view = { λ p. net p.circuit };

    ghost invariant = { λ p. p.circuit ≡ gates_only (net p.circuit) };
}

impl PlainGates {
    /// A maker over so many inputs and latches, with no gate.
    ///
    /// Errors: `TooBig` where their sum is above 2^30, `NoMemory`.
    pub fn new(alloc: Global, inputs: u32, latches: u32) -> Result<PlainGates, GateFault>
        ensures ok { IfOk result (λ made. made
            ≡ record { inputs = inputs; latches = latches; gates = [] }) }
        ensures too_big { IsErrOf result GateFault.TooBig ↔ (greatest_count < inputs + latches) }
    {
        match Circuit::new(alloc, inputs, latches) {
            Ok(circuit) => Ok(PlainGates { circuit }),
            Err(CircuitFault::TooBig) => Err(GateFault::TooBig),
            Err(_) => Err(GateFault::NoMemory),
        }
    }

    /// The circuit of these inputs, latches and gates, and nothing else. It takes no memory.
    ///
    /// Any bits of the inputs and the latches have a valuation that satisfies the gates.
    pub fn finish(self) -> Circuit
        ensures circuit { result ≡ gates_only self }
        ensures valuations { HasValuations self }
    {
        gates_have_valuations(&self.circuit);
        self.circuit
    }
}

/// Adds a gate to a circuit.
pub(crate) fn push(circuit: &mut Circuit, pair: Pair) -> Result<Lit, GateFault>
    requires order { pair.rhs1 ≤ pair.rhs0 }
    requires defined { IsDefined (net circuit.old) pair.rhs0 }
    ensures ok { IfOk result (λ l. (circuit.new ≡ with_gate circuit.old pair.rhs0 pair.rhs1)
        × (l ≡ 2 * (variables (net circuit.old) + 1))) }
    ensures err { OnErr result (circuit.new ≡ circuit.old) }
    ensures too_big { IsErrOf result GateFault.TooBig
        ↔ (greatest_count < variables (net circuit.old) + 1) }
{
    match circuit.push_gate(Lit::new(pair.greater), Lit::new(pair.smaller)) {
        Ok(lit) => Ok(lit),
        Err(CircuitFault::TooBig) => Err(GateFault::TooBig),
        Err(CircuitFault::NoMemory) => Err(GateFault::NoMemory),
        Err(_) => unreachable!(),
    }
}

impl Gates for PlainGates {
    ghost made = { λ p. p };

    /// A gate of the two operands.
    fn and(&mut self, a: Lit, b: Lit) -> Result<Lit, GateFault>
        requires left { IsDefined self.old a }
        requires right { IsDefined self.old b }
        ensures ok { IfOk result (MakesAnd self.old self.new a b) }
        ensures err { OnErr result (self.new ≡ self.old) }
        ensures refused { IfErr result (RefusesGate self.old self.new 1) }
        ensures own { IfOk result (λ l. l ≡ 2 * (variables self.old + 1)) }
        ensures too_big { IsErrOf result GateFault.TooBig
            ↔ (greatest_count < variables self.old + 1) }
    {
        push(&mut self.circuit, pair_of(a, b))
    }
}
