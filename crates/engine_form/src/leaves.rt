//! The literals that stand for the latches of a circuit.
ghost use Rattle.std.specs.Prelude.{◌≡◌, ℕ, ◌+◌, ◌*◌, ◌<◌, ◌≤◌, ◌++◌, List, length, IfOk, IfErr, OnOk};
ghost use Rattle.base.specs.Literal.{literal_value};
ghost use Rattle.aiger.specs.Limits.{greatest_count};
ghost use Rattle.aiger.specs.Net.{IsDefined, variables};
ghost use Rattle.gates.specs.Made.{MakesLiteral, RefusesGate};
ghost use Rattle.engine_form.specs.EngineForm.{taken_bits, free_count};
ghost use Rattle.engine_form.specs.Reads.{latch_value, LatchLiteralsRead};

use crate::sizes::taken_bits;
use aiger::{Latch, Lit, Reset};
use gates::{GateFault, Gates, Table, mux, variable_literal};

/// The literal that stands for a latch: what is kept of it, or its negation; where it has no initial value the input in the
/// first frame, and then what is kept of it.
fn latch_literal<G: Gates>(
    g: &mut G,
    reset: Reset,
    own: Lit,
    input: Lit,
    started: Lit,
) -> Result<Lit, GateFault>
    requires own { IsDefined (G.made g.old) own }
    requires input { IsDefined (G.made g.old) input }
    requires started { IsDefined (G.made g.old) started }
    ensures ok { IfOk result (MakesLiteral (G.made g.old) (G.made g.new) (3 * taken_bits reset)
        (λ v. latch_value reset (literal_value v own) (literal_value v input)
        (literal_value v started))) }
    ensures refused { IfErr result (RefusesGate (G.made g.old) (G.made g.new)
        (3 * taken_bits reset)) }
{
    match reset {
        Reset::Zero => Ok(own),
        Reset::One => Ok(own.not()),
        Reset::Free => mux(g, started, own, input),
    }
}

/// Adds the literals that stand for the latches, whose kept bits and given bits stand from two variables on.
pub(crate) fn push_latches<G: Gates>(
    g: &mut G,
    latches: &[Latch],
    own: u32,
    input: u32,
    started: Lit,
    table: &mut Table,
) -> Result<(), GateFault>
    requires some { 0 < input }
    requires inputs { input + free_count latches.now ≤ own }
    requires own { own + length latches.now ≤ variables (G.made g.old) + 1 }
    requires small { variables (G.made g.old) ≤ greatest_count }
    requires started { IsDefined (G.made g.old) started }
    ensures ok { OnOk result ((more : List ℕ) × (table.new ≡ table.old ++ more)
        × LatchLiteralsRead (G.made g.old) (G.made g.new) (3 * free_count latches.now) latches.now
        own input started more) }
    ensures refused { IfErr result (RefusesGate (G.made g.old) (G.made g.new)
        (3 * free_count latches.now)) }
{
    let mut input = input;
    for (j, latch) in latches.iter().enumerate() {
        let lit = latch_literal(
            g,
            latch.reset,
            variable_literal(own + j as u32),
            variable_literal(input),
            started,
        )?;
        match table.push(lit) {
            Ok(()) => {}
            Err(fault) => return Err(fault),
        }
        input += taken_bits(latch.reset);
    }
    Ok(())
}
