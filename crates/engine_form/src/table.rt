//! The literals that stand for all variables of a circuit.
ghost use Rattle.std.specs.Prelude.{◌≡◌, ◌+◌, ◌*◌, ◌≤◌, length, IfOk, IfErr};
ghost use Rattle.aiger.specs.Limits.{greatest_count};
ghost use Rattle.aiger.specs.Net.{variables, IsDefined};
ghost use Rattle.gates.specs.Made.{RefusesGate};
ghost use Rattle.engine_form.specs.EngineForm.{free_count};
ghost use Rattle.engine_form.specs.Reads.{TableRead};

use crate::leaves::push_latches;
use aiger::{Circuit, Lit};
use gates::{GateFault, Gates, Table, push_gates};
use std::alloc::Global;

/// The literals that stand for false and all variables of a circuit, in a form of so many inputs, where a literal says that
/// the first frame is over.
pub(crate) fn variable_literals<G: Gates>(
    alloc: Global,
    g: &mut G,
    inputs: u32,
    started: Lit,
    circuit: &Circuit,
) -> Result<Table, GateFault>
    requires inputs { inputs ≡ (G.made g.old).inputs }
    requires enough { circuit.now.inputs + free_count circuit.now.latches ≤ inputs }
    requires latches { inputs + length circuit.now.latches ≤ variables (G.made g.old) }
    requires started { IsDefined (G.made g.old) started }
    requires small { variables (G.made g.old) ≤ greatest_count }
    ensures ok { IfOk result (λ table. TableRead circuit.now started (G.made g.old)
        (G.made g.new) table) }
    ensures refused { IfErr result (RefusesGate (G.made g.old) (G.made g.new)
        (length circuit.now.gates + 3 * free_count circuit.now.latches)) }
{
    let own = inputs + 1;
    let mut table = Table::new(alloc, circuit.inputs());
    push_latches(
        g,
        circuit.latches(),
        own,
        circuit.inputs() + 1,
        started,
        &mut table,
    )?;
    push_gates(g, circuit.gates(), &mut table)?;
    Ok(table)
}
