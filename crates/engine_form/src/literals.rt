//! The literals of an engine form, and the gates that they take.
ghost use Rattle.std.specs.Prelude.{◌≡◌, ◌+◌, ◌≤◌, suc, true, length, All, IfOk, IfErr};
ghost use Rattle.aiger.specs.Limits.{greatest_count};
ghost use Rattle.aiger.specs.Net.{IsDefined, variables};
ghost use Rattle.aiger.specs.Circuit.{net};
ghost use Rattle.gates.specs.Made.{RefusesGate};
ghost use Rattle.engine_form.specs.EngineForm.{has_chosen, engine_cost};
ghost use Rattle.engine_form.specs.Reads.{sizes_of, started_literal, before_literal, bare_net, PropertiesRead, FormMade};
ghost use Rattle.engine_form.specs.Refusal.{engine_bound};

use crate::choice::chosen;
use crate::properties::bad_literals;
use crate::sizes::Sizes;
use crate::table::variable_literals;
use aiger::{Circuit, Lit};
use gates::{GateFault, Gates, Table, all_hold, variable_literal};
use std::alloc::Global;

/// The literals of an engine form.
#[derive(Drop)]
pub(crate) struct Literals {
    /// What stands for false and for each variable of the circuit.
    pub table: Table,
    /// All constraints held so far, in this frame too.
    pub met: Lit,
    /// The bad properties.
    pub bads: Vec<Lit>,
}

/// The literal that says that the first frame is over, where some latch has no initial value.
fn started(circuit: &Circuit, sizes: Sizes) -> Lit
    requires sizes { sizes ≡ sizes_of circuit.now }
    requires small { engine_bound circuit.now ≤ greatest_count }
    ensures { result ≡ started_literal circuit.now }
{
    if sizes.has_free {
        variable_literal(sizes.inputs + 1 + circuit.latches().len() as u32)
    } else {
        Lit::TRUE
    }
}

/// The literal that says that no constraint was 0 in an earlier frame.
fn before(circuit: &Circuit, sizes: Sizes) -> Lit
    requires sizes { sizes ≡ sizes_of circuit.now }
    requires small { engine_bound circuit.now ≤ greatest_count }
    ensures { result ≡ before_literal circuit.now }
{
    if sizes.has_constraint {
        variable_literal(sizes.inputs + sizes.latches).not()
    } else {
        Lit::TRUE
    }
}

/// Makes the gates of the constraints and bad properties, where these literals stand for the circuit's variables and one
/// says that no constraint was 0 in an earlier frame.
fn make_properties<G: Gates>(
    alloc: Global,
    g: &mut G,
    circuit: &Circuit,
    choice: Option<usize>,
    before: Lit,
    table: Table,
) -> Result<Literals, GateFault>
    requires has_bad { has_chosen choice circuit.now.bads ≡ true }
    requires before { IsDefined (G.made g.old) before }
    requires many { length table ≡ suc (variables (net circuit.now)) }
    requires table { All (IsDefined (G.made g.old)) table }
    ensures ok { IfOk result (λ l. (l.table ≡ table)
        × PropertiesRead circuit.now choice before (G.made g.old)
        (G.made g.new) table l.met l.bads.items) }
    ensures refused { IfErr result (RefusesGate (G.made g.old) (G.made g.new)
        (length circuit.now.constraints + length circuit.now.bads)) }
{
    let met = all_hold(g, &table, circuit.constraints(), before)?;
    let bads = bad_literals(alloc, g, &table, chosen(circuit, choice), met)?;
    Ok(Literals { table, met, bads })
}

/// Makes the gates of an engine form, over a maker that has made none yet.
///
/// Errors: `TooBig` only where the bound on the variables is above 2^30, `NoMemory`.
pub(crate) fn make<G: Gates>(
    alloc: Global,
    g: &mut G,
    circuit: &Circuit,
    choice: Option<usize>,
    sizes: Sizes,
) -> Result<Literals, GateFault>
    requires sizes { sizes ≡ sizes_of circuit.now }
    requires bare { G.made g.old ≡ bare_net circuit.now }
    requires small { engine_bound circuit.now ≤ greatest_count }
    requires has_bad { has_chosen choice circuit.now.bads ≡ true }
    ensures ok { IfOk result
        (λ l. FormMade circuit.now choice (G.made g.new) l.table l.met l.bads.items) }
    ensures refused { IfErr result (RefusesGate (bare_net circuit.now) (G.made g.new)
        (engine_cost circuit.now)) }
{
    let table = variable_literals(alloc, g, sizes.inputs, started(circuit, sizes), circuit)?;
    make_properties(alloc, g, circuit, choice, before(circuit, sizes), table)
}
