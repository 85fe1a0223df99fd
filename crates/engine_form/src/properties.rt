//! The literals of bad properties.
ghost use Rattle.std.specs.Prelude.{◌<◌, length, All, IfOk, IfErr};
ghost use Rattle.base.specs.Literal.{variable};
ghost use Rattle.aiger.specs.Net.{IsDefined};
ghost use Rattle.gates.specs.Made.{RefusesGate};
ghost use Rattle.engine_form.specs.Reads.{BadLiteralsRead};

use aiger::Lit;
use gates::{GateFault, Gates, Table, literal_of};
use std::alloc::Global;

/// The literals that are true where those of bad properties are and another one is.
pub(crate) fn bad_literals<G: Gates>(
    alloc: Global,
    g: &mut G,
    table: &Table,
    bads: &[Lit],
    met: Lit,
) -> Result<Vec<Lit>, GateFault>
    requires inside { All (λ l. variable l < length table.now) bads.now }
    requires defined { All (IsDefined (G.made g.old)) table.now }
    requires met { IsDefined (G.made g.old) met }
    ensures ok { IfOk result (λ literals. BadLiteralsRead (G.made g.old)
        (G.made g.new) table.now bads.now met literals.items) }
    ensures refused { IfErr result (RefusesGate (G.made g.old) (G.made g.new) (length bads.now)) }
{
    let mut literals = Vec::new(alloc);
    for bad in bads {
        let lit = g.and(literal_of(table, *bad), met)?;
        if literals.push(lit).is_err() {
            return Err(GateFault::NoMemory);
        }
    }
    Ok(literals)
}
