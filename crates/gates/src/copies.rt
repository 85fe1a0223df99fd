//! Gates of a circuit made again, over literals that stand for its variables.
ghost use Rattle.std.specs.Prelude.{◌≡◌, ℕ, ◌+◌, ◌<◌, ◌&&◌, ◌++◌, List, length, All, IfOk, IfErr, OnOk, slice_index};
ghost use Rattle.std.specs.List.{list_all};
ghost use Rattle.base.specs.Literal.{variable, literal_value};
ghost use Rattle.aiger.specs.Net.{IsDefined, AreOrderedFrom};
ghost use Rattle.gates.specs.Made.{MakesAnd, MakesLiteral, RefusesGate};
ghost use Rattle.gates.specs.Reads.{literal_in, GatesRead};

use crate::fault::GateFault;
use crate::maker::Gates;
use crate::table::Table;
use aiger::{Gate, Lit};

/// The literal that stands for a literal of the circuit. It takes no gate.
///
/// Condition: the table has its variable.
pub fn literal_of(table: &Table, lit: Lit) -> Lit
    requires { variable lit < length table.now }
    ensures { result ≡ literal_in table.now lit }
{
    let own = table.at(lit.var());
    if lit.number() % 2 == 0 {
        own
    } else {
        own.not()
    }
}

/// Adds the literals that stand for gates, at most one gate for each.
///
/// Conditions: the table has a literal for false, which is false, and for each variable below the first gate's; the gates
/// are in order, and all literals are defined. Errors: `TooBig` only where the variables so far and the gates sum to more
/// than 2^30, `NoMemory`; the gates made so far stay.
pub fn push_gates<G: Gates>(g: &mut G, gates: &[Gate], table: &mut Table) -> Result<(), GateFault>
    requires some { 0 < length table.old }
    requires zero { slice_index table.old 0 ≡ 0 }
    requires ordered { AreOrderedFrom (length table.old) gates.now }
    requires defined { All (IsDefined (G.made g.old)) table.old }
    ensures ok { OnOk result ((more : List ℕ) × (table.new ≡ table.old ++ more)
        × GatesRead (G.made g.old) (G.made g.new) (length table.old) gates.now table.old more) }
    ensures refused { IfErr result (RefusesGate (G.made g.old) (G.made g.new) (length gates.now)) }
{
    for gate in gates {
        let lit = g.and(literal_of(table, gate.rhs0), literal_of(table, gate.rhs1))?;
        match table.push(lit) {
            Ok(()) => {}
            Err(fault) => return Err(fault),
        }
    }
    Ok(())
}

/// The literal that is true where another one is and a constraint holds.
fn held<G: Gates>(g: &mut G, table: &Table, constraint: Lit, met: Lit) -> Result<Lit, GateFault>
    requires inside { variable constraint < length table.now }
    requires defined { All (IsDefined (G.made g.old)) table.now }
    requires met { IsDefined (G.made g.old) met }
    ensures ok { IfOk result (MakesAnd (G.made g.old) (G.made g.new) met
        (literal_in table.now constraint)) }
    ensures refused { IfErr result (RefusesGate (G.made g.old) (G.made g.new) 1) }
{
    g.and(met, literal_of(table, constraint))
}

/// The literal that is true where another one is and all constraints hold, with at most one gate for each.
///
/// Conditions: the table has the constraints' variables, and all literals are defined. Errors: `TooBig` only where the
/// variables so far and the constraints sum to more than 2^30, `NoMemory`; the gates made so far stay.
pub fn all_hold<G: Gates>(
    g: &mut G,
    table: &Table,
    constraints: &[Lit],
    met: Lit,
) -> Result<Lit, GateFault>
    requires inside { All (λ l. variable l < length table.now) constraints.now }
    requires defined { All (IsDefined (G.made g.old)) table.now }
    requires met { IsDefined (G.made g.old) met }
    ensures ok { IfOk result (MakesLiteral (G.made g.old) (G.made g.new) (length constraints.now)
        (λ v. literal_value v met && list_all (λ l. literal_value v (literal_in table.now l))
        constraints.now)) }
    ensures refused { IfErr result (RefusesGate (G.made g.old) (G.made g.new)
        (length constraints.now)) }
{
    let mut met = met;
    for constraint in constraints {
        met = held(g, table, *constraint, met)?;
    }
    Ok(met)
}
