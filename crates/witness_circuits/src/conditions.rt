//! The literal that says that a condition of a guard fails.
ghost use Rattle.std.specs.Prelude.{◌≡◌, ◌+◌, ◌<◌, ◌&&◌, [], suc, length, All, IfOk, IfErr, slice_index};
ghost use Rattle.base.specs.Literal.{literal_value};
ghost use Rattle.aiger.specs.Net.{variables, IsDefined};
ghost use Rattle.aiger.specs.Circuit.{net};
ghost use Rattle.gates.specs.Made.{MakesLiteral, RefusesGate};
ghost use Rattle.gates.specs.Reads.{read, literal_in};
ghost use Rattle.witness_circuits.specs.Certificate.{constraints_hold, bad_rises, property_candidates};
ghost use Rattle.witness_circuits.specs.Tests.{claim_holds};
ghost use Rattle.witness_circuits.specs.Made.{own_initial, fails_by, condition_cost, values, StandFor};

use crate::copies::Frames;
use crate::mapping::Shared;
use crate::starts::initial;
use aiger::{Circuit, Lit};
use gates::{GateFault, Gates, Table, all_hold, disjunction, literal_of};

/// The literals of which the first is true where the property of a witness circuit fails.
pub(crate) fn property_literals(witness: &Circuit) -> &[Lit]
    ensures { result.now ≡ property_candidates witness.now }
{
    let bads = witness.bads();
    if bads.is_empty() {
        witness.outputs()
    } else {
        bads
    }
}

/// The literal that says that all constraints of a circuit hold.
fn constraints_hold<G: Gates>(g: &mut G, circuit: &Circuit, table: &Table) -> Result<Lit, GateFault>
    requires { StandFor circuit.now (G.made g.old) table.now }
    ensures ok { IfOk result (MakesLiteral (G.made g.old) (G.made g.new)
        (length circuit.now.constraints) (λ v. constraints_hold circuit.now (read table.now v))) }
    ensures refused { IfErr result (RefusesGate (G.made g.old) (G.made g.new)
        (length circuit.now.constraints)) }
{
    all_hold(g, table, circuit.constraints(), Lit::TRUE)
}

/// The literal that stands for the one of which the property of a witness circuit fails.
fn property(witness: &Circuit, table: &Table) -> Lit
    requires some { 0 < length (property_candidates witness.now) }
    requires many { length table.now ≡ suc (variables (net witness.now)) }
    ensures { result ≡ literal_in table.now (slice_index (property_candidates witness.now) 0) }
{
    // what a circuit keeps
    let _ = witness.variables();
    literal_of(table, property_literals(witness)[0])
}

/// The literal that says that the constraints of a witness circuit hold, and its property.
fn claim_holds<G: Gates>(g: &mut G, witness: &Circuit, table: &Table) -> Result<Lit, GateFault>
    requires some { 0 < length (property_candidates witness.now) }
    requires stand { StandFor witness.now (G.made g.old) table.now }
    ensures ok { IfOk result (MakesLiteral (G.made g.old) (G.made g.new)
        (length witness.now.constraints + 1) (λ v. claim_holds witness.now (read table.now v))) }
    ensures refused { IfErr result (RefusesGate (G.made g.old) (G.made g.new)
        (length witness.now.constraints + 1)) }
{
    let met = constraints_hold(g, witness, table)?;
    g.and(met, property(witness, table).not())
}

/// The literal that says that both circuits begin.
fn both_begin<G: Gates>(
    g: &mut G,
    circuit: &Circuit,
    witness: &Circuit,
    shared: &Shared,
    latches: &[Lit],
    own_latches: &[Lit],
) -> Result<Lit, GateFault>
    requires latches { length latches.now ≡ length circuit.now.latches }
    requires own_latches { length own_latches.now ≡ length witness.now.latches }
    requires latches_defined { All (IsDefined (G.made g.old)) latches.now }
    requires own_latches_defined { All (IsDefined (G.made g.old)) own_latches.now }
    ensures ok { IfOk result (MakesLiteral (G.made g.old) (G.made g.new)
        (length circuit.now.latches + length witness.now.latches)
        (λ v. own_initial [] circuit.now.latches (values v latches.now)
        && own_initial shared.now.latches.items witness.now.latches (values v own_latches.now))) }
    ensures refused { IfErr result (RefusesGate (G.made g.old) (G.made g.new)
        (length circuit.now.latches + length witness.now.latches)) }
{
    let begun = initial(g, &[], circuit.latches(), latches, Lit::TRUE)?;
    initial(g, &shared.latches, witness.latches(), own_latches, begun)
}

/// The literals of what conditions speak of.
#[derive(Clone, Copy)]
struct Parts {
    /// The constraints of the circuit hold.
    met: Lit,
    /// Both circuits begin.
    begin: Lit,
    /// What the witness circuit claims holds.
    holds: Lit,
    /// The constraints of the circuit hold in the next frame.
    next_met: Lit,
    /// What the witness circuit claims holds in the next frame.
    next_holds: Lit,
    /// The bad property of the circuit rises.
    bad: Lit,
}

/// The literal that says that a condition fails: what is claimed does not begin to hold, does not go on to, or does not
/// exclude the bad property.
fn fails<G: Gates>(g: &mut G, parts: Parts) -> Result<Lit, GateFault>
    requires met { IsDefined (G.made g.old) parts.met }
    requires begin { IsDefined (G.made g.old) parts.begin }
    requires holds { IsDefined (G.made g.old) parts.holds }
    requires next_met { IsDefined (G.made g.old) parts.next_met }
    requires next_holds { IsDefined (G.made g.old) parts.next_holds }
    requires bad { IsDefined (G.made g.old) parts.bad }
    ensures ok { IfOk result (MakesLiteral (G.made g.old) (G.made g.new) 7
        (λ v. fails_by (literal_value v parts.met) (literal_value v parts.begin)
        (literal_value v parts.holds) (literal_value v parts.next_met)
        (literal_value v parts.next_holds) (literal_value v parts.bad))) }
    ensures refused { IfErr result (RefusesGate (G.made g.old) (G.made g.new) 7) }
{
    let begins_not = g.and(parts.begin, parts.holds.not())?;
    let next_not = g.and(parts.next_met, parts.next_holds.not())?;
    let goes_on_not = g.and(parts.holds, next_not)?;
    let excludes_not = g.and(parts.holds, parts.bad)?;
    let later = disjunction(g, goes_on_not, excludes_not)?;
    let any = disjunction(g, begins_not, later)?;
    g.and(parts.met, any)
}

/// The literal that says that a condition fails in a frame of the circuit, the one of the witness circuit beside it, and those
/// behind both, where these stand for the latches of the first and the own ones of the second.
///
/// Conditions: the witness circuit has a property, the circuit has the bad property, and all literals are defined.
pub(crate) fn condition_fails<G: Gates>(
    g: &mut G,
    circuit: &Circuit,
    bad: usize,
    witness: &Circuit,
    shared: &Shared,
    latches: &[Lit],
    own_latches: &[Lit],
    first: &Frames,
    next: &Frames,
) -> Result<Lit, GateFault>
    requires bad { bad < length circuit.now.bads }
    requires property { 0 < length (property_candidates witness.now) }
    requires latches { length latches.now ≡ length circuit.now.latches }
    requires own_latches { length own_latches.now ≡ length witness.now.latches }
    requires latches_defined { All (IsDefined (G.made g.old)) latches.now }
    requires own_latches_defined { All (IsDefined (G.made g.old)) own_latches.now }
    requires table { StandFor circuit.now (G.made g.old) first.now.table }
    requires own { StandFor witness.now (G.made g.old) first.now.own }
    requires next_table { StandFor circuit.now (G.made g.old) next.now.table }
    requires next_own { StandFor witness.now (G.made g.old) next.now.own }
    ensures ok { IfOk result (MakesLiteral (G.made g.old) (G.made g.new)
        (condition_cost circuit.now witness.now) (λ v. fails_by
        (constraints_hold circuit.now (read first.now.table v))
        (own_initial [] circuit.now.latches (values v latches.now)
        && own_initial shared.now.latches.items witness.now.latches (values v own_latches.now))
        (claim_holds witness.now (read first.now.own v))
        (constraints_hold circuit.now (read next.now.table v))
        (claim_holds witness.now (read next.now.own v))
        (bad_rises circuit.now bad (read first.now.table v)))) }
    ensures refused { IfErr result (RefusesGate (G.made g.old) (G.made g.new)
        (condition_cost circuit.now witness.now)) }
{
    let met = constraints_hold(g, circuit, &first.table)?;
    let begin = both_begin(g, circuit, witness, shared, latches, own_latches)?;
    let holds = claim_holds(g, witness, &first.own)?;
    let next_met = constraints_hold(g, circuit, &next.table)?;
    let next_holds = claim_holds(g, witness, &next.own)?;
    let bad = literal_of(&first.table, circuit.bads()[bad]);
    fails(
        g,
        Parts {
            met,
            begin,
            holds,
            next_met,
            next_holds,
            bad,
        },
    )
}
