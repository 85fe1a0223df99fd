//! The obligation of an invariant over a circuit.
ghost use Rattle.std.specs.Prelude.{◌≡◌, ℕ, suc, ◌+◌, ◌*◌, ◌<◌, ◌≤◌, [], ◌∷◌, ◌++◌, length, map, All, IfOk, OnOk, slice_index_or};
ghost use Rattle.std.specs.List.{range_with_len};
ghost use Rattle.aiger.specs.Circuit.{IsCircuit};
ghost use Rattle.base.specs.Literal.{negation};
ghost use Rattle.drup.specs.Formula.{IsLiteral};
ghost use Rattle.certificates.specs.Invariants.{AreOver, bad_literal};
ghost use Rattle.certificates.specs.Obligation.{over, gate_clauses, gates_clauses, outside_clause, truth_variable, rise_variable, cube_variable, next_literal, next_clauses, nexts_clauses, fails_clause, now_clauses, failing_clauses, obligation};
ghost use Rattle.certificates.specs.Made.{AddsClauses};
ghost use Rattle.certificates.specs.Refusal.{obligation_refusal, RefusesObligation};

use crate::fault::ObligationFault;
use crate::kept::Invariant;
use aiger::{Circuit, Gate, Lit};
use drup::{ClauseFault, Formula, FormulaFault};
use std::alloc::Global;

/// The greatest count of variables that a formula may have.
const MOST_VARIABLES: u32 = 2147483646;

/// The negation of a literal.
fn negation(literal: u32) -> u32
    ensures { result ≡ negation literal }
{
    Lit::new(literal).not().number()
}

/// The formula's literal for one of the circuit, where this variable is the one that is true.
fn over(truth: u32, lit: Lit) -> u32
    requires { truth ≤ 2147483646 }
    ensures { result ≡ over truth lit }
{
    let number = lit.number();
    if number == 0 {
        2 * truth + 1
    } else if number == 1 {
        2 * truth
    } else {
        number
    }
}

/// Adds a clause over the formula's variables.
fn put(formula: &mut Formula, clause: &[u32]) -> Result<(), ClauseFault>
    requires { All (IsLiteral formula.old.variables) clause.now }
    ensures { OnOk result (AddsClauses formula.old formula.new (clause.now ∷ [])) }
{
    match formula.push(clause) {
        Ok(()) => Ok(()),
        Err(FormulaFault::BadLiteral) => unreachable!(),
        Err(FormulaFault::NoMemory) => Err(ClauseFault::NoMemory),
    }
}

/// Adds the clauses of a gate with this variable.
fn put_gate(formula: &mut Formula, truth: u32, variable: u32, gate: Gate) -> Result<(), ClauseFault>
    requires few { truth ≤ 2147483646 }
    requires below { variable < truth }
    requires literals { AreOver formula.old.variables (gate_clauses truth variable gate) }
    ensures { OnOk result (AddsClauses formula.old formula.new (gate_clauses truth variable gate)) }
{
    let first = over(truth, gate.rhs0);
    let second = over(truth, gate.rhs1);
    put(formula, &[2 * variable + 1, first])?;
    put(formula, &[2 * variable + 1, second])?;
    put(formula, &[2 * variable, negation(first), negation(second)])
}

/// Adds the clauses of the gates.
fn put_gates(formula: &mut Formula, truth: u32, circuit: &Circuit) -> Result<(), ClauseFault>
    requires truth { truth ≡ truth_variable circuit.now }
    requires few { truth ≤ 2147483646 }
    requires literals { AreOver formula.old.variables
        (gates_clauses truth (suc (circuit.now.inputs + length circuit.now.latches))
        circuit.now.gates) }
    ensures { OnOk result (AddsClauses formula.old formula.new
        (gates_clauses truth (suc (circuit.now.inputs + length circuit.now.latches))
        circuit.now.gates)) }
{
    let gates = circuit.gates();
    let first = truth - gates.len() as u32;
    for place in 0..gates.len() {
        put_gate(formula, truth, first + place as u32, gates[place])?;
    }
    Ok(())
}

/// Writes the clause that the present state is not in a cube.
fn write_outside(clause: &mut Vec<u32>, circuit: &Circuit, cube: &[u32]) -> Result<(), ClauseFault>
    requires { All (IsLiteral (length circuit.now.latches)) cube.now }
    ensures { OnOk result (clause.new.items ≡ outside_clause circuit.now cube.now) }
{
    clause.clear();
    let inputs = circuit.inputs();
    for literal in cube {
        match clause.push(negation(2 * inputs + *literal)) {
            Ok(()) => {}
            Err(_) => return Err(ClauseFault::NoMemory),
        }
    }
    Ok(())
}

/// Adds the clauses that the present state is in no cube.
fn put_outsides(
    alloc: Global,
    formula: &mut Formula,
    circuit: &Circuit,
    invariant: &Invariant,
) -> Result<(), ClauseFault>
    requires latches { invariant.now.latches ≡ length circuit.now.latches }
    requires literals { AreOver formula.old.variables
        (map (outside_clause circuit.now) invariant.now.cubes) }
    ensures { OnOk result (AddsClauses formula.old formula.new
        (map (outside_clause circuit.now) invariant.now.cubes)) }
{
    let mut clause = Vec::new(alloc);
    for place in 0..invariant.cube_count() {
        write_outside(&mut clause, circuit, invariant.cube(place))?;
        put(formula, &clause)?;
    }
    Ok(())
}

/// The formula's literal for one over latches, of the next state.
fn next_literal(circuit: &Circuit, truth: u32, literal: u32) -> u32
    requires truth { truth ≡ truth_variable circuit.now }
    requires inside { IsLiteral (length circuit.now.latches) literal }
    ensures { result ≡ next_literal circuit.now literal }
{
    let latches = circuit.latches();
    let taken = over(truth, latches[(literal / 2 - 1) as usize].next);
    if literal % 2 == 0 {
        taken
    } else {
        negation(taken)
    }
}

/// Adds the clauses that the next state is in a cube where this variable is true.
fn put_next(
    formula: &mut Formula,
    circuit: &Circuit,
    variable: u32,
    cube: &[u32],
) -> Result<(), ClauseFault>
    requires few { variable ≤ 2147483646 }
    requires inside { All (IsLiteral (length circuit.now.latches)) cube.now }
    requires literals { AreOver formula.old.variables (next_clauses circuit.now variable cube.now) }
    ensures { OnOk result (AddsClauses formula.old formula.new
        (next_clauses circuit.now variable cube.now)) }
{
    let truth = circuit.variables() + 1;
    for literal in cube {
        put(
            formula,
            &[2 * variable + 1, next_literal(circuit, truth, *literal)],
        )?;
    }
    Ok(())
}

/// Adds the clauses that the next state is in a cube where its variable is true, for each cube.
fn put_nexts(
    formula: &mut Formula,
    circuit: &Circuit,
    invariant: &Invariant,
) -> Result<(), ClauseFault>
    requires latches { invariant.now.latches ≡ length circuit.now.latches }
    requires few { rise_variable circuit.now + length invariant.now.cubes ≤ 2147483646 }
    requires literals { AreOver formula.old.variables
        (nexts_clauses circuit.now (cube_variable circuit.now) invariant.now.cubes) }
    ensures { OnOk result (AddsClauses formula.old formula.new
        (nexts_clauses circuit.now (cube_variable circuit.now) invariant.now.cubes)) }
{
    let first = circuit.variables() + 3;
    for place in 0..invariant.cube_count() {
        put_next(
            formula,
            circuit,
            first + place as u32,
            invariant.cube(place),
        )?;
    }
    Ok(())
}

/// The clause of so many variables from one on.
fn variables_from(alloc: Global, first: u32, count: usize) -> Result<Vec<u32>, ClauseFault>
    requires { first + count ≤ 2147483647 }
    ensures { IfOk result (λ clause. clause.items ≡ map (λ v. 2 * v) (range_with_len first count)) }
{
    let mut clause = Vec::new(alloc);
    for place in 0..count {
        match clause.push(2 * (first + place as u32)) {
            Ok(()) => {}
            Err(_) => return Err(ClauseFault::NoMemory),
        }
    }
    Ok(clause)
}

/// The literal of the first bad property; where there is none, it is false.
fn bad_literal(circuit: &Circuit) -> Lit
    ensures { result ≡ bad_literal circuit.now }
{
    match circuit.bads() {
        [] => Lit::FALSE,
        [bad, ..] => *bad,
    }
}

/// Adds the clauses of the present state: of the variable that is true, the gates and the cubes.
fn put_now(
    alloc: Global,
    formula: &mut Formula,
    circuit: &Circuit,
    invariant: &Invariant,
) -> Result<(), ClauseFault>
    requires latches { invariant.now.latches ≡ length circuit.now.latches }
    requires literals { AreOver formula.old.variables
        (now_clauses circuit.now invariant.now.cubes) }
    ensures { OnOk result (AddsClauses formula.old formula.new
        (now_clauses circuit.now invariant.now.cubes)) }
{
    let truth = circuit.variables() + 1;
    put(formula, &[2 * truth])?;
    put_gates(formula, truth, circuit)?;
    put_outsides(alloc, formula, circuit, invariant)
}

/// Adds the clauses of what is to fail: that the bad property rises, or the next state is in a cube.
fn put_failing(
    alloc: Global,
    formula: &mut Formula,
    circuit: &Circuit,
    invariant: &Invariant,
) -> Result<(), ClauseFault>
    requires latches { invariant.now.latches ≡ length circuit.now.latches }
    requires few { rise_variable circuit.now + length invariant.now.cubes ≤ 2147483646 }
    requires literals { AreOver formula.old.variables
        (failing_clauses circuit.now invariant.now.cubes) }
    ensures { OnOk result (AddsClauses formula.old formula.new
        (failing_clauses circuit.now invariant.now.cubes)) }
{
    let truth = circuit.variables() + 1;
    let rise = truth + 1;
    put(formula, &[2 * rise + 1, over(truth, bad_literal(circuit))])?;
    put_nexts(formula, circuit, invariant)?;
    put(
        formula,
        &variables_from(alloc, rise, invariant.cube_count() + 1)?,
    )
}

/// Adds all clauses.
fn put_all(
    alloc: Global,
    formula: &mut Formula,
    circuit: &Circuit,
    invariant: &Invariant,
) -> Result<(), ClauseFault>
    requires latches { invariant.now.latches ≡ length circuit.now.latches }
    requires few { rise_variable circuit.now + length invariant.now.cubes ≤ 2147483646 }
    requires literals { AreOver formula.old.variables
        (now_clauses circuit.now invariant.now.cubes ++ failing_clauses circuit.now
        invariant.now.cubes) }
    ensures { OnOk result (AddsClauses formula.old formula.new
        (now_clauses circuit.now invariant.now.cubes ++ failing_clauses circuit.now
        invariant.now.cubes)) }
{
    put_now(alloc, formula, circuit, invariant)?;
    put_failing(alloc, formula, circuit, invariant)
}

/// The obligation of an invariant over a circuit with bad properties alone, whose latches begin with 0: nothing satisfies
/// it exactly where no step enters a cube from outside and the first bad property does not rise outside of them. Its
/// variables are those of the circuit, then one that is true, one for "the bad property rises", and one for each cube.
///
/// Errors: `TooBig` where these are more than 2^31 - 2, and `NoMemory`.
pub fn obligation(
    alloc: Global,
    circuit: &Circuit,
    invariant: &Invariant,
) -> Result<Formula, ObligationFault>
    requires { invariant.now.latches ≡ length circuit.now.latches }
    ensures ok { IfOk result (λ f. f ≡ obligation circuit.now invariant.now.cubes) }
    ensures refused { RefusesObligation result
        (obligation_refusal circuit.now invariant.now.cubes) }
{
    let rise = circuit.variables() + 2;
    let count = invariant.cube_count();
    if count > (MOST_VARIABLES - rise) as usize {
        return Err(ObligationFault::TooBig);
    }
    let mut formula = Formula::new(alloc, rise + count as u32);
    match put_all(alloc, &mut formula, circuit, invariant) {
        Ok(()) => Ok(formula),
        Err(ClauseFault::NoMemory) => Err(ObligationFault::NoMemory),
    }
}
