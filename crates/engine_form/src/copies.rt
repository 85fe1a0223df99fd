//! Adding to a circuit what another one has. Each error is want of memory.
ghost use Rattle.std.specs.Prelude.{◌≡◌, ◌+◌, ◌<◌, ◌≤◌, ◌++◌, ◌∷◌, [], suc, length, All, OnOk};
ghost use Rattle.std.specs.List.{sum_by};
ghost use Rattle.aiger.specs.Limits.{greatest_count};
ghost use Rattle.aiger.specs.Net.{IsDefined, AreOrderedFrom, variables};
ghost use Rattle.aiger.specs.Circuit.{net, with_gate, with_latch, with_bad, with_constraint, with_fair, with_justice};

use aiger::{Circuit, CircuitFault, Gate, Latch, Lit};
use std::alloc::AllocError;

/// Adds a gate whose operands are in order, of variables that are there.
fn push_gate(gate: Gate, made: &mut Circuit) -> Result<(), AllocError>
    requires ordered { gate.rhs1 ≤ gate.rhs0 }
    requires defined { IsDefined (net made.old) gate.rhs0 }
    requires few { variables (net made.old) < greatest_count }
    ensures { OnOk result (made.new ≡ with_gate made.old gate.rhs0 gate.rhs1) }
{
    match made.push_gate(gate.rhs0, gate.rhs1) {
        Ok(_) => Ok(()),
        Err(CircuitFault::NoMemory) => Err(AllocError),
        Err(_) => unreachable!(),
    }
}

/// Adds gates, each of which has operands of the variables before it.
pub(crate) fn push_gates(gates: &[Gate], made: &mut Circuit) -> Result<(), AllocError>
    requires ordered { AreOrderedFrom (suc (variables (net made.old))) gates.now }
    requires few { variables (net made.old) + length gates.now ≤ greatest_count }
    ensures { OnOk result (made.new ≡ record made.old { gates = made.old.gates ++ gates.now }) }
{
    for gate in gates {
        push_gate(*gate, made)?;
    }
    Ok(())
}

/// Sets a latch to one whose next literal is of a variable that is there.
pub(crate) fn set_latch(k: usize, latch: Latch, made: &mut Circuit)
    requires there { k < length made.old.latches }
    requires defined { IsDefined (net made.old) latch.next }
    ensures { made.new ≡ with_latch made.old k latch }
{
    match made.set_latch(k, latch.next, latch.reset) {
        Ok(()) => {}
        Err(_) => unreachable!(),
    }
}

/// Sets all latches.
pub(crate) fn set_latches(latches: &[Latch], made: &mut Circuit)
    requires many { length latches.now ≡ length made.old.latches }
    requires defined { All (λ latch. IsDefined (net made.old) latch.next) latches.now }
    ensures { made.new ≡ record made.old { latches = latches.now } }
{
    for (k, latch) in latches.iter().enumerate() {
        set_latch(k, *latch, made);
    }
}

/// Adds a bad property of a literal that is there.
fn push_bad(bad: Lit, made: &mut Circuit) -> Result<(), AllocError>
    requires defined { IsDefined (net made.old) bad }
    requires few { length made.old.bads + 1 ≤ greatest_count }
    ensures { OnOk result (made.new ≡ with_bad made.old bad) }
{
    match made.push_bad(bad) {
        Ok(()) => Ok(()),
        Err(CircuitFault::NoMemory) => Err(AllocError),
        Err(_) => unreachable!(),
    }
}

/// Adds bad properties of literals that are there.
pub(crate) fn push_bads(bads: &[Lit], made: &mut Circuit) -> Result<(), AllocError>
    requires defined { All (IsDefined (net made.old)) bads.now }
    requires few { length made.old.bads + length bads.now ≤ greatest_count }
    ensures { OnOk result (made.new ≡ record made.old { bads = made.old.bads ++ bads.now }) }
{
    for bad in bads {
        push_bad(*bad, made)?;
    }
    Ok(())
}

/// Adds a constraint of a literal that is there.
fn push_constraint(constraint: Lit, made: &mut Circuit) -> Result<(), AllocError>
    requires defined { IsDefined (net made.old) constraint }
    requires few { length made.old.constraints + 1 ≤ greatest_count }
    ensures { OnOk result (made.new ≡ with_constraint made.old constraint) }
{
    match made.push_constraint(constraint) {
        Ok(()) => Ok(()),
        Err(CircuitFault::NoMemory) => Err(AllocError),
        Err(_) => unreachable!(),
    }
}

/// Adds constraints of literals that are there.
pub(crate) fn push_constraints(constraints: &[Lit], made: &mut Circuit) -> Result<(), AllocError>
    requires defined { All (IsDefined (net made.old)) constraints.now }
    requires few { length made.old.constraints + length constraints.now ≤ greatest_count }
    ensures { OnOk result (made.new
        ≡ record made.old { constraints = made.old.constraints ++ constraints.now }) }
{
    for constraint in constraints {
        push_constraint(*constraint, made)?;
    }
    Ok(())
}

/// Adds a fairness constraint of a literal that is there.
fn push_fair(fair: Lit, made: &mut Circuit) -> Result<(), AllocError>
    requires defined { IsDefined (net made.old) fair }
    requires few { length made.old.fair + 1 ≤ greatest_count }
    ensures { OnOk result (made.new ≡ with_fair made.old fair) }
{
    match made.push_fair(fair) {
        Ok(()) => Ok(()),
        Err(CircuitFault::NoMemory) => Err(AllocError),
        Err(_) => unreachable!(),
    }
}

/// Adds fairness constraints of literals that are there.
pub(crate) fn push_fairs(fairs: &[Lit], made: &mut Circuit) -> Result<(), AllocError>
    requires defined { All (IsDefined (net made.old)) fairs.now }
    requires few { length made.old.fair + length fairs.now ≤ greatest_count }
    ensures { OnOk result (made.new ≡ record made.old { fair = made.old.fair ++ fairs.now }) }
{
    for fair in fairs {
        push_fair(*fair, made)?;
    }
    Ok(())
}

/// Adds a justice property of literals that are there.
fn push_justice(lits: &[Lit], made: &mut Circuit) -> Result<(), AllocError>
    requires defined { All (IsDefined (net made.old)) lits.now }
    requires few { length made.old.justice + 1 ≤ greatest_count }
    requires small { sum_by length made.old.justice + length lits.now ≤ greatest_count }
    ensures { OnOk result (made.new ≡ with_justice made.old lits.now) }
{
    match made.push_justice(lits) {
        Ok(()) => Ok(()),
        Err(CircuitFault::NoMemory) => Err(AllocError),
        Err(_) => unreachable!(),
    }
}

/// Adds the justice properties of a circuit, of literals that are there.
pub(crate) fn push_justices(circuit: &Circuit, made: &mut Circuit) -> Result<(), AllocError>
    requires none { made.old.justice ≡ [] }
    requires net { net made.old ≡ net circuit.now }
    ensures { OnOk result (made.new ≡ record made.old { justice = circuit.now.justice }) }
{
    for i in 0..circuit.justice_count() {
        push_justice(circuit.justice(i), made)?;
    }
    Ok(())
}
