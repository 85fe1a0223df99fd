//! The circuit of the lists of a file whose variables have their numbers.
ghost use Rattle.std.specs.Prelude.{◌≡◌, ◌+◌, ◌++◌, ◌<◌, ◌≤◌, map, length, All, IfOk, OnOk};
ghost use Rattle.aiger.specs.Limits.{greatest_count};
ghost use Rattle.aiger.specs.Circuit.{IsCircuit};
ghost use Rattle.aiger.specs.View.{circuit_from};
ghost use Rattle.aigerlists.specs.Renumbering.{new_literal, ordered_gate, new_gate, circuit_by};
ghost use Rattle.aigerlists.specs.Numbering.{IsOnce, UseNumbered, line_in, gate_name_at};

use crate::loose::{GateLine, LatchLine, Loose};
use crate::numbers::Numbers;
use aiger::{Circuit, CircuitLists, Gate, Latch, Lit, Properties};
use std::alloc::{AllocError, Global};

/// The circuit of the lists of a file by the numbers of their variables, with these gates. The error is want of memory.
pub fn renumbered(
    alloc: Global,
    lines: &Loose,
    numbers: &Numbers,
    gates: Vec<Gate>,
) -> Result<Circuit, AllocError>
    requires few { length numbers.now ≤ greatest_count }
    requires valid { IsCircuit (circuit_by lines.now numbers.now gates.items) }
    ensures { IfOk result (λ c. c ≡ circuit_by lines.now numbers.now gates.items) }
{
    let lists = new_lists(alloc, lines, numbers, gates)?;
    Ok(Circuit::from_lists(lists))
}

/// All lists of the circuit that the lists of a file are.
fn new_lists(
    alloc: Global,
    lines: &Loose,
    numbers: &Numbers,
    gates: Vec<Gate>,
) -> Result<CircuitLists, AllocError>
    requires { length numbers.now ≤ greatest_count }
    ensures { IfOk result (λ made. circuit_from made
        ≡ circuit_by lines.now numbers.now gates.items) }
{
    let latches = new_latches(alloc, numbers, lines.latches())?;
    let outputs = numbers.literals(alloc, lines.outputs())?;
    let bads = numbers.literals(alloc, lines.bads())?;
    let constraints = numbers.literals(alloc, lines.constraints())?;
    let literals = numbers.literals(alloc, lines.justice_literals())?;
    let justice = lines.justice_list().with_values(alloc, literals)?;
    let fair = numbers.literals(alloc, lines.fair())?;
    let names = lines.name_keeper().copy()?;
    let properties = Properties {
        outputs,
        bads,
        constraints,
        justice,
        fair,
    };
    Ok(CircuitLists {
        inputs: lines.inputs().len() as u32,
        latches,
        gates,
        properties,
        names,
    })
}

/// Latches by the numbers of their next literals.
fn new_latches(
    alloc: Global,
    numbers: &Numbers,
    lines: &[LatchLine],
) -> Result<Vec<Latch>, AllocError>
    requires { length numbers.now ≤ greatest_count }
    ensures { IfOk result (λ v. v.items
        ≡ map (λ line. record { next = new_literal numbers.now line.next; reset = line.reset })
        lines.now) }
{
    let mut latches = Vec::with_capacity(alloc, lines.len())?;
    for line in lines {
        latches.push(Latch {
            next: numbers.literal(line.next),
            reset: line.reset,
        })?;
    }
    Ok(latches)
}

/// Gates as they stand, by the numbers of their operands.
pub fn gates_as_they_stand(
    alloc: Global,
    numbers: &Numbers,
    lines: &[GateLine],
) -> Result<Vec<Gate>, AllocError>
    requires { length numbers.now ≤ greatest_count }
    ensures { IfOk result (λ v. v.items ≡ map (new_gate numbers.now) lines.now) }
{
    let mut gates = Vec::with_capacity(alloc, lines.len())?;
    for line in lines {
        gates.push(ordered(numbers.literal(line.rhs0), numbers.literal(line.rhs1)))?;
    }
    Ok(gates)
}

/// Gates in this order, by the numbers of their operands, of which each has its number when the gate's turn comes; the
/// gates' own variables get the next numbers.
pub fn gates_in_order(
    alloc: Global,
    numbers: &mut Numbers,
    lines: &[GateLine],
    order: &[u32],
) -> Result<Vec<Gate>, AllocError>
    requires few { length numbers.old + length order.now ≤ greatest_count }
    requires within { All (λ j. j < length lines.now) order.now }
    requires once { IsOnce (numbers.old ++ map (gate_name_at lines.now) order.now) }
    requires known { UseNumbered numbers.old lines.now order.now }
    ensures numbers { OnOk result (numbers.new
        ≡ numbers.old ++ map (gate_name_at lines.now) order.now) }
    ensures gates { IfOk result (λ v. v.items
        ≡ map (λ j. new_gate (numbers.old ++ map (gate_name_at lines.now) order.now)
        (line_in lines.now j)) order.now) }
{
    let mut gates = Vec::with_capacity(alloc, order.len())?;
    for gate in order {
        let line = lines[*gate as usize];
        gates.push(ordered(numbers.literal(line.rhs0), numbers.literal(line.rhs1)))?;
        numbers.push(line.lhs.var())?;
    }
    Ok(gates)
}

/// A gate of two operands, the greater one first.
fn ordered(a: Lit, b: Lit) -> Gate
    ensures { result ≡ ordered_gate a b }
{
    if a.number() < b.number() {
        Gate { rhs0: b, rhs1: a }
    } else {
        Gate { rhs0: a, rhs1: b }
    }
}
