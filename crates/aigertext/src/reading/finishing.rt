//! What stands before and behind the gates of a text, put onto a circuit whose gates are there.
ghost use Rattle.std.specs.Prelude.{◌≡◌, ℕ, ◌≤◌, ◌⊎◌, List, Err, length};
ghost use Rattle.aiger.specs.Circuit.{fresh_circuit};
ghost use Rattle.aigertext.specs.declared.forms.Form.TheVariants as variant;
ghost use Rattle.aigertext.specs.declared.fault.Why.TheVariants as why;
ghost use Rattle.aigertext.specs.Reading.{gate_at};
ghost use Rattle.aigertext.specs.Counts.{AreSmall};
ghost use Rattle.aigertext.specs.Passes.{with_more_gates};
ghost use Rattle.aigertext.specs.InOrder.{uses_of, IsFront, text_with, IsFinish, ReadsOnto};

use crate::fault::{Stop, Why};
use crate::reading::binary_gates::gate;
use crate::reading::front::Front;
use crate::reading::gates::TakesGates;
use crate::reading::lines::stop;
use crate::reading::names::give_names;
use aiger::Circuit;
use aigerlists::laws::own_numbers;

/// Sets the latches and properties of a circuit whose gates are there, and gives it the names of a text.
///
/// Errors: those of the names.
fn finish(circuit: &mut Circuit, front: Front, names: &[u8]) -> Result<(), Stop>
    requires bare { circuit.old
        ≡ with_more_gates (fresh_circuit front.counts.inputs front.counts.latches)
        circuit.old.gates }
    requires all { length circuit.old.gates ≡ front.counts.gates }
    requires front { (before : List ℕ) × IsFront front.form front.counts (uses_of front) before }
    ensures { IsFinish front.counts (uses_of front) circuit.old.gates circuit.new names.now result }
{
    let _ordered = circuit.variables();
    circuit.set_latches_and_properties(front.latches, front.properties);
    let _bare = circuit.variables();
    give_names(circuit, names)?;
    let _named = circuit.variables();
    Ok(())
}

/// Why there is no gate with this literal at the front of a text, or that memory is wanting for it.
fn without_gate(text: &[u8], own: u32) -> Stop
    ensures { (result.why ≡ why.NoMemory) ⊎ (gate_at own text.now ≡ Err result) }
{
    match gate(text, own) {
        Ok(_) => stop(text, Why::NoMemory),
        Err(stop) => stop,
    }
}

/// Reads what is left of a text onto a circuit that has the first of its gates, where the text behind those is given: the
/// other gates, of a binary text, and what stands behind the gates; then it gets what stands before them.
pub fn read_left(circuit: &mut Circuit, front: Front, window: &[u8]) -> Result<(), Stop>
    requires small { AreSmall front.counts }
    requires front { (before : List ℕ)
        × IsFront front.form front.counts (uses_of front) before }
    requires bare { circuit.old
        ≡ with_more_gates (fresh_circuit front.counts.inputs front.counts.latches)
        circuit.old.gates }
    requires few { length circuit.old.gates ≤ front.counts.gates }
    requires all { front.form ≡ variant.Ascii → length circuit.old.gates
        ≡ front.counts.gates }
    ensures { (before : List ℕ) → IsFront front.form front.counts (uses_of front) before
        → ReadsOnto circuit.new (text_with front.form front.counts before circuit.old.gates
        window.now) result }
{
    own_numbers();
    let gates = front.counts.gates as usize;
    let greatest = 2 * front.counts.variables + 1;
    let left = gates - circuit.gates().len();
    let names = circuit.push_gates(front.form, greatest, window, left);
    let own = 2 * (circuit.variables() + 1);
    if circuit.gates().len() == gates {
        return finish(circuit, front, names);
    }
    Err(without_gate(names, own))
}
