//! How large an engine form is.
ghost use Rattle.std.specs.Prelude.{◌≡◌, ◌≤◌, length, if◌then◌else◌};
ghost use Rattle.aiger.specs.Limits.{greatest_count};
ghost use Rattle.engine_form.specs.EngineForm.{taken_bits, free_count, input_count};
ghost use Rattle.engine_form.specs.Reads.{sizes_of};
ghost use Rattle.engine_form.specs.Refusal.{engine_bound};

use aiger::{Circuit, Latch, Reset};

/// Whether a latch has no initial value: 1, else 0.
pub(crate) fn taken_bits(reset: Reset) -> u32
    ensures { result ≡ taken_bits reset }
{
    match reset {
        Reset::Free => 1,
        Reset::Zero | Reset::One => 0,
    }
}

/// How many latches have no initial value.
pub(crate) fn free_count(latches: &[Latch]) -> u32
    requires { length latches.now ≤ greatest_count }
    ensures count { result ≡ free_count latches.now }
    ensures few { result ≤ length latches.now }
{
    let mut count = 0;
    for latch in latches {
        count += taken_bits(latch.reset);
    }
    count
}

/// How many inputs the engine form of a circuit has.
pub fn input_count(circuit: &Circuit) -> u32
    ensures count { result ≡ input_count circuit.now }
    ensures own { circuit.now.inputs ≤ result }
{
    (circuit.inputs() + free_count(circuit.latches())).max(1)
}

/// How large an engine form is, and which latches of its own it has.
#[derive(Clone, Copy)]
pub(crate) struct Sizes {
    /// How many inputs there are.
    pub inputs: u32,
    /// How many latches there are.
    pub latches: u32,
    /// Whether some latch of the circuit has no initial value.
    pub has_free: bool,
    /// Whether the circuit has a constraint.
    pub has_constraint: bool,
}

/// 1 where something is there, else 0.
fn one_if(some: bool) -> u32
    ensures { result ≡ (if some then 1 else 0) }
{
    if some { 1 } else { 0 }
}

/// The sizes of the engine form of a circuit.
pub(crate) fn sizes_of(circuit: &Circuit) -> Sizes
    ensures { result ≡ sizes_of circuit.now }
{
    let free = free_count(circuit.latches());
    let has_free = free > 0;
    let has_constraint = circuit.constraints().len() > 0;
    let latches = circuit.latches().len() as u32 + one_if(has_free) + one_if(has_constraint);
    Sizes {
        inputs: input_count(circuit),
        latches: latches.max(1),
        has_free,
        has_constraint,
    }
}

/// The variables at most of the engine form of a circuit.
pub(crate) fn bound(circuit: &Circuit) -> u64
    ensures { result ≡ engine_bound circuit.now }
{
    let free = u64::from(free_count(circuit.latches()));
    let sizes = sizes_of(circuit);
    u64::from(sizes.inputs)
        + u64::from(sizes.latches)
        + circuit.gates().len() as u64
        + 3 * free
        + circuit.constraints().len() as u64
        + circuit.bads().len() as u64
}
