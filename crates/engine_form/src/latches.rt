//! The latches of an engine form.
ghost use Rattle.std.specs.Prelude.{◌≡◌, ◌<◌, ◌≤◌, ◌++◌, suc, true, length, map, drop, replicate, All, if◌then◌else◌};
ghost use Rattle.aiger.specs.declared.circuit.Reset.TheVariants.{Zero};
ghost use Rattle.base.specs.Literal.{variable, negation};
ghost use Rattle.aiger.specs.Net.{IsDefined, variables};
ghost use Rattle.aiger.specs.Circuit.{IsCircuit, net, with_latch, fresh_latch};
ghost use Rattle.gates.specs.Reads.{literal_in};
ghost use Rattle.engine_form.specs.EngineForm.{latch_count};
ghost use Rattle.engine_form.specs.Reads.{kept_literal, kept_latch, sizes_of, form_latches};

use crate::copies::set_latch;
use crate::sizes::Sizes;
use aiger::{Circuit, Latch, Lit, Reset};
use gates::{Table, literal_of};

/// The literal that a latch takes: the negation of its next where it is kept as its negation.
fn kept_next(table: &Table, latch: Latch) -> Lit
    requires { variable latch.next < length table.now }
    ensures { result ≡ kept_literal latch.reset (literal_in table.now latch.next) }
{
    let next = literal_of(table, latch.next);
    match latch.reset {
        Reset::One => next.not(),
        Reset::Zero | Reset::Free => next,
    }
}

/// Sets a latch that begins with 0.
fn set(circuit: &mut Circuit, k: usize, next: Lit)
    requires there { k < length circuit.old.latches }
    requires defined { IsDefined (net circuit.old) next }
    ensures { circuit.new ≡ with_latch circuit.old k (record { next = next; reset = Zero }) }
{
    let reset = Reset::Zero;
    set_latch(k, Latch { next, reset }, circuit);
}

/// Sets the latches that stand for those of a circuit.
pub(crate) fn set_kept(table: &Table, latches: &[Latch], circuit: &mut Circuit)
    requires room { length latches.now ≤ length circuit.old.latches }
    requires inside { All (λ latch. variable latch.next < length table.now) latches.now }
    requires defined { All (IsDefined (net circuit.old)) table.now }
    ensures { circuit.new
        ≡ record circuit.old { latches = map (kept_latch table.now) latches.now ++ drop (length latches.now) circuit.old.latches } }
{
    for (k, latch) in latches.iter().enumerate() {
        set(circuit, k, kept_next(table, *latch));
    }
}

/// Sets a latch that begins with 0 where it is wanted.
fn set_where(wanted: bool, k: usize, next: Lit, circuit: &mut Circuit)
    requires there { wanted ≡ true → k < length circuit.old.latches }
    requires defined { IsDefined (net circuit.old) next }
    ensures { circuit.new
        ≡ (if wanted then with_latch circuit.old k (record { next = next; reset = Zero })
        else circuit.old) }
{
    if wanted {
        set(circuit, k, next);
    }
}

/// What the latch takes that says that a constraint was 0, from what says that all held so far.
fn broken(met: Lit) -> Lit
    ensures { result ≡ negation met }
{
    met.not()
}

/// Sets the latches of an engine form: those that stand for the circuit's, then the one that is 0 in the first frame alone
/// and the one that says that a constraint was 0, where they are wanted.
///
/// Conditions: no latch of the form was set. The table has a literal for each variable of the circuit and `met` says that
/// all constraints held so far; all are defined.
pub(crate) fn set_latches(
    circuit: &Circuit,
    sizes: Sizes,
    table: &Table,
    met: Lit,
    form: &mut Circuit,
)
    requires sizes { sizes ≡ sizes_of circuit.now }
    requires valid { IsCircuit circuit.now }
    requires fresh { form.old.latches ≡ replicate (latch_count circuit.now) fresh_latch }
    requires many { length table.now ≡ suc (variables (net circuit.now)) }
    requires table { All (IsDefined (net form.old)) table.now }
    requires met { IsDefined (net form.old) met }
    ensures { form.new ≡ record form.old { latches = form_latches circuit.now table.now met } }
{
    let own = circuit.latches().len();
    set_kept(table, circuit.latches(), form);
    set_where(sizes.has_free, own, Lit::TRUE, form);
    // the one on constraints is the last one
    let last = sizes.latches as usize - 1;
    set_where(sizes.has_constraint, last, broken(met), form);
}
