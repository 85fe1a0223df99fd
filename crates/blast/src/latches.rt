//! The latches of a circuit: how they begin, and what they take in the next frame.
ghost use Rattle.std.specs.Prelude.{◌≡◌, ℕ, ◌+◌, ◌<◌, ◌≤◌, true, length, replicate, Some, None, All, is_some, slice_get, slice_index};
ghost use Rattle.btor2.specs.Check.{IsWellFormed};
ghost use Rattle.btor2.specs.Items.{is_state, init_value, next_value, init_word};
ghost use Rattle.btor2.specs.Lists.{places, first_init_without_next};
ghost use Rattle.aiger.specs.Net.{IsDefined};
ghost use Rattle.aiger.specs.Limits.{greatest_count};
ghost use Rattle.aiger.specs.Circuit.{net, with_latch, fresh_latch};
ghost use Rattle.blast.specs.Blocks.{written_over};
ghost use Rattle.blast.specs.Cost.{carried_width};
ghost use Rattle.blast.specs.Reads.{RowsRead, LatchesRead};
ghost use Rattle.blast.specs.Rows.{row_at, reset_at, row_latches, state_latches, item_latches};

use crate::items::item_at;
use aiger::{Circuit, Lit, Reset};
use base::Rows;
use btor2::{Item, Model};

/// How a bit of a state begins that has the word `init` at first: freely without one.
fn reset_of(init: Option<u64>, bit: usize) -> Reset
    requires { bit < 64 }
    ensures { result ≡ reset_at init bit }
{
    match init {
        Some(word) if (word >> bit) % 2 == 1 => Reset::One,
        Some(_) => Reset::Zero,
        None => Reset::Free,
    }
}

/// Sets a latch to a literal that is there.
fn set_bit(k: usize, next: Lit, reset: Reset, circuit: &mut Circuit)
    requires there { k < length circuit.old.latches }
    requires defined { IsDefined (net circuit.old) next }
    ensures { circuit.new ≡ with_latch circuit.old k (record { next = next; reset = reset }) }
{
    match circuit.set_latch(k, next, reset) {
        Ok(()) => {}
        Err(_) => unreachable!(),
    }
}

/// Sets the latches of a state from a first one on: they take the literals of a row, and begin with the bits of a word.
fn set_row(first: usize, row: &[Lit], init: Option<u64>, circuit: &mut Circuit)
    requires room { first + length row.now ≤ length circuit.old.latches }
    requires few { length circuit.old.latches ≤ greatest_count }
    requires short { length row.now ≤ 64 }
    requires defined { All (IsDefined (net circuit.old)) row.now }
    ensures { circuit.new
        ≡ record circuit.old { latches = written_over circuit.old.latches first (row_latches init 0 row.now) } }
{
    for bit in 0..row.len() {
        set_bit(first + bit, row[bit], reset_of(init, bit), circuit);
    }
}

/// The word of a state's init line, if it has one. `k` counts the states.
fn init_of(model: &Model, k: usize, item: &Item) -> Option<u64>
    requires there { k < length (places is_state 0 model.now) }
    requires place { slice_get model.now (slice_index (places is_state 0 model.now) k)
        ≡ Some item.now }
    ensures { result ≡ init_word model.now item.now.id }
{
    let place = model.init_of(k)?;
    model.constant(place)
}

/// The row of a state's next node. `k` counts the states.
fn next_row<'a>(model: &Model, table: &'a Rows<Lit>, k: usize, item: &Item) -> &'a [Lit]
    requires there { k < length (places is_state 0 model.now) }
    requires place { slice_get model.now (slice_index (places is_state 0 model.now) k)
        ≡ Some item.now }
    requires well_formed { IsWellFormed model.now }
    requires all { length table.now ≡ length model.now }
    requires next { is_some (next_value model.now item.now.id) ≡ true }
    ensures { result.now ≡ row_at model.now table.now (next_value model.now item.now.id) }
{
    match model.next_of(k) {
        Some(place) => table.row(place),
        None => unreachable!(),
    }
}

/// Sets the latches of a state from a first one on, and answers how many they are: a free state has none. `k` counts the
/// states.
fn set_state(
    model: &Model,
    table: &Rows<Lit>,
    k: usize,
    item: &Item,
    first: usize,
    circuit: &mut Circuit,
) -> usize
    requires there { k < length (places is_state 0 model.now) }
    requires place { slice_get model.now (slice_index (places is_state 0 model.now) k)
        ≡ Some item.now }
    requires state { is_state item.now.body ≡ true }
    requires well_formed { IsWellFormed model.now }
    requires all { length table.now ≡ length model.now }
    requires nexts { first_init_without_next model.now model.now ≡ None }
    requires reads { RowsRead model.now (net circuit.old) table.now }
    requires room { first + length (item_latches model.now table.now item.now)
        ≤ length circuit.old.latches }
    requires few { length circuit.old.latches ≤ greatest_count }
    ensures latches { circuit.new
        ≡ record circuit.old { latches = written_over circuit.old.latches first (item_latches model.now table.now item.now) } }
    ensures count { result ≡ length (item_latches model.now table.now item.now) }
{
    if model.is_free(k) {
        return 0;
    }
    let row = next_row(model, table, k, item);
    set_row(first, row, init_of(model, k, item), circuit);
    row.len()
}

/// Sets the latches to the bits of the states that are not free: they begin as the states do, and take the bits of
/// their next nodes.
///
/// Conditions: the table has a row for each item, which reads as its node's word; the circuit has a latch for each
/// bit of a state that is not free, of which nothing was said yet; each such state has a next.
pub(crate) fn set_latches(model: &Model, table: &Rows<Lit>, circuit: &mut Circuit)
    requires reads { RowsRead model.now (net circuit.old) table.now }
    requires all { length table.now ≡ length model.now }
    requires fresh { circuit.old.latches ≡ replicate (carried_width model.now) fresh_latch }
    requires nexts { first_init_without_next model.now model.now ≡ None }
    ensures latches { LatchesRead model.now (net circuit.old) model.now circuit.new.latches }
    ensures others { circuit.new ≡ record circuit.old { latches = circuit.new.latches } }
{
    // a circuit has at most 2^30 latches, so their count fits
    let _ = circuit.variables();
    let items = model.items();
    let states = model.states();
    let mut first = 0;
    for k in 0..states.len() {
        let item = item_at(items, states[k]);
        first += set_state(model, table, k, item, first, circuit);
    }
}
