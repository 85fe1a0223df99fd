//! The names of a circuit's inputs and latches, and how a bit is named.
ghost use Rattle.std.specs.Prelude.{◌≡◌, ℕ, ◌+◌, ◌<◌, ◌≤◌, [], true, length, Some, None, IfOk, OnOk, IfErr, slice_get, slice_index, slice_set};
ghost use Rattle.btor2.specs.Symbols.{is_symbol};
ghost use Rattle.btor2.specs.Check.{IsWellFormed};
ghost use Rattle.btor2.specs.Lists.{places};
ghost use Rattle.aiger.specs.Limits.{greatest_count};
ghost use Rattle.aiger.specs.Circuit.{section_names, is_name};
ghost use Rattle.blast.specs.declared.fault.LowerFault.TheVariants as fault;
ghost use Rattle.blast.specs.Cost.{given_width, carried_width};
ghost use Rattle.blast.specs.Leaves.{bit_name, bit_names, leaf_names};
ghost use Rattle.blast.specs.Blocks.{written_over, IsBlank};
ghost use Rattle.btor2.specs.Leaves.{list_of};
ghost use Rattle.blast.specs.Sections.{section_of, part_names, names_given, Renames, TakesNames};

use crate::fault::LowerFault;
use crate::items::{bit_count, item_at};
use aiger::{Circuit, CircuitFault, LONGEST_NAME, Section};
use arrayvec::ArrayVec;
use btor2::{Item, Leaves, Model, Symbol};
use itoa::Buffer;

/// The section in which the positions of leaves of a kind stand: those of free states behind those of all inputs.
fn section_of(leaves: Leaves) -> Section
    ensures { result ≡ section_of leaves }
{
    match leaves {
        Leaves::Inputs | Leaves::Free => Section::Input,
        Leaves::Carried => Section::Latch,
    }
}

/// Writes the name of a bit: the symbol, and the bit's number in brackets.
pub(crate) fn write_bit_name(symbol: &[u8], bit: u64, name: &mut ArrayVec<u8, LONGEST_NAME>)
    requires symbol { is_symbol symbol.now ≡ true }
    requires bit { bit < 64 }
    ensures name { name.new.items ≡ bit_name symbol.now bit }
    ensures valid { is_name name.new.items ≡ true }
{
    let mut digits = Buffer::new();
    name.clear();
    let front = name.try_extend_from_slice(symbol);
    prove!(front.is_ok());
    name.push(b'[');
    let number = name.try_extend_from_slice(digits.format(bit).as_bytes());
    prove!(number.is_ok());
    name.push(b']');
}

/// Gives a name to a position of a section that has none.
pub(crate) fn give_name(
    section: Section,
    position: usize,
    name: &[u8],
    circuit: &mut Circuit,
) -> Result<(), LowerFault>
    requires free { slice_get (section_names section circuit.old) position ≡ Some None }
    requires name { is_name name.now ≡ true }
    ensures ok { OnOk result (Renames section circuit.old
        (slice_set (section_names section circuit.old) position (Some name.now)) circuit.new) }
    ensures err { IfErr result (λ e. e ≡ fault.NoMemory) }
{
    match circuit.set_name(section, position, name) {
        Ok(()) => Ok(()),
        Err(CircuitFault::NoMemory) => Err(LowerFault::NoMemory),
        Err(_) => unreachable!(),
    }
}

/// Names the bits of a leaf, where it has a symbol: so many positions from a first one on.
fn name_bits(
    section: Section,
    first: usize,
    symbol: &Option<Symbol>,
    count: u64,
    circuit: &mut Circuit,
) -> Result<(), LowerFault>
    requires free { IsBlank None first count (section_names section circuit.old) }
    requires room { first + count ≤ length (section_names section circuit.old) }
    requires few { length (section_names section circuit.old) ≤ greatest_count }
    requires count { count ≤ 64 }
    ensures ok { OnOk result (Renames section circuit.old
        (written_over (section_names section circuit.old) first (bit_names symbol.now 0 count))
        circuit.new) }
    ensures err { IfErr result (λ e. e ≡ fault.NoMemory) }
{
    match symbol {
        Some(symbol) => {
            for bit in 0..count {
                let mut name = ArrayVec::new();
                write_bit_name(symbol.bytes(), bit, &mut name);
                give_name(section, first + bit as usize, name.as_slice(), circuit)?;
            }
            Ok(())
        }
        None => Ok(()),
    }
}

/// Names the positions of an input or a state: the bits of its word.
fn name_leaf(
    model: &Model,
    place: usize,
    section: Section,
    first: usize,
    item: &Item,
    circuit: &mut Circuit,
) -> Result<usize, LowerFault>
    requires well_formed { IsWellFormed model.now }
    requires place { slice_get model.now place ≡ Some item.now }
    requires free { IsBlank None first (length (leaf_names model.now item.now))
        (section_names section circuit.old) }
    requires room { first + length (leaf_names model.now item.now)
        ≤ length (section_names section circuit.old) }
    requires few { length (section_names section circuit.old) ≤ greatest_count }
    ensures ok { OnOk result (Renames section circuit.old
        (written_over (section_names section circuit.old) first (leaf_names model.now item.now))
        circuit.new) }
    ensures count { IfOk result (λ n. n ≡ length (leaf_names model.now item.now)) }
    ensures err { IfErr result (λ e. e ≡ fault.NoMemory) }
{
    let count = bit_count(model, place, item);
    name_bits(section, first, &item.symbol, count, circuit)?;
    Ok(count as usize)
}

/// Names the positions of an item, and answers how many they are: none where it is no leaf of the kind. `k` counts the list
/// that the leaves are among.
fn name_item(
    model: &Model,
    leaves: Leaves,
    k: usize,
    place: usize,
    first: usize,
    item: &Item,
    circuit: &mut Circuit,
) -> Result<usize, LowerFault>
    requires well_formed { IsWellFormed model.now }
    requires there { k < length (places (list_of leaves) 0 model.now) }
    requires here { place ≡ slice_index (places (list_of leaves) 0 model.now) k }
    requires place { slice_get model.now place ≡ Some item.now }
    requires free { IsBlank None first (length (names_given model.now leaves item.now))
        (section_names (section_of leaves) circuit.old) }
    requires room { first + length (names_given model.now leaves item.now)
        ≤ length (section_names (section_of leaves) circuit.old) }
    requires few { length (section_names (section_of leaves) circuit.old) ≤ greatest_count }
    ensures ok { OnOk result (Renames (section_of leaves) circuit.old
        (written_over (section_names (section_of leaves) circuit.old) first
        (names_given model.now leaves item.now)) circuit.new) }
    ensures count { IfOk result (λ n. n ≡ length (names_given model.now leaves item.now)) }
    ensures err { IfErr result (λ e. e ≡ fault.NoMemory) }
{
    if leaves.has(model, k) {
        name_leaf(model, place, section_of(leaves), first, item, circuit)
    } else {
        Ok(0)
    }
}

/// Names the positions of leaves of a kind from a first one on, and answers the position behind them.
fn name_part(
    model: &Model,
    leaves: Leaves,
    first: usize,
    circuit: &mut Circuit,
) -> Result<usize, LowerFault>
    requires blank { IsBlank None first (length (part_names model.now leaves))
        (section_names (section_of leaves) circuit.old) }
    requires room { first + length (part_names model.now leaves)
        ≤ length (section_names (section_of leaves) circuit.old) }
    requires few { length (section_names (section_of leaves) circuit.old) ≤ greatest_count }
    ensures ok { OnOk result (Renames (section_of leaves) circuit.old
        (written_over (section_names (section_of leaves) circuit.old) first
        (part_names model.now leaves)) circuit.new) }
    ensures next { IfOk result (λ n. n ≡ first + length (part_names model.now leaves)) }
    ensures err { IfErr result (λ e. e ≡ fault.NoMemory) }
{
    let items = model.items();
    let list = leaves.places(model);
    let mut next = first;
    for k in 0..list.len() {
        let place = list[k];
        let item = item_at(items, place);
        let count = name_item(model, leaves, k, place, next, item, circuit)?;
        next += count;
    }
    Ok(next)
}

/// Gives the bits of each input and state with a symbol the name `<symbol>[<bit>]`.
///
/// Condition: no position of the circuit has a name, and it has one for each such bit of the model.
///
/// Error: `NoMemory`. Some positions may then have their names.
pub(crate) fn set_names(model: &Model, circuit: &mut Circuit) -> Result<(), LowerFault>
    requires unnamed { circuit.old.names ≡ [] }
    requires inputs { circuit.old.inputs ≡ given_width model.now }
    requires latches { length circuit.old.latches ≡ carried_width model.now }
    ensures ok { OnOk result (TakesNames model.now circuit.old circuit.new) }
    ensures err { IfErr result (λ e. e ≡ fault.NoMemory) }
{
    // a circuit has at most 2^30 positions of a section, so their counts fit
    let _ = circuit.variables();
    let inputs = name_part(model, Leaves::Inputs, 0, circuit)?;
    name_part(model, Leaves::Free, inputs, circuit)?;
    name_part(model, Leaves::Carried, 0, circuit)?;
    Ok(())
}
