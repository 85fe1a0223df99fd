//! The outputs, bad properties and constraints of a circuit, each with its name.
ghost use Rattle.std.specs.Prelude.{◌≡◌, ℕ, ◌+◌, ◌<◌, ◌≤◌, [], ◌∷◌, true, length, Some, None, All, IfErr, OnOk, slice_get, slice_index};
ghost use Rattle.std.specs.List.{flat_map};
ghost use Rattle.btor2.specs.Check.{IsWellFormed};
ghost use Rattle.aiger.specs.Limits.{greatest_count};
ghost use Rattle.aiger.specs.Net.{IsDefined};
ghost use Rattle.aiger.specs.Circuit.{net, is_name, property_refusal, RefusesBy};
ghost use Rattle.blast.specs.declared.fault.LowerFault.TheVariants as fault;
ghost use Rattle.blast.specs.Properties.{property_operand, property_section, property_literals, property_names, literals_of, with_more, names_by, Adds, TakesProperties};
ghost use Rattle.blast.specs.Reads.{RowsRead};

use crate::fault::LowerFault;
use crate::items::{item_at, node_row};
use crate::names::{give_name, write_bit_name};
use aiger::{Circuit, CircuitFault, Lit, Section};
use arrayvec::ArrayVec;
use base::Rows;
use btor2::{Body, Item, Model, Symbol};

/// A kind of the literals that a circuit shows, or wants to be 0 or 1.
#[derive(Clone, Copy)]
pub(crate) enum Property {
    /// Outputs: the bits of the nodes that output lines name.
    Output,
    /// Bad properties.
    Bad,
    /// Constraints.
    Constraint,
}

/// The section that the properties of a kind stand in.
fn property_section(property: Property) -> Section
    ensures { result ≡ property_section property }
{
    match property {
        Property::Output => Section::Output,
        Property::Bad => Section::Bad,
        Property::Constraint => Section::Constraint,
    }
}

/// Adds a literal to the properties of a kind, as the circuit takes it.
fn add_literal(property: Property, lit: Lit, circuit: &mut Circuit) -> Result<(), CircuitFault>
    ensures ok { OnOk result (circuit.new ≡ with_more property circuit.old (lit ∷ [])) }
    ensures refused { RefusesBy result
        (property_refusal circuit.old (length (literals_of property circuit.old)) lit) }
{
    match property {
        Property::Output => circuit.push_output(lit),
        Property::Bad => circuit.push_bad(lit),
        Property::Constraint => circuit.push_constraint(lit),
    }
}

/// Adds a property of a literal that is there. It has no name.
fn push_unnamed(property: Property, lit: Lit, circuit: &mut Circuit) -> Result<(), LowerFault>
    requires defined { IsDefined (net circuit.old) lit }
    requires few { length (literals_of property circuit.old) < greatest_count }
    ensures ok { OnOk result (Adds property circuit.old (lit ∷ []) (None ∷ []) circuit.new) }
    ensures err { IfErr result (λ e. e ≡ fault.NoMemory) }
{
    // a circuit has no name behind its positions
    let _ = circuit.variables();
    match add_literal(property, lit, circuit) {
        Ok(()) => Ok(()),
        Err(CircuitFault::NoMemory) => Err(LowerFault::NoMemory),
        Err(_) => unreachable!(),
    }
}

/// Adds a property of a literal that is there, with a name.
fn push_named(
    property: Property,
    lit: Lit,
    name: &[u8],
    circuit: &mut Circuit,
) -> Result<(), LowerFault>
    requires defined { IsDefined (net circuit.old) lit }
    requires few { length (literals_of property circuit.old) < greatest_count }
    requires name { is_name name.now ≡ true }
    ensures ok { OnOk result (Adds property circuit.old (lit ∷ [])
        (Some name.now ∷ []) circuit.new) }
    ensures err { IfErr result (λ e. e ≡ fault.NoMemory) }
{
    let section = property_section(property);
    let position = circuit.count(section);
    push_unnamed(property, lit, circuit)?;
    give_name(section, position, name, circuit)
}

/// Adds the property of a bit of a line. An output's name is the line's symbol with the bit's number, and that of any other
/// property the symbol itself; it has none where the line has none.
fn push_bit(
    property: Property,
    lit: Lit,
    symbol: &Option<Symbol>,
    bit: u64,
    circuit: &mut Circuit,
) -> Result<(), LowerFault>
    requires defined { IsDefined (net circuit.old) lit }
    requires few { length (literals_of property circuit.old) < greatest_count }
    requires bit { bit < 64 }
    ensures ok { OnOk result (Adds property circuit.old (lit ∷ [])
        (names_by property symbol.now bit 1) circuit.new) }
    ensures err { IfErr result (λ e. e ≡ fault.NoMemory) }
{
    let Some(symbol) = symbol else {
        return push_unnamed(property, lit, circuit);
    };
    match property {
        Property::Output => {
            let mut name = ArrayVec::new();
            write_bit_name(symbol.bytes(), bit, &mut name);
            push_named(property, lit, name.as_slice(), circuit)
        }
        Property::Bad | Property::Constraint => {
            push_named(property, lit, symbol.bytes(), circuit)
        }
    }
}

/// The literal of a bit of a row.
fn literal_of(row: &[Lit], bit: usize) -> Lit
    requires { bit < length row.now }
    ensures { result ≡ slice_index row.now bit }
{
    row[bit]
}

/// Adds the properties of a line with a row, one of each literal, the lowest bit first.
fn push_row(
    property: Property,
    row: &[Lit],
    symbol: &Option<Symbol>,
    circuit: &mut Circuit,
) -> Result<(), LowerFault>
    requires defined { All (IsDefined (net circuit.old)) row.now }
    requires short { length row.now ≤ 64 }
    requires few { length (literals_of property circuit.old) + length row.now ≤ greatest_count }
    ensures ok { OnOk result (Adds property circuit.old row.now
        (names_by property symbol.now 0 (length row.now)) circuit.new) }
    ensures err { IfErr result (λ e. e ≡ fault.NoMemory) }
{
    for bit in 0..row.len() {
        push_bit(property, literal_of(row, bit), symbol, bit as u64, circuit)?;
    }
    Ok(())
}

/// The node of a line of a kind of properties, and none of any other line.
fn operand_of(property: Property, body: &Body) -> Option<u32>
    ensures { result ≡ property_operand property body.now }
{
    match (property, body) {
        (Property::Output, Body::Output { operand })
        | (Property::Bad, Body::Bad { operand })
        | (Property::Constraint, Body::Constraint { operand }) => Some(*operand),
        _ => None,
    }
}

/// Adds the properties of an item: those of its node's row where it is a line of their kind, and none of any other item.
fn push_item(
    model: &Model,
    table: &Rows<Lit>,
    property: Property,
    place: usize,
    item: &Item,
    circuit: &mut Circuit,
) -> Result<(), LowerFault>
    requires well_formed { IsWellFormed model.now }
    requires place { slice_get model.now place ≡ Some item.now }
    requires reads { RowsRead model.now (net circuit.old) table.now }
    requires all { length table.now ≡ length model.now }
    requires few { length (literals_of property circuit.old) + length
        (property_literals model.now table.now property item.now.body) ≤ greatest_count }
    ensures ok { OnOk result (Adds property circuit.old
        (property_literals model.now table.now property item.now.body)
        (property_names model.now table.now property item.now) circuit.new) }
    ensures err { IfErr result (λ e. e ≡ fault.NoMemory) }
{
    match operand_of(property, &item.body) {
        Some(id) => push_row(property, node_row(model, table, id), &item.symbol, circuit),
        None => Ok(()),
    }
}

/// Adds the properties of a kind, in file order.
fn push_kind(
    model: &Model,
    table: &Rows<Lit>,
    property: Property,
    circuit: &mut Circuit,
) -> Result<(), LowerFault>
    requires reads { RowsRead model.now (net circuit.old) table.now }
    requires all { length table.now ≡ length model.now }
    requires none { literals_of property circuit.old ≡ [] }
    ensures ok { OnOk result (Adds property circuit.old
        (flat_map (λ x. property_literals model.now table.now property x.body) model.now)
        (flat_map (property_names model.now table.now property) model.now) circuit.new) }
    ensures err { IfErr result (λ e. e ≡ fault.NoMemory) }
{
    let items = model.items();
    for place in 0..items.len() {
        push_item(
            model,
            table,
            property,
            place,
            item_at(items, place),
            circuit,
        )?;
    }
    Ok(())
}

/// Adds the outputs, then the bad properties and then the constraints of a model: the literals of their operands, each with
/// its name as it is added. So names come in the order in which a circuit keeps them.
///
/// Conditions: the table has a row for each item, which reads as its node's word; the circuit has no output, no bad
/// property and no constraint yet.
///
/// Error: `NoMemory`. Some of them may then be there.
pub(crate) fn push_properties(
    model: &Model,
    table: &Rows<Lit>,
    circuit: &mut Circuit,
) -> Result<(), LowerFault>
    requires reads { RowsRead model.now (net circuit.old) table.now }
    requires all { length table.now ≡ length model.now }
    requires outputs { circuit.old.outputs ≡ [] }
    requires bads { circuit.old.bads ≡ [] }
    requires constraints { circuit.old.constraints ≡ [] }
    ensures ok { OnOk result (TakesProperties model.now circuit.old circuit.new) }
    ensures err { IfErr result (λ e. e ≡ fault.NoMemory) }
{
    // a model's items are well-formed
    let _ = model.items();
    push_kind(model, table, Property::Output, circuit)?;
    push_kind(model, table, Property::Bad, circuit)?;
    push_kind(model, table, Property::Constraint, circuit)
}
