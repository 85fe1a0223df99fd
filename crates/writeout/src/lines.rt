//! The nodes of all lines with a value.
ghost use Rattle.std.specs.Prelude.{◌≡◌, ◌<◌, ℕ, [], None, true, Some, slice_get, IfOk};
ghost use Rattle.btor2.specs.Items.{is_state};
ghost use Rattle.wide.specs.Entries.{digits_sort};
ghost use Rattle.wide.specs.Lines.{constant_body, number_of_digits};
ghost use Rattle.full.specs.Lines.{FullLine, form, is_form};
ghost use Rattle.full.specs.Runs.{at_place};
ghost use Rattle.fullmodel.specs.Lines.{line_of, HasNoDigits};
ghost use Rattle.writeout.specs.Ways.{is_first};
ghost use Rattle.writeout.specs.Forms.{is_value};
ghost use Rattle.writeout.specs.Nodes.{NodesStand, IsLine, IsMade, IsWritten, LinePlace, NeedsDone};
ghost use Rattle.writeout.specs.Tables.{writing};

use crate::arrays::{read_node, write_node};
use crate::choices::choice_by;
use crate::known::know;
use crate::nodes::form_node;
use crate::operands::width;
use crate::tables::Tables;
use crate::way::{Way, way_of};
use btor2::Body;
use cells::{ListMaker, Shortage};
use fullmodel::{FullModel, Line, Says};
use std::alloc::Global;
use wide::Spelling;

/// Adds the node of a constant in digits, which are handed over.
fn own_node(
    full: &FullModel,
    tables: &Tables,
    maker: &mut ListMaker,
    id: u32,
    spelling: Spelling,
    count: usize,
    number: Vec<u64>,
) -> Result<u32, Shortage>
    ghost line: { FullLine }
    requires stands { NodesStand full.now (writing tables.now maker.old) }
    requires line { IsLine full.now line }
    requires id { line.id ≡ id }
    requires says { (s : ℕ) × (line.says ≡ form (constant_body spelling s count (number_of_digits number.items)) []) }
    ensures { IfOk result (λ r. (leaf : ℕ) → IsMade full.now (writing tables.now maker.old) maker.new line leaf r) }
{
    know(full);
    let _first = tables.first;
    let sort = maker.sort(width(full, id))?;
    maker.put_constant(None, sort, spelling, count, number)
}

/// Adds the node of a constant in digits.
fn constant_node(
    alloc: Global,
    full: &FullModel,
    tables: &Tables,
    maker: &mut ListMaker,
    id: u32,
    spelling: Spelling,
    count: usize,
    number: &[u64],
) -> Result<u32, Shortage>
    ghost line: { FullLine }
    requires stands { NodesStand full.now (writing tables.now maker.old) }
    requires line { IsLine full.now line }
    requires id { line.id ≡ id }
    requires says { (s : ℕ) × (line.says ≡ form (constant_body spelling s count (number_of_digits number.now)) []) }
    ensures { IfOk result (λ r. (leaf : ℕ) → IsMade full.now (writing tables.now maker.old) maker.new line leaf r) }
{
    match Vec::from_slice(alloc, number) {
        Ok(own) => own_node(full, tables, maker, id, spelling, count, own),
        Err(_) => Err(Shortage::NoMemory),
    }
}

/// Adds the node of a state, and answers it: the choice where it is written by its first word, else its state.
fn state_node(
    full: &FullModel,
    tables: &Tables,
    maker: &mut ListMaker,
    id: u32,
    leaf: u32,
) -> Result<u32, Shortage>
    ghost at: { LinePlace }
    requires stands { NodesStand full.now (writing tables.now maker.old) }
    requires at { slice_get full.now at.place ≡ Some at.line }
    requires id { at.line.id ≡ id }
    requires state { is_form is_state at.line.says ≡ true }
    requires leaf { leaf ≡ at_place tables.now.leaves.items at.place }
    requires done { NeedsDone full.now (writing tables.now maker.old) at.line }
    ensures { IfOk result (IsMade full.now (writing tables.now maker.old) maker.new at.line leaf) }
{
    know(full);
    if is_first(way_of(full, id)) {
        match full.init_of(id) {
            Some(value) => choice_by(full, tables, maker, id, leaf, value),
            None => unreachable!(),
        }
    } else {
        Ok(leaf)
    }
}

/// Whether it is by the first word.
fn is_first(way: Way) -> bool
    ensures { result ≡ is_first way }
{
    match way {
        Way::First => true,
        Way::Open => false,
        Way::Constant => false,
        Way::Zeros => false,
        Way::Ones => false,
    }
}

/// Whether a form is that of a node that is no leaf.
fn is_value(body: &Body) -> bool
    ensures { result ≡ is_value body.now }
{
    match body {
        Body::Zero { .. }
        | Body::One { .. }
        | Body::Ones { .. }
        | Body::Const { .. }
        | Body::Constd { .. }
        | Body::Consth { .. }
        | Body::Uext { .. }
        | Body::Sext { .. }
        | Body::Slice { .. }
        | Body::Unary { .. }
        | Body::Binary { .. }
        | Body::Concat { .. }
        | Body::Ite { .. } => true,
        _ => false,
    }
}

/// Whether a form is a state.
fn is_state(body: &Body) -> bool
    ensures { result ≡ is_state body.now }
{
    matches!(body, Body::State { .. })
}

/// Adds the node of a form, and answers it, or 0 where it has no value or is an input.
fn any_form_node(
    full: &FullModel,
    tables: &Tables,
    maker: &mut ListMaker,
    id: u32,
    leaf: u32,
    body: &Body,
    minuses: &[bool],
) -> Result<u32, Shortage>
    ghost at: { LinePlace }
    requires stands { NodesStand full.now (writing tables.now maker.old) }
    requires at { slice_get full.now at.place ≡ Some at.line }
    requires id { at.line.id ≡ id }
    requires says { at.line.says ≡ form body.now minuses.now }
    requires no_digits { digits_sort body.now ≡ None }
    requires leaf { leaf ≡ at_place tables.now.leaves.items at.place }
    requires done { NeedsDone full.now (writing tables.now maker.old) at.line }
    ensures { IfOk result (IsWritten full.now (writing tables.now maker.old) maker.new at.line leaf) }
{
    if is_value(body) {
        form_node(full, tables, maker, id, body, minuses)
    } else if is_state(body) {
        state_node(full, tables, maker, id, leaf)
    } else {
        Ok(0)
    }
}

/// Adds the node of a line that has none yet, and answers it, or 0 where it has no value or is an input.
pub(crate) fn line_node(
    alloc: Global,
    full: &FullModel,
    tables: &Tables,
    maker: &mut ListMaker,
    _place: usize,
    line: &Line,
    leaf: u32,
) -> Result<u32, Shortage>
    ghost at: { LinePlace }
    requires stands { NodesStand full.now (writing tables.now maker.old) }
    requires at { slice_get full.now at.place ≡ Some at.line }
    requires line { at.line ≡ line_of line.now }
    requires few { line.now.id < 4294967296 }
    requires form { HasNoDigits line.now.says }
    requires leaf { leaf ≡ at_place tables.now.leaves.items at.place }
    requires done { NeedsDone full.now (writing tables.now maker.old) at.line }
    ensures { IfOk result (IsWritten full.now (writing tables.now maker.old) maker.new at.line leaf) }
{
    let id = line.id as u32;
    match &line.says {
        Says::Form { body, minuses } => {
            any_form_node(full, tables, maker, id, leaf, body, minuses.as_slice())
        }
        Says::Constant {
            sort: _sort,
            spelling,
            count,
            number,
        } => constant_node(
            alloc,
            full,
            tables,
            maker,
            id,
            *spelling,
            *count,
            number.as_slice(),
        ),
        Says::ArraySort { .. } => Ok(0),
        Says::Read {
            sort: _sort,
            array,
            index,
        } => read_node(full, tables, maker, *array, *index),
        Says::Write {
            sort: _sort,
            array,
            index,
            word,
        } => write_node(full, tables, maker, *array, *index, *word),
    }
}
