//! What lines need.
ghost use Rattle.std.specs.Prelude.{◌≡◌, ◌<◌, ◌^◌, [], ◌∷◌, ◌++◌, map, true, is_some, slice_get, IfSome, IfOk, OnOk};
ghost use Rattle.full.specs.Lines.{find_line, init_of};
ghost use Rattle.fullmodel.specs.Lines.{line_of};
ghost use Rattle.writeout.specs.Ways.{way_of};
ghost use Rattle.writeout.specs.Needs.{AreFound, place_of, first_ids, node_operands, form_needs, needed, row_of, option_ids};

use crate::forms::operand_at;
use crate::known::know;
use crate::way::{Way, way_of};
use base::Rows;
use btor2::Body;
use fullmodel::{FullModel, Line, Says};
use std::alloc::{AllocError, Global};

/// Adds the position of the line with an id.
fn need(full: &FullModel, row: &mut Vec<u32>, id: u32) -> Result<(), AllocError>
    requires { is_some (find_line full.now id) ≡ true }
    ensures { OnOk result (row.new.items ≡ row.old.items ++ place_of full.now id ∷ []) }
{
    know(full);
    match full.position(id) {
        Some(place) => {
            row.push(place as u32)?;
            Ok(())
        }
        None => Ok(()),
    }
}

/// Adds the position of the operand at a place.
fn need_at(
    full: &FullModel,
    row: &mut Vec<u32>,
    body: &Body,
    place: usize,
) -> Result<(), AllocError>
    requires { AreFound full.now (option_ids (slice_get (node_operands body.now) place)) }
    ensures { OnOk result (row.new.items ≡ row.old.items
        ++ map (place_of full.now) (option_ids (slice_get (node_operands body.now) place))) }
{
    match operand_at(body, place) {
        Some(id) => need(full, row, id),
        None => Ok(()),
    }
}

/// What a state needs: the value of its init, where it is written by its first word.
fn state_row(full: &FullModel, row: &mut Vec<u32>, id: u32) -> Result<(), AllocError>
    requires { AreFound full.now (first_ids (way_of full.now id) (init_of full.now id)) }
    ensures { OnOk result (row.new.items ≡ row.old.items
        ++ map (place_of full.now) (first_ids (way_of full.now id) (init_of full.now id))) }
{
    match way_of(full, id) {
        Way::First => match full.init_of(id) {
            Some(value) => need(full, row, value.id),
            None => Ok(()),
        },
        _ => Ok(()),
    }
}

/// What a form needs.
fn form_row(full: &FullModel, row: &mut Vec<u32>, id: u64, body: &Body) -> Result<(), AllocError>
    requires small { id < 2 ^ 32 }
    requires found { AreFound full.now (form_needs full.now id body.now) }
    ensures { OnOk result (row.new.items ≡ row.old.items
        ++ map (place_of full.now) (form_needs full.now id body.now)) }
{
    if let Body::State { .. } = body {
        return state_row(full, row, id as u32);
    }
    need_at(full, row, body, 0)?;
    need_at(full, row, body, 1)?;
    need_at(full, row, body, 2)
}

/// What a line needs.
fn line_row(full: &FullModel, row: &mut Vec<u32>, line: &Line) -> Result<(), AllocError>
    requires small { line.now.id < 2 ^ 32 }
    requires found { AreFound full.now (needed full.now (line_of line.now)) }
    ensures { OnOk result (row.new.items ≡ row.old.items ++ row_of full.now (line_of line.now)) }
{
    match &line.says {
        Says::Form { body, .. } => form_row(full, row, line.id, body),
        Says::Constant { .. } => Ok(()),
        Says::ArraySort { .. } => Ok(()),
        Says::Read { array, index, .. } => {
            need(full, row, *array)?;
            need(full, row, index.id)
        }
        Says::Write {
            array,
            index,
            word,
            ..
        } => {
            need(full, row, *array)?;
            need(full, row, index.id)?;
            need(full, row, word.id)
        }
    }
}

/// What the lines of a model need, by their positions.
pub(crate) fn needs(alloc: Global, full: &FullModel) -> Result<Rows<u32>, AllocError>
    ensures { IfOk result (λ rows. rows ≡ map (row_of full.now) full.now) }
{
    know(full);
    let mut rows = Rows::new(alloc);
    for line in full.lines() {
        let mut row = Vec::new(alloc);
        line_row(full, &mut row, line)?;
        rows.push(row.as_slice())?;
    }
    Ok(rows)
}
