//! Where the list has the words of the model's states.
ghost use Rattle.std.specs.Prelude.{◌≡◌, ◌++◌, [], ◌∷◌, length, IfOk, OnOk};
ghost use Rattle.btor2.specs.Items.{is_state};
ghost use Rattle.full.specs.Lines.{is_form};
ghost use Rattle.fullmodel.specs.Lines.{line_of};
ghost use Rattle.writeout.specs.Leaves.{of_kind_lines};

use btor2::Body;
use cells::Shortage;
use fullmodel::{FullModel, Line, Says};
use std::alloc::Global;

/// Of each state of a model, in file order, a node of the list and a state of the list.
#[derive(Drop)]
pub(crate) struct States {
    pub(crate) nodes: Vec<u32>,
    pub(crate) leaves: Vec<u32>,
}

/// Whether a line is one of a state.
fn is_state(line: &Line) -> bool
    ensures { result ≡ is_form is_state (line_of line.now).says }
{
    match &line.says {
        Says::Form { body, .. } => matches!(body, Body::State { .. }),
        _ => false,
    }
}

/// Adds the number of a line, where it is one of a state.
fn keep_state(list: &mut Vec<u32>, line: &Line, number: u32) -> Result<(), Shortage>
    ensures { OnOk result (list.new.items ≡ list.old.items
        ++ of_kind_lines is_state (line_of line.now ∷ []) (number ∷ [])) }
{
    if !is_state(line) {
        return Ok(());
    }
    match list.push(number) {
        Ok(()) => Ok(()),
        Err(_) => Err(Shortage::NoMemory),
    }
}

/// The numbers of the states among the numbers of the lines.
pub(crate) fn of_states(
    alloc: Global,
    full: &FullModel,
    numbers: &[u32],
) -> Result<Vec<u32>, Shortage>
    requires { length numbers.now ≡ length full.now }
    ensures { IfOk result (λ list. list.items ≡ of_kind_lines is_state full.now numbers.now) }
{
    let mut list = Vec::new(alloc);
    let lines = full.lines();
    for place in 0..lines.len() {
        keep_state(&mut list, &lines[place], numbers[place])?;
    }
    Ok(list)
}
