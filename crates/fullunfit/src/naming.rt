//! The names of the states and of the inputs of a model of the whole language.
ghost use Rattle.std.specs.Prelude.{◌≡◌, IfOk, OnOk};
ghost use Rattle.fullmodel.specs.Lines.{line_of};
ghost use Rattle.fullunfit.specs.Titles.{names_of, named_with};

use fullmodel::{FullModel, Line, Says};
use std::alloc::{AllocError, Global};
use unfit::Names;

/// Adds the name of a line.
fn add_line(names: &mut Names, alloc: Global, line: &Line) -> Result<(), AllocError>
    ensures { OnOk result (names.new ≡ named_with names.old (line_of line.now)) }
{
    match &line.says {
        Says::Form { body, .. } => names.add(alloc, body, &line.symbol),
        _ => Ok(()),
    }
}

/// The symbols of the states and of the inputs of a model, in file order: an array has one, for all of its cells.
///
/// Error: a growth was refused.
pub fn names_of(alloc: Global, model: &FullModel) -> Result<Names, AllocError>
    ensures { IfOk result (λ names. names ≡ names_of model.now) }
{
    let mut names = Names {
        states: Vec::new(alloc),
        inputs: Vec::new(alloc),
    };
    let lines = model.lines();
    for line in lines {
        add_line(&mut names, alloc, line)?;
    }
    Ok(names)
}
