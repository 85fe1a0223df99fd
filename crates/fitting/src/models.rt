//! Whole models with words of any width, fitted.
ghost use Rattle.std.specs.Prelude.{◌≡◌, [], ◌∷◌, ◌++◌, map, List, None, OnOk, IfOk, IfErr};
ghost use Rattle.btor2.specs.declared.item.Item.{Item};
ghost use Rattle.btor2.specs.Check.{IsWellFormed};
ghost use Rattle.wide.specs.Lines.{item_of, constant_item};
ghost use Rattle.wide.specs.WideModels.{greatest_width, IsWideModel};
ghost use Rattle.pieces.specs.Kept.{IsShort};
ghost use Rattle.pieces.specs.Lines.{named};
ghost use Rattle.fitting.specs.Faults.{fault_of};
ghost use Rattle.fitting.specs.Forms.{form_fault};
ghost use Rattle.fitting.specs.Fitted.{IsSoundLine, IsFitted};
ghost use Rattle.fitting.specs.Steps.{IsLonger, ConstantPlace};
ghost use Rattle.fitting.specs.Tables.{table_of};
ghost use Rattle.fitting.specs.Models.{HaveForms, IsFit, IsUnfit, IsUnfitLine};

use crate::digits::constant_digits;
use crate::fault::{FitFault, fault_of};
use crate::fitter::Fitter;
use crate::unfitted::Unfitted;
use btor2::{Item, Model};
use pieces::Shortage;
use std::alloc::Global;
use wide::{Constant, Line, WideModel};

/// Adds the line of a constant in digits.
fn add_constant(alloc: Global, fitter: &mut Fitter, constant: &Constant) -> Result<(), Shortage>
    ghost at: { ConstantPlace }
    requires fitted { IsFitted at.wide (table_of fitter.old) fitter.old.maker }
    requires sound { IsSoundLine at.wide (named constant.now.id at.symbol at.body) }
    requires body { at.body ≡ (constant_item constant.now).body }
    ensures fitted { OnOk result (IsFitted (at.wide ++ named constant.now.id at.symbol at.body ∷ [])
        (table_of fitter.new) fitter.new.maker) }
    ensures grows { IfErr result (λ e. IsLonger fitter.old.maker fitter.new.maker) }
    ensures short { IfErr result (IsShort fitter.new.maker) }
{
    let width = fitter.width(constant.sort);
    let digits = constant_digits(alloc, width, constant)?;
    fitter.add_digits(alloc, constant.id, constant.sort, width, digits.as_slice())
}

/// Why a model is not fitted of which a line is not.
fn refused(fitter: &Fitter, id: u64, unfitted: Unfitted) -> FitFault
    ensures told { result ≡ fault_of id unfitted }
    ensures well_formed { IsWellFormed fitter.now.maker }
{
    let _items = fitter.model().items();
    fault_of(id, unfitted)
}

/// Adds a line that is no constant in digits.
fn add_item(alloc: Global, fitter: &mut Fitter, item: Item) -> Result<(), FitFault>
    ghost wide: { List Item }
    requires fitted { IsFitted wide (table_of fitter.old) fitter.old.maker }
    requires sound { IsSoundLine wide item }
    ensures fitted { OnOk result (IsFitted (wide ++ item ∷ []) (table_of fitter.new) fitter.new.maker) }
    ensures form { OnOk result (form_fault item.body ≡ None) }
    ensures refused { IfErr result (λ e. IsUnfitLine e wide item) }
{
    let id = item.id;
    match fitter.add(alloc, item) {
        Ok(()) => Ok(()),
        Err(unfitted) => Err(refused(fitter, id, unfitted)),
    }
}

/// Adds the line that follows the lines so far.
fn add_line(alloc: Global, fitter: &mut Fitter, line: Line) -> Result<(), FitFault>
    ghost wide: { List Item }
    requires fitted { IsFitted wide (table_of fitter.old) fitter.old.maker }
    requires sound { IsSoundLine wide (item_of line) }
    ensures fitted { OnOk result (IsFitted (wide ++ item_of line ∷ [])
        (table_of fitter.new) fitter.new.maker) }
    ensures form { OnOk result (form_fault (item_of line).body ≡ None) }
    ensures refused { IfErr result (λ e. IsUnfitLine e wide (item_of line)) }
{
    match line {
        Line::Item(item) => add_item(alloc, fitter, item),
        Line::Constant(constant) => match add_constant(alloc, fitter, &constant) {
            Ok(()) => Ok(()),
            Err(shortage) => Err(refused(fitter, constant.id, Unfitted::Short(shortage))),
        },
    }
}

/// Adds the lines of a model, each after those before it.
pub(crate) fn add_lines(
    alloc: Global,
    fitter: &mut Fitter,
    lines: Vec<Line>,
) -> Result<(), FitFault>
    ghost items: { List Item }
    requires items { map item_of lines.items ≡ items }
    requires well_formed { IsWideModel greatest_width items }
    requires fitted { IsFitted [] (table_of fitter.old) fitter.old.maker }
    ensures fitted { OnOk result (IsFitted items (table_of fitter.new) fitter.new.maker) }
    ensures forms { OnOk result (HaveForms items) }
    ensures refused { IfErr result (IsUnfit items) }
{
    for line in lines {
        add_line(alloc, fitter, line)?;
    }
    Ok(())
}

/// Fits the lines of a model.
fn fit_lines(alloc: Global, lines: Vec<Line>) -> Result<Model, FitFault>
    ghost items: { List Item }
    requires items { map item_of lines.items ≡ items }
    requires well_formed { IsWideModel greatest_width items }
    ensures fits { IfOk result (IsFit items) }
    ensures forms { OnOk result (HaveForms items) }
    ensures refused { IfErr result (IsUnfit items) }
{
    let mut fitter = Fitter::new(alloc);
    add_lines(alloc, &mut fitter, lines)?;
    Ok(fitter.finish())
}

/// Fits a model with words of any width into a model of the profile: a node of more than 64 bits becomes nodes of 64 bits each,
/// but for the last, which has the bits that are left, and each line becomes lines that say the same of them.
///
/// Errors: the first line that is not fitted is told by its id, with `Justice` and `Fair` for such lines, and `TooManyItems`
/// where the model of the profile has no room for it; `NoMemory` tells none.
pub fn fit(alloc: Global, model: WideModel) -> Result<Model, FitFault>
    ensures fits { IfOk result (IsFit model) }
    ensures forms { OnOk result (HaveForms model) }
    ensures refused { IfErr result (IsUnfit model) }
{
    fit_lines(alloc, model.into_lines())
}
