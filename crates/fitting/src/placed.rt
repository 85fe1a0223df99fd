//! Whole models, fitted, with the places of the pieces of nodes.
ghost use Rattle.std.specs.Prelude.{◌≡◌, ℕ, true, [], ◌∷◌, ◌++◌, is_some, map, List, OnOk, IfOk, IfErr};
ghost use Rattle.std.specs.List.{AllZip};
ghost use Rattle.btor2.specs.declared.item.Item.{Item};
ghost use Rattle.btor2.specs.Items.{node_width};
ghost use Rattle.wide.specs.Lines.{item_of};
ghost use Rattle.wide.specs.WideModels.{greatest_width, IsWideModel};
ghost use Rattle.fitting.specs.Fitted.{IsFitted, node_ids};
ghost use Rattle.fitting.specs.Laid.{AreWords, AreThere, HasPlace, IsLaid};
ghost use Rattle.fitting.specs.Models.{HaveForms, IsFit, IsUnfit};
ghost use Rattle.fitting.specs.Tables.{table_of, layout_of};

use crate::fault::FitFault;
use crate::fitter::Fitter;
use crate::models::add_lines;
use base::Rows;
use btor2::Model;
use pieces::Node;
use std::alloc::{AllocError, Global};
use wide::{Line, WideModel};

/// A model that is fitted, and where the pieces of nodes stand in it.
#[derive(Drop)]
pub struct Fitted {
    /// The model of the profile.
    pub model: Model,
    /// Of each node that was named, in the order in which they were, the positions among the items of the pieces, the lowest
    /// first. Rows are the nodes.
    pub places: Rows<usize>,
}

/// The position of a node.
fn place_of(model: &Model, node: Node) -> usize
    requires { is_some (node_width model.now node.id) ≡ true }
    ensures { HasPlace model.now node.id result }
{
    match model.position(u64::from(node.id)) {
        Some(place) => place,
        None => unreachable!(),
    }
}

/// The positions of nodes.
fn node_places(alloc: Global, model: &Model, nodes: &[Node]) -> Result<Vec<usize>, AllocError>
    requires { AreThere model.now nodes.now }
    ensures { IfOk result (λ places. AllZip (HasPlace model.now) (node_ids nodes.now) places.items) }
{
    let mut places = Vec::new(alloc);
    for node in nodes {
        places.push(place_of(model, *node))?;
    }
    Ok(places)
}

/// Adds the positions of the pieces of a node.
fn add_places(
    alloc: Global,
    fitter: &Fitter,
    node: u32,
    places: &mut Rows<usize>,
) -> Result<(), FitFault>
    ghost wide: { List Item }
    requires fitted { IsFitted wide (table_of fitter.now) fitter.now.maker }
    requires node { is_some (node_width wide node) ≡ true }
    ensures laid { OnOk result ((row : List ℕ) × (places.new ≡ places.old ++ row ∷ [])
        × IsLaid wide fitter.now.maker (layout_of fitter.now) node row) }
    ensures refused { IfErr result (IsUnfit wide) }
{
    let Ok(row) = node_places(alloc, fitter.model(), fitter.word(node)) else {
        return Err(FitFault::NoMemory);
    };
    match places.push(row.as_slice()) {
        Ok(()) => Ok(()),
        Err(_) => Err(FitFault::NoMemory),
    }
}

/// The positions of the pieces of nodes.
fn all_places(alloc: Global, fitter: &Fitter, nodes: &[u32]) -> Result<Rows<usize>, FitFault>
    ghost wide: { List Item }
    requires fitted { IsFitted wide (table_of fitter.now) fitter.now.maker }
    requires nodes { AreWords wide nodes.now }
    ensures laid { IfOk result (AllZip (IsLaid wide fitter.now.maker (layout_of fitter.now)) nodes.now) }
    ensures refused { IfErr result (IsUnfit wide) }
{
    let mut places = Rows::new(alloc);
    for node in nodes {
        add_places(alloc, fitter, *node, &mut places)?;
    }
    Ok(places)
}

/// Fits the lines of a model, and finds the pieces of nodes.
fn fit_placed(alloc: Global, lines: Vec<Line>, nodes: &[u32]) -> Result<Fitted, FitFault>
    ghost items: { List Item }
    requires items { map item_of lines.items ≡ items }
    requires well_formed { IsWideModel greatest_width items }
    requires nodes { AreWords items nodes.now }
    ensures fits { IfOk result (λ f. (fit : IsFit items f.model)
        × AllZip (IsLaid items f.model fit.layout) nodes.now f.places) }
    ensures forms { OnOk result (HaveForms items) }
    ensures refused { IfErr result (IsUnfit items) }
{
    let mut fitter = Fitter::new(alloc);
    add_lines(alloc, &mut fitter, lines)?;
    let places = all_places(alloc, &fitter, nodes)?;
    Ok(Fitted {
        model: fitter.finish(),
        places,
    })
}

/// Fits a model as `fit` does, and answers where the pieces of some of its nodes stand.
///
/// Condition: each of `nodes` is the id of a node with a value.
///
/// Errors: those of `fit`.
pub fn fit_with_places(alloc: Global, model: WideModel, nodes: &[u32]) -> Result<Fitted, FitFault>
    requires { AreWords model nodes.now }
    ensures fits { IfOk result (λ f. (fit : IsFit model f.model)
        × AllZip (IsLaid model f.model fit.layout) nodes.now f.places) }
    ensures forms { OnOk result (HaveForms model) }
    ensures refused { IfErr result (IsUnfit model) }
{
    fit_placed(alloc, model.into_lines(), nodes)
}
