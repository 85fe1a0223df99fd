//! The signals of a dump, with the word that each had last.
ghost use Rattle.std.specs.Prelude.{◌≡◌, ◌≤◌, [], ◌∷◌, ◌++◌, true, Some, IfOk, OnOk, All, is_some, filter, map, slice_get, unwrap_or};
ghost use Rattle.btor2.specs.Items.{node_width, position_of};
ghost use Rattle.btor2.specs.Check.{IsWellFormed};
ghost use Rattle.btor2.specs.Trace.{bits_of};
ghost use Rattle.vcd.specs.Signals.{node_by, signals, signals_in, is_in};
ghost use Rattle.vcd.specs.Stands.{signal_of};

use crate::scope::{Scope, Shown, is_in, scopes};
use btor2::{Body, Item, Model};
use std::alloc::{AllocError, Global};

/// A signal: a line of a model, by its id; the node whose word it shows, by its place and its width; and that word in
/// the frame that was closed last, 0 where there is none.
#[derive(Drop)]
pub(crate) struct Signal {
    pub(crate) id: u64,
    pub(crate) node: usize,
    pub(crate) width: u64,
    pub(crate) word: u64,
}

/// The node whose word a line shows: that which a property or an output names, and else its own.
fn shown_node(item: &Item) -> u64
    ensures { result ≡ node_by item.now.id item.now.body }
{
    match &item.body {
        Body::Bad { operand } => u64::from(*operand),
        Body::Constraint { operand } => u64::from(*operand),
        Body::Output { operand } => u64::from(*operand),
        _ => item.id,
    }
}

/// The place of a node of a model, by its id, and its width.
fn node_at(model: &Model, id: u64) -> (usize, u64)
    requires { is_some (node_width model.now id) ≡ true }
    ensures place { result.0 ≡ unwrap_or (position_of model.now id) 0 }
    ensures width { result.1 ≡ bits_of model.now id }
    ensures allowed { (1 ≤ result.1) × (result.1 ≤ 64) }
{
    match model.position(id) {
        Some(place) => match model.width_of(place) {
            Some(width) => (place, width.bits()),
            None => unreachable!(),
        },
        None => unreachable!(),
    }
}

/// The signal of the line at a place, which is shown in a scope, before any frame.
pub(crate) fn signal_of(
    model: &Model,
    shown: Shown,
    scope: Scope,
    place: usize,
    item: &Item,
) -> Signal
    requires well_formed { IsWellFormed model.now }
    requires at { slice_get model.now place ≡ Some item.now }
    requires shown { is_in shown scope item.now ≡ true }
    ensures signal { result ≡ signal_of model.now item.now }
    ensures allowed { (1 ≤ result.width) × (result.width ≤ 64) }
{
    let (node, width) = node_at(model, shown_node(item));
    Signal {
        id: item.id,
        node,
        width,
        word: 0,
    }
}

/// Puts the signal of the line at a place behind others, where it is shown in a scope.
fn push_signal(
    signals: &mut Vec<Signal>,
    model: &Model,
    shown: Shown,
    scope: Scope,
    place: usize,
    item: &Item,
) -> Result<(), AllocError>
    requires well_formed { IsWellFormed model.now }
    requires at { slice_get model.now place ≡ Some item.now }
    requires allowed { All (λ s. s.width ≤ 64) signals.old.items }
    ensures pushed { OnOk result (signals.new.items
        ≡ signals.old.items ++ map (signal_of model.now)
        (filter (is_in shown scope) (item.now ∷ []))) }
    ensures kept { All (λ s. s.width ≤ 64) signals.new.items }
{
    if !is_in(model, shown, scope, place, item) {
        return Ok(());
    }
    signals.push(signal_of(model, shown, scope, place, item))?;
    Ok(())
}

/// Puts the signals of a scope behind others.
fn push_signals(
    signals: &mut Vec<Signal>,
    model: &Model,
    shown: Shown,
    scope: Scope,
) -> Result<(), AllocError>
    requires { All (λ s. s.width ≤ 64) signals.old.items }
    ensures pushed { OnOk result (signals.new.items
        ≡ signals.old.items ++ map (signal_of model.now) (signals_in shown model.now scope)) }
    ensures kept { All (λ s. s.width ≤ 64) signals.new.items }
{
    let items = model.items();
    for (place, item) in items.iter().enumerate() {
        push_signal(signals, model, shown, scope, place, item)?;
    }
    Ok(())
}

/// The signals of a model, scope by scope.
pub(crate) fn signals(alloc: Global, model: &Model, shown: Shown) -> Result<Vec<Signal>, AllocError>
    ensures signals { IfOk result (λ v. v.items
        ≡ map (signal_of model.now) (signals shown model.now)) }
    ensures allowed { IfOk result (λ v. All (λ s. s.width ≤ 64) v.items) }
{
    let scopes = scopes();
    let mut signals = Vec::new(alloc);
    for scope in &scopes {
        push_signals(&mut signals, model, shown, *scope)?;
    }
    Ok(signals)
}
