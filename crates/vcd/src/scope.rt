//! The scopes of a dump, and the lines that are shown in them.
ghost use Rattle.std.specs.Prelude.{◌≡◌, slice_get, Some};
ghost use Rattle.btor2.specs.Check.{IsWellFormed};
ghost use Rattle.runs.specs.Frames.{is_leaf};
ghost use Rattle.vcd.specs.declared.scope.Scope.TheVariants as scope;
ghost use Rattle.vcd.specs.Signals.{scope_name, scopes, is_in, shows_all};

use btor2::{Body, Item, Model};

/// Which nodes are shown beside inputs, states, properties and outputs.
#[derive(Clone, Copy, PartialEq, Eq)]
pub enum Shown {
    /// Those that have a symbol.
    Named,
    /// All nodes with a value.
    All,
}

/// A scope of a dump.
#[derive(Clone, Copy)]
pub(crate) enum Scope {
    /// The inputs.
    Inputs,
    /// The states.
    States,
    /// The bad properties.
    Bads,
    /// The constraints.
    Constraints,
    /// The outputs.
    Outputs,
    /// The nodes that are neither inputs nor states.
    Nodes,
}

/// The scopes, in their order.
pub(crate) fn scopes() -> [Scope; 6]
    ensures { result ≡ scopes }
{
    [
        Scope::Inputs,
        Scope::States,
        Scope::Bads,
        Scope::Constraints,
        Scope::Outputs,
        Scope::Nodes,
    ]
}

/// The name of a scope.
pub(crate) fn scope_name(scope: Scope) -> &'static [u8]
    ensures { result.now ≡ scope_name scope }
{
    match scope {
        Scope::Inputs => b"inputs",
        Scope::States => b"states",
        Scope::Bads => b"bad",
        Scope::Constraints => b"constraints",
        Scope::Outputs => b"outputs",
        Scope::Nodes => b"nodes",
    }
}

/// Whether all nodes are shown.
fn shows_all(shown: Shown) -> bool
    ensures { result ≡ shows_all shown }
{
    match shown {
        Shown::Named => false,
        Shown::All => true,
    }
}

/// Whether a line is an input or a state.
fn is_leaf(body: &Body) -> bool
    ensures { result ≡ is_leaf body.now }
{
    matches!(body, Body::Input { .. } | Body::State { .. })
}

/// Whether the item at a place is a node that is neither an input nor a state, and is shown.
fn is_other(model: &Model, shown: Shown, place: usize, item: &Item) -> bool
    requires well_formed { IsWellFormed model.now }
    requires at { slice_get model.now place ≡ Some item.now }
    ensures { result ≡ is_in shown scope.Nodes item.now }
{
    if !model.width_of(place).is_some() || is_leaf(&item.body) {
        return false;
    }
    shows_all(shown) || item.symbol.is_some()
}

/// Whether the item at a place is shown in a scope.
pub(crate) fn is_in(model: &Model, shown: Shown, scope: Scope, place: usize, item: &Item) -> bool
    requires well_formed { IsWellFormed model.now }
    requires at { slice_get model.now place ≡ Some item.now }
    ensures { result ≡ is_in shown scope item.now }
{
    match scope {
        Scope::Inputs => matches!(item.body, Body::Input { .. }),
        Scope::States => matches!(item.body, Body::State { .. }),
        Scope::Bads => matches!(item.body, Body::Bad { .. }),
        Scope::Constraints => matches!(item.body, Body::Constraint { .. }),
        Scope::Outputs => matches!(item.body, Body::Output { .. }),
        Scope::Nodes => is_other(model, shown, place, item),
    }
}
