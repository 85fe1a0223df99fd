//! What forms name.
ghost use Rattle.std.specs.Prelude.{◌≡◌};
ghost use Rattle.btor2.specs.Items.{node_sort, named_sort};

use btor2::Body;

/// The sort of a node with a value: of a leaf, a constant or an operator.
pub(crate) fn node_sort(body: &Body) -> Option<u32>
    ensures { result ≡ node_sort body.now }
{
    match body {
        Body::Input { sort }
        | Body::State { sort }
        | Body::Zero { sort }
        | Body::One { sort }
        | Body::Ones { sort }
        | Body::Const { sort, .. }
        | Body::Constd { sort, .. }
        | Body::Consth { sort, .. }
        | Body::Uext { sort, .. }
        | Body::Sext { sort, .. }
        | Body::Slice { sort, .. }
        | Body::Unary { sort, .. }
        | Body::Binary { sort, .. }
        | Body::Concat { sort, .. }
        | Body::Ite { sort, .. } => Some(*sort),
        Body::Sort { .. }
        | Body::Init { .. }
        | Body::Next { .. }
        | Body::Bad { .. }
        | Body::Constraint { .. }
        | Body::Fair { .. }
        | Body::Output { .. }
        | Body::Justice { .. } => None,
    }
}

/// The sort that it names.
pub(crate) fn named_sort(body: &Body) -> Option<u32>
    ensures { result ≡ named_sort body.now }
{
    match body {
        Body::Init { sort, .. } | Body::Next { sort, .. } => Some(*sort),
        _ => node_sort(body),
    }
}
