//! Forms over the sorts and nodes of the list with cells.
ghost use Rattle.std.specs.Prelude.{◌≡◌, ◌++◌, [], ◌∷◌, None, map, false, OnOk, IfOk, IfSome};
ghost use Rattle.wide.specs.Entries.{digits_sort};
ghost use Rattle.celled.specs.Spots.{spots_of};
ghost use Rattle.celled.specs.Split.{renamed, is_small};

use crate::table::Table;
use btor2::{Body, Operands};
use cells::Shortage;
use std::alloc::Global;

/// Adds a number to a list.
fn keep(list: &mut Vec<u32>, id: u32) -> Result<(), Shortage>
    ensures { OnOk result (list.new.items ≡ list.old.items ++ id ∷ []) }
{
    match list.push(id) {
        Ok(()) => Ok(()),
        Err(_) => Err(Shortage::NoMemory),
    }
}

/// The nodes of some nodes.
fn nodes(alloc: Global, table: &Table, ids: &[u32]) -> Result<Vec<u32>, Shortage>
    ensures { IfOk result (λ nodes. nodes.items ≡ map (spots_of table.now).node ids.now) }
{
    let mut out = Vec::new(alloc);
    for id in ids {
        keep(&mut out, table.get(*id).node)?;
    }
    Ok(out)
}

/// The operands of a line of justice.
fn operand_nodes(alloc: Global, table: &Table, ids: &[u32]) -> Result<Operands, Shortage>
    ensures { IfOk result (λ o. o ≡ map (spots_of table.now).node ids.now) }
{
    let nodes = nodes(alloc, table, ids)?;
    match Operands::new(alloc, nodes.as_slice()) {
        Ok(operands) => Ok(operands),
        Err(_) => Err(Shortage::NoMemory),
    }
}

/// The sort, or the node with the whole word, of a line.
pub(crate) fn node(table: &Table, id: u32) -> u32
    ensures { result ≡ (spots_of table.now).node id }
{
    table.get(id).node
}

/// The form of a node of one operand or none over these, if it is one, and has no digits.
fn small_form(table: &Table, body: &Body) -> Option<Body>
    ensures some { IfSome result (λ b. b ≡ renamed (spots_of table.now).node body.now) }
    ensures none { result ≡ None → is_small body.now ≡ false }
{
    Some(match body {
        Body::Sort { width } => Body::Sort { width: *width },
        Body::Input { sort } => Body::Input {
            sort: node(table, *sort),
        },
        Body::State { sort } => Body::State {
            sort: node(table, *sort),
        },
        Body::Zero { sort } => Body::Zero {
            sort: node(table, *sort),
        },
        Body::One { sort } => Body::One {
            sort: node(table, *sort),
        },
        Body::Ones { sort } => Body::Ones {
            sort: node(table, *sort),
        },
        Body::Uext { sort, operand, by } => Body::Uext {
            sort: node(table, *sort),
            operand: node(table, *operand),
            by: *by,
        },
        Body::Sext { sort, operand, by } => Body::Sext {
            sort: node(table, *sort),
            operand: node(table, *operand),
            by: *by,
        },
        Body::Slice {
            sort,
            operand,
            upper,
            lower,
        } => Body::Slice {
            sort: node(table, *sort),
            operand: node(table, *operand),
            upper: *upper,
            lower: *lower,
        },
        Body::Unary {
            operator,
            sort,
            operand,
        } => Body::Unary {
            operator: *operator,
            sort: node(table, *sort),
            operand: node(table, *operand),
        },
        Body::Bad { operand } => Body::Bad {
            operand: node(table, *operand),
        },
        Body::Constraint { operand } => Body::Constraint {
            operand: node(table, *operand),
        },
        Body::Fair { operand } => Body::Fair {
            operand: node(table, *operand),
        },
        Body::Output { operand } => Body::Output {
            operand: node(table, *operand),
        },
        _ => return None,
    })
}

/// The same form over these sorts and nodes.
pub(crate) fn renamed(alloc: Global, table: &Table, body: &Body) -> Result<Body, Shortage>
    requires { digits_sort body.now ≡ None }
    ensures { IfOk result (λ b. b ≡ renamed (spots_of table.now).node body.now) }
{
    if let Some(small) = small_form(table, body) {
        return Ok(small);
    }
    match body {
        Body::Binary {
            operator,
            sort,
            left,
            right,
        } => Ok(Body::Binary {
            operator: *operator,
            sort: node(table, *sort),
            left: node(table, *left),
            right: node(table, *right),
        }),
        Body::Concat { sort, high, low } => Ok(Body::Concat {
            sort: node(table, *sort),
            high: node(table, *high),
            low: node(table, *low),
        }),
        Body::Ite {
            sort,
            condition,
            first,
            second,
        } => Ok(Body::Ite {
            sort: node(table, *sort),
            condition: node(table, *condition),
            first: node(table, *first),
            second: node(table, *second),
        }),
        Body::Init { sort, state, value } => Ok(Body::Init {
            sort: node(table, *sort),
            state: node(table, *state),
            value: node(table, *value),
        }),
        Body::Next { sort, state, value } => Ok(Body::Next {
            sort: node(table, *sort),
            state: node(table, *state),
            value: node(table, *value),
        }),
        Body::Justice { operands } => {
            let operands = operand_nodes(alloc, table, operands.ids())?;
            Ok(Body::Justice { operands })
        }
        _ => unreachable!(),
    }
}
