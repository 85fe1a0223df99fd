//! Forms over other sorts and operands.
ghost use Rattle.std.specs.Prelude.{◌≡◌, [], ◌∷◌, true, None, slice_get};
ghost use Rattle.btor2.specs.Items.{operands};
ghost use Rattle.wide.specs.Entries.{digits_sort};
ghost use Rattle.writeout.specs.Forms.{is_value, renamed};
ghost use Rattle.writeout.specs.Needs.{node_operands};

use btor2::Body;

/// The operand at a place of a form with a value, if there is one.
pub(crate) fn operand_at(body: &Body, place: usize) -> Option<u32>
    ensures node { result ≡ slice_get (node_operands body.now) place }
    ensures value { is_value body.now ≡ true → result ≡ slice_get (operands body.now) place }
{
    match body {
        Body::Uext { operand, .. }
        | Body::Sext { operand, .. }
        | Body::Slice { operand, .. }
        | Body::Unary { operand, .. } => { if place == 0 { Some(*operand) } else { None } }
        Body::Binary { left, right, .. } => of_two(*left, *right, place),
        Body::Concat { high, low, .. } => of_two(*high, *low, place),
        Body::Ite {
            condition,
            first,
            second,
            ..
        } => {
            if place == 0 {
                Some(*condition)
            } else {
                of_two(*first, *second, place - 1)
            }
        }
        _ => None,
    }
}

/// The number at a place of two.
fn of_two(first: u32, second: u32, place: usize) -> Option<u32>
    ensures { result ≡ slice_get (first ∷ second ∷ []) place }
{
    if place == 0 {
        Some(first)
    } else if place == 1 {
        Some(second)
    } else {
        None
    }
}

/// The same form, of another sort and over other operands.
pub(crate) fn renamed(sort: u32, x: u32, y: u32, z: u32, body: &Body) -> Body
    requires value { is_value body.now ≡ true }
    requires no_digits { digits_sort body.now ≡ None }
    ensures { result ≡ renamed sort x y z body.now }
{
    match body {
        Body::Zero { .. } => Body::Zero { sort },
        Body::One { .. } => Body::One { sort },
        Body::Ones { .. } => Body::Ones { sort },
        Body::Uext { by, .. } => Body::Uext {
            sort,
            operand: x,
            by: *by,
        },
        Body::Sext { by, .. } => Body::Sext {
            sort,
            operand: x,
            by: *by,
        },
        Body::Slice { upper, lower, .. } => Body::Slice {
            sort,
            operand: x,
            upper: *upper,
            lower: *lower,
        },
        Body::Unary { operator, .. } => Body::Unary {
            operator: *operator,
            sort,
            operand: x,
        },
        Body::Binary { operator, .. } => Body::Binary {
            operator: *operator,
            sort,
            left: x,
            right: y,
        },
        Body::Concat { .. } => Body::Concat {
            sort,
            high: x,
            low: y,
        },
        Body::Ite { .. } => Body::Ite {
            sort,
            condition: x,
            first: y,
            second: z,
        },
        _ => unreachable!(),
    }
}
