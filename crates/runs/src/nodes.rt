//! The nodes of a run that are operators.
ghost use Rattle.std.specs.Prelude.{◌≡◌, ℕ, ◌<◌, true, Some, map, length, is_some, slice_get, slice_index};
ghost use Rattle.base.specs.Steps.{one_more};
ghost use Rattle.btor2.specs.Items.{node_width};
ghost use Rattle.btor2.specs.Check.{IsWellFormed};
ghost use Rattle.btor2.specs.Trace.{bits_of};
ghost use Rattle.runs.specs.Nodes.{slot, operator_of, operator_value, OperatorFits, single_value, SingleFits, wider_value, WiderFits, pair_value, PairHasWords};

use base::{Binary, Tally, Unary, Width};
use btor2::{Body, Item, Model};

/// An operator: its operands are places in the list of now-values, `width` is that of its operands.
///
/// It is told from others by few tests, each of two or three cases, which a processor foresees better than a jump.
#[derive(Clone, Copy, Drop)]
pub(crate) enum Operator {
    /// One of one operand.
    Single(Single),
    /// One of two operands.
    Pair(Pair),
    /// `first` where the condition is 1, else `second`.
    Ite {
        width: Width,
        condition: usize,
        first: usize,
        second: usize,
    },
}

/// An operator of one operand.
#[derive(Clone, Copy, Drop)]
pub(crate) enum Single {
    /// One that takes nothing else.
    Unary {
        operator: Unary,
        width: Width,
        operand: usize,
    },
    /// The bits `upper` down to `lower` of an operand.
    Slice {
        width: Width,
        operand: usize,
        upper: u64,
        lower: u64,
    },
    /// An extension.
    Wider(Wider),
}

/// An extension of an operand.
#[derive(Clone, Copy, Drop)]
pub(crate) enum Wider {
    /// `by` zeros stand before it.
    Uext {
        width: Width,
        operand: usize,
        by: u64,
    },
    /// Its sign stands `by` times before it.
    Sext {
        width: Width,
        operand: usize,
        by: u64,
    },
}

/// An operator of two operands.
#[derive(Clone, Copy, Drop)]
pub(crate) enum Pair {
    /// One of operands of the same width.
    Binary {
        operator: Binary,
        width: Width,
        left: usize,
        right: usize,
    },
    /// `high` before `low`.
    Concat {
        high_width: Width,
        high: usize,
        low_width: Width,
        low: usize,
    },
}

/// A node that is an operator, and its own place in the list of now-values.
#[derive(Drop)]
pub(crate) struct Node {
    pub(crate) place: usize,
    pub(crate) operator: Operator,
}

/// The word at a place among the now-values.
fn word_at(values: &[u64], place: usize) -> u64
    requires { place < length values.now }
    ensures { result ≡ slice_index values.now place }
{
    values[place]
}

/// The word that an extension gives from the now-values. One step.
fn wider_word(operator: Wider, values: &[u64], tally: &mut Tally) -> u64
    requires { WiderFits operator values.now }
    ensures value { result ≡ wider_value operator values.now }
    ensures step { tally.new ≡ one_more tally.old }
{
    match operator {
        Wider::Uext { width, operand, by } => {
            base::uext(width, word_at(values, operand), by, tally)
        }
        Wider::Sext { width, operand, by } => {
            base::sext(width, word_at(values, operand), by, tally)
        }
    }
}

/// The word that an operator of one operand gives from the now-values. One step.
fn single_word(operator: Single, values: &[u64], tally: &mut Tally) -> u64
    requires { SingleFits operator values.now }
    ensures value { result ≡ single_value operator values.now }
    ensures step { tally.new ≡ one_more tally.old }
{
    match operator {
        Single::Unary {
            operator,
            width,
            operand,
        } => base::unary(operator, width, word_at(values, operand), tally),
        Single::Slice {
            width,
            operand,
            upper,
            lower,
        } => base::slice(width, word_at(values, operand), upper, lower, tally),
        Single::Wider(wider) => wider_word(wider, values, tally),
    }
}

/// The word that an operator of two operands gives from the now-values. One step.
fn pair_word(operator: Pair, values: &[u64], tally: &mut Tally) -> u64
    requires { PairHasWords operator values.now }
    ensures value { result ≡ pair_value operator values.now }
    ensures step { tally.new ≡ one_more tally.old }
{
    match operator {
        Pair::Binary {
            operator,
            width,
            left,
            right,
        } => base::binary(
            operator,
            width,
            word_at(values, left),
            word_at(values, right),
            tally,
        ),
        Pair::Concat {
            high_width,
            high,
            low_width,
            low,
        } => base::concat(
            high_width,
            word_at(values, high),
            low_width,
            word_at(values, low),
            tally,
        ),
    }
}

/// The word that an operator gives from the now-values. One step.
pub(crate) fn operator_word(operator: &Operator, values: &[u64], tally: &mut Tally) -> u64
    requires { OperatorFits operator.now values.now }
    ensures value { result ≡ operator_value operator.now values.now }
    ensures step { tally.new ≡ one_more tally.old }
{
    match *operator {
        Operator::Single(single) => single_word(single, values, tally),
        Operator::Pair(pair) => pair_word(pair, values, tally),
        Operator::Ite {
            width,
            condition,
            first,
            second,
        } => base::ite(
            width,
            word_at(values, condition),
            word_at(values, first),
            word_at(values, second),
            tally,
        ),
    }
}

/// The width of the node with an id, and its place among the now-values.
///
/// `slots` has for each item how many nodes with a value stand before it.
pub(crate) fn operand(model: &Model, slots: &[usize], id: u32) -> (Width, usize)
    requires there { is_some (node_width model.now id) ≡ true }
    requires slots { slots.now ≡ map (λ x. slot model.now x.id) model.now }
    ensures width { result.0 ≡ bits_of model.now id }
    ensures place { result.1 ≡ slot model.now id }
{
    match model.position(u64::from(id)) {
        Some(place) => match model.width_of(place) {
            Some(width) => (width, slots[place]),
            None => unreachable!(),
        },
        None => unreachable!(),
    }
}

/// The operator of the line at a place, with its operands resolved, if it has one.
pub(crate) fn operator_of(
    model: &Model,
    slots: &[usize],
    place: usize,
    item: &Item,
) -> Option<Operator>
    requires well_formed { IsWellFormed model.now }
    requires at { slice_get model.now place ≡ Some item.now }
    requires slots { slots.now ≡ map (λ x. slot model.now x.id) model.now }
    ensures { result ≡ operator_of model.now item.now.body }
{
    match &item.body {
        Body::Uext {
            operand: id,
            by,
            ..
        } => {
            let (width, operand) = operand(model, slots, *id);
            Some(Operator::Single(Single::Wider(Wider::Uext {
                width,
                operand,
                by: *by,
            })))
        }
        Body::Sext {
            operand: id,
            by,
            ..
        } => {
            let (width, operand) = operand(model, slots, *id);
            Some(Operator::Single(Single::Wider(Wider::Sext {
                width,
                operand,
                by: *by,
            })))
        }
        Body::Slice {
            operand: id,
            upper,
            lower,
            ..
        } => {
            let (width, operand) = operand(model, slots, *id);
            Some(Operator::Single(Single::Slice {
                width,
                operand,
                upper: u64::from(*upper),
                lower: u64::from(*lower),
            }))
        }
        Body::Unary {
            operator,
            operand: id,
            ..
        } => {
            let (width, operand) = operand(model, slots, *id);
            Some(Operator::Single(Single::Unary {
                operator: *operator,
                width,
                operand,
            }))
        }
        Body::Binary {
            operator,
            left,
            right,
            ..
        } => {
            let (width, left) = operand(model, slots, *left);
            let (_, right) = operand(model, slots, *right);
            Some(Operator::Pair(Pair::Binary {
                operator: *operator,
                width,
                left,
                right,
            }))
        }
        Body::Concat { high, low, .. } => {
            let (high_width, high) = operand(model, slots, *high);
            let (low_width, low) = operand(model, slots, *low);
            Some(Operator::Pair(Pair::Concat {
                high_width,
                high,
                low_width,
                low,
            }))
        }
        Body::Ite {
            condition,
            first,
            second,
            ..
        } => {
            let (_, condition) = operand(model, slots, *condition);
            let (width, first) = operand(model, slots, *first);
            let (_, second) = operand(model, slots, *second);
            Some(Operator::Ite {
                width,
                condition,
                first,
                second,
            })
        }
        _ => None,
    }
}
