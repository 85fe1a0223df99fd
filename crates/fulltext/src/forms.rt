//! What lines say, put in front of a line of a model's text.
ghost use Rattle.std.specs.Prelude.{◌≡◌, ◌+◌, ◌≤◌, [], None, length, map};
ghost use Rattle.btor2.specs.Items.{operands};
ghost use Rattle.btor2text.specs.Writing.{in_front, justice_operands};
ghost use Rattle.full.specs.Lines.{with_minuses};
ghost use Rattle.wide.specs.Entries.{digits_sort};
ghost use Rattle.fullmodel.specs.Lines.{says_of};
ghost use Rattle.fulltext.specs.Spelling.{operand_token, array_tokens};
ghost use Rattle.fulltext.specs.Writing.{head_tokens, tail_tokens};

use crate::pieces::{add_number, add_one, add_operand, add_three, add_token, add_two, add_word};
use crate::words::{binary_name, unary_name};
use base::Line;
use btor2::Body;
use fullmodel::Says;

/// Puts the tokens behind the operands of a form in front.
pub(crate) fn add_tail(line: &mut Line, body: &Body)
    requires plain { digits_sort body.now ≡ None }
    requires room { length line.old + 42 ≤ 512 }
    ensures tokens { line.new ≡ in_front (tail_tokens body.now) line.old }
    ensures short { length line.new ≤ length line.old + 42 }
{
    match body {
        Body::Sort { width } => add_number(line, *width),
        Body::Uext { by, .. } | Body::Sext { by, .. } => add_number(line, *by),
        Body::Slice { upper, lower, .. } => {
            add_number(line, u64::from(*lower));
            add_number(line, u64::from(*upper));
        }
        Body::Input { .. }
        | Body::State { .. }
        | Body::Zero { .. }
        | Body::One { .. }
        | Body::Ones { .. }
        | Body::Const { .. }
        | Body::Constd { .. }
        | Body::Consth { .. }
        | Body::Unary { .. }
        | Body::Binary { .. }
        | Body::Concat { .. }
        | Body::Ite { .. }
        | Body::Init { .. }
        | Body::Next { .. }
        | Body::Bad { .. }
        | Body::Constraint { .. }
        | Body::Fair { .. }
        | Body::Output { .. }
        | Body::Justice { .. } => {}
    }
}

/// Puts the operands of a form in front, with their minuses.
///
/// Condition: it is no justice line that names nodes.
pub(crate) fn add_operands(line: &mut Line, body: &Body, minuses: &[bool])
    requires few { justice_operands body.now ≡ [] }
    requires room { length line.old + 66 ≤ 512 }
    ensures tokens { line.new
        ≡ in_front (map operand_token (with_minuses (operands body.now) minuses.now)) line.old }
    ensures short { length line.new ≤ length line.old + 66 }
{
    match body {
        Body::Uext { operand, .. }
        | Body::Sext { operand, .. }
        | Body::Slice { operand, .. }
        | Body::Unary { operand, .. }
        | Body::Bad { operand }
        | Body::Constraint { operand }
        | Body::Fair { operand }
        | Body::Output { operand } => add_one(line, *operand, minuses),
        Body::Binary { left, right, .. } => add_two(line, *left, *right, minuses),
        Body::Concat { high, low, .. } => add_two(line, *high, *low, minuses),
        Body::Init { state, value, .. } | Body::Next { state, value, .. } => {
            add_two(line, *state, *value, minuses)
        }
        Body::Ite {
            condition,
            first,
            second,
            ..
        } => add_three(line, *condition, *first, *second, minuses),
        Body::Sort { .. }
        | Body::Input { .. }
        | Body::State { .. }
        | Body::Zero { .. }
        | Body::One { .. }
        | Body::Ones { .. }
        | Body::Const { .. }
        | Body::Constd { .. }
        | Body::Consth { .. }
        | Body::Justice { .. } => {}
    }
}

/// Puts the tokens before the operands of a form in front.
pub(crate) fn add_head(line: &mut Line, body: &Body)
    requires plain { digits_sort body.now ≡ None }
    requires room { length line.old + 33 ≤ 512 }
    ensures tokens { line.new ≡ in_front (head_tokens body.now) line.old }
    ensures short { length line.new ≤ length line.old + 33 }
{
    match body {
        Body::Sort { .. } => add_token(line, b"sort bitvec"),
        Body::Input { sort } => add_word(line, b"input", u64::from(*sort)),
        Body::State { sort } => add_word(line, b"state", u64::from(*sort)),
        Body::Zero { sort } => add_word(line, b"zero", u64::from(*sort)),
        Body::One { sort } => add_word(line, b"one", u64::from(*sort)),
        Body::Ones { sort } => add_word(line, b"ones", u64::from(*sort)),
        Body::Const { .. } | Body::Constd { .. } | Body::Consth { .. } => {}
        Body::Uext { sort, .. } => add_word(line, b"uext", u64::from(*sort)),
        Body::Sext { sort, .. } => add_word(line, b"sext", u64::from(*sort)),
        Body::Slice { sort, .. } => add_word(line, b"slice", u64::from(*sort)),
        Body::Unary { operator, sort, .. } => {
            add_word(line, unary_name(*operator), u64::from(*sort))
        }
        Body::Binary { operator, sort, .. } => {
            add_word(line, binary_name(*operator), u64::from(*sort))
        }
        Body::Concat { sort, .. } => add_word(line, b"concat", u64::from(*sort)),
        Body::Ite { sort, .. } => add_word(line, b"ite", u64::from(*sort)),
        Body::Init { sort, .. } => add_word(line, b"init", u64::from(*sort)),
        Body::Next { sort, .. } => add_word(line, b"next", u64::from(*sort)),
        Body::Bad { .. } => add_token(line, b"bad"),
        Body::Constraint { .. } => add_token(line, b"constraint"),
        Body::Fair { .. } => add_token(line, b"fair"),
        Body::Output { .. } => add_token(line, b"output"),
        Body::Justice { operands } => { add_word(line, b"justice", operands.ids().len() as u64) }
    }
}

/// Puts the tokens of a line that is no form in front.
pub(crate) fn add_array(line: &mut Line, says: &Says)
    requires room { length line.old + 100 ≤ 512 }
    ensures tokens { line.new ≡ in_front (array_tokens (says_of says.now)) line.old }
    ensures short { length line.new ≤ length line.old + 100 }
{
    match says {
        Says::Form { .. } | Says::Constant { .. } => {}
        Says::ArraySort { index, element } => {
            add_number(line, u64::from(*element));
            add_word(line, b"sort array", u64::from(*index));
        }
        Says::Read { sort, array, index } => {
            add_operand(line, *index);
            add_number(line, u64::from(*array));
            add_word(line, b"read", u64::from(*sort));
        }
        Says::Write {
            sort,
            array,
            index,
            word,
        } => {
            add_operand(line, *word);
            add_operand(line, *index);
            add_number(line, u64::from(*array));
            add_word(line, b"write", u64::from(*sort));
        }
    }
}
