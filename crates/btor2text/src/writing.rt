//! Writing models.

ghost use Rattle.std.specs.Prelude.{◌≡◌, [], ◌≤◌, ◌+◌, ◌∷◌, ◌++◌, length, map, decimal, OnOk, OnErr};
ghost use Rattle.std.specs.Io.KnownBytes.{Appends};
ghost use Rattle.std.specs.Option.{option_to_list};
ghost use Rattle.base.specs.Device.{CountsFaults, AppendsBeginning};
ghost use Rattle.btor2.specs.Check.{IsWellFormed};
ghost use Rattle.base.specs.Writing.{WritesText};
ghost use Rattle.btor2text.specs.Spelling.{StandsFor};
ghost use Rattle.btor2text.specs.Reading.{text_on};
ghost use Rattle.btor2text.specs.Writing.{behind_spaces, in_front, head_tokens, justice_operands, HasFewDigits, written_line, written};

use crate::line::{
    add_digits, add_four, add_number, add_one, add_signed, add_three, add_token, add_two,
};
use crate::operators::{binary_name, unary_name};
use base::{DeviceFault, Line, Pen, Sink};
use btor2::{Body, Item, Model, Symbol};

/// Writes the text of a model: a line for each item, tokens with one space between, hexadecimal digits in lower case,
/// and no comments. The text stands for exactly this model, and is read again as it. No memory is taken.
///
/// Errors: the sink's own; a beginning of the text was written then.
#[inline(never)]
pub fn write<K: Sink>(model: &Model, sink: &mut K) -> Result<(), DeviceFault>
    ensures ok { OnOk result (Appends (K.written sink.old) (K.written sink.new)
        (written model.now)) }
    ensures err { OnErr result (AppendsBeginning (K.written sink.old) (K.written sink.new)
        (written model.now)) }
    ensures stands { StandsFor (written model.now) model.now }
    ensures read { text_on (written model.now) ≡ Ok model.now }
    ensures failures { CountsFaults result (K.failures sink.old) (K.failures sink.new) }
{
    let mut pen = Pen::new();
    put_items(&mut pen, sink, model.items());
    pen.finish(sink)
}

/// Puts the lines of items.
fn put_items<K: Sink>(pen: &mut Pen, sink: &mut K, items: &[Item])
    requires { IsWellFormed items.now }
    ensures { WritesText K.written K.failures sink.old sink.new pen.old pen.new
        (written items.now) }
{
    for item in items {
        put_item(pen, sink, item);
    }
}

/// Puts the line of an item: at once, but for a justice line that names nodes.
fn put_item<K: Sink>(pen: &mut Pen, sink: &mut K, item: &Item)
    requires { HasFewDigits item.now.body }
    ensures { WritesText K.written K.failures sink.old sink.new pen.old pen.new
        (written_line item.now) }
{
    let operands = operands(&item.body);
    if !operands.is_empty() {
        return put_justice(pen, sink, item, operands);
    }
    make_end(&mut pen.line, &item.symbol);
    add_head(&mut pen.line, item);
    pen.put_line(sink);
}

/// Puts the line of an item with operands behind its form, as many as there are: these go out one by one.
fn put_justice<K: Sink>(pen: &mut Pen, sink: &mut K, item: &Item, operands: &[u32])
    requires few { HasFewDigits item.now.body }
    requires same { operands.now ≡ justice_operands item.now.body }
    ensures { WritesText K.written K.failures sink.old sink.new pen.old pen.new
        (written_line item.now) }
{
    pen.line.clear();
    add_head(&mut pen.line, item);
    pen.put_line(sink);
    put_ids(pen, sink, operands);
    make_end(&mut pen.line, &item.symbol);
    pen.put_line(sink);
}

/// Puts ids, each behind a space.
fn put_ids<K: Sink>(pen: &mut Pen, sink: &mut K, ids: &[u32])
    ensures { WritesText K.written K.failures sink.old sink.new pen.old pen.new
        (behind_spaces (map decimal ids.now)) }
{
    for id in ids {
        pen.line.clear();
        add_number(&mut pen.line, u64::from(*id));
        pen.put_line(sink);
    }
}

/// The nodes that a justice line names; none for all other forms.
fn operands(body: &Body) -> &[u32]
    ensures { result.now ≡ justice_operands body.now }
{
    match body {
        Body::Justice { operands } => operands.ids(),
        _ => &[],
    }
}

/// Makes it the end of a line: the symbol behind a space, where there is one, and byte 10.
fn make_end(line: &mut Line, symbol: &Option<Symbol>)
    ensures end { line.new ≡ in_front (option_to_list symbol.now) (10 ∷ []) }
    ensures short { length line.new ≤ 257 }
{
    line.clear();
    line.byte(b'\n');
    match symbol {
        None => {}
        Some(symbol) => add_token(line, symbol.bytes()),
    }
}

/// Puts the id of an item and its form in front, without the operands of a justice line.
fn add_head(line: &mut Line, item: &Item)
    requires few { HasFewDigits item.now.body }
    requires room { length line.old ≤ 257 }
    ensures { line.new ≡ decimal item.now.id ++ in_front (head_tokens item.now.body) line.old }
{
    add_form(line, &item.body);
    line.number(item.id);
}

/// Puts the tokens of a form in front, each behind a space, without the operands of a justice line.
fn add_form(line: &mut Line, body: &Body)
    requires few { HasFewDigits body.now }
    requires room { length line.old ≤ 257 }
    ensures tokens { line.new ≡ in_front (head_tokens body.now) line.old }
    ensures short { length line.new ≤ length line.old + 100 }
{
    match body {
        Body::Sort { width } => add_one(line, b"sort bitvec", *width),
        Body::Input { sort } => add_one(line, b"input", u64::from(*sort)),
        Body::State { sort } => add_one(line, b"state", u64::from(*sort)),
        Body::Zero { sort } => add_one(line, b"zero", u64::from(*sort)),
        Body::One { sort } => add_one(line, b"one", u64::from(*sort)),
        Body::Ones { sort } => add_one(line, b"ones", u64::from(*sort)),
        Body::Const {
            sort,
            digits,
            value,
        } => {
            add_digits(line, 2, *digits, *value);
            line.byte(b' ');
            add_one(line, b"const", u64::from(*sort));
        }
        Body::Constd { sort, value } => {
            add_signed(line, value.value());
            line.byte(b' ');
            add_one(line, b"constd", u64::from(*sort));
        }
        Body::Consth {
            sort,
            digits,
            value,
        } => {
            add_digits(line, 16, *digits, *value);
            line.byte(b' ');
            add_one(line, b"consth", u64::from(*sort));
        }
        Body::Uext { sort, operand, by } => add_three(line, b"uext", *sort, *operand, *by),
        Body::Sext { sort, operand, by } => add_three(line, b"sext", *sort, *operand, *by),
        Body::Slice {
            sort,
            operand,
            upper,
            lower,
        } => add_four(
            line,
            b"slice",
            *sort,
            *operand,
            u64::from(*upper),
            u64::from(*lower),
        ),
        Body::Unary {
            operator,
            sort,
            operand,
        } => add_two(line, unary_name(*operator), *sort, *operand),
        Body::Binary {
            operator,
            sort,
            left,
            right,
        } => add_three(
            line,
            binary_name(*operator),
            *sort,
            *left,
            u64::from(*right),
        ),
        Body::Concat { sort, high, low } => add_three(
            line,
            b"concat",
            *sort,
            *high,
            u64::from(*low),
        ),
        Body::Ite {
            sort,
            condition,
            first,
            second,
        } => add_four(
            line,
            b"ite",
            *sort,
            *condition,
            u64::from(*first),
            u64::from(*second),
        ),
        Body::Init { sort, state, value } => {
            add_three(line, b"init", *sort, *state, u64::from(*value))
        }
        Body::Next { sort, state, value } => {
            add_three(line, b"next", *sort, *state, u64::from(*value))
        }
        Body::Bad { operand } => add_one(line, b"bad", u64::from(*operand)),
        Body::Constraint { operand } => add_one(line, b"constraint", u64::from(*operand)),
        Body::Fair { operand } => add_one(line, b"fair", u64::from(*operand)),
        Body::Output { operand } => add_one(line, b"output", u64::from(*operand)),
        Body::Justice { operands } => add_one(line, b"justice", operands.ids().len() as u64),
    }
}
