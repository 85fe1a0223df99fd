//! What a line says.

ghost use Rattle.std.specs.Prelude.{◌≡◌};
ghost use Rattle.btor2text.specs.Tokens.{tokens};
ghost use Rattle.btor2text.specs.Reading.{GivesUnlessFull, leaf_body, extension_body, link_body, property_body, justice_at, body_at, symbol_at, item_at};

use crate::constants::constant_at;
use crate::fault::Why;
use crate::forms::{Extension, Form, Leaf, Link, Property};
use crate::known_words::KnownWords;
use crate::places::{
    bit_at, counted_at, operand_at, pair_at, plain_at, sort_at, triple_at, width_at,
};
use crate::tokens::next_token;
use btor2::{Body, Item, Operands, Symbol, SymbolFault};
use std::alloc::Global;

/// The body of a node that has a sort alone.
fn leaf_body(leaf: Leaf, sort: u32) -> Body
    ensures { result ≡ leaf_body leaf sort }
{
    match leaf {
        Leaf::Input => Body::Input { sort },
        Leaf::State => Body::State { sort },
        Leaf::Zero => Body::Zero { sort },
        Leaf::One => Body::One { sort },
        Leaf::Ones => Body::Ones { sort },
    }
}

/// The body of what widens a node by so many bits.
fn extension_body(extension: Extension, sort: u32, operand: u32, by: u64) -> Body
    ensures { result ≡ extension_body extension sort operand by }
{
    match extension {
        Extension::Uext => Body::Uext { sort, operand, by },
        Extension::Sext => Body::Sext { sort, operand, by },
    }
}

/// The body of what gives a state a value.
fn link_body(link: Link, sort: u32, state: u32, value: u32) -> Body
    ensures { result ≡ link_body link sort state value }
{
    match link {
        Link::Init => Body::Init { sort, state, value },
        Link::Next => Body::Next { sort, state, value },
    }
}

/// The body of what marks a node.
fn property_body(property: Property, operand: u32) -> Body
    ensures { result ≡ property_body property operand }
{
    match property {
        Property::Bad => Body::Bad { operand },
        Property::Constraint => Body::Constraint { operand },
        Property::Fair => Body::Fair { operand },
        Property::Output => Body::Output { operand },
    }
}

/// What the tokens behind a form's word say, and the line behind them.
#[tactic(auto, unfolding(crate::specs::Reading::body_at))]
pub fn body_at(alloc: Global, form: Form, line: &[u8]) -> Result<(Body, &[u8]), Why>
    ensures { GivesUnlessFull (λ x. (x.0, tokens x.1.now)) result (body_at form (tokens line.now)) }
{
    match form {
        Form::Sort => {
            let (width, rest) = width_at(line)?;
            Ok((Body::Sort { width }, rest))
        }
        Form::Leaf(leaf) => {
            let (sort, rest) = sort_at(line)?;
            Ok((leaf_body(leaf, sort), rest))
        }
        Form::Constant(constant) => constant_at(constant, line),
        Form::Extension(extension) => {
            let (sort, operand, rest) = pair_at(line)?;
            let (by, rest) = plain_at(rest)?;
            Ok((extension_body(extension, sort, operand, by), rest))
        }
        Form::Slice => {
            let (sort, operand, rest) = pair_at(line)?;
            let (upper, rest) = bit_at(rest)?;
            let (lower, rest) = bit_at(rest)?;
            let body = Body::Slice {
                sort,
                operand,
                upper,
                lower,
            };
            Ok((body, rest))
        }
        Form::Unary(operator) => {
            let (sort, operand, rest) = pair_at(line)?;
            let body = Body::Unary {
                operator,
                sort,
                operand,
            };
            Ok((body, rest))
        }
        Form::Binary(operator) => {
            let (sort, left, right, rest) = triple_at(line)?;
            let body = Body::Binary {
                operator,
                sort,
                left,
                right,
            };
            Ok((body, rest))
        }
        Form::Concat => {
            let (sort, high, low, rest) = triple_at(line)?;
            Ok((Body::Concat { sort, high, low }, rest))
        }
        Form::Ite => {
            let (sort, condition, first, rest) = triple_at(line)?;
            let (second, rest) = operand_at(rest)?;
            let body = Body::Ite {
                sort,
                condition,
                first,
                second,
            };
            Ok((body, rest))
        }
        Form::Link(link) => {
            let (sort, state, value, rest) = triple_at(line)?;
            Ok((link_body(link, sort, state, value), rest))
        }
        Form::Property(property) => {
            let (operand, rest) = operand_at(line)?;
            Ok((property_body(property, operand), rest))
        }
        Form::Justice => justice_at(alloc, line),
    }
}

/// What the tokens behind `justice` say, and the line behind them.
fn justice_at(alloc: Global, line: &[u8]) -> Result<(Body, &[u8]), Why>
    ensures { GivesUnlessFull (λ x. (x.0, tokens x.1.now)) result (justice_at (tokens line.now)) }
{
    let (ids, rest) = counted_at(alloc, line)?;
    match Operands::new(alloc, ids.as_slice()) {
        Ok(operands) => Ok((Body::Justice { operands }, rest)),
        Err(_) => Err(Why::NoMemory),
    }
}

/// The symbol at a line's end, where there is one.
#[tactic(auto, unfolding(crate::specs::Reading::symbol_at))]
pub fn symbol_at(alloc: Global, line: &[u8]) -> Result<Option<Symbol>, Why>
    ensures { GivesUnlessFull (λ x. x) result (symbol_at (tokens line.now)) }
{
    match next_token(line) {
        None => Ok(None),
        Some((token, rest)) => match Symbol::new(alloc, token) {
            Err(SymbolFault::BadBytes) => Err(Why::BadSymbol),
            Err(SymbolFault::NoMemory) => Err(Why::NoMemory),
            Ok(symbol) => match next_token(rest) {
                None => Ok(Some(symbol)),
                Some(_) => Err(Why::BadToken),
            },
        },
    }
}

/// The item that a line spells.
#[inline(always)]
#[tactic(auto, unfolding(crate::specs::Reading::item_at))]
pub(crate) fn item(alloc: Global, words: &mut KnownWords, line: &[u8]) -> Result<Item, Why>
    ensures { GivesUnlessFull (λ x. x) result (item_at (tokens line.now)) }
{
    let (id, rest) = plain_at(line)?;
    let (form, rest) = words.form_at(rest)?;
    let (body, rest) = body_at(alloc, form, rest)?;
    let symbol = symbol_at(alloc, rest)?;
    Ok(Item { id, symbol, body })
}
