//! The forms of lines and the words that name them.
ghost use Rattle.std.specs.Prelude.{◌≡◌};
ghost use Rattle.btor2text.specs.Words.{named, form_name, plain_forms, form_of};

use crate::fault::Why;
use crate::operators::{binary_of, by_word, is_word, unary_of};
use base::{Binary, Unary};

/// A node that has a sort alone.
#[derive(Clone, Copy)]
pub enum Leaf {
    Input,
    State,
    Zero,
    One,
    Ones,
}

/// A constant that is spelled with digits: binary ones, a decimal or hexadecimal ones.
#[derive(Clone, Copy)]
pub enum Constant {
    Const,
    Constd,
    Consth,
}

/// What widens a node.
#[derive(Clone, Copy)]
pub enum Extension {
    Uext,
    Sext,
}

/// What gives a state a value.
#[derive(Clone, Copy)]
pub enum Link {
    Init,
    Next,
}

/// What marks a node.
#[derive(Clone, Copy)]
pub enum Property {
    Bad,
    Constraint,
    Fair,
    Output,
}

/// What the second token of an item names.
#[derive(Clone, Copy)]
pub enum Form {
    Sort,
    Leaf(Leaf),
    Constant(Constant),
    Extension(Extension),
    Slice,
    Unary(Unary),
    Binary(Binary),
    Concat,
    Ite,
    Link(Link),
    Property(Property),
    Justice,
}

/// The form that a word names and that is no operator of one or of two operands alike.
fn plain_form_of(word: &[u8]) -> Option<Form>
    ensures { result ≡ named form_name word.now plain_forms }
{
    by_word!(word;
        b"input" => Form::Leaf(Leaf::Input),
        b"state" => Form::Leaf(Leaf::State),
        b"zero" => Form::Leaf(Leaf::Zero),
        b"one" => Form::Leaf(Leaf::One),
        b"ones" => Form::Leaf(Leaf::Ones),
        b"const" => Form::Constant(Constant::Const),
        b"constd" => Form::Constant(Constant::Constd),
        b"consth" => Form::Constant(Constant::Consth),
        b"sort" => Form::Sort,
        b"uext" => Form::Extension(Extension::Uext),
        b"sext" => Form::Extension(Extension::Sext),
        b"slice" => Form::Slice,
        b"concat" => Form::Concat,
        b"ite" => Form::Ite,
        b"init" => Form::Link(Link::Init),
        b"next" => Form::Link(Link::Next),
        b"bad" => Form::Property(Property::Bad),
        b"constraint" => Form::Property(Property::Constraint),
        b"fair" => Form::Property(Property::Fair),
        b"output" => Form::Property(Property::Output),
        b"justice" => Form::Justice,
    )
}

/// The form that a word names, where it is known; else whether the word is one of arrays.
#[tactic(auto, unfolding(crate::specs::Words::form_of, crate::specs::Words::form_named, crate::specs::Words::no_form))]
pub(crate) fn form_of(word: &[u8]) -> Result<Form, Why>
    ensures { result ≡ form_of word.now }
{
    if let Some(form) = plain_form_of(word) {
        return Ok(form);
    }
    if let Some(operator) = unary_of(word) {
        return Ok(Form::Unary(operator));
    }
    match binary_of(word) {
        Some(operator) => Ok(Form::Binary(operator)),
        None if is_word(word, b"read") || is_word(word, b"write") => Err(Why::ArrayOperator),
        None => Err(Why::UnknownOperator),
    }
}
