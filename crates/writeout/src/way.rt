//! How the init of a state is written.
ghost use Rattle.std.specs.Prelude.{◌≡◌, ℕ, ◌^◌, ◌<◌, ◌==◌, option_map, None};
ghost use Rattle.base.specs.Operator.{ones};
ghost use Rattle.wide.specs.Entries.{digits_sort};
ghost use Rattle.wide.specs.Lines.{number_of_digits, constant_body};
ghost use Rattle.full.specs.Agreement.{is_words};
ghost use Rattle.fullmodel.specs.Lines.{says_of, sort_value, HasNoDigits};
ghost use Rattle.writeout.specs.Ways.{kind_by, kind_of_form, kind_of, kind_at, NumberFits, way_by, way_of};

use crate::known::{know, line_at};
use crate::operands::width;
use btor2::Body;
use fullmodel::{FullModel, Says, Sort};
use wide::Spelling;

/// What the value of an init is: a constant with the word 0, one with all bits 1, another constant, or none.
#[derive(Clone, Copy, Debug, PartialEq, Eq)]
pub(crate) enum Kind {
    Zero,
    Ones,
    Other,
    Neither,
}

/// How a state is written: without an init line; with one by a constant of its sort, or by zeros or ones in each cell; or by its first word, as
/// a choice of this and of its state, which has no init line.
#[derive(Clone, Copy, Debug, PartialEq, Eq)]
pub(crate) enum Way {
    Open,
    Constant,
    Zeros,
    Ones,
    First,
}

/// Whether digits of 64 bits, the lowest first, write in binary so many ones, or where these are none 0.
fn are_ones(digits: &[u64], bits: u64) -> bool
    ensures { result ≡ (number_of_digits digits.now == ones bits) }
{
    let mut left = bits;
    for digit in digits {
        let part = left.min(64);
        if u128::from(*digit) + 1 != 1 << part {
            return false;
        }
        left -= part;
    }
    left == 0
}

/// Which constant it is, by whether its word is 0, and whether all its bits are 1.
fn kind_by(zero: bool, ones: bool) -> Kind
    ensures { result ≡ kind_by zero ones }
{
    match (zero, ones) {
        (true, _) => Kind::Zero,
        (false, true) => Kind::Ones,
        (false, false) => Kind::Other,
    }
}

/// Which constant digits of a width are: behind a minus, those of 1 are all ones.
#[tactic(auto, using(crate::proofs::DigitLemmas::digits_by, crate::proofs::DigitLemmas::negative_digits))]
fn digits_kind(spelling: Spelling, number: &[u64], width: u64) -> Kind
    requires { number_of_digits number.now < 2 ^ width }
    ensures { (s count : ℕ) → result ≡ kind_of_form width (constant_body spelling s count (number_of_digits number.now)) }
{
    match spelling {
        Spelling::Negative => kind_by(are_ones(number, 0), are_ones(number, 1)),
        Spelling::Binary | Spelling::Decimal | Spelling::Hexadecimal => {
            kind_by(are_ones(number, 0), are_ones(number, width))
        }
    }
}

/// Which constant a form without digits is, of a width.
fn form_kind(body: &Body, width: u64) -> Kind
    requires { digits_sort body.now ≡ None }
    ensures { result ≡ kind_of_form width body.now }
{
    match body {
        Body::Zero { .. } => Kind::Zero,
        Body::One { .. } => kind_by(false, width == 1),
        Body::Ones { .. } => kind_by(width == 0, true),
        _ => Kind::Neither,
    }
}

/// Which constant a line of a width is.
fn says_kind(says: &Says, width: u64) -> Kind
    requires form { HasNoDigits says.now }
    requires fits { NumberFits width (says_of says.now) }
    ensures { result ≡ kind_of width (says_of says.now) }
{
    match says {
        Says::Form { body, .. } => form_kind(body, width),
        Says::Constant {
            spelling,
            number,
            ..
        } => digits_kind(*spelling, number.as_slice(), width),
        _ => Kind::Neither,
    }
}

/// Which constant the line with an id is.
fn kind_at(full: &FullModel, id: u32) -> Kind
    ensures { result ≡ kind_at full.now id }
{
    know(full);
    match full.position(id) {
        None => Kind::Neither,
        Some(place) => says_kind(&line_at(full, place).says, width(full, id)),
    }
}

/// Whether it is one of words.
fn is_words(sort: Option<Sort>) -> bool
    ensures { result ≡ is_words (option_map sort_value sort) }
{
    match sort {
        Some(Sort::Words(_)) => true,
        Some(Sort::Arrays { .. }) => false,
        None => false,
    }
}

/// The way of a state of words, or of arrays, that begins with such a value and has a next line.
fn way_by(kind: Kind, words: bool) -> Way
    ensures { result ≡ way_by kind words }
{
    match (kind, words) {
        (Kind::Zero, true) | (Kind::Ones, true) | (Kind::Other, true) => Way::Constant,
        (Kind::Zero, false) => Way::Zeros,
        (Kind::Ones, false) => Way::Ones,
        (Kind::Other, false) | (Kind::Neither, _) => Way::First,
    }
}

/// How the state with an id is written.
#[tactic(auto, unfolding(crate::specs::Ways::way_of))]
pub(crate) fn way_of(full: &FullModel, state: u32) -> Way
    ensures { result ≡ way_of full.now state }
{
    let Some(value) = full.init_of(state) else {
        return Way::Open;
    };
    match full.next_of(state) {
        None => Way::First,
        Some(_) => {
            if value.minus {
                Way::First
            } else {
                way_by(kind_at(full, value.id), is_words(full.sort_of_node(state)))
            }
        }
    }
}
