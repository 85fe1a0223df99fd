//! The kinds of lines, by their words.
ghost use Rattle.std.specs.Prelude.{◌≡◌, Err};
ghost use Rattle.std.specs.Str.{bytes_eq};
ghost use Rattle.btor2text.specs.Tokens.{tokens};
ghost use Rattle.btor2text.specs.Reading.{IsAsLineRead, form_at, plain_at};
ghost use Rattle.btor2text.specs.declared.fault.Why.TheVariants as why;
ghost use Rattle.fulltext.specs.Reading.{kind_at, places_before, told_by, operand_count};

use btor2text::{Form, KnownWords, Why, next_token, plain_at};

/// What the second token of a line names.
#[derive(Clone, Copy)]
pub(crate) enum Kind {
    /// A form of words.
    Form(Form),
    /// `read`.
    Read,
    /// `write`.
    Write,
}

/// Whether a token is a word.
pub(crate) fn is_word(token: &[u8], word: &[u8]) -> bool
    ensures { result ≡ bytes_eq token.now word.now }
{
    token == word
}

/// The kind of a line whose word is one of arrays, and the line behind its word.
#[tactic(auto, unfolding(crate::specs::Reading::kind_at, btor2text::specs::Reading::form_at))]
fn array_kind_at(line: &[u8]) -> Result<(Kind, &[u8]), Why>
    requires { form_at (tokens line.now) ≡ Err why.ArrayOperator }
    ensures { IsAsLineRead (λ x. (x.0, tokens x.1.now)) result (kind_at (tokens line.now)) }
{
    match next_token(line) {
        None => Err(Why::BadToken),
        Some((word, rest)) => {
            if is_word(word, b"read") {
                Ok((Kind::Read, rest))
            } else {
                Ok((Kind::Write, rest))
            }
        }
    }
}

/// The kind of a line, and the line behind its word.
#[tactic(auto, unfolding(crate::specs::Reading::kind_at, btor2text::specs::Reading::form_at))]
pub(crate) fn kind_at<'a>(words: &mut KnownWords, line: &'a [u8]) -> Result<(Kind, &'a [u8]), Why>
    ensures { IsAsLineRead (λ x. (x.0, tokens x.1.now)) result (kind_at (tokens line.now)) }
{
    match words.form_at(line) {
        Ok((form, rest)) => Ok((Kind::Form(form), rest)),
        Err(Why::ArrayOperator) => array_kind_at(line),
        Err(why) => Err(why),
    }
}

/// How many tokens stand before those of the operands that may have a minus.
pub(crate) fn places_before(kind: Kind) -> u64
    ensures { result ≡ places_before kind }
{
    match kind {
        Kind::Form(Form::Property(_)) => 0,
        Kind::Form(Form::Sort)
        | Kind::Form(Form::Leaf(_))
        | Kind::Form(Form::Constant(_))
        | Kind::Form(Form::Extension(_))
        | Kind::Form(Form::Slice)
        | Kind::Form(Form::Unary(_))
        | Kind::Form(Form::Binary(_))
        | Kind::Form(Form::Concat)
        | Kind::Form(Form::Ite)
        | Kind::Form(Form::Link(_))
        | Kind::Form(Form::Justice) => 1,
        Kind::Read | Kind::Write => 2,
    }
}

/// The number that a line begins with, or 0.
fn number_in_front(line: &[u8]) -> u64
    ensures { result ≡ told_by (plain_at (tokens line.now)) }
{
    match plain_at(line) {
        Ok((number, _)) => number,
        Err(_) => 0,
    }
}

/// How many operands may have a minus.
pub(crate) fn operand_count(kind: Kind, line: &[u8]) -> u64
    ensures { result ≡ operand_count kind (tokens line.now) }
{
    match kind {
        Kind::Form(Form::Extension(_))
        | Kind::Form(Form::Slice)
        | Kind::Form(Form::Unary(_))
        | Kind::Form(Form::Property(_))
        | Kind::Read => 1,
        Kind::Form(Form::Binary(_))
        | Kind::Form(Form::Concat)
        | Kind::Form(Form::Link(_))
        | Kind::Write => 2,
        Kind::Form(Form::Ite) => 3,
        Kind::Form(Form::Justice) => number_in_front(line),
        Kind::Form(Form::Sort) | Kind::Form(Form::Leaf(_)) | Kind::Form(Form::Constant(_)) => 0,
    }
}
