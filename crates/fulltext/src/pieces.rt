//! Tokens that are put in front of a line of a model's text.
ghost use Rattle.std.specs.Prelude.{◌≡◌, ◌+◌, ◌<◌, ◌≤◌, [], ◌∷◌, length, map, decimal};
ghost use Rattle.btor2text.specs.Writing.{in_front};
ghost use Rattle.full.specs.Lines.{with_minuses};
ghost use Rattle.fullmodel.specs.Lines.{operand_of};
ghost use Rattle.fulltext.specs.Spelling.{operand_token};

use base::Line;
use fullmodel::Operand;

/// Puts a token and a space before it in front.
pub(crate) fn add_token(line: &mut Line, token: &[u8])
    requires { length token.now + length line.old < 512 }
    ensures { line.new ≡ in_front (token.now ∷ []) line.old }
{
    line.text(token);
    line.byte(b' ');
}

/// Puts a number and a space before it in front.
pub(crate) fn add_number(line: &mut Line, number: u64)
    requires { length line.old + 21 ≤ 512 }
    ensures digits { line.new ≡ in_front (decimal number ∷ []) line.old }
    ensures short { length line.new ≤ length line.old + 21 }
{
    line.number(number);
    line.byte(b' ');
}

/// Puts a line's word and a number in front.
pub(crate) fn add_word(line: &mut Line, word: &[u8], first: u64)
    requires { length word.now + length line.old + 22 ≤ 512 }
    ensures tokens { line.new ≡ in_front (word.now ∷ decimal first ∷ []) line.old }
    ensures short { length line.new ≤ length word.now + length line.old + 22 }
{
    add_number(line, first);
    add_token(line, word);
}

/// Puts an operand in front, with its minus.
pub(crate) fn add_operand(line: &mut Line, operand: Operand)
    requires { length line.old + 22 ≤ 512 }
    ensures token { line.new ≡ in_front (operand_token (operand_of operand) ∷ []) line.old }
    ensures short { length line.new ≤ length line.old + 22 }
{
    line.number(u64::from(operand.id));
    if operand.minus {
        line.byte(b'-');
    }
    line.byte(b' ');
}

/// Puts an operand in front, with the first of some minuses.
pub(crate) fn add_one(line: &mut Line, id: u32, minuses: &[bool])
    requires { length line.old + 22 ≤ 512 }
    ensures tokens { line.new
        ≡ in_front (map operand_token (with_minuses (id ∷ []) minuses.now)) line.old }
    ensures short { length line.new ≤ length line.old + 22 }
{
    match minuses {
        [] => add_operand(line, Operand { id, minus: false }),
        [minus, ..] => add_operand(line, Operand { id, minus: *minus }),
    }
}

/// Puts two operands in front, with the first two of some minuses.
pub(crate) fn add_two(line: &mut Line, first: u32, second: u32, minuses: &[bool])
    requires { length line.old + 44 ≤ 512 }
    ensures tokens { line.new
        ≡ in_front (map operand_token (with_minuses (first ∷ second ∷ []) minuses.now)) line.old }
    ensures short { length line.new ≤ length line.old + 44 }
{
    match minuses {
        [] => {
            add_one(line, second, &[]);
            add_one(line, first, &[]);
        }
        [minus, rest @ ..] => {
            add_one(line, second, rest);
            add_operand(
                line,
                Operand {
                    id: first,
                    minus: *minus,
                },
            );
        }
    }
}

/// Puts three operands in front, with the first three of some minuses.
pub(crate) fn add_three(line: &mut Line, first: u32, second: u32, third: u32, minuses: &[bool])
    requires { length line.old + 66 ≤ 512 }
    ensures tokens { line.new
        ≡ in_front (map operand_token (with_minuses (first ∷ second ∷ third ∷ []) minuses.now))
        line.old }
    ensures short { length line.new ≤ length line.old + 66 }
{
    match minuses {
        [] => {
            add_two(line, second, third, &[]);
            add_one(line, first, &[]);
        }
        [minus, rest @ ..] => {
            add_two(line, second, third, rest);
            add_operand(
                line,
                Operand {
                    id: first,
                    minus: *minus,
                },
            );
        }
    }
}
