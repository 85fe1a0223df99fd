//! The words of the operators.

ghost use Rattle.std.specs.Prelude.{◌≡◌, ◌≤◌, length};
ghost use Rattle.std.specs.Str.{bytes_eq};
ghost use Rattle.btor2text.specs.Words.{named, unary_name, binary_name, unary_of, binary_of, tests, bitwise, arithmetic};

use base::{Binary, Unary};

/// Whether a token is a word.
pub(crate) fn is_word(token: &[u8], word: &[u8]) -> bool
    ensures { result ≡ bytes_eq token.now word.now }
{
    token == word
}

/// What a word names: of some words and what each names the first that it is, else nothing.
macro_rules! by_word {
    ($word:expr; $($name:literal => $named:expr,)*) => {
        $(if is_word($word, $name) { Some($named) } else)* { None }
    };
}

pub(crate) use by_word;

/// The word of an operator of one operand.
pub(crate) fn unary_name(operator: Unary) -> &'static [u8]
    ensures name { result.now ≡ unary_name operator }
    ensures short { length result.now ≤ 11 }
{
    match operator {
        Unary::Not => b"not",
        Unary::Inc => b"inc",
        Unary::Dec => b"dec",
        Unary::Neg => b"neg",
        Unary::Redand => b"redand",
        Unary::Redor => b"redor",
        Unary::Redxor => b"redxor",
    }
}

/// The word of an operator of two operands.
pub(crate) fn binary_name(operator: Binary) -> &'static [u8]
    ensures name { result.now ≡ binary_name operator }
    ensures short { length result.now ≤ 11 }
{
    match operator {
        Binary::Iff => b"iff",
        Binary::Implies => b"implies",
        Binary::Eq => b"eq",
        Binary::Neq => b"neq",
        Binary::Ugt => b"ugt",
        Binary::Ugte => b"ugte",
        Binary::Ult => b"ult",
        Binary::Ulte => b"ulte",
        Binary::Sgt => b"sgt",
        Binary::Sgte => b"sgte",
        Binary::Slt => b"slt",
        Binary::Slte => b"slte",
        Binary::And => b"and",
        Binary::Nand => b"nand",
        Binary::Or => b"or",
        Binary::Nor => b"nor",
        Binary::Xor => b"xor",
        Binary::Xnor => b"xnor",
        Binary::Rol => b"rol",
        Binary::Ror => b"ror",
        Binary::Sll => b"sll",
        Binary::Srl => b"srl",
        Binary::Sra => b"sra",
        Binary::Add => b"add",
        Binary::Sub => b"sub",
        Binary::Mul => b"mul",
        Binary::Udiv => b"udiv",
        Binary::Sdiv => b"sdiv",
        Binary::Urem => b"urem",
        Binary::Srem => b"srem",
        Binary::Smod => b"smod",
        Binary::Uaddo => b"uaddo",
        Binary::Saddo => b"saddo",
        Binary::Usubo => b"usubo",
        Binary::Ssubo => b"ssubo",
        Binary::Umulo => b"umulo",
        Binary::Smulo => b"smulo",
        Binary::Sdivo => b"sdivo",
    }
}

/// The operator of one operand that a word names, as a line does; nothing where it names none ("Btor2, BtorMC
/// and Boolector 3.0", table of operators).
#[tactic(auto, unfolding(crate::specs::Words::unary_of))]
pub fn unary_of(word: &[u8]) -> Option<Unary>
    ensures { result ≡ unary_of word.now }
{
    by_word!(word;
        b"not" => Unary::Not,
        b"inc" => Unary::Inc,
        b"dec" => Unary::Dec,
        b"neg" => Unary::Neg,
        b"redand" => Unary::Redand,
        b"redor" => Unary::Redor,
        b"redxor" => Unary::Redxor,
    )
}

/// The operator that a word names, where it is a test of two operands.
fn test_of(word: &[u8]) -> Option<Binary>
    ensures { result ≡ named binary_name word.now tests }
{
    by_word!(word;
        b"iff" => Binary::Iff,
        b"implies" => Binary::Implies,
        b"eq" => Binary::Eq,
        b"neq" => Binary::Neq,
        b"ugt" => Binary::Ugt,
        b"ugte" => Binary::Ugte,
        b"ult" => Binary::Ult,
        b"ulte" => Binary::Ulte,
        b"sgt" => Binary::Sgt,
        b"sgte" => Binary::Sgte,
        b"slt" => Binary::Slt,
        b"slte" => Binary::Slte,
    )
}

/// The operator that a word names, where it is an operator on each pair of bits, a rotation or a shift.
fn bitwise_of(word: &[u8]) -> Option<Binary>
    ensures { result ≡ named binary_name word.now bitwise }
{
    by_word!(word;
        b"and" => Binary::And,
        b"nand" => Binary::Nand,
        b"or" => Binary::Or,
        b"nor" => Binary::Nor,
        b"xor" => Binary::Xor,
        b"xnor" => Binary::Xnor,
        b"rol" => Binary::Rol,
        b"ror" => Binary::Ror,
        b"sll" => Binary::Sll,
        b"srl" => Binary::Srl,
        b"sra" => Binary::Sra,
    )
}

/// The operator that a word names, where it is an operator of arithmetic or a test for an overflow.
fn arithmetic_of(word: &[u8]) -> Option<Binary>
    ensures { result ≡ named binary_name word.now arithmetic }
{
    by_word!(word;
        b"add" => Binary::Add,
        b"sub" => Binary::Sub,
        b"mul" => Binary::Mul,
        b"udiv" => Binary::Udiv,
        b"sdiv" => Binary::Sdiv,
        b"urem" => Binary::Urem,
        b"srem" => Binary::Srem,
        b"smod" => Binary::Smod,
        b"uaddo" => Binary::Uaddo,
        b"saddo" => Binary::Saddo,
        b"usubo" => Binary::Usubo,
        b"ssubo" => Binary::Ssubo,
        b"umulo" => Binary::Umulo,
        b"smulo" => Binary::Smulo,
        b"sdivo" => Binary::Sdivo,
    )
}

/// The operator of two operands that a word names, as a line does; nothing where it names none ("Btor2, BtorMC
/// and Boolector 3.0", table of operators).
#[tactic(auto, unfolding(crate::specs::Words::binary_of))]
pub fn binary_of(word: &[u8]) -> Option<Binary>
    ensures { result ≡ binary_of word.now }
{
    if let Some(operator) = test_of(word) {
        return Some(operator);
    }
    if let Some(operator) = bitwise_of(word) {
        return Some(operator);
    }
    arithmetic_of(word)
}
