//! Vectors of operators, and the lines that write them.

ghost use Rattle.std.specs.Prelude.{◌≡◌, ◌≢◌, ◌<◌, ◌≤◌, ◌^◌, ◌++◌, ◌∷◌, List, ℕ, Some, None, true, IfOk, IfErr, IfSome, decimal};
ghost use Rattle.base.specs.Widths.{is_of_bits};
ghost use Rattle.btor2text.specs.Words.{unary_of, binary_of};
ghost use Rattle.base.specs.declared.operators.Unary.{Unary};
ghost use Rattle.base.specs.declared.operators.Binary.{Binary};
ghost use Rattle.vectors.specs.declared.lines.Vector.{Vector};
ghost use Rattle.vectors.specs.declared.lines.Vector.TheVariants as vector;
ghost use Rattle.vectors.specs.OperatorModels.{items_of};
ghost use Rattle.vectors.specs.Vectors.{IsVector, NamesOperator, numbers, Writes, AreVectorsOf, IfBad, IsFirstBad, numbered};

use base::{Binary, Unary, Width, cut_at, decimal, next_line, ones};
use btor2text::{binary_of, unary_of};
use std::alloc::Global;
use std::marker::Model;

/// An operator, the width of its operands, these, and the word that they are said to give.
#[derive(Clone, Copy, PartialEq, Eq)]
pub enum Vector {
    /// Of one operand.
    Unary {
        /// The operator.
        operator: Unary,
        /// The width of the operand.
        width: Width,
        /// The operand.
        operand: u64,
        /// The word that is said to come.
        result: u64,
    },
    /// Of two operands.
    Binary {
        /// The operator.
        operator: Binary,
        /// The width of the operands.
        width: Width,
        /// The first operand.
        left: u64,
        /// The second operand.
        right: u64,
        /// The word that is said to come.
        result: u64,
    },
}

/// A vector whose numbers fit their widths, and the number of its line, from 1.
///
/// Clauses see both.
#[derive(Drop)]
pub(crate) struct Numbered {
    line: u64,
    vector: Vector,
}

impl Model for Numbered {
    ghost use Rattle.vectors.specs.Vectors.{NumberedVector, IsVector};

    ghost Value = { NumberedVector };

    ghost view = { λ n. record { line = n.line; vector = n.vector } };

    ghost invariant = { λ n. IsVector n.vector };
}

impl Numbered {
    /// The number of its line, from 1.
    pub(crate) fn line(&self) -> u64
        ensures { result ≡ self.now.line }
    {
        self.line
    }

    /// The vector.
    pub(crate) fn vector(&self) -> Vector
        ensures same { result ≡ self.now.vector }
        ensures fits { IsVector self.now.vector }
    {
        self.vector
    }

    /// Whether another is of the same operator and the same width.
    pub(crate) fn is_alike(&self, other: &Numbered) -> bool
        ensures { result ≡ true → items_of self.now.vector ≡ items_of other.now.vector }
    {
        match self.vector {
            Vector::Unary {
                operator: own,
                width: bits,
                ..
            } => match other.vector {
                Vector::Unary {
                    operator,
                    width,
                    ..
                } => operator == own && width == bits,
                Vector::Binary { .. } => false,
            },
            Vector::Binary {
                operator: own,
                width: bits,
                ..
            } => match other.vector {
                Vector::Binary {
                    operator,
                    width,
                    ..
                } => operator == own && width == bits,
                Vector::Unary { .. } => false,
            },
        }
    }

    /// A number for its operator and its width, which no other operator or width has.
    pub(crate) fn kind(&self) -> u64 {
        match self.vector {
            Vector::Unary {
                operator,
                width,
                ..
            } => operator as u64 * 128 + width.bits(),
            Vector::Binary {
                operator,
                width,
                ..
            } => (operator as u64 + 64) * 128 + width.bits(),
        }
    }
}

/// Why a text is no list of vectors.
#[derive(Clone, Copy, PartialEq, Eq)]
pub enum LinesFault {
    /// The first line that writes no vector, from 1.
    Bad(u64),
    /// A growth was refused.
    NoMemory,
}

/// The greatest number that a decimal is read as.
const GREATEST: &[u8] = b"18446744073709551615";

/// The number below 2 to the 64 that a token writes as a decimal.
fn number(token: &[u8]) -> Option<u64>
    ensures written { IfSome result (λ n. token.now ≡ decimal n) }
    ensures fits { IfSome result (λ n. n < 2 ^ 64) }
    ensures none { result ≡ None → (n : ℕ) → n < 2 ^ 64 → token.now ≢ decimal n }
{
    match decimal(token) {
        Some(value) => {
            if value < u64::MAX {
                Some(value)
            } else if token == GREATEST {
                Some(u64::MAX)
            } else {
                None
            }
        }
        None => None,
    }
}

/// The word of a width that a token writes as a decimal.
fn word(width: Width, token: &[u8]) -> Option<u64>
    ensures written { IfSome result (λ n. token.now ≡ decimal n) }
    ensures fits { IfSome result (λ n. n < 2 ^ width) }
    ensures none { result ≡ None → (n : ℕ) → n < 2 ^ width → token.now ≢ decimal n }
{
    match number(token) {
        Some(number) => {
            if number <= ones(width) {
                Some(number)
            } else {
                None
            }
        }
        None => None,
    }
}

/// The width that the first token of a line writes, and what stands behind it.
fn first_width(line: &[u8]) -> Option<(Width, &[u8])>
    ensures written { IfSome result (λ x. line.now ≡ decimal x.0 ++ 32 ∷ x.1.now) }
    ensures fits { IfSome result (λ x. x.0 ≤ 64) }
    ensures none { result ≡ None → (n : ℕ) (rest : List ℕ) → 1 ≤ n → n ≤ 64
        → line.now ≢ decimal n ++ 32 ∷ rest }
{
    match cut_at(line, b' ') {
        Some((token, behind)) => match number(token) {
            Some(bits) => match Width::new(bits) {
                Some(width) => Some((width, behind)),
                None => None,
            },
            None => None,
        },
        None => None,
    }
}

/// The word of a width that the first token of a line writes, and what stands behind it.
fn first_word(width: Width, line: &[u8]) -> Option<(u64, &[u8])>
    ensures written { IfSome result (λ x. line.now ≡ decimal x.0 ++ 32 ∷ x.1.now) }
    ensures fits { IfSome result (λ x. x.0 < 2 ^ width) }
    ensures none { result ≡ None → width ≤ 64 → (n : ℕ) (rest : List ℕ) → n < 2 ^ width
        → line.now ≢ decimal n ++ 32 ∷ rest }
{
    match cut_at(line, b' ') {
        Some((token, behind)) => match word(width, token) {
            Some(word) => Some((word, behind)),
            None => None,
        },
        None => None,
    }
}

/// The word of a number of bits that a token writes as a decimal.
fn word_of_bits(bits: u64, token: &[u8]) -> Option<u64>
    ensures written { IfSome result (λ n. token.now ≡ decimal n) }
    ensures fits { IfSome result (λ n. n < 2 ^ bits) }
    ensures none { result ≡ None → 1 ≤ bits → bits ≤ 64 → (n : ℕ) → n < 2 ^ bits
        → token.now ≢ decimal n }
{
    match Width::new(bits) {
        Some(width) => word(width, token),
        None => None,
    }
}

/// The vector of an operator of one operand of a width, whose operand and result a line writes.
fn with_operand(operator: Unary, width: Width, line: &[u8]) -> Option<Vector>
    ensures written { IfSome result (λ v. decimal width ++ 32 ∷ line.now ≡ numbers v) }
    ensures fits { IfSome result IsVector }
    ensures named { (word : List ℕ) → unary_of word ≡ Some operator
        → IfSome result (NamesOperator word) }
    ensures none { result ≡ None → (a r : ℕ) → IsVector (vector.Unary operator width a r)
        → line.now ≢ decimal a ++ 32 ∷ decimal r }
{
    let bits = width.bits();
    match first_word(width, line) {
        Some((operand, rest)) => match word_of_bits(operator.width(bits), rest) {
            Some(result) => Some(Vector::Unary {
                operator,
                width,
                operand,
                result,
            }),
            None => None,
        },
        None => None,
    }
}

/// The vector of an operator of two operands of a width, whose second operand and result a line writes.
fn with_right(operator: Binary, width: Width, left: u64, line: &[u8]) -> Option<Vector>
    requires left { left < 2 ^ width }
    requires bits { is_of_bits operator ≡ true → width ≡ 1 }
    ensures written { IfSome result (λ v. decimal width ++ 32 ∷ (decimal left ++ 32 ∷ line.now)
        ≡ numbers v) }
    ensures fits { IfSome result IsVector }
    ensures named { (word : List ℕ) → binary_of word ≡ Some operator
        → IfSome result (NamesOperator word) }
    ensures none { result ≡ None → (b r : ℕ) → IsVector (vector.Binary operator width left b r)
        → line.now ≢ decimal b ++ 32 ∷ decimal r }
{
    let bits = width.bits();
    match first_word(width, line) {
        Some((right, rest)) => match word_of_bits(operator.width(bits), rest) {
            Some(result) => Some(Vector::Binary {
                operator,
                width,
                left,
                right,
                result,
            }),
            None => None,
        },
        None => None,
    }
}

/// The vector of an operator of two operands of a width, whose operands and result a line writes.
fn with_operands(operator: Binary, width: Width, line: &[u8]) -> Option<Vector>
    ensures written { IfSome result (λ v. decimal width ++ 32 ∷ line.now ≡ numbers v) }
    ensures fits { IfSome result IsVector }
    ensures named { (word : List ℕ) → binary_of word ≡ Some operator
        → IfSome result (NamesOperator word) }
    ensures none { result ≡ None → (a b r : ℕ) → IsVector (vector.Binary operator width a b r)
        → line.now ≢ decimal a ++ 32 ∷ (decimal b ++ 32 ∷ decimal r) }
{
    if operator.is_of_bits() && width.bits() != 1 {
        return None;
    }
    match first_word(width, line) {
        Some((left, rest)) => with_right(operator, width, left, rest),
        None => None,
    }
}

/// The vector of an operator of one operand that the rest of a line writes.
fn unary_vector(operator: Unary, rest: &[u8]) -> Option<Vector>
    ensures written { IfSome result (λ v. rest.now ≡ numbers v) }
    ensures fits { IfSome result IsVector }
    ensures named { (word : List ℕ) → unary_of word ≡ Some operator
        → IfSome result (NamesOperator word) }
    ensures none { result ≡ None → (n a r : ℕ) → IsVector (vector.Unary operator n a r)
        → rest.now ≢ numbers (vector.Unary operator n a r) }
{
    match first_width(rest) {
        Some((width, behind)) => with_operand(operator, width, behind),
        None => None,
    }
}

/// The vector of an operator of two operands that the rest of a line writes.
fn binary_vector(operator: Binary, rest: &[u8]) -> Option<Vector>
    ensures written { IfSome result (λ v. rest.now ≡ numbers v) }
    ensures fits { IfSome result IsVector }
    ensures named { (word : List ℕ) → binary_of word ≡ Some operator
        → IfSome result (NamesOperator word) }
    ensures none { result ≡ None → (n a b r : ℕ) → IsVector (vector.Binary operator n a b r)
        → rest.now ≢ numbers (vector.Binary operator n a b r) }
{
    match first_width(rest) {
        Some((width, behind)) => with_operands(operator, width, behind),
        None => None,
    }
}

/// The vector of an operator of one operand that a word names, and the rest of a line writes.
fn named_unary(name: &[u8], rest: &[u8]) -> Option<Vector>
    ensures written { IfSome result (λ v. rest.now ≡ numbers v) }
    ensures fits { IfSome result IsVector }
    ensures named { IfSome result (NamesOperator name.now) }
    ensures none { result ≡ None → (op : Unary) (n a r : ℕ) → unary_of name.now ≡ Some op
        → IsVector (vector.Unary op n a r) → rest.now ≢ numbers (vector.Unary op n a r) }
{
    match unary_of(name) {
        Some(operator) => unary_vector(operator, rest),
        None => None,
    }
}

/// The vector of an operator of two operands that a word names, and the rest of a line writes.
fn named_binary(name: &[u8], rest: &[u8]) -> Option<Vector>
    ensures written { IfSome result (λ v. rest.now ≡ numbers v) }
    ensures fits { IfSome result IsVector }
    ensures named { IfSome result (NamesOperator name.now) }
    ensures none { result ≡ None → (op : Binary) (n a b r : ℕ) → binary_of name.now ≡ Some op
        → IsVector (vector.Binary op n a b r) → rest.now ≢ numbers (vector.Binary op n a b r) }
{
    match binary_of(name) {
        Some(operator) => binary_vector(operator, rest),
        None => None,
    }
}

/// The vector of an operator that a word names, and the rest of a line writes.
fn named_vector(name: &[u8], rest: &[u8]) -> Option<Vector>
    ensures written { IfSome result (λ v. rest.now ≡ numbers v) }
    ensures fits { IfSome result IsVector }
    ensures named { IfSome result (NamesOperator name.now) }
    ensures none { result ≡ None → (v : Vector) → NamesOperator name.now v → IsVector v
        → rest.now ≢ numbers v }
{
    match named_unary(name, rest) {
        Some(vector) => Some(vector),
        None => named_binary(name, rest),
    }
}

/// The vector that a line writes, without its byte 10.
pub(crate) fn vector_of(line: &[u8]) -> Option<Vector>
    ensures written { IfSome result (Writes line.now) }
    ensures fits { IfSome result IsVector }
    ensures none { result ≡ None → (v : Vector) → ¬ Writes line.now v }
{
    match cut_at(line, b' ') {
        Some((name, rest)) => named_vector(name, rest),
        None => None,
    }
}

/// The vectors that the lines of a text write.
///
/// Errors: `Bad` with the first line that writes none or has no byte 10, from 1; `NoMemory`.
#[tactic(auto, using(crate::proofs::VectorLemmas::all_numbered))]
pub(crate) fn read_vectors(alloc: Global, text: &[u8]) -> Result<Vec<Numbered>, LinesFault>
    ensures read { IfOk result (λ read. (vectors : List Vector) × AreVectorsOf text.now vectors
        × (read.items ≡ numbered 1 vectors)) }
    ensures bad { IfErr result (IfBad (IsFirstBad text.now)) }
{
    let mut vectors = Vec::new(alloc);
    let mut rest = text;
    while let Some((front, after)) = next_line(rest) {
        let line = vectors.len() as u64 + 1;
        match vector_of(front) {
            Some(vector) => match vectors.push(Numbered { line, vector }) {
                Ok(()) => {}
                Err(_) => return Err(LinesFault::NoMemory),
            },
            None => return Err(LinesFault::Bad(line)),
        }
        rest = after;
    }
    if rest.is_empty() {
        Ok(vectors)
    } else {
        Err(LinesFault::Bad(vectors.len() as u64 + 1))
    }
}
