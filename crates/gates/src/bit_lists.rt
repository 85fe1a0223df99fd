//! Lists of literals that take no gate: negated, of one literal, of one literal many times, and longer.
ghost use Rattle.std.specs.Prelude.{◌≡◌, ◌+◌, ◌≤◌, [], ◌∷◌, ◌++◌, length, map, take, replicate};
ghost use Rattle.base.specs.Literal.{negation};

use crate::maker::Bits;
use aiger::Lit;

/// The negated literals.
pub(crate) fn negation(a: &[Lit]) -> Bits
    requires { length a.now ≤ 128 }
    ensures { result.items ≡ map negation a.now }
{
    let mut bits = Bits::new();
    for lit in a {
        bits.push(lit.not());
    }
    bits
}

/// The bits of a word of width 1.
pub(crate) fn one_bit(lit: Lit) -> Bits
    ensures { result.items ≡ lit ∷ [] }
{
    let mut bits = Bits::new();
    bits.push(lit);
    bits
}

/// So many times one literal.
pub(crate) fn repeated(lit: Lit, count: usize) -> Bits
    requires { count ≤ 128 }
    ensures { result.items ≡ replicate count lit }
{
    let mut bits = Bits::new();
    for _ in 0..count {
        bits.push(lit);
    }
    bits
}

/// Literals put behind a word's.
pub(crate) fn append(bits: &mut Bits, more: &[Lit])
    requires { length bits.old.items + length more.now ≤ 128 }
    ensures { bits.new.items ≡ bits.old.items ++ more.now }
{
    let added = bits.try_extend_from_slice(more);
    prove!(added.is_ok());
}
