//! Literals: 2v is variable v, and 2v + 1 its negation.
ghost use Rattle.std.specs.Prelude.{◌≡◌};
ghost use Rattle.base.specs.Literal.{negation};

/// The negation of a literal: 2v and 2v + 1 are exchanged.
pub(crate) fn negation(literal: u32) -> u32
    ensures { result ≡ negation literal }
{
    literal ^ 1
}
