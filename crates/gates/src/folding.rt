//! What an and is where it needs no gate.
ghost use Rattle.std.specs.Prelude.{◌≡◌};
ghost use Rattle.gates.specs.Shared.{folded_and};

use aiger::Lit;

/// The and of two literals, where it is one of them or a constant.
pub(crate) fn folded(a: Lit, b: Lit) -> Option<Lit>
    ensures { result ≡ folded_and a b }
{
    if a == Lit::FALSE || b == Lit::FALSE || a == b.not() {
        Some(Lit::FALSE)
    } else if a == Lit::TRUE || a == b {
        Some(b)
    } else if b == Lit::TRUE {
        Some(a)
    } else {
        None
    }
}
