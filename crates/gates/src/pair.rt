//! The operands of a gate as a key of a map.
ghost use Rattle.std.specs.Prelude.{◌≡◌};
ghost use Rattle.gates.specs.Shared.{gate_of};

use aiger::Lit;
use std::marker::Model;

/// The operands of a gate, the greater one first.
#[derive(Clone, Copy, PartialEq, Eq, Hash)]
pub struct Pair {
    pub greater: u32,
    pub smaller: u32,
}

impl Model for Pair {
    ghost use Rattle.aiger.specs.declared.circuit.Gate.{Gate};

    ghost Value = { Gate };

    ghost view = { λ p. record { rhs0 = p.greater; rhs1 = p.smaller } };

    ghost inverse = { λ g. record { greater = g.rhs0; smaller = g.rhs1 } };
}

/// The pair of two literals.
pub(crate) fn pair_of(a: Lit, b: Lit) -> Pair
    ensures { result ≡ gate_of a b }
{
    let (a, b) = (a.number(), b.number());
    Pair {
        greater: a.max(b),
        smaller: a.min(b),
    }
}
