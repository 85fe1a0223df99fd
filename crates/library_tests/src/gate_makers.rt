//! The bounds, the limit on variables, and the gates that makers make.
ghost use Rattle.std.specs.Prelude.{◌≡◌, []};

use crate::circuits::are_gates;
use aiger::Lit;
use base::{Binary, Unary};
use gates::{GateFault, Gates, HashGates, Op, PlainGates, gate_bound};
use std::alloc::Global;

/// Whether a plain maker of 2^30 inputs and a latch is refused as too big.
fn is_plain_too_big(alloc: Global) -> bool {
    PlainGates::new(alloc, 1 << 30, 1).err() == Some(GateFault::TooBig)
}

/// Whether a sharing one is.
fn is_shared_too_big(alloc: Global) -> bool {
    HashGates::new(alloc, 1 << 30, 1).err() == Some(GateFault::TooBig)
}

/// How many inputs the circuit of a plain maker of two inputs and a latch has.
fn inputs_of_a_maker(alloc: Global) -> Option<u32> {
    Some(PlainGates::new(alloc, 2, 1).ok()?.finish().inputs())
}

#[test]
fn bounds_and_limits(rt: HostRuntime) {
    assert!(rt; gate_bound(Op::Unary(Unary::Not), 64) == 0);
    assert!(rt; gate_bound(Op::Binary(Binary::And), 64) == 64);
    assert!(rt; is_plain_too_big(rt.alloc()) & is_shared_too_big(rt.alloc()));
    assert!(rt; inputs_of_a_maker(rt.alloc()) == Some(2));
}

/// What a maker over two inputs answers to six ands.
fn answers<G: Gates>(g: &mut G) -> Result<[u32; 6], GateFault>
    requires fresh { G.made g.old ≡ record { inputs = 2; latches = 0; gates = [] } }
{
    let (x, y) = (Lit::new(2), Lit::new(4));
    let both = g.and(x, y)?;
    let with_true = g.and(both, Lit::TRUE)?;
    let with_negation = g.and(both, both.not())?;
    let again = g.and(y, x)?;
    let other = g.and(x.not(), y)?;
    let with_itself = g.and(other, other)?;
    Ok([both, with_true, with_negation, again, other, with_itself].map(|lit| lit.number()))
}

/// Whether a sharing maker answers six ands so, and has made two gates.
fn makes_two_gates(alloc: Global) -> bool {
    match HashGates::new(alloc, 2, 0) {
        Ok(mut g) => {
            let are_answered = answers(&mut g) == Ok([6, 6, 0, 6, 8, 8]);
            are_answered & are_gates(g.finish().gates(), &[[4, 2], [4, 3]])
        }
        Err(_) => false,
    }
}

#[test]
fn a_gate_is_made_once(rt: HostRuntime) {
    assert!(rt; makes_two_gates(rt.alloc()));
}

/// Whether a maker with as many inputs as there may be answers the and of an input with true, and makes no gate.
fn is_full(g: &mut HashGates) -> bool
    requires { g.old ≡ record { inputs = 1073741824; latches = 0; gates = [] } }
{
    let x = Lit::new(2);
    let is_answered = g.and(x, Lit::TRUE) == Ok(x);
    is_answered & (g.and(x, Lit::new(4)) == Err(GateFault::TooBig))
}

/// Whether a sharing maker does.
fn is_full_by_inputs(alloc: Global) -> bool {
    match HashGates::new(alloc, 1 << 30, 0) {
        Ok(mut g) => is_full(&mut g),
        Err(_) => false,
    }
}

#[test]
fn the_limit_is_for_new_gates(rt: HostRuntime) {
    assert!(rt; is_full_by_inputs(rt.alloc()));
}
