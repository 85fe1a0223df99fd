//! The literal that says that latches begin.
ghost use Rattle.std.specs.Prelude.{◌≡◌, ◌&&◌, length, All, IfOk, IfErr};
ghost use Rattle.base.specs.Literal.{literal_value};
ghost use Rattle.aiger.specs.Net.{IsDefined};
ghost use Rattle.gates.specs.Made.{MakesLiteral, RefusesGate};
ghost use Rattle.witness_circuits.specs.Made.{agrees, reset_where, own_reset, own_initial, values};

use aiger::{Latch, Lit, Reset};
use gates::{GateFault, Gates};

/// The reset of a latch that stands for nothing, and none of one that stands for something.
fn reset_where(stands: Option<Lit>, reset: Reset) -> Reset
    ensures { result ≡ reset_where stands reset }
{
    match stands {
        Some(_) => Reset::Free,
        None => reset,
    }
}

/// The same of the latch at a position. One behind the list stands for nothing.
fn own_reset(shared: &[Option<Lit>], j: usize, reset: Reset) -> Reset
    ensures { result ≡ own_reset shared.now j reset }
{
    match shared.get(j) {
        Some(stands) => reset_where(*stands, reset),
        None => reset,
    }
}

/// The literal that is true where another one is and a bit agrees with a reset.
fn agreeing<G: Gates>(g: &mut G, reset: Reset, bit: Lit, so_far: Lit) -> Result<Lit, GateFault>
    requires bit { IsDefined (G.made g.old) bit }
    requires so_far { IsDefined (G.made g.old) so_far }
    ensures ok { IfOk result (MakesLiteral (G.made g.old) (G.made g.new) 1
        (λ v. literal_value v so_far && agrees reset (literal_value v bit))) }
    ensures refused { IfErr result (RefusesGate (G.made g.old) (G.made g.new) 1) }
{
    match reset {
        Reset::Zero => g.and(so_far, bit.not()),
        Reset::One => g.and(so_far, bit),
        Reset::Free => Ok(so_far),
    }
}

/// The literal that is true where another one is and the bits of those latches that stand for nothing begin as the latches
/// do, with at most one gate for each. No latch behind the list of what they stand for stands for something.
pub(crate) fn initial<G: Gates>(
    g: &mut G,
    shared: &[Option<Lit>],
    latches: &[Latch],
    bits: &[Lit],
    so_far: Lit,
) -> Result<Lit, GateFault>
    requires many { length bits.now ≡ length latches.now }
    requires bits { All (IsDefined (G.made g.old)) bits.now }
    requires so_far { IsDefined (G.made g.old) so_far }
    ensures ok { IfOk result (MakesLiteral (G.made g.old) (G.made g.new) (length latches.now)
        (λ v. literal_value v so_far && own_initial shared.now latches.now (values v bits.now))) }
    ensures refused { IfErr result (RefusesGate (G.made g.old) (G.made g.new)
        (length latches.now)) }
{
    let mut so_far = so_far;
    for (j, latch) in latches.iter().enumerate() {
        so_far = agreeing(g, own_reset(shared, j, latch.reset), bits[j], so_far)?;
    }
    Ok(so_far)
}
