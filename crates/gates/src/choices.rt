//! A choice between two words.
ghost use Rattle.std.specs.Prelude.{◌≡◌, ◌≤◌, ◌*◌, length, All, IfOk, IfErr, if◌then◌else◌};
ghost use Rattle.base.specs.Operator.{ite_value};
ghost use Rattle.aiger.specs.Net.{IsDefined};
ghost use Rattle.base.specs.Literal.{literal_value};
ghost use Rattle.gates.specs.Operands.{AreOperands};
ghost use Rattle.gates.specs.Made.{MakesWord, RefusesGate, word_value};
ghost use Rattle.gates.specs.Bound.{ite_bound};

use crate::fault::GateFault;
use crate::literals::mux;
use crate::maker::{Bits, Gates};
use aiger::Lit;

/// The bits of `t` where `c` is true, and else those of `e`.
pub(crate) fn choose<G: Gates>(g: &mut G, c: Lit, t: &[Lit], e: &[Lit]) -> Result<Bits, GateFault>
    requires most { length t.now ≤ 64 }
    requires equal { length e.now ≡ length t.now }
    requires condition { IsDefined (G.made g.old) c }
    requires then { All (IsDefined (G.made g.old)) t.now }
    requires otherwise { All (IsDefined (G.made g.old)) e.now }
    ensures ok { IfOk result (λ bits. let n = length t.now in MakesWord (G.made g.old)
        (G.made g.new) (3 * n) n
        (λ v. if literal_value v c then word_value v t.now else word_value v e.now) bits.items) }
    ensures refused { IfErr result (RefusesGate (G.made g.old) (G.made g.new) (3 * length t.now)) }
{
    let mut bits = Bits::new();
    for i in 0..t.len() {
        bits.push(mux(g, c, t[i], e[i])?);
    }
    Ok(bits)
}

/// The bits of a choice: those of `t` where the condition is 1, and else those of `e`.
///
/// Conditions: a condition of one literal, words of equal length from 1 to 64, all literals defined. Errors: `TooBig`
/// only where the variables so far and 3 times the length sum to more than 2^30, `NoMemory`; the gates made so far stay.
pub fn ite_bits<G: Gates>(g: &mut G, c: &[Lit], t: &[Lit], e: &[Lit]) -> Result<Bits, GateFault>
    requires one { length c.now ≡ 1 }
    requires operands { AreOperands (G.made g.old) 64 t.now e.now }
    requires condition { All (IsDefined (G.made g.old)) c.now }
    ensures ok { IfOk result (λ bits. let n = length t.now in MakesWord (G.made g.old)
        (G.made g.new) (ite_bound n) n
        (λ v. ite_value (word_value v c.now) (word_value v t.now) (word_value v e.now))
        bits.items) }
    ensures refused { IfErr result (RefusesGate (G.made g.old) (G.made g.new)
        (ite_bound (length t.now))) }
{
    choose(g, c[0], t, e)
}
