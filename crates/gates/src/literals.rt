//! Literals of two and three others, made of ands.
ghost use Rattle.std.specs.Prelude.{IfOk, IfErr, ◌||◌, if◌then◌else◌};
ghost use Rattle.aiger.specs.Net.{IsDefined};
ghost use Rattle.base.specs.Literal.{literal_value};
ghost use Rattle.gates.specs.Connect.{differ};
ghost use Rattle.gates.specs.Made.{MakesLiteral, RefusesGate};

use crate::fault::GateFault;
use crate::maker::Gates;
use aiger::Lit;

/// A literal that is true where one of two others is, or both are, with at most 1 gate.
///
/// Conditions: both operands are defined. Errors: `TooBig` only where the variables so far and 1 sum to more than 2^30,
/// `NoMemory`; the gates made so far stay.
pub fn disjunction<G: Gates>(g: &mut G, a: Lit, b: Lit) -> Result<Lit, GateFault>
    requires left { IsDefined (G.made g.old) a }
    requires right { IsDefined (G.made g.old) b }
    ensures ok { IfOk result (MakesLiteral (G.made g.old) (G.made g.new) 1
        (λ v. literal_value v a || literal_value v b)) }
    ensures refused { IfErr result (RefusesGate (G.made g.old) (G.made g.new) 1) }
{
    let neither = g.and(a.not(), b.not())?;
    Ok(neither.not())
}

/// A literal that is true where exactly one of two others is, with at most 3 gates.
///
/// Conditions: both operands are defined. Errors: `TooBig` only where the variables so far and 3 sum to more than 2^30,
/// `NoMemory`; the gates made so far stay.
pub fn xor<G: Gates>(g: &mut G, a: Lit, b: Lit) -> Result<Lit, GateFault>
    requires left { IsDefined (G.made g.old) a }
    requires right { IsDefined (G.made g.old) b }
    ensures ok { IfOk result (MakesLiteral (G.made g.old) (G.made g.new) 3
        (λ v. differ (literal_value v a) (literal_value v b))) }
    ensures refused { IfErr result (RefusesGate (G.made g.old) (G.made g.new) 3) }
{
    let both = g.and(a, b)?;
    let neither = g.and(a.not(), b.not())?;
    g.and(both.not(), neither.not())
}

/// A literal that is what `t` is where `c` is true, and else what `e` is, with at most 3 gates.
///
/// Conditions: the three operands are defined. Errors: `TooBig` only where the variables so far and 3 sum to more than
/// 2^30, `NoMemory`; the gates made so far stay.
pub fn mux<G: Gates>(g: &mut G, c: Lit, t: Lit, e: Lit) -> Result<Lit, GateFault>
    requires condition { IsDefined (G.made g.old) c }
    requires then { IsDefined (G.made g.old) t }
    requires otherwise { IsDefined (G.made g.old) e }
    ensures ok { IfOk result (MakesLiteral (G.made g.old) (G.made g.new) 3
        (λ v. if literal_value v c then literal_value v t else literal_value v e)) }
    ensures refused { IfErr result (RefusesGate (G.made g.old) (G.made g.new) 3) }
{
    if t == e {
        return Ok(t);
    }
    let first = g.and(c, t)?;
    let second = g.and(c.not(), e)?;
    disjunction(g, first, second)
}
