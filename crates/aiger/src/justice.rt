//! The justice properties of a circuit, whose literals are all in one list.
ghost use Rattle.std.specs.Prelude.{◌≡◌, ◌∷◌, [], ◌++◌, length, Some, None, if◌then◌else◌, OnOk, OnErr};
ghost use Rattle.aiger.specs.declared.fault.CircuitFault.TheVariants.{TooBig};
ghost use Rattle.aiger.specs.Circuit.{size_refusal};
ghost use Rattle.aiger.specs.Refusal.{RefusesBy};

use crate::circuit::GREATEST_COUNT;
use crate::fault::CircuitFault;
use crate::literal::Lit;
use base::Rows;

/// Adds a justice property with these literals, which may be none.
///
/// Errors: `TooBig` where there are 2^30 of them already or all together would have more than
/// 2^30 literals, and `NoMemory`. Nothing has changed then.
pub fn push_justice(justice: &mut Rows<Lit>, lits: &[Lit]) -> Result<(), CircuitFault>
    ensures ok { OnOk result (justice.new ≡ justice.old ++ lits.now ∷ []) }
    ensures refused { RefusesBy result (size_refusal justice.old (length lits.now)) }
    ensures err { OnErr result (justice.new ≡ justice.old) }
{
    if !has_room(justice, lits.len()) {
        return Err(CircuitFault::TooBig);
    }
    Ok(justice.push(lits)?)
}

/// Whether one more of so many literals is within the limits.
fn has_room(justice: &Rows<Lit>, size: usize) -> bool
    ensures { size_refusal justice.now size ≡ (if result then None else Some TooBig) }
{
    let greatest = GREATEST_COUNT as usize;
    if justice.len() >= greatest {
        return false;
    }
    if size > greatest {
        return false;
    }
    justice.values().len() <= greatest - size
}
