//! The trait of gate makers.
ghost use Rattle.std.specs.Prelude.{◌≡◌, IfOk, IfErr, OnErr};
ghost use Rattle.aiger.specs.Net.{Net, IsDefined};
ghost use Rattle.gates.specs.Made.{MakesAnd, RefusesGate};

use crate::fault::GateFault;
use aiger::Lit;
use arrayvec::ArrayVec;

/// The literals of a word, the lowest bit first.
pub type Bits = ArrayVec<Lit, 128>;

/// What makes gates, one at a time.
pub trait Gates {
    /// The inputs and latches that it stands on, and the gates that it has made.
    ghost made: { Self → Net };

    /// A literal that is true exactly where both operands are, in every valuation that satisfies the gates.
    ///
    /// Conditions: both operands are defined. Errors: `TooBig` where a gate would have a variable above
    /// 2^30, `NoMemory`; nothing changed then.
    fn and(&mut self, a: Lit, b: Lit) -> Result<Lit, GateFault>
        requires left { IsDefined (made self.old) a }
        requires right { IsDefined (made self.old) b }
        ensures ok { IfOk result (MakesAnd (made self.old) (made self.new) a b) }
        ensures err { OnErr result (made self.new ≡ made self.old) }
        ensures refused { IfErr result (RefusesGate (made self.old) (made self.new) 1) };
}
