//! The first line that uses a variable that no line defines.
ghost use Rattle.std.specs.Prelude.{◌≡◌, ℕ, ◌+◌, ◌≤◌, List, [], ◌∷◌, ◌++◌, map, not, length, ◌&&◌, IfSome};
ghost use Rattle.std.specs.List.{position};
ghost use Rattle.std.specs.Option.{option_map};
ghost use Rattle.aiger.specs.Limits.{greatest_count};
ghost use Rattle.aigerlists.specs.Renumbering.{alone, is_known, first_undefined, lines_with};
ghost use Rattle.aigerlists.specs.Numbering.{is_unknown};

use crate::loose::{GateLine, LatchLine, Loose};
use aiger::Lit;

impl Loose {
    /// The first line that uses a variable that is neither 0 nor defined, if there is one: latches,
    /// outputs, bad properties, constraints, justice literals, fairness constraints and gates are
    /// counted, in this order and from 0. It takes no memory.
    pub(crate) fn undefined_line(&self) -> Option<usize>
        ensures { result ≡ first_undefined self.now }
    {
        self.undefined_with(self.gates())
    }

    /// The first such line where these gates stand for all.
    pub(crate) fn undefined_with(&self, gates: &[GateLine]) -> Option<usize>
        requires { length gates.now ≤ greatest_count }
        ensures { result ≡ position (is_unknown self.now) (lines_with self.now gates.now) }
    {
        let unknown = self.unknown_next(self.latches());
        let count = self.latches().len();
        let unknown = self.or_unknown(unknown, count, self.outputs());
        let count = count + self.outputs().len();
        let unknown = self.or_unknown(unknown, count, self.bads());
        let count = count + self.bads().len();
        let unknown = self.or_unknown(unknown, count, self.constraints());
        let count = count + self.constraints().len();
        let unknown = self.or_unknown(unknown, count, self.justice_literals());
        let count = count + self.justice_literals().len();
        let unknown = self.or_unknown(unknown, count, self.fair());
        let count = count + self.fair().len();
        self.or_unknown_gate(unknown, count, gates)
    }

    /// The unknown line that was found, or else the first of these literals that is unknown, behind
    /// so many lines.
    fn or_unknown(&self, found: Option<usize>, count: usize, lits: &[Lit]) -> Option<usize>
        requires { count + length lits.now ≤ 1000000000000 }
        ensures { (lines : List (List ℕ)) → found ≡ position (is_unknown self.now) lines
            → count ≡ length lines
            → result ≡ position (is_unknown self.now) (lines ++ map alone lits.now) }
    {
        match found {
            Some(line) => Some(line),
            None => behind(count, self.unknown(lits)),
        }
    }

    /// The unknown line that was found, or else the first of these gates with an unknown operand,
    /// behind so many lines.
    fn or_unknown_gate(
        &self,
        found: Option<usize>,
        count: usize,
        gates: &[GateLine],
    ) -> Option<usize>
        requires { count + length gates.now ≤ 1000000000000 }
        ensures { (lines : List (List ℕ)) → found ≡ position (is_unknown self.now) lines
            → count ≡ length lines
            → result ≡ position (is_unknown self.now)
            (lines ++ map (λ line. line.rhs0 ∷ line.rhs1 ∷ []) gates.now) }
    {
        match found {
            Some(line) => Some(line),
            None => behind(count, self.unknown_gate(gates)),
        }
    }

    /// The first of these latch lines with an unknown next literal, if there is one.
    fn unknown_next(&self, lines: &[LatchLine]) -> Option<usize>
        ensures { result ≡ position (λ line. not (is_known self.now line.next)) lines.now }
    {
        lines.iter().position(|line| !self.knows(line.next))
    }

    /// The first of these literals that is unknown, if there is one.
    fn unknown(&self, lits: &[Lit]) -> Option<usize>
        ensures { result ≡ position (λ lit. not (is_known self.now lit)) lits.now }
    {
        lits.iter().position(|lit| !self.knows(*lit))
    }

    /// The first of these gates with an unknown operand, if there is one.
    fn unknown_gate(&self, gates: &[GateLine]) -> Option<usize>
        ensures { result ≡ position
            (λ line. not (is_known self.now line.rhs0 && is_known self.now line.rhs1)) gates.now }
    {
        gates.iter().position(|line| !self.know_operands(line))
    }

    /// Whether the variables of both operands are 0 or defined.
    fn know_operands(&self, line: &GateLine) -> bool
        ensures { result ≡ (is_known self.now line.now.rhs0 && is_known self.now line.now.rhs1) }
    {
        self.knows(line.rhs0) && self.knows(line.rhs1)
    }

    /// Whether a literal's variable is 0 or defined. It takes no memory.
    fn knows(&self, lit: Lit) -> bool
        ensures { result ≡ is_known self.now lit }
    {
        lit.var() == 0 || self.defines(lit.var())
    }
}

/// A place behind so many others.
fn behind(count: usize, place: Option<usize>) -> Option<usize>
    requires { IfSome place (λ k. count + k ≤ 1000000000000) }
    ensures { result ≡ option_map (λ k. count + k) place }
{
    match place {
        Some(place) => Some(count + place),
        None => None,
    }
}
