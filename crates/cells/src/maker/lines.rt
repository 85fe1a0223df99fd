//! Nodes of single operators and constants.
ghost use Rattle.std.specs.Prelude.{◌≡◌, ◌+◌, ◌-◌, ◌<◌, ◌≤◌, true, [], ◌∷◌, ◌++◌, Some, None, IfOk, IfErr};
ghost use Rattle.base.specs.declared.operators.Unary.TheVariants as unary;
ghost use Rattle.base.specs.declared.operators.Binary.TheVariants as binary;
ghost use Rattle.base.specs.Operator.{ones, unary_value, binary_value, ite_value, slice_value, concat_value};
ghost use Rattle.btor2.specs.Items.{find_item, node_width, operands};
ghost use Rattle.btor2.specs.Trace.{bits_of};
ghost use Rattle.wide.specs.Entries.{digits_sort};
ghost use Rattle.wide.specs.WideModels.{greatest_width};
ghost use Rattle.full.specs.Gives.{GivesWord};
ghost use Rattle.cells.specs.Kept.{IsSound, IsShort};
ghost use Rattle.cells.specs.Lines.{is_plain, named, Extends, IsNew};

use crate::maker::ListMaker;
use crate::shortage::Shortage;
use base::{Binary, Unary};
use btor2::Body;

impl ListMaker {
    /// Adds a constant without digits or an operator, without a name. Answers its id.
    fn add(&mut self, body: Body) -> Result<u32, Shortage>
        requires sound { IsSound self.old body }
        requires plain { is_plain body ≡ true }
        requires no_digits { digits_sort body ≡ None }
        ensures line { IfOk result (λ id. (self.new ≡ self.old ++ named id None body ∷ [])
            × (find_item self.old id ≡ None)) }
        ensures new { IfOk result (IsNew self.old self.new) }
        ensures extends { Extends self.old self.new (operands body) }
        ensures short { IfErr result (IsShort self.new) }
    {
        self.put(None, body)
    }

    /// The node of the bits `upper` down to `lower` of a node, both included.
    pub fn slice(&mut self, a: u32, upper: u64, lower: u64) -> Result<u32, Shortage>
        requires order { lower ≤ upper }
        requires within { upper < bits_of self.old a }
        ensures node { IfOk result (GivesWord self.new (upper - lower + 1)
            (λ g. slice_value (g a) upper lower)) }
        ensures new { IfOk result (IsNew self.old self.new) }
        ensures extends { Extends self.old self.new (a ∷ []) }
        ensures short { IfErr result (IsShort self.new) }
    {
        self.know(a);
        let sort = self.sort(upper - lower + 1)?;
        self.add(Body::Slice {
            sort,
            operand: a,
            upper: upper as u32,
            lower: lower as u32,
        })
    }

    /// The node of a word before another, whose bits are its high ones.
    ///
    /// Condition: they have at most 1,048,576 bits together.
    pub fn concat(
        &mut self,
        high: u32,
        high_width: u64,
        low: u32,
        low_width: u64,
    ) -> Result<u32, Shortage>
        requires high { node_width self.old high ≡ Some high_width }
        requires low { node_width self.old low ≡ Some low_width }
        requires most { high_width + low_width ≤ greatest_width }
        ensures node { IfOk result (GivesWord self.new (high_width + low_width)
            (λ g. concat_value (g high) low_width (g low))) }
        ensures new { IfOk result (IsNew self.old self.new) }
        ensures extends { Extends self.old self.new (high ∷ low ∷ []) }
        ensures short { IfErr result (IsShort self.new) }
    {
        self.know_width(high, high_width);
        let sort = self.sort(high_width + low_width)?;
        self.add(Body::Concat { sort, high, low })
    }

    /// The node of the first operand where the condition, of one bit, is 1, else of the second.
    pub fn ite(
        &mut self,
        condition: u32,
        first: u32,
        second: u32,
        width: u64,
    ) -> Result<u32, Shortage>
        requires condition { node_width self.old condition ≡ Some 1 }
        requires first { node_width self.old first ≡ Some width }
        requires second { node_width self.old second ≡ Some width }
        ensures node { IfOk result (GivesWord self.new width
            (λ g. ite_value (g condition) (g first) (g second))) }
        ensures new { IfOk result (IsNew self.old self.new) }
        ensures extends { Extends self.old self.new (condition ∷ first ∷ second ∷ []) }
        ensures short { IfErr result (IsShort self.new) }
    {
        self.know_width(first, width);
        let sort = self.sort(width)?;
        self.add(Body::Ite {
            sort,
            condition,
            first,
            second,
        })
    }

    /// The node of a node whose bits are inverted.
    pub fn not(&mut self, a: u32, width: u64) -> Result<u32, Shortage>
        requires a { node_width self.old a ≡ Some width }
        ensures node { IfOk result (GivesWord self.new width
            (λ g. unary_value unary.Not width (g a))) }
        ensures new { IfOk result (IsNew self.old self.new) }
        ensures extends { Extends self.old self.new (a ∷ []) }
        ensures short { IfErr result (IsShort self.new) }
    {
        self.know_width(a, width);
        let sort = self.sort(width)?;
        self.add(Body::Unary {
            operator: Unary::Not,
            sort,
            operand: a,
        })
    }

    /// The node of the bits that two nodes of one width have both.
    pub fn and(&mut self, a: u32, b: u32, width: u64) -> Result<u32, Shortage>
        requires a { node_width self.old a ≡ Some width }
        requires b { node_width self.old b ≡ Some width }
        ensures node { IfOk result (GivesWord self.new width
            (λ g. binary_value binary.And width (g a) (g b))) }
        ensures new { IfOk result (IsNew self.old self.new) }
        ensures extends { Extends self.old self.new (a ∷ b ∷ []) }
        ensures short { IfErr result (IsShort self.new) }
    {
        self.know_width(a, width);
        let sort = self.sort(width)?;
        self.add(Body::Binary {
            operator: Binary::And,
            sort,
            left: a,
            right: b,
        })
    }

    /// The node of zeros.
    pub fn zero(&mut self, width: u64) -> Result<u32, Shortage>
        requires least { 1 ≤ width }
        requires most { width ≤ greatest_width }
        ensures node { IfOk result (GivesWord self.new width (λ g. 0)) }
        ensures new { IfOk result (IsNew self.old self.new) }
        ensures extends { Extends self.old self.new [] }
        ensures short { IfErr result (IsShort self.new) }
    {
        let sort = self.sort(width)?;
        self.add(Body::Zero { sort })
    }

    /// The node of the word 1.
    pub fn one(&mut self, width: u64) -> Result<u32, Shortage>
        requires least { 1 ≤ width }
        requires most { width ≤ greatest_width }
        ensures node { IfOk result (GivesWord self.new width (λ g. 1)) }
        ensures new { IfOk result (IsNew self.old self.new) }
        ensures extends { Extends self.old self.new [] }
        ensures short { IfErr result (IsShort self.new) }
    {
        let sort = self.sort(width)?;
        self.add(Body::One { sort })
    }

    /// The node of ones.
    pub fn ones(&mut self, width: u64) -> Result<u32, Shortage>
        requires least { 1 ≤ width }
        requires most { width ≤ greatest_width }
        ensures node { IfOk result (GivesWord self.new width (λ g. ones width)) }
        ensures new { IfOk result (IsNew self.old self.new) }
        ensures extends { Extends self.old self.new [] }
        ensures short { IfErr result (IsShort self.new) }
    {
        let sort = self.sort(width)?;
        self.add(Body::Ones { sort })
    }
}
