//! The bits of an index, and halves of arrays.
ghost use Rattle.std.specs.Prelude.{◌≡◌, ◌+◌, ◌-◌, ◌*◌, ◌^◌, ◌<◌, ◌≤◌, [], ◌∷◌, ◌++◌, length, Some, IfOk, IfErr, OnOk};
ghost use Rattle.base.specs.Operator.{ite_value, slice_value};
ghost use Rattle.btor2.specs.Items.{node_width};
ghost use Rattle.wide.specs.WideModels.{greatest_width};
ghost use Rattle.full.specs.Gives.{GivesWord};
ghost use Rattle.cells.specs.declared.shortage.Shortage.TheVariants as shortage;
ghost use Rattle.cells.specs.Kept.{IsShort};
ghost use Rattle.cells.specs.Lines.{Extends, IsNew, MayNameAll};
ghost use Rattle.cells.specs.Bits.{GivesBit, GiveBits, ids_of_bits};

use crate::maker::ListMaker;
use crate::shortage::Shortage;

/// A bit of an index: the node of it, and that of its negation.
#[derive(Clone, Copy)]
pub(crate) struct Bit {
    /// The node that is 1 where the bit is 1.
    pub one: u32,
    /// The node that is 1 where the bit is 0.
    pub zero: u32,
}

/// How many bits 2 ^ `bits` cells have, of `element` bits each.
pub(crate) fn array_width(bits: u64, element: u64) -> u64
    requires least { 1 ≤ element }
    requires most { 2 ^ bits * element ≤ greatest_width }
    ensures { result ≡ 2 ^ bits * element }
{
    element << bits
}

/// Adds a bit to a list.
fn keep(list: &mut Vec<Bit>, bit: Bit) -> Result<(), Shortage>
    ensures ok { OnOk result (list.new.items ≡ list.old.items ++ bit ∷ []) }
    ensures short { IfErr result (λ e. e ≡ shortage.NoMemory) }
{
    match list.push(bit) {
        Ok(()) => Ok(()),
        Err(_) => Err(Shortage::NoMemory),
    }
}

impl ListMaker {
    /// What the list keeps is known of an array: its cells have bits, at most 1,048,576 together.
    pub(crate) fn know_array(&self, array: u32, bits: u64, element: u64)
        requires { node_width self.now array ≡ Some (2 ^ bits * element) }
        ensures some { 1 ≤ element }
        ensures most { 2 ^ bits * element ≤ greatest_width }
    {
        let _lines = self.model().lines();
    }

    /// The nodes of a bit of an index.
    fn bit(&mut self, index: u32, width: u64, place: u64) -> Result<Bit, Shortage>
        requires index { node_width self.old index ≡ Some width }
        requires within { place < width }
        ensures bit { IfOk result (GivesBit self.new index place) }
        ensures new { IfOk result (λ b. MayNameAll (length self.old) [] (b.one ∷ b.zero ∷ [])) }
        ensures extends { Extends self.old self.new (index ∷ []) }
        ensures short { IfErr result (IsShort self.new) }
    {
        let one = self.slice(index, place, place)?;
        let zero = self.not(one, 1)?;
        Ok(Bit { one, zero })
    }

    /// The nodes of the bits of an index, the lowest first.
    pub(crate) fn bits(&mut self, index: u32, width: u64) -> Result<Vec<Bit>, Shortage>
        requires { node_width self.old index ≡ Some width }
        ensures bits { IfOk result (λ bits. GiveBits self.new index bits.items) }
        ensures many { IfOk result (λ bits. length bits.items ≡ width) }
        ensures new { IfOk result (λ bits. MayNameAll (length self.old) [] (ids_of_bits bits.items)) }
        ensures extends { Extends self.old self.new (index ∷ []) }
        ensures short { IfErr result (IsShort self.new) }
    {
        let mut bits = Vec::new(self.alloc);
        for place in 0..width {
            let bit = self.bit(index, width, place)?;
            keep(&mut bits, bit)?;
        }
        Ok(bits)
    }

    /// The high and the low half of an array.
    pub(crate) fn halves(&mut self, array: u32, half: u64) -> Result<(u32, u32), Shortage>
        requires some { 1 ≤ half }
        requires array { node_width self.old array ≡ Some (half + half) }
        ensures high { IfOk result (λ r. GivesWord self.new half
            (λ g. slice_value (g array) (half + half - 1) half) r.0) }
        ensures low { IfOk result (λ r. GivesWord self.new half
            (λ g. slice_value (g array) (half - 1) 0) r.1) }
        ensures new { IfOk result (λ r. MayNameAll (length self.old) [] (r.0 ∷ r.1 ∷ [])) }
        ensures extends { Extends self.old self.new (array ∷ []) }
        ensures short { IfErr result (IsShort self.new) }
    {
        self.know(array);
        let high = self.slice(array, half + half - 1, half)?;
        let low = self.slice(array, half - 1, 0)?;
        Ok((high, low))
    }

    /// The half of an array that a bit chooses, the high one where it is 1.
    pub(crate) fn chosen(&mut self, array: u32, half: u64, bit: u32) -> Result<u32, Shortage>
        requires some { 1 ≤ half }
        requires array { node_width self.old array ≡ Some (half + half) }
        requires bit { node_width self.old bit ≡ Some 1 }
        ensures node { IfOk result (GivesWord self.new half (λ g. ite_value (g bit)
            (slice_value (g array) (half + half - 1) half) (slice_value (g array) (half - 1) 0))) }
        ensures new { IfOk result (IsNew self.old self.new) }
        ensures extends { Extends self.old self.new (array ∷ bit ∷ []) }
        ensures short { IfErr result (IsShort self.new) }
    {
        let (high, low) = self.halves(array, half)?;
        self.ite(bit, high, low, half)
    }
}
