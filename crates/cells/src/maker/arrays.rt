//! Operators of arrays: an array is one word, its cell 0 lowest.
ghost use Rattle.std.specs.Prelude.{◌≡◌, ◌+◌, ◌-◌, ◌*◌, ◌%◌, ◌^◌, ◌<◌, ◌≤◌, [], ◌∷◌, ◌++◌, length, Some, IfOk, IfErr};
ghost use Rattle.base.specs.Operator.{ite_value};
ghost use Rattle.btor2.specs.Items.{node_width};
ghost use Rattle.wide.specs.WideModels.{greatest_width};
ghost use Rattle.full.specs.Cells.{read_value, write_value, repeat_value};
ghost use Rattle.full.specs.Gives.{InAllFrames, GivesWord};
ghost use Rattle.cells.specs.Kept.{IsShort};
ghost use Rattle.cells.specs.Lines.{Extends, IsNew, MayName};
ghost use Rattle.cells.specs.Bits.{GiveBits, ids_of_bits};

use crate::maker::ListMaker;
use crate::maker::bits::{Bit, array_width};
use crate::shortage::Shortage;

impl ListMaker {
    /// The half of an array that the top bit of the low bits of an index, of which the half has so many, chooses.
    fn chosen_half(
        &mut self,
        array: u32,
        bits: u64,
        element: u64,
        index: u32,
        width: u64,
    ) -> Result<u32, Shortage>
        requires array { node_width self.old array ≡ Some (2 ^ (bits + 1) * element) }
        requires index { node_width self.old index ≡ Some width }
        requires within { bits < width }
        ensures wide { IfOk result (λ r. node_width self.new r ≡ Some (2 ^ bits * element)) }
        ensures reads { IfOk result (λ r. InAllFrames self.new (λ g.
            read_value element (g array) (g index % 2 ^ (bits + 1))
            ≡ read_value element (g r) (g index % 2 ^ bits))) }
        ensures new { IfOk result (IsNew self.old self.new) }
        ensures extends { Extends self.old self.new (array ∷ index ∷ []) }
        ensures short { IfErr result (IsShort self.new) }
    {
        self.know_array(array, bits + 1, element);
        let half = array_width(bits, element);
        let bit = self.slice(index, bits, bits)?;
        self.chosen(array, half, bit)
    }

    /// What is read of an array by so many low bits of an index.
    fn read_low(
        &mut self,
        array: u32,
        bits: u64,
        element: u64,
        index: u32,
        width: u64,
    ) -> Result<u32, Shortage>
        requires array { node_width self.old array ≡ Some (2 ^ bits * element) }
        requires index { node_width self.old index ≡ Some width }
        requires within { bits ≤ width }
        requires there { array ≤ length self.old }
        ensures node { IfOk result (GivesWord self.new element
            (λ g. read_value element (g array) (g index % 2 ^ bits))) }
        ensures named { IfOk result (MayName (length self.old) (array ∷ [])) }
        ensures there { IfOk result (λ r. r ≤ length self.new) }
        ensures extends { Extends self.old self.new (array ∷ index ∷ []) }
        ensures short { IfErr result (IsShort self.new) }
    {
        if bits == 0 {
            return Ok(array);
        }
        let half = self.chosen_half(array, bits - 1, element, index, width)?;
        self.read_low(half, bits - 1, element, index, width)
    }

    /// The cell of an array that an index says.
    ///
    /// Condition: the array has 2^`index_width` cells of `element_width` bits.
    pub fn read(
        &mut self,
        array: u32,
        index_width: u64,
        element_width: u64,
        index: u32,
    ) -> Result<u32, Shortage>
        requires some { 1 ≤ index_width }
        requires array { node_width self.old array ≡ Some (2 ^ index_width * element_width) }
        requires index { node_width self.old index ≡ Some index_width }
        ensures node { IfOk result (GivesWord self.new element_width
            (λ g. read_value element_width (g array) (g index))) }
        ensures new { IfOk result (IsNew self.old self.new) }
        ensures extends { Extends self.old self.new (array ∷ index ∷ []) }
        ensures short { IfErr result (IsShort self.new) }
    {
        let low = index_width - 1;
        let half = self.chosen_half(array, low, element_width, index, index_width)?;
        self.read_low(half, low, element_width, index, index_width)
    }

    /// An array with a word in the cell that the low bits of an index say, where a condition is 1, else the array.
    fn write_where(
        &mut self,
        array: u32,
        element: u64,
        condition: u32,
        index: u32,
        bits: &[Bit],
        word: u32,
    ) -> Result<u32, Shortage>
        requires array { node_width self.old array ≡ Some (2 ^ length bits.now * element) }
        requires condition { node_width self.old condition ≡ Some 1 }
        requires bits { GiveBits self.old index bits.now }
        requires word { node_width self.old word ≡ Some element }
        ensures node { IfOk result (GivesWord self.new (2 ^ length bits.now * element)
            (λ g. ite_value (g condition)
            (write_value element (g array) (g index % 2 ^ length bits.now) (g word)) (g array))) }
        ensures new { IfOk result (IsNew self.old self.new) }
        ensures extends { Extends self.old self.new (array ∷ condition ∷ word ∷ ids_of_bits bits.now) }
        ensures short { IfErr result (IsShort self.new) }
    {
        let Some((bit, lower)) = bits.split_last() else {
            return self.ite(condition, word, array, element);
        };
        let count = lower.len() as u64;
        self.know_array(array, count + 1, element);
        let half = array_width(count, element);
        let (high, low) = self.halves(array, half)?;
        let one = self.and(condition, bit.one, 1)?;
        let zero = self.and(condition, bit.zero, 1)?;
        let above = self.write_where(high, element, one, index, lower, word)?;
        let below = self.write_where(low, element, zero, index, lower, word)?;
        self.concat(above, half, below, half)
    }

    /// An array with another word in the cell that an index says.
    ///
    /// Condition: the array has 2^`index_width` cells of `element_width` bits.
    pub fn write(
        &mut self,
        array: u32,
        index_width: u64,
        element_width: u64,
        index: u32,
        word: u32,
    ) -> Result<u32, Shortage>
        requires some { 1 ≤ index_width }
        requires array { node_width self.old array ≡ Some (2 ^ index_width * element_width) }
        requires index { node_width self.old index ≡ Some index_width }
        requires word { node_width self.old word ≡ Some element_width }
        ensures node { IfOk result (GivesWord self.new (2 ^ index_width * element_width)
            (λ g. write_value element_width (g array) (g index) (g word))) }
        ensures new { IfOk result (IsNew self.old self.new) }
        ensures extends { Extends self.old self.new (array ∷ index ∷ word ∷ []) }
        ensures short { IfErr result (IsShort self.new) }
    {
        self.know_array(array, index_width, element_width);
        let bits = self.bits(index, index_width)?;
        let Some((bit, lower)) = bits.split_last() else {
            unreachable!();
        };
        let half = array_width(index_width - 1, element_width);
        let (high, low) = self.halves(array, half)?;
        let above = self.write_where(high, element_width, bit.one, index, lower, word)?;
        let below = self.write_where(low, element_width, bit.zero, index, lower, word)?;
        self.concat(above, half, below, half)
    }

    /// An array of 2^`bits` cells that all have one word.
    fn doubled(&mut self, word: u32, bits: u64, element: u64) -> Result<u32, Shortage>
        requires word { node_width self.old word ≡ Some element }
        requires most { 2 ^ bits * element ≤ greatest_width }
        ensures node { IfOk result (GivesWord self.new (2 ^ bits * element)
            (λ g. repeat_value element (2 ^ bits) (g word))) }
        ensures named { IfOk result (MayName (length self.old) (word ∷ [])) }
        ensures extends { Extends self.old self.new (word ∷ []) }
        ensures short { IfErr result (IsShort self.new) }
    {
        if bits == 0 {
            return Ok(word);
        }
        self.know_width(word, element);
        let width = array_width(bits - 1, element);
        let half = self.doubled(word, bits - 1, element)?;
        self.concat(half, width, half, width)
    }

    /// An array whose cells all have one word.
    ///
    /// Condition: its 2^`index_width` cells of `element_width` bits have at most 1,048,576 bits together.
    pub fn repeat(
        &mut self,
        word: u32,
        index_width: u64,
        element_width: u64,
    ) -> Result<u32, Shortage>
        requires some { 1 ≤ index_width }
        requires word { node_width self.old word ≡ Some element_width }
        requires most { 2 ^ index_width * element_width ≤ greatest_width }
        ensures node { IfOk result (GivesWord self.new (2 ^ index_width * element_width)
            (λ g. repeat_value element_width (2 ^ index_width) (g word))) }
        ensures new { IfOk result (IsNew self.old self.new) }
        ensures extends { Extends self.old self.new (word ∷ []) }
        ensures short { IfErr result (IsShort self.new) }
    {
        self.know_width(word, element_width);
        let width = array_width(index_width - 1, element_width);
        let half = self.doubled(word, index_width - 1, element_width)?;
        self.concat(half, width, half, width)
    }
}
