//! The lists of a file as a circuit: their variables get the numbers of a circuit.
ghost use Rattle.std.specs.Prelude.{◌≡◌, ◌+◌, ◌++◌, [], map, ◌<◌, ◌≤◌, length, nat_le, nat_eq, not, None, Some, IfOk, OnOk};
ghost use Rattle.std.specs.List.{list_all, position};
ghost use Rattle.base.specs.Literal.{variable};
ghost use Rattle.aigerlists.specs.Loose.{IsLoose, defined_variables, latch_variable};
ghost use Rattle.aigerlists.specs.Renumbering.{AnswersNumber, AnswersNumbered, IsNumberingOf, IsOrder, first_undefined};
ghost use Rattle.aigerlists.specs.Numbering.{slots_of, WaitForEarlier};

use crate::fault::LooseFault;
use crate::loose::Loose;
use crate::numbered::{Numbered, Numbering};
use crate::numbers::Numbers;
use crate::readiness::order_of_readiness;
use crate::renumbering::{gates_as_they_stand, gates_in_order, renumbered};
use aiger::Circuit;
use std::alloc::{AllocError, Global};

impl Loose {
    /// The circuit that the lists are, by the numbers of a circuit: the inputs by their lines, then
    /// the latches, then the gates, each time the first gate in the file of those whose operands
    /// all have numbers ("AIGER 1.9 and Beyond", ascii format). Of a gate's operands the greater
    /// one comes first, and variables that no line defines vanish.
    ///
    /// Errors, of which the first that applies in this order is answered: `Undefined` where a line
    /// uses a variable that is neither 0 nor defined, with the first such line; `Cycle` where a gate
    /// depends on itself through operands, with the first gate that does or that depends on one that
    /// does; `NoMemory`. The lists stay as they are.
    ///
    /// It takes a fixed number of words for each definition and each literal, and a time in
    /// proportion to n log n for n of them at most.
    pub fn number(&self, alloc: Global) -> Result<Circuit, LooseFault>
        ensures { AnswersNumber self.now result }
    {
        match self.numbered(alloc) {
            Ok(numbered) => Ok(numbered.circuit),
            Err(fault) => Err(fault),
        }
    }

    /// The same circuit with the numbers that the file's variables have there. These take no memory where each has its
    /// own.
    ///
    /// Errors: those of `number`.
    pub fn numbered(&self, alloc: Global) -> Result<Numbered, LooseFault>
        ensures { AnswersNumbered self.now result }
    {
        match self.places(alloc) {
            Ok(places) => self.number_by_places(alloc, places),
            Err(_) => self.number_without_memory(),
        }
    }

    /// What there is to say where memory is wanting: that is told only where each variable is defined.
    fn number_without_memory(&self) -> Result<Numbered, LooseFault>
        ensures { AnswersNumbered self.now result }
    {
        match self.undefined_line() {
            Some(line) => Err(LooseFault::Undefined(line)),
            None => Err(LooseFault::NoMemory),
        }
    }

    /// The circuit that the lists are, by the places of the defined variables. Gates that stand behind their operands are
    /// ready as they stand, and use no variable that is not defined.
    fn number_by_places(&self, alloc: Global, places: Numbers) -> Result<Numbered, LooseFault>
        requires { places ≡ defined_variables self.now }
        ensures { AnswersNumbered self.now result }
    {
        if places.are_in_order(self.leaf_count(), self.gates()) {
            return match self.number_in_order(alloc, &places) {
                Ok(circuit) => Ok(Numbered {
                    circuit,
                    numbering: Numbering::of(places),
                }),
                Err(fault) => Err(fault),
            };
        }
        match self.slots(alloc, places) {
            Ok(slots) => self.number_by_slots(alloc, slots),
            Err(_) => self.number_without_memory(),
        }
    }

    /// The circuit that lists whose gates stand behind their operands are.
    fn number_in_order(&self, alloc: Global, places: &Numbers) -> Result<Circuit, LooseFault>
        requires places { places.now ≡ defined_variables self.now }
        requires in_order { WaitForEarlier (defined_variables self.now)
            (length self.now.inputs + length self.now.latches) self.now.gates }
        requires valid { IsLoose self.now }
        ensures answers { AnswersNumber self.now result }
        ensures numbering { IfOk result (λ c. IsNumberingOf self.now c (Some places.now)) }
    {
        if let Some(line) = self.undefined_with(&[]) {
            return Err(LooseFault::Undefined(line));
        }
        let gates = gates_as_they_stand(alloc, places, self.gates())?;
        Ok(renumbered(alloc, self, places, gates)?)
    }

    /// The circuit that lists whose gates may stand in any order are, by what their gates wait for.
    fn number_by_slots(&self, alloc: Global, slots: Vec<u32>) -> Result<Numbered, LooseFault>
        requires { slots.items ≡ slots_of (defined_variables self.now)
            (length self.now.inputs + length self.now.latches) self.now.gates }
        ensures { AnswersNumbered self.now result }
    {
        match self.undefined_by_slots(&slots) {
            Some(line) => Err(LooseFault::Undefined(line)),
            None => self.number_by_readiness(alloc, slots),
        }
    }

    /// The first line that uses a variable that is neither 0 nor defined, by what the gates wait for: a place behind all
    /// gates is that of no variable.
    fn undefined_by_slots(&self, slots: &[u32]) -> Option<usize>
        requires { slots.now ≡ slots_of (defined_variables self.now)
            (length self.now.inputs + length self.now.latches) self.now.gates }
        ensures { result ≡ first_undefined self.now }
    {
        if are_within(slots, self.gates().len()) {
            return self.undefined_with(&[]);
        }
        self.undefined_line()
    }

    /// The circuit of lists whose gates may stand in any order, where each variable is defined.
    fn number_by_readiness(&self, alloc: Global, slots: Vec<u32>) -> Result<Numbered, LooseFault>
        requires known { first_undefined self.now ≡ None }
        requires slots { slots.items ≡ slots_of (defined_variables self.now)
            (length self.now.inputs + length self.now.latches) self.now.gates }
        ensures { AnswersNumbered self.now result }
    {
        let (order, heads) = order_of_readiness(alloc, slots, self.gates().len())?;
        match first_left(heads) {
            Some(gate) => Err(LooseFault::Cycle(gate)),
            None => self.number_by_order(alloc, &order),
        }
    }

    /// The circuit of lists whose gates are ready in this order.
    fn number_by_order(&self, alloc: Global, order: &[u32]) -> Result<Numbered, LooseFault>
        requires known { first_undefined self.now ≡ None }
        requires order { IsOrder self.now order.now }
        requires few { length order.now ≤ length self.now.gates }
        requires valid { IsLoose self.now }
        ensures { AnswersNumbered self.now result }
    {
        let mut numbers = self.room_for(alloc, self.leaf_count() + order.len())?;
        self.push_leaves(&mut numbers)?;
        let gates = gates_in_order(alloc, &mut numbers, self.gates(), order)?;
        let circuit = renumbered(alloc, self, &numbers, gates)?;
        Ok(Numbered {
            circuit,
            numbering: Numbering::of(numbers),
        })
    }

    /// How many inputs and latches there are.
    fn leaf_count(&self) -> usize
        ensures count { result ≡ length self.now.inputs + length self.now.latches }
        ensures valid { IsLoose self.now }
    {
        self.inputs().len() + self.latches().len()
    }

    /// The variables of inputs and latches in file order, behind none.
    fn push_leaves(&self, numbers: &mut Numbers) -> Result<(), AllocError>
        requires { numbers.old ≡ [] }
        ensures numbers { OnOk result (numbers.new ≡ map variable self.now.inputs
            ++ map latch_variable self.now.latches) }
        ensures valid { IsLoose self.now }
    {
        numbers.push_inputs(self.inputs())?;
        numbers.push_latches(self.latches())
    }

    /// No variables yet, and room for so many. Their numbers stand in a list where no defined variable is above four times
    /// as many, which takes no hash.
    fn room_for(&self, alloc: Global, count: usize) -> Result<Numbers, AllocError>
        requires { count ≤ 2147483648 }
        ensures { IfOk result (λ n. n ≡ []) }
    {
        let greatest = self.greatest_defined() as usize;
        let low = if greatest <= 4 * count {
            greatest
        } else {
            count
        };
        Numbers::with_room(alloc, count, low + 1)
    }

    /// The defined variables by their places: inputs, latches and gates, each in file order.
    fn places(&self, alloc: Global) -> Result<Numbers, AllocError>
        ensures numbers { IfOk result (λ n. n ≡ defined_variables self.now) }
        ensures valid { IsLoose self.now }
    {
        let count = self.leaf_count() + self.gates().len();
        let mut numbers = if self.define_in_turn() {
            Numbers::with_room(alloc, 0, 0)?
        } else {
            self.room_for(alloc, count)?
        };
        self.push_leaves(&mut numbers)?;
        numbers.push_gates(self.gates())?;
        Ok(numbers)
    }

    /// For each gate the two slots of its operands: 0 where an operand waits for no gate, or the
    /// position of the gate that it waits for and 1. The places are needed no more, and are dropped.
    fn slots(&self, alloc: Global, places: Numbers) -> Result<Vec<u32>, AllocError>
        requires { places ≡ defined_variables self.now }
        ensures slots { IfOk result (λ v. v.items
            ≡ slots_of (defined_variables self.now)
            (length self.now.inputs + length self.now.latches) self.now.gates) }
        ensures valid { IsLoose self.now }
    {
        places.gate_slots(alloc, self.leaf_count(), self.gates())
    }
}

/// Whether all slots are at most so great.
fn are_within(slots: &[u32], most: usize) -> bool
    ensures { result ≡ list_all (λ slot. nat_le slot most) slots.now }
{
    slots.iter().all(|slot| *slot as usize <= most)
}

/// The first gate that has no place in the order, if there is one.
fn first_left(heads: Vec<u32>) -> Option<usize>
    ensures { result ≡ position (λ left. not (nat_eq left 0)) heads.items }
{
    heads.iter().position(|left| *left != 0)
}
