//! Variables in the order of their numbers, and the literals that have these numbers.
ghost use Rattle.std.specs.Prelude.{◌≡◌, ℕ, ◌<◌, ◌≤◌, ◌+◌, true, false, Some, [], ◌∷◌, ◌++◌, map, length, nat_eq, IfOk, OnOk, IfSome};
ghost use Rattle.std.specs.List.{list_any, position, position_or_len, range_with_len};
ghost use Rattle.aiger.specs.Limits.{greatest_count};
ghost use Rattle.base.specs.Literal.{variable};
ghost use Rattle.aigerlists.specs.Loose.{latch_variable, gate_variable};
ghost use Rattle.aigerlists.specs.Renumbering.{new_literal, numbered_literal};
ghost use Rattle.aigerlists.specs.Numbering.{IsOnce, WaitForEarlier, number_among, slot_of, slots_of};
ghost use Rattle.aigerlists.specs.VariableNumbers.{number_kept};

use crate::loose::{GateLine, LatchLine};
use crate::variable_numbers::VariableNumbers;
use aiger::Lit;
use std::alloc::{AllocError, Global};
use std::marker::Model;

/// Variables in the order of their numbers, which begin with 1; a variable's place is found by one look-up. Those that
/// have their own numbers take no memory.
#[derive(Drop)]
pub struct Numbers {
    // the variables from 1 to this one come first
    in_turn: u32,
    // those behind them
    variables: Vec<u32>,
    // how many of these stand up to each of them
    numbers: VariableNumbers,
}

impl Model for Numbers {
    ghost use Rattle.std.specs.Prelude.{◌≡◌, ◌<◌, ◌++◌, ℕ, List, All};
    ghost use Rattle.std.specs.List.{range_with_len};
    ghost use Rattle.aigerlists.specs.Numbering.{number_among};
    ghost use Rattle.aigerlists.specs.VariableNumbers.{number_kept};

    ghost Value = { List ℕ };

    ghost view = { λ n. range_with_len 1 n.in_turn ++ n.variables.items };

    ghost invariant = { λ n. ((v : ℕ) → number_kept n.numbers v ≡ number_among n.variables.items v) × All (λ v. v < 4294967296) n.variables.items };
}

impl Numbers {
    /// No variables yet, and room for so many that have other numbers than their own. Those of the variables below `low`
    /// will be found without a hash.
    pub fn with_room(alloc: Global, count: usize, low: usize) -> Result<Numbers, AllocError>
        ensures { IfOk result (λ n. n ≡ []) }
    {
        let variables = Vec::with_capacity(alloc, count)?;
        let numbers = VariableNumbers::new(alloc, low)?;
        Ok(Numbers {
            in_turn: 0,
            variables,
            numbers,
        })
    }

    /// Gives a variable the next number.
    #[inline(always)]
    pub fn push(&mut self, variable: u32) -> Result<(), AllocError>
        requires new { list_any (nat_eq variable) self.old ≡ false }
        requires few { length self.old < greatest_count }
        ensures { OnOk result (self.new ≡ self.old ++ variable ∷ []) }
    {
        if self.variables.is_empty() && variable == self.in_turn + 1 {
            self.in_turn = variable;
            return Ok(());
        }
        self.push_other(variable)
    }

    /// Gives a variable the next number, whatever that is.
    #[inline(always)]
    fn push_other(&mut self, variable: u32) -> Result<(), AllocError>
        requires new { list_any (nat_eq variable) self.old ≡ false }
        requires few { length self.old < greatest_count }
        ensures { OnOk result (self.new ≡ self.old ++ variable ∷ []) }
    {
        self.variables.reserve(1)?;
        let number = self.variables.len() as u32 + 1;
        self.numbers.set(variable, number)?;
        match self.variables.push(variable) {
            Ok(()) => Ok(()),
            Err(_) => unreachable!(),
        }
    }

    /// Gives the variables of input lines the next numbers.
    pub fn push_inputs(&mut self, inputs: &[Lit]) -> Result<(), AllocError>
        requires once { IsOnce (self.old ++ map variable inputs.now) }
        requires few { length self.old + length inputs.now ≤ greatest_count }
        ensures { OnOk result (self.new ≡ self.old ++ map variable inputs.now) }
    {
        for lit in inputs {
            self.push(lit.var())?;
        }
        Ok(())
    }

    /// Gives the variables of latch lines the next numbers.
    pub fn push_latches(&mut self, lines: &[LatchLine]) -> Result<(), AllocError>
        requires once { IsOnce (self.old ++ map latch_variable lines.now) }
        requires few { length self.old + length lines.now ≤ greatest_count }
        ensures { OnOk result (self.new ≡ self.old ++ map latch_variable lines.now) }
    {
        for line in lines {
            self.push(line.current.var())?;
        }
        Ok(())
    }

    /// Gives the variables of gate lines the next numbers.
    pub fn push_gates(&mut self, lines: &[GateLine]) -> Result<(), AllocError>
        requires once { IsOnce (self.old ++ map gate_variable lines.now) }
        requires few { length self.old + length lines.now ≤ greatest_count }
        ensures { OnOk result (self.new ≡ self.old ++ map gate_variable lines.now) }
    {
        for line in lines {
            self.push(line.lhs.var())?;
        }
        Ok(())
    }

    /// The place of a variable, from 0, or how many there are where it is not among them.
    pub fn place(&self, variable: u32) -> usize
        ensures place { result ≡ position_or_len (nat_eq variable) self.now }
        ensures within { result ≤ length self.now }
    {
        if variable >= 1 && variable <= self.in_turn {
            return variable as usize - 1;
        }
        self.in_turn as usize + place_in(&self.variables, &self.numbers, variable)
    }

    /// Whether the operands of each of these gates, whose variables stand behind so many others, wait for no gate but
    /// those before it. Of an answer of no, no more is said.
    pub fn are_in_order(&self, leaves: usize, lines: &[GateLine]) -> bool
        requires few { length self.now ≤ greatest_count }
        ensures { result ≡ true → WaitForEarlier self.now leaves lines.now }
    {
        for at in 0..lines.len() {
            let (first, second) = self.operand_slots(leaves, lines[at]);
            if first as usize > at || second as usize > at {
                return false;
            }
        }
        true
    }

    /// For each of these gates the two slots of its operands, where so many first variables are no gates'. The error is
    /// want of memory.
    pub fn gate_slots(
        &self,
        alloc: Global,
        leaves: usize,
        lines: &[GateLine],
    ) -> Result<Vec<u32>, AllocError>
        requires few { length self.now ≤ greatest_count }
        requires lines { length lines.now ≤ greatest_count }
        ensures { IfOk result (λ v. v.items ≡ slots_of self.now leaves lines.now) }
    {
        let mut slots = Vec::with_capacity(alloc, 2 * lines.len())?;
        for line in lines {
            let (first, second) = self.operand_slots(leaves, *line);
            slots.push(first)?;
            slots.push(second)?;
        }
        Ok(slots)
    }

    /// What the operands of a gate wait for.
    fn operand_slots(&self, leaves: usize, line: GateLine) -> (u32, u32)
        requires { length self.now ≤ greatest_count }
        ensures { result ≡ (slot_of self.now leaves line.rhs0, slot_of self.now leaves line.rhs1) }
    {
        (self.slot(leaves, line.rhs0), self.slot(leaves, line.rhs1))
    }

    /// What a literal waits for, where so many first variables are no gates': 0 for nothing, or the
    /// gate's position and 1.
    fn slot(&self, leaves: usize, lit: Lit) -> u32
        requires { length self.now ≤ greatest_count }
        ensures { result ≡ slot_of self.now leaves lit }
    {
        if lit.var() == 0 {
            return 0;
        }
        (self.place(lit.var()) + 1).saturating_sub(leaves) as u32
    }

    /// A literal by its variable's number.
    pub fn literal(&self, lit: Lit) -> Lit
        requires { length self.now ≤ greatest_count }
        ensures { result ≡ new_literal self.now lit }
    {
        if lit.var() == 0 {
            return lit;
        }
        let number = self.place(lit.var()) as u32 + 1;
        Lit::new(2 * number + lit.number() % 2)
    }

    /// A literal of any width by its variable's number, where that is 0 or has one.
    pub fn known_literal(&self, number: u64) -> Option<u64>
        requires { length self.now ≤ greatest_count }
        ensures { result ≡ numbered_literal (Some self.now) number }
    {
        if number < 2 {
            return Some(number);
        }
        match self.known_place(number / 2) {
            Some(place) => Some(2 * (place as u64 + 1) + number % 2),
            None => None,
        }
    }

    /// The place of a variable of any width, from 0, where it is among them.
    fn known_place(&self, variable: u64) -> Option<usize>
        requires { length self.now ≤ greatest_count }
        ensures place { result ≡ position (nat_eq variable) self.now }
        ensures within { IfSome result (λ place. place < greatest_count) }
    {
        let count = self.in_turn as usize + self.variables.len();
        let Ok(variable) = u32::try_from(variable) else {
            return None;
        };
        let place = self.place(variable);
        if place == count {
            return None;
        }
        Some(place)
    }

    /// Whether all of them have their own numbers. Of an answer of no, no more is said.
    pub fn are_own(&self) -> bool
        ensures { result ≡ true → self.now ≡ range_with_len 1 (length self.now) }
    {
        self.variables.is_empty()
    }

    /// Literals by their variables' numbers.
    pub fn literals(&self, alloc: Global, lits: &[Lit]) -> Result<Vec<Lit>, AllocError>
        requires { length self.now ≤ greatest_count }
        ensures { IfOk result (λ v. v.items ≡ map (new_literal self.now) lits.now) }
    {
        let mut renumbered = Vec::with_capacity(alloc, lits.len())?;
        for lit in lits {
            renumbered.push(self.literal(*lit))?;
        }
        Ok(renumbered)
    }
}

/// The place of a variable in a list, from 0, by the numbers that the variables have there, or how many there are where
/// it is not among them.
fn place_in(variables: &[u32], numbers: &VariableNumbers, variable: u32) -> usize
    requires { (v : ℕ) → number_kept numbers.now v ≡ number_among variables.now v }
    ensures place { result ≡ position_or_len (nat_eq variable) variables.now }
    ensures within { result ≤ length variables.now }
{
    let number = numbers.get(variable) as usize;
    if number == 0 {
        return variables.len();
    }
    number - 1
}
