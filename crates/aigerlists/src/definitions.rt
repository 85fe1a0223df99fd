//! The variables that the lines of a file define: a count of those in turn, and a bit for each of the others.
ghost use Rattle.std.specs.Prelude.{◌≡◌, ℕ, ◌/◌, ◌%◌, true, false, ◌&&◌, None, OnOk, OnErr, nat_eq, nat_le, cond};
ghost use Rattle.aigerlists.specs.Definitions.{is_marked};
ghost use Rattle.aiger.specs.Refusal.{RefusesBy};

use aiger::CircuitFault;
use std::alloc::{AllocError, Global};
use std::collections::HashMap;

/// A set of variables. Those from 1 on that are added in turn take no memory.
#[derive(Drop)]
pub struct Definitions {
    // the variables from 1 to this one are defined
    in_turn: u32,
    // a bit for each variable that was defined out of turn, those of 64 neighbours in one word: the word that was written
    // last, with its place, and those of the other places
    place: u32,
    word: u64,
    others: HashMap<u32, u64>,
    // the greatest that was defined out of turn
    greatest: u32,
}

impl Definitions {
    ghost use Rattle.aigerlists.specs.Definitions.{word_of, has_variable};

    /// No variables. It takes no memory.
    #[tactic(auto, unfolding(crate::specs::Definitions::is_marked))]
    pub fn new(alloc: Global) -> Definitions
        ensures { (v : ℕ) → has_variable result v ≡ false }
    {
        Definitions {
            in_turn: 0,
            place: 0,
            word: 0,
            others: HashMap::new(alloc),
            greatest: 0,
        }
    }

    /// Whether a variable is among them. It takes no memory.
    #[inline(always)]
    pub fn has(&self, variable: u32) -> bool
        ensures { result ≡ has_variable self.now variable }
    {
        (variable >= 1 && variable <= self.in_turn) || self.has_other(variable)
    }

    /// Whether all of them were added in turn, and so are those from 1 to a greatest one.
    #[tactic(auto, unfolding(crate::specs::Definitions::is_marked))]
    pub fn are_in_turn(&self) -> bool
        ensures { result ≡ true → (v : ℕ) → has_variable self.now v
            ≡ (nat_le 1 v && nat_le v self.now.in_turn) }
    {
        self.word == 0 && self.others.is_empty()
    }

    /// The greatest of them, or 0.
    pub fn greatest(&self) -> u32 {
        self.greatest.max(self.in_turn)
    }

    /// Adds a variable. The error is want of memory, and nothing has changed then.
    #[inline(always)]
    pub fn add(&mut self, variable: u32) -> Result<(), CircuitFault>
        ensures added { OnOk result ((v : ℕ) → has_variable self.new v
            ≡ cond (nat_eq variable v) true (has_variable self.old v)) }
        ensures refused { RefusesBy result None }
        ensures kept { OnErr result ((v : ℕ) → has_variable self.new v ≡ has_variable self.old v) }
    {
        if variable >= 1 && variable - 1 == self.in_turn {
            self.in_turn = variable;
            return Ok(());
        }
        Ok(self.add_other(variable)?)
    }

    /// Whether a variable was added out of turn.
    #[inline(always)]
    fn has_other(&self, variable: u32) -> bool
        ensures { result ≡ is_marked (word_of self.now (variable / 64)) (variable % 64) }
    {
        match self.word(variable / 64) {
            Some(word) => (word >> (variable % 64)) % 2 == 1,
            None => false,
        }
    }

    /// The word at a place.
    #[inline(always)]
    fn word(&self, place: u32) -> Option<u64>
        ensures { result ≡ word_of self.now place }
    {
        if place == self.place {
            return Some(self.word);
        }
        self.others.get(&place).copied()
    }

    /// Adds a variable out of turn. The error is want of memory, and nothing has changed then.
    #[inline(always)]
    fn add_other(&mut self, variable: u32) -> Result<(), AllocError>
        ensures in_turn { self.new.in_turn ≡ self.old.in_turn }
        ensures added { OnOk result ((v : ℕ) → is_marked (word_of self.new (v / 64)) (v % 64)
            ≡ cond (nat_eq variable v) true (is_marked (word_of self.old (v / 64)) (v % 64))) }
        ensures kept { OnErr result ((v : ℕ) → is_marked (word_of self.new (v / 64)) (v % 64)
            ≡ is_marked (word_of self.old (v / 64)) (v % 64)) }
    {
        self.turn_to(variable / 64)?;
        self.word |= 1u64 << (variable % 64);
        self.greatest = self.greatest.max(variable);
        Ok(())
    }

    /// Takes the word at a place out of the map. The error is want of memory, and nothing has changed then.
    fn turn_to(&mut self, place: u32) -> Result<(), AllocError>
        ensures in_turn { self.new.in_turn ≡ self.old.in_turn }
        ensures place { OnOk result (self.new.place ≡ place) }
        ensures same { (w i : ℕ) → is_marked (word_of self.new w) i
            ≡ is_marked (word_of self.old w) i }
    {
        if place == self.place {
            return Ok(());
        }
        let word = self.word(place).unwrap_or(0);
        match self.others.insert(self.place, self.word) {
            Ok(_) => {
                self.place = place;
                self.word = word;
                Ok(())
            }
            Err(_) => Err(AllocError),
        }
    }
}
