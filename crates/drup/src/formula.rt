//! Formulas that are kept.
ghost use Rattle.std.specs.Prelude.{◌≡◌, ℕ, ◌+◌, ◌*◌, ◌<◌, ◌≤◌, ◌++◌, ◌∷◌, [], All, MatchBool, OnOk, OnErr, length, slice_index_or};
ghost use Rattle.drup.specs.Formula.{IsLiteral, IsFormula};
ghost use Rattle.drup.specs.FormulaKept.{RefusesClause};

use crate::clause_blocks::ClauseBlocks;
use crate::fault::FormulaFault;
use std::alloc::Global;
use std::marker::Model;

/// Whether a literal is one of so many variables: 2v is variable v, from 1 on, and 2v + 1 its negation.
fn is_literal(variables: u32, literal: u32) -> bool
    requires { variables < 2147483647 }
    ensures { MatchBool result (IsLiteral variables literal) (¬ IsLiteral variables literal) }
{
    literal >= 2 && literal < 2 * variables + 2
}

/// Whether all literals of a clause are of so many variables.
fn are_literals(variables: u32, clause: &[u32]) -> bool
    requires { variables < 2147483647 }
    ensures { MatchBool result (All (IsLiteral variables) clause.now)
        (¬ All (IsLiteral variables) clause.now) }
{
    for literal in clause {
        if !is_literal(variables, *literal) {
            return false;
        }
    }
    true
}

/// A formula in conjunctive normal form: a count of variables, and clauses of their literals, in the order in which they
/// came. Literal 2v is variable v, from 1 on, and 2v + 1 its negation, as in AIGER.
///
/// Clauses see it as the formula.
#[derive(Drop)]
pub struct Formula {
    variables: u32,
    clauses: ClauseBlocks,
}

impl Model for Formula {
    ghost use Rattle.drup.specs.Formula.{Formula as FormulaValue};
    ghost use Rattle.drup.specs.FormulaKept.{formula_of, IsKeptFormula};

    ghost Value = { FormulaValue };

    ghost view = { formula_of };

    ghost invariant = { IsKeptFormula };
}

impl Formula {
    /// A formula of so many variables, below 2^31 - 1, without clauses. It takes no memory.
    pub fn new(alloc: Global, variables: u32) -> Formula
        requires { variables < 2147483647 }
        ensures { result ≡ record { variables = variables; clauses = [] } }
    {
        Formula {
            variables,
            clauses: ClauseBlocks::new(alloc),
        }
    }

    /// Adds a clause behind those before; it may have no literals.
    ///
    /// Errors: `BadLiteral` where a literal is none of the formula's variables, and `NoMemory` where there is none and a
    /// growth was refused. Nothing is changed then.
    pub fn push(&mut self, clause: &[u32]) -> Result<(), FormulaFault>
        ensures ok { OnOk result (self.new
            ≡ record self.old { clauses = self.old.clauses ++ clause.now ∷ [] }) }
        ensures err { OnErr result (self.new ≡ self.old) }
        ensures refused { RefusesClause result self.old clause.now }
    {
        if !are_literals(self.variables, clause) {
            return Err(FormulaFault::BadLiteral);
        }
        match self.clauses.push(clause) {
            Ok(()) => Ok(()),
            Err(_) => Err(FormulaFault::NoMemory),
        }
    }

    /// The count of variables.
    pub fn variables(&self) -> u32
        ensures value { result ≡ self.now.variables }
        ensures few { result < 2147483647 }
        ensures formula { IsFormula self.now }
    {
        self.variables
    }

    /// How many clauses there are.
    pub fn clause_count(&self) -> usize
        ensures { result ≡ length self.now.clauses }
    {
        self.clauses.len()
    }

    /// The literals of the clause at a place, from 0.
    pub fn clause(&self, k: usize) -> &[u32]
        requires { k < length self.now.clauses }
        ensures clause { result.now ≡ slice_index_or self.now.clauses k [] }
        ensures literals { All (IsLiteral self.now.variables) result.now }
    {
        self.clauses.clause(k)
    }

    /// Takes clauses away that come first, some where there is one, and answers the formula that they are. Their memory is
    /// held by that alone.
    pub fn take_front(&mut self) -> Formula
        ensures clauses { result.clauses ++ self.new.clauses ≡ self.old.clauses }
        ensures variables { (result.variables ≡ self.old.variables)
            × (self.new.variables ≡ self.old.variables) }
        ensures some { 0 < length self.old.clauses → 0 < length result.clauses }
    {
        Formula {
            variables: self.variables,
            clauses: self.clauses.take_front(),
        }
    }
}
