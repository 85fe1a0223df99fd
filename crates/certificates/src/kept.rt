//! Invariants that are kept.
ghost use Rattle.std.specs.Prelude.{◌≡◌, ◌<◌, ◌++◌, ◌∷◌, [], true, length, slice_index_or, All, OnOk, OnErr};
ghost use Rattle.std.specs.List.{list_all};
ghost use Rattle.drup.specs.Formula.{IsLiteral};
ghost use Rattle.certificates.specs.Invariants.{asks_one, AreOver};

use crate::why::InvariantWhy;
use drup::{Formula, FormulaFault};
use std::alloc::Global;
use std::marker::Model;

/// Whether a cube asks that some latch be 1.
fn asks_one(cube: &[u32]) -> bool
    ensures { result ≡ asks_one cube.now }
{
    cube.iter().any(|literal| *literal % 2 == 0)
}

/// An invariant: a count of latches, and cubes of literals over them, which say which states are not reached. Literal 2v
/// says that latch v, counted from 1, is 1, and 2v + 1 that it is 0. Each cube asks that some latch be 1, so that the
/// state in which all are 0 is in none.
#[derive(Drop)]
pub struct Invariant {
    // the cubes, as clauses over the latches
    cubes: Formula,
}

impl Model for Invariant {
    ghost use Rattle.std.specs.Prelude.{◌≡◌, true};
    ghost use Rattle.std.specs.List.{list_all};
    ghost use Rattle.certificates.specs.Invariants.{Invariant as InvariantValue, asks_one};

    ghost Value = { InvariantValue };

    ghost view = { λ i. record { latches = i.cubes.variables; cubes = i.cubes.clauses } };

    ghost invariant = { λ i. list_all asks_one i.cubes.clauses ≡ true };
}

impl Invariant {
    ghost use Rattle.certificates.specs.Refusal.{RefusesCube};

    /// An invariant over so many latches, below 2^31 - 1, without cubes. It takes no memory.
    pub fn new(alloc: Global, latches: u32) -> Invariant
        requires { latches < 2147483647 }
        ensures { result ≡ record { latches = latches; cubes = [] } }
    {
        Invariant {
            cubes: Formula::new(alloc, latches),
        }
    }

    /// Adds a cube behind those before.
    ///
    /// Errors, of which the first that applies in this order is answered: `HoldsAtStart` where it does not ask that a
    /// latch be 1, `NoSuchLatch` where a literal is of no latch, `NoMemory`. Nothing is changed then.
    pub fn push(&mut self, cube: &[u32]) -> Result<(), InvariantWhy>
        ensures ok { OnOk result (self.new
            ≡ record self.old { cubes = self.old.cubes ++ cube.now ∷ [] }) }
        ensures err { OnErr result (self.new ≡ self.old) }
        ensures refused { RefusesCube result self.old cube.now }
    {
        if !asks_one(cube) {
            return Err(InvariantWhy::HoldsAtStart);
        }
        match self.cubes.push(cube) {
            Ok(()) => Ok(()),
            Err(FormulaFault::BadLiteral) => Err(InvariantWhy::NoSuchLatch),
            Err(FormulaFault::NoMemory) => Err(InvariantWhy::NoMemory),
        }
    }

    /// How many latches there are.
    pub fn latches(&self) -> u32
        ensures value { result ≡ self.now.latches }
        ensures few { result < 2147483647 }
        ensures over { AreOver self.now.latches self.now.cubes }
        ensures ask { list_all asks_one self.now.cubes ≡ true }
    {
        self.cubes.variables()
    }

    /// How many cubes there are.
    pub fn cube_count(&self) -> usize
        ensures count { result ≡ length self.now.cubes }
        ensures over { AreOver self.now.latches self.now.cubes }
        ensures ask { list_all asks_one self.now.cubes ≡ true }
    {
        let _ = self.latches();
        self.cubes.clause_count()
    }

    /// The literals of the cube at a place, from 0.
    pub fn cube(&self, k: usize) -> &[u32]
        requires { k < length self.now.cubes }
        ensures cube { result.now ≡ slice_index_or self.now.cubes k [] }
        ensures literals { All (IsLiteral self.now.latches) result.now }
    {
        self.cubes.clause(k)
    }
}
