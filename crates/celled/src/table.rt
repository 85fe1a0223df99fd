//! Where the lines of a list stand in the one with cells.
ghost use Rattle.std.specs.Prelude.{◌≡◌, ℕ, ◌==◌, if◌then◌else◌, map, OnOk, IfOk};
ghost use Rattle.cells.specs.declared.shortage.Shortage.TheVariants as shortage;
ghost use Rattle.celled.specs.Spots.{spots_of};

use cells::Shortage;
use indexmap::IndexMap;
use std::alloc::{AllocError, Global};

/// Where a line stands.
#[derive(Clone, Copy)]
pub(crate) struct Spot {
    /// The sort that it is, or the node that has its whole word.
    pub(crate) node: u32,
    /// The first of its cells.
    pub(crate) first: u32,
    /// How many cells it has.
    pub(crate) count: u64,
    /// Its place among the lines.
    pub(crate) line: usize,
}

/// Where lines stand, by their ids.
#[derive(Drop)]
pub(crate) struct Table {
    spots: IndexMap<u64, Spot>,
}

impl Table {
    /// No lines.
    pub(crate) fn new(alloc: Global) -> Table {
        Table {
            spots: IndexMap::new(alloc),
        }
    }

    /// Where the line with an id stands, and zeros where there is none.
    pub(crate) fn get(&self, id: u32) -> Spot
        ensures node { result.node ≡ (spots_of self.now).node id }
        ensures first { result.first ≡ (spots_of self.now).first id }
        ensures count { result.count ≡ (spots_of self.now).count id }
        ensures line { result.line ≡ (spots_of self.now).line id }
    {
        match self.spots.get(&u64::from(id)) {
            Some(spot) => *spot,
            None => Spot {
                node: 0,
                first: 0,
                count: 0,
                line: 0,
            },
        }
    }

    /// Says where the line with an id stands.
    pub(crate) fn put(&mut self, id: u64, spot: Spot) -> Result<(), Shortage>
        ensures node { OnOk result ((k : ℕ) → (spots_of self.new).node k
            ≡ (if k == id then spot.node else (spots_of self.old).node k)) }
        ensures first { OnOk result ((k : ℕ) → (spots_of self.new).first k
            ≡ (if k == id then spot.first else (spots_of self.old).first k)) }
        ensures count { OnOk result ((k : ℕ) → (spots_of self.new).count k
            ≡ (if k == id then spot.count else (spots_of self.old).count k)) }
        ensures line { OnOk result ((k : ℕ) → (spots_of self.new).line k
            ≡ (if k == id then spot.line else (spots_of self.old).line k)) }
    {
        match self.spots.insert(id, spot) {
            Ok(_) => Ok(()),
            Err(_) => Err(Shortage::NoMemory),
        }
    }
    /// The nodes that have the whole words of nodes, by their ids.
    pub(crate) fn nodes_of(&self, alloc: Global, ids: &[u32]) -> Result<Vec<u32>, AllocError>
        ensures { IfOk result (λ nodes. nodes.items ≡ map (spots_of self.now).node ids.now) }
    {
        let mut nodes = Vec::new(alloc);
        for id in ids {
            nodes.push(self.get(*id).node)?;
        }
        Ok(nodes)
    }
}
