//! Names by keys that rise: the keys in one list, and the names' bytes in another.
ghost use Rattle.std.specs.Prelude.{◌≡◌, ℕ, ◌<◌, true, [], ◌∷◌, ◌++◌, None, All, OnOk, OnErr, IfOk, option_copied};
ghost use Rattle.std.specs.List.Sorted.{IsStrictlySortedBy};
ghost use Rattle.std.specs.Ordering.{nat_cmp};
ghost use Rattle.std.specs.BTreeMap.{is_at};
ghost use Rattle.std.specs.Map.{lookup, keys_of};
ghost use Rattle.aiger.specs.Refusal.{RefusesBy};

use crate::fault::CircuitFault;
use base::Rows;
use std::alloc::{AllocError, Global};
use std::marker::Model;

/// The names that there are, in the order of their keys.
#[derive(Drop)]
pub struct FlatNames {
    keys: Vec<u64>,
    names: Rows<u8>,
}

impl Model for FlatNames {
    ghost use Rattle.std.specs.Prelude.{ℕ, List};
    ghost use Rattle.std.specs.List.{zip};
    ghost use Rattle.aiger.specs.FlatNames.{AreFlat};

    ghost Value = { List (ℕ × List ℕ) };

    ghost view = { λ n. zip n.keys.items n.names };

    ghost invariant = { λ n. AreFlat n.keys.items n.names };
}

impl FlatNames {
    /// No names.
    pub fn new(alloc: Global) -> FlatNames
        ensures { result ≡ [] }
    {
        FlatNames {
            keys: Vec::new(alloc),
            names: Rows::new(alloc),
        }
    }

    /// Whether all keys are below this one.
    pub fn are_below(&self, key: u64) -> bool
        ensures below { result ≡ true → All (λ k. k < key) (keys_of self.now) }
        ensures rising { IsStrictlySortedBy nat_cmp (keys_of self.now) }
    {
        match self.keys.last() {
            Some(last) => *last < key,
            None => true,
        }
    }

    /// Gives a key above all others a name. The error is want of memory.
    pub fn push(&mut self, key: u64, name: &[u8]) -> Result<(), CircuitFault>
        requires { All (λ k. k < key) (keys_of self.old) }
        ensures ok { OnOk result (self.new ≡ self.old ++ (key, name.now) ∷ []) }
        ensures refused { RefusesBy result None }
        ensures err { OnErr result (self.new ≡ self.old) }
    {
        self.keys.reserve(1)?;
        self.names.push(name)?;
        match self.keys.push(key) {
            Ok(()) => Ok(()),
            Err(_) => unreachable!(),
        }
    }

    /// The name of a key, if it has one. It takes no memory.
    pub fn name(&self, key: u64) -> Option<&[u8]>
        ensures { option_copied result ≡ lookup (is_at (nat_cmp key)) self.now }
    {
        match self.keys.binary_search(&key) {
            Ok(place) => Some(self.names.row(place)),
            Err(_) => None,
        }
    }

    /// The same names again.
    pub fn copy(&self, alloc: Global) -> Result<FlatNames, AllocError>
        ensures { IfOk result (λ n. n ≡ self.now) }
    {
        let keys = self.keys.to_vec(alloc)?;
        let names = self.names.copy(alloc)?;
        Ok(FlatNames { keys, names })
    }
}
