//! The nodes that a justice line names.
ghost use Rattle.std.specs.Prelude.{◌≡◌, ◌<◌, ◌-◌, ◌^◌, List, ℕ, length, IfOk};

use std::alloc::{AllocError, Global};
use std::marker::Model;

/// The ids of the nodes that a `justice` line names, held in one word: hardly a line is one, and each item has room for
/// what the largest form says.
#[derive(Drop)]
pub struct Operands {
    ids: Box<Vec<u32>>,
}

impl Model for Operands {
    ghost Value = { List ℕ };

    ghost view = { λ o. o.ids.value.items };
}

impl Operands {
    /// The operands with these ids, in this order.
    ///
    /// Errors: where a growth was refused.
    pub fn new(alloc: Global, ids: &[u32]) -> Result<Operands, AllocError>
        ensures { IfOk result (λ o. o ≡ ids.now) }
    {
        let ids = Vec::from_slice(alloc, ids)?;
        let ids = Box::new(alloc, ids)?;
        Ok(Operands { ids })
    }

    /// Their ids, in order.
    pub fn ids(&self) -> &[u32]
        ensures { result.now ≡ self.now }
    {
        self.ids.as_slice()
    }

    /// How many they are: what memory can hold, and so less than the greatest number.
    pub(crate) fn count(&self) -> usize
        ensures same { result ≡ length self.now }
        ensures few { length self.now < 2 ^ 64 - 1 }
    {
        self.ids.len()
    }
}
