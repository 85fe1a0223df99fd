//! A number for each variable that was given one, kept so that neighbouring variables stand side by side.
ghost use Rattle.std.specs.Prelude.{◌≡◌, ℕ, ◌/◌, ◌%◌, ◌<◌, ◌≤◌, OnOk, OnErr, nat_eq, cond, slice_set};
ghost use Rattle.aigerlists.specs.VariableNumbers.{paged_number};

use std::alloc::{AllocError, Global};
use std::collections::HashMap;

/// How many neighbouring variables stand side by side.
const PAGE_SIZE: u32 = 16;

/// The numbers of neighbouring variables, 0 for none.
type Page = [u32; 16];

/// Numbers of variables: 0 for each at first.
///
/// A file's lines name variables near to each other, so a table of pages is as small as the near
/// caches where a table of variables is not. A page takes 64 bytes, also for a variable alone.
#[derive(Drop)]
pub struct VariablePages {
    pages: HashMap<u32, Page>,
}

impl VariablePages {
    /// No variable has a number yet. It takes no memory.
    pub fn new(alloc: Global) -> VariablePages
        ensures { (v : ℕ) → paged_number result v ≡ 0 }
    {
        VariablePages {
            pages: HashMap::new(alloc),
        }
    }

    /// The number of a variable, or 0. It takes no memory.
    pub fn get(&self, variable: u32) -> u32
        ensures { result ≡ paged_number self.now variable }
    {
        match self.pages.get(&(variable / PAGE_SIZE)) {
            Some(page) => page[(variable % PAGE_SIZE) as usize],
            None => 0,
        }
    }

    /// Gives a variable a number. The error is want of memory, and nothing has changed then.
    pub fn set(&mut self, variable: u32, number: u32) -> Result<(), AllocError>
        ensures set { OnOk result ((v : ℕ) → paged_number self.new v
            ≡ cond (nat_eq variable v) number (paged_number self.old v)) }
        ensures kept { OnErr result ((v : ℕ) → paged_number self.new v ≡ paged_number self.old v) }
    {
        let place = (variable % PAGE_SIZE) as usize;
        if let Some(page) = self.pages.get_mut(&(variable / PAGE_SIZE)) {
            page[place] = number;
            return Ok(());
        }
        let mut page = [0; 16];
        page[place] = number;
        match self.pages.insert(variable / PAGE_SIZE, page) {
            Ok(_) => Ok(()),
            Err(_) => Err(AllocError),
        }
    }
}
