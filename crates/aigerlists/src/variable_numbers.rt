//! A number for each variable that was given one.
ghost use Rattle.std.specs.Prelude.{◌≡◌, ℕ, OnOk, OnErr, IfOk, nat_eq, cond};
ghost use Rattle.aigerlists.specs.VariableNumbers.{number_kept};

use crate::variable_pages::VariablePages;
use std::alloc::{AllocError, Global};

/// Numbers of variables: 0 for each at first. Those of low variables stand in a list, and the others
/// in pages, so that the list is no longer than its maker wants it.
#[derive(Drop)]
pub struct VariableNumbers {
    low: Vec<u32>,
    others: VariablePages,
}

impl VariableNumbers {
    /// No variable has a number yet, and those below this one are low.
    pub fn new(alloc: Global, low: usize) -> Result<VariableNumbers, AllocError>
        ensures { IfOk result (λ n. (v : ℕ) → number_kept n v ≡ 0) }
    {
        Ok(VariableNumbers {
            low: vec![in alloc; 0u32; low]?,
            others: VariablePages::new(alloc),
        })
    }

    /// The number of a variable, or 0. It takes no memory.
    #[inline(always)]
    pub fn get(&self, variable: u32) -> u32
        ensures { result ≡ number_kept self.now variable }
    {
        if (variable as usize) < self.low.len() {
            return self.low[variable as usize];
        }
        self.others.get(variable)
    }

    /// Gives a variable a number. The error is want of memory, and nothing has changed then.
    #[inline(always)]
    pub fn set(&mut self, variable: u32, number: u32) -> Result<(), AllocError>
        ensures set { OnOk result ((v : ℕ) → number_kept self.new v
            ≡ cond (nat_eq variable v) number (number_kept self.old v)) }
        ensures kept { OnErr result ((v : ℕ) → number_kept self.new v ≡ number_kept self.old v) }
    {
        if (variable as usize) < self.low.len() {
            self.low[variable as usize] = number;
            return Ok(());
        }
        self.others.set(variable, number)
    }
}
