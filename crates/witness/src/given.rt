//! Which of some nodes have a word in the part that is open.
ghost use Rattle.std.specs.Prelude.{◌≡◌, ◌<◌, true, length, replicate, slice_set, IfErr, IfOk};
ghost use Rattle.witness.specs.Fits.{NoneIsSet, is_set};

use base::Fixed;
use runs::NewFault;
use std::alloc::{AllocError, Global};

/// Which of some nodes have a word in the part that is open. A part takes all words back as it begins, by its number
/// alone.
///
/// Clauses see a flag for each node.
#[derive(Drop)]
pub(crate) struct Given {
    // for each node the last part in which it had a word, or 0
    last: Fixed<u64>,
    // the number of the open part
    part: u64,
}

impl std::marker::Model for Given {
    ghost use Rattle.std.specs.Prelude.{◌≡◌, ◌≤◌, ◌==◌, Bool, List, All, map};

    ghost Value = { List Bool };

    ghost view = { λ g. map (λ n. n == g.part) g.last };

    ghost invariant = { λ g. All (λ n. n ≤ g.part) g.last };
}

/// Puts 0 for each node.
fn forget(last: &mut [u64])
    ensures { last.new ≡ replicate (length last.old) 0 }
{
    last.fill(0);
}

impl Given {
    /// Of so many nodes, none of which has a word.
    pub(crate) fn new(alloc: Global, count: usize) -> Result<Given, NewFault>
        ensures many { IfOk result (λ given. length given ≡ count) }
        ensures none { IfOk result (λ given. NoneIsSet given) }
        ensures fault { IfErr result (λ fault. fault ≡ NewFault.NoMemory) }
    {
        match vec![in alloc; 0u64; count] {
            Ok(last) => Ok(Given {
                last: Fixed::new(last),
                part: 1,
            }),
            Err(AllocError) => Err(NewFault::NoMemory),
        }
    }

    /// Whether a node has a word.
    pub(crate) fn has(&self, k: usize) -> bool
        requires { k < length self.now }
        ensures { result ≡ is_set self.now k }
    {
        self.last[k] == self.part
    }

    /// A node gets a word.
    pub(crate) fn give(&mut self, k: usize)
        requires { k < length self.old }
        ensures { self.new ≡ slice_set self.old k true }
    {
        self.last[k] = self.part;
    }

    /// The next part begins.
    pub(crate) fn clear(&mut self)
        ensures many { length self.new ≡ length self.old }
        ensures none { NoneIsSet self.new }
    {
        if self.part == u64::MAX {
            forget(self.last.as_mut_slice());
            self.part = 1;
            return;
        }
        self.part += 1;
    }
}
