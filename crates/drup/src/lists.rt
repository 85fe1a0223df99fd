//! Lists of numbers, one for each literal.
ghost use Rattle.std.specs.Prelude.{◌≡◌, ℕ, ◌<◌, ◌++◌, [], ◌∷◌, length, IfOk, OnErr, slice_index, slice_index_or, slice_set};
ghost use Rattle.std.specs.List.{swap_remove};
ghost use Rattle.drup.specs.Lists.{list_at, numbered, AreNumbered};

use crate::fault::ClauseFault;
use crate::plain_lists::PlainLists;
use crate::starts::Starts;
use std::alloc::Global;

/// Lists of numbers, one for each literal below a limit. One that never had a number takes four bytes. Beside them, and
/// unseen, is noted where the search in each clause goes on.
#[derive(Drop)]
pub struct Lists {
    // the list of each literal, by its number; the first list, which stays empty, is of all that never had a number
    numbers: Vec<u32>,
    lists: PlainLists,
    searches: Starts,
}

impl std::marker::Model for Lists {
    ghost use Rattle.std.specs.Prelude.{List, ℕ};
    ghost use Rattle.drup.specs.Lists.{lists_of, IsLists};

    ghost Value = { List (List ℕ) };

    ghost view = { lists_of };

    ghost invariant = { IsLists };
}

/// The number of a literal's own list, which is made where it has none.
fn own_list(
    numbers: &mut Vec<u32>,
    lists: &mut PlainLists,
    literal: u32,
) -> Result<u32, ClauseFault>
    requires inside { literal < length numbers.old.items }
    requires numbered { AreNumbered numbers.old.items lists.old }
    ensures numbered { AreNumbered numbers.new.items lists.new }
    ensures same { numbered numbers.new.items lists.new
        ≡ numbered numbers.old.items lists.old }
    ensures many { length numbers.new.items ≡ length numbers.old.items }
    ensures own { IfOk result
        (λ n. (0 < n) × (n ≡ slice_index_or numbers.new.items literal 0)) }
{
    let found = numbers[literal as usize];
    if found > 0 {
        return Ok(found);
    }
    let number = lists.len();
    if number >= u32::MAX as usize {
        return Err(ClauseFault::NoMemory);
    }
    lists.add()?;
    numbers[literal as usize] = number as u32;
    Ok(number as u32)
}

impl Lists {
    /// Empty lists, one for each literal below a limit.
    pub fn new(alloc: Global, limit: usize) -> Result<Lists, ClauseFault>
        ensures { IfOk result (λ l. (length l ≡ limit) × ((k : ℕ) → list_at l k ≡ [])) }
    {
        let numbers = vec![in alloc; 0; limit]?;
        let lists = PlainLists::new(alloc)?;
        Ok(Lists {
            numbers,
            lists,
            searches: Starts::new(alloc),
        })
    }

    /// Where the search in a clause goes on, by its number.
    pub fn start_of(&self, k: usize) -> usize {
        self.searches.at(k)
    }

    /// Notes where the search in a clause goes on.
    pub fn note_start(&mut self, k: usize, place: usize)
        ensures { self.new ≡ self.old }
    {
        if place > u32::MAX as usize {
            return;
        }
        self.searches.note(k, place as u32);
    }

    /// The limit that literals are below.
    pub fn limit(&self) -> usize
        ensures { result ≡ length self.now }
    {
        self.numbers.len()
    }

    /// How many numbers the list of a literal has.
    pub fn len_of(&self, literal: u32) -> usize
        requires { literal < length self.now }
        ensures { result ≡ length (list_at self.now literal) }
    {
        self.lists.len_of(self.numbers[literal as usize])
    }

    /// The numbers of a literal's list.
    pub fn list(&self, literal: u32) -> &[u32]
        requires { literal < length self.now }
        ensures { result.now ≡ list_at self.now literal }
    {
        self.lists.list(self.numbers[literal as usize])
    }

    /// The number at a place of a literal's list.
    pub fn at(&self, literal: u32, place: usize) -> u32
        requires inside { literal < length self.now }
        requires there { place < length (list_at self.now literal) }
        ensures { result ≡ slice_index (list_at self.now literal) place }
    {
        self.lists.at(self.numbers[literal as usize], place)
    }

    /// Puts a number behind those of a literal's list.
    pub fn push(&mut self, literal: u32, number: u32) -> Result<(), ClauseFault>
        requires { literal < length self.old }
        ensures ok { IfOk result (λ _. self.new
            ≡ slice_set self.old literal (list_at self.old literal ++ number ∷ [])) }
        ensures err { OnErr result (self.new ≡ self.old) }
    {
        let list = own_list(&mut self.numbers, &mut self.lists, literal)?;
        self.lists.push(list, number)
    }

    /// Takes the number at a place of a literal's list away; the last one takes its place.
    pub fn remove(&mut self, literal: u32, place: usize)
        requires inside { literal < length self.old }
        requires there { place < length (list_at self.old literal) }
        ensures { self.new ≡ slice_set self.old literal
            (swap_remove (list_at self.old literal) place 0) }
    {
        self.lists.remove(self.numbers[literal as usize], place);
    }
}
