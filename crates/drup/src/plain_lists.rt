//! Lists of numbers, by their own numbers.
ghost use Rattle.std.specs.Prelude.{◌≡◌, ℕ, ◌+◌, ◌-◌, ◌<◌, ◌++◌, [], ◌∷◌, length, IfOk, OnErr, slice_index, slice_index_or, slice_set, replicate};
ghost use Rattle.std.specs.List.{swap_remove};
ghost use Rattle.drup.specs.Lists.{list_at};

use crate::fault::ClauseFault;
use std::alloc::Global;

/// Lists of numbers, by their own numbers, from 0.
#[derive(Drop)]
pub(crate) struct PlainLists {
    lists: Vec<Vec<u32>>,
    alloc: Global,
}

impl std::marker::Model for PlainLists {
    ghost use Rattle.std.specs.Prelude.{List, ℕ};
    ghost use Rattle.drup.specs.PlainLists.{plain_lists_of};

    ghost Value = { List (List ℕ) };

    ghost view = { plain_lists_of };
}

impl PlainLists {
    /// One list, which is empty.
    pub(crate) fn new(alloc: Global) -> Result<PlainLists, ClauseFault>
        ensures { IfOk result (λ l. l ≡ [] ∷ []) }
    {
        let mut lists = Vec::with_capacity(alloc, 1)?;
        match lists.push(Vec::new(alloc)) {
            Ok(_) => Ok(PlainLists { lists, alloc }),
            Err(_) => Err(ClauseFault::NoMemory),
        }
    }

    /// How many lists there are.
    pub(crate) fn len(&self) -> usize
        ensures { result ≡ length self.now }
    {
        self.lists.len()
    }

    /// Puts an empty list behind the others.
    pub(crate) fn add(&mut self) -> Result<(), ClauseFault>
        ensures ok { IfOk result (λ _. self.new ≡ self.old ++ [] ∷ []) }
        ensures err { OnErr result (self.new ≡ self.old) }
    {
        match self.lists.push(Vec::new(self.alloc)) {
            Ok(_) => Ok(()),
            Err(_) => Err(ClauseFault::NoMemory),
        }
    }

    /// How many numbers a list has.
    pub(crate) fn len_of(&self, list: u32) -> usize
        requires { list < length self.now }
        ensures { result ≡ length (list_at self.now list) }
    {
        self.lists[list as usize].len()
    }

    /// A list's numbers.
    pub(crate) fn list(&self, list: u32) -> &[u32]
        requires { list < length self.now }
        ensures { result.now ≡ list_at self.now list }
    {
        &self.lists[list as usize]
    }

    /// The number at a place of a list.
    pub(crate) fn at(&self, list: u32, place: usize) -> u32
        requires inside { list < length self.now }
        requires there { place < length (list_at self.now list) }
        ensures { result ≡ slice_index (list_at self.now list) place }
    {
        self.lists[list as usize][place]
    }

    /// Puts a number behind those of a list.
    pub(crate) fn push(&mut self, list: u32, number: u32) -> Result<(), ClauseFault>
        requires { list < length self.old }
        ensures ok { IfOk result (λ _. self.new
            ≡ slice_set self.old list (list_at self.old list ++ number ∷ [])) }
        ensures err { OnErr result (self.new ≡ self.old) }
    {
        match self.lists[list as usize].push(number) {
            Ok(_) => {}
            Err(_) => return Err(ClauseFault::NoMemory),
        }
        Ok(())
    }

    /// Takes the number at a place of a list away; the last one takes its place.
    pub(crate) fn remove(&mut self, list: u32, place: usize)
        requires inside { list < length self.old }
        requires there { place < length (list_at self.old list) }
        ensures { self.new ≡ slice_set self.old list
            (swap_remove (list_at self.old list) place 0) }
    {
        let _ = self.lists[list as usize].swap_remove(place);
    }
}
