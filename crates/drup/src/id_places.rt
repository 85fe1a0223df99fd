//! The places of ids: one number for each.
ghost use Rattle.std.specs.Prelude.{◌≡◌, ℕ, ◌<◌, ◌==◌, if◌then◌else◌, IfOk, OnErr, Some, None, nat_eq, slice_index_or};
ghost use Rattle.std.specs.Map.{lookup};
ghost use Rattle.drup.specs.IdPlaces.{listed_at, place_of};

use crate::fault::ClauseFault;
use indexmap::IndexMap;
use std::alloc::Global;

/// What stands for no place.
const NO_PLACE: u32 = 4294967295;

/// Places of ids. Ids before one and ids from it on have a list each, in which they stand as long as they lie close together; the
/// others stand in a map.
#[derive(Drop)]
pub(crate) struct IdPlaces {
    // the first id of the list of the later ids
    first: u32,
    early: Vec<u32>,
    late: Vec<u32>,
    far: IndexMap<u32, u32>,
}

impl std::marker::Model for IdPlaces {
    ghost use Rattle.drup.specs.IdPlaces.{IdPlaces as IdPlacesValue, placed};

    ghost Value = { IdPlacesValue };

    ghost view = { placed };
}

/// The number at a place of a list, or what stands for no place behind it.
fn at_or_none(places: &[u32], k: usize) -> u32
    ensures { result ≡ slice_index_or places.now k 4294967295 }
{
    if k < places.len() {
        places[k]
    } else {
        NO_PLACE
    }
}

/// How long a list may be for clauses before a place: 64 bytes for each of these, about what its literals take, and 256 KB.
fn most_listed(place: u32) -> usize {
    16 * place as usize + 65536
}

/// Puts a number at a place of a list, which is made longer where that is needed.
fn set_listed(list: &mut Vec<u32>, k: usize, place: u32) -> Result<(), ClauseFault>
    ensures ok { IfOk result (λ _. (i : ℕ) → slice_index_or list.new.items i 4294967295
        ≡ (if i == k then place else slice_index_or list.old.items i 4294967295)) }
    ensures err { OnErr result ((i : ℕ) → slice_index_or list.new.items i 4294967295
        ≡ slice_index_or list.old.items i 4294967295) }
{
    while list.len() <= k {
        match list.push(NO_PLACE) {
            Ok(_) => {}
            Err(_) => return Err(ClauseFault::NoMemory),
        }
    }
    list[k] = place;
    Ok(())
}

/// Puts what stands for no place at a place of a list, where it has one there.
fn unset_at(list: &mut Vec<u32>, k: usize)
    ensures { (i : ℕ) → slice_index_or list.new.items i 4294967295
        ≡ (if i == k then 4294967295 else slice_index_or list.old.items i 4294967295) }
{
    if k < list.len() {
        list[k] = NO_PLACE;
    }
}

impl IdPlaces {
    /// No places; the list of the later ids begins with one.
    pub(crate) fn new(alloc: Global, first: u32) -> IdPlaces
        ensures { (id : ℕ) → place_of result id ≡ None }
    {
        IdPlaces {
            first,
            early: Vec::new(alloc),
            late: Vec::new(alloc),
            far: IndexMap::new(alloc),
        }
    }

    /// The place of an id in its list.
    #[inline(always)]
    fn listed_place(&self, id: u32) -> u32
        ensures { result ≡ listed_at self.now id }
    {
        if id < self.first {
            return at_or_none(&self.early, id as usize);
        }
        at_or_none(&self.late, (id - self.first) as usize)
    }

    /// The place of an id in the map.
    #[inline(never)]
    fn far_place(&self, id: u32) -> Option<u32>
        ensures { result ≡ lookup (nat_eq id) self.now.far }
    {
        match self.far.get(&id) {
            None => None,
            Some(place) => Some(*place),
        }
    }

    /// The place of an id.
    #[inline(always)]
    pub(crate) fn get(&self, id: u32) -> Option<u32>
        ensures { result ≡ place_of self.now id }
    {
        let place = self.listed_place(id);
        if place != NO_PLACE {
            return Some(place);
        }
        self.far_place(id)
    }

    /// Lets an id have a place, which has none.
    pub(crate) fn set(&mut self, id: u32, place: u32) -> Result<(), ClauseFault>
        requires fresh { place_of self.old id ≡ None }
        requires place { place < 4294967295 }
        ensures ok { IfOk result (λ _. (i : ℕ) → place_of self.new i
            ≡ (if i == id then Some place else place_of self.old i)) }
        ensures err { OnErr result ((i : ℕ) → place_of self.new i ≡ place_of self.old i) }
    {
        if id < self.first {
            if (id as usize) < most_listed(place) {
                return set_listed(&mut self.early, id as usize, place);
            }
        } else {
            let k = (id - self.first) as usize;
            if k < most_listed(place) {
                return set_listed(&mut self.late, k, place);
            }
        }
        match self.far.insert(id, place) {
            Ok(_) => Ok(()),
            Err(_) => Err(ClauseFault::NoMemory),
        }
    }

    /// Lets an id have no place in its list.
    fn unset_listed(&mut self, id: u32)
        ensures listed { (i : ℕ) → listed_at self.new i
            ≡ (if i == id then 4294967295 else listed_at self.old i) }
        ensures far { self.new.far ≡ self.old.far }
    {
        if id < self.first {
            unset_at(&mut self.early, id as usize);
            return;
        }
        unset_at(&mut self.late, (id - self.first) as usize);
    }

    /// Lets an id have no place.
    pub(crate) fn unset(&mut self, id: u32)
        ensures { (i : ℕ) → place_of self.new i
            ≡ (if i == id then None else place_of self.old i) }
    {
        self.unset_listed(id);
        if self.far.is_empty() {
            return;
        }
        let _ = self.far.swap_remove(&id);
    }
}
