//! The names of a circuit's positions: an entry for each position that has a name, and nothing for the others.
ghost use Rattle.std.specs.Prelude.{◌≡◌, ◌<◌, [], None, OnOk, OnErr, IfOk, option_copied};
ghost use Rattle.std.specs.List.{list_all};
ghost use Rattle.std.specs.List.Sorted.{IsStrictlySortedBy};
ghost use Rattle.std.specs.BTreeMap.{is_at};
ghost use Rattle.std.specs.Map.{keys_of, lookup};
ghost use Rattle.aiger.specs.FlatNames.{at_places, key_of};
ghost use Rattle.aiger.specs.Names.{rank, place_cmp, name_in, with_name_in, is_name, is_printable};
ghost use Rattle.aiger.specs.Refusal.{RefusesBy};

use crate::circuit::Section;
use crate::fault::CircuitFault;
use crate::flat_names::FlatNames;
use std::alloc::{AllocError, Global};
use std::collections::BTreeMap;
use std::marker::Model;

/// The greatest number of bytes of a name.
pub const LONGEST_NAME: usize = 300;

/// Positions below this bound are told apart by their keys.
const KEYED_POSITIONS: usize = 1 << 32;

/// The names that there are: those that came in the order of their sections and positions one after
/// another, and the others in a map.
#[derive(Drop)]
pub struct NameKeeper {
    alloc: Global,
    in_order: FlatNames,
    // by the section's rank and the position
    others: BTreeMap<(u8, usize), Vec<u8>>,
}

impl Model for NameKeeper {
    ghost use Rattle.std.specs.Prelude.{map};
    ghost use Rattle.aiger.specs.Names.{NameMap};
    ghost use Rattle.aiger.specs.FlatNames.{at_places, with_flat_names};

    ghost Value = { NameMap };

    ghost view = { λ k. with_flat_names (at_places k.in_order) (map (λ e. (e.0, e.1.items)) k.others.entries) };
}

impl NameKeeper {
    /// No names.
    pub fn new(alloc: Global) -> NameKeeper
        ensures { result ≡ [] }
    {
        NameKeeper {
            alloc,
            in_order: FlatNames::new(alloc),
            others: BTreeMap::new(alloc),
        }
    }

    /// Gives a position of a section a name. The error is want of memory.
    pub fn give(
        &mut self,
        section: Section,
        position: usize,
        name: &[u8],
    ) -> Result<(), CircuitFault>
        ensures ok { OnOk result (self.new ≡ with_name_in self.old section position name.now) }
        ensures refused { RefusesBy result None }
        ensures err { OnErr result (self.new ≡ self.old) }
        ensures sorted { OnOk result (IsStrictlySortedBy place_cmp (keys_of self.new)) }
    {
        let place = (rank_of(section), position);
        let key = key_of(place);
        let below = self.in_order.are_below(key);
        if below && position < KEYED_POSITIONS && self.others.get(&place).is_none() {
            return self.in_order.push(key, name);
        }
        let mut bytes = Vec::new(self.alloc);
        bytes.extend_from_slice(name)?;
        match self.others.insert(place, bytes) {
            Ok(_) => Ok(()),
            Err(_) => Err(CircuitFault::NoMemory),
        }
    }

    /// The same names again.
    pub fn copy(&self) -> Result<NameKeeper, AllocError>
        ensures { IfOk result (λ k. k ≡ self.now) }
    {
        let in_order = self.in_order.copy(self.alloc)?;
        let others = self.others.clone()?;
        Ok(NameKeeper {
            alloc: self.alloc,
            in_order,
            others,
        })
    }

    /// The name of a position of a section, if it has one. It takes no memory.
    pub fn name(&self, section: Section, position: usize) -> Option<&[u8]>
        ensures { option_copied result ≡ name_in self.now section position }
    {
        let place = (rank_of(section), position);
        match self.others.get(&place) {
            Some(name) => Some(name.as_slice()),
            None => name_in_order(&self.in_order, place),
        }
    }
}

/// The name of a place among those that came in order, if it has one there.
fn name_in_order(names: &FlatNames, place: (u8, usize)) -> Option<&[u8]>
    ensures { option_copied result ≡ lookup (is_at (place_cmp place)) (at_places names.now) }
{
    if place.1 >= KEYED_POSITIONS {
        return None;
    }
    names.name(key_of(place))
}

/// A place of a position below 2^32 as one number, in the order of places.
fn key_of(place: (u8, usize)) -> u64
    ensures { place.1 < 4294967296 → result ≡ key_of place }
{
    u64::from(place.0) * (1 << 32) + place.1 as u64 % (1 << 32)
}

/// Where a section stands in the order of the names in a file.
fn rank_of(section: Section) -> u8
    ensures { result ≡ rank section }
{
    match section {
        Section::Input => 0,
        Section::Latch => 1,
        Section::Output => 2,
        Section::Bad => 3,
        Section::Constraint => 4,
        Section::Justice => 5,
        Section::Fair => 6,
    }
}

/// Whether a name has 1 to 300 bytes, each from 32 to 126.
pub fn is_good_name(name: &[u8]) -> bool
    ensures { result ≡ is_name name.now }
{
    if name.is_empty() || name.len() > LONGEST_NAME {
        return false;
    }
    are_printable(name)
}

/// Whether each byte is from 32 to 126.
fn are_printable(bytes: &[u8]) -> bool
    ensures { result ≡ list_all is_printable bytes.now }
{
    bytes.iter().all(|byte| *byte >= 32 && *byte <= 126)
}
