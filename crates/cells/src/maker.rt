//! A list of wide items that grows by lines under the ids 1, 2, 3, ..
ghost use Rattle.std.specs.Prelude.{◌≡◌, ℕ, ◌+◌, ◌≤◌, ◌==◌, nat_eq, if◌then◌else◌, [], ◌∷◌, ◌++◌, length, Some, None, IfOk, IfErr, OnOk, OnErr};
ghost use Rattle.std.specs.HashMap.{get};
ghost use Rattle.btor2.specs.declared.fault.PushFault.TheVariants as fault;
ghost use Rattle.btor2.specs.Items.{find_item, node_width, sort_width};
ghost use Rattle.btor2.specs.Trace.{bits_of};
ghost use Rattle.wide.specs.Entries.{digits_sort};
ghost use Rattle.wide.specs.Lines.{constant_body, number_of_digits};
ghost use Rattle.wide.specs.WideModels.{greatest_width};
ghost use Rattle.cells.specs.declared.shortage.Shortage.TheVariants as shortage;
ghost use Rattle.cells.specs.Kept.{IsSound, IsShort};
ghost use Rattle.cells.specs.Lines.{named, Extends, IsNumbered};

mod arrays;
mod bits;
mod lines;

use crate::shortage::Shortage;
use btor2::{Body, Item, PushFault, Symbol};
use indexmap::IndexMap;
use std::alloc::Global;
use wide::{Constant, Spelling, WideModel};

/// The greatest number of items of a list.
const MOST_ITEMS: usize = 1_048_576;

/// What is wanting where a line is refused that no row refuses.
fn wanting(refused: PushFault) -> Shortage
    requires { refused ≡ fault.NoMemory }
    ensures { result ≡ shortage.NoMemory }
{
    match refused {
        PushFault::NoMemory => Shortage::NoMemory,
        _ => unreachable!(),
    }
}

/// Keeps the id of a sort by its width.
fn keep_sort(sorts: &mut IndexMap<u64, u32>, width: u64, id: u32) -> Result<(), Shortage>
    ensures ok { OnOk result ((k : ℕ) → get nat_eq sorts.new k
        ≡ (if k == width then Some id else get nat_eq sorts.old k)) }
    ensures short { IfErr result (λ e. e ≡ shortage.NoMemory) }
    ensures same { OnErr result ((k : ℕ) → get nat_eq sorts.new k ≡ get nat_eq sorts.old k) }
{
    match sorts.insert(width, id) {
        Ok(_) => Ok(()),
        Err(_) => Err(Shortage::NoMemory),
    }
}

/// A list of wide items that grows by lines, whose ids are their places from 1 on.
///
/// Clauses see the list of its items.
#[derive(Drop)]
pub struct ListMaker {
    model: WideModel,
    // by widths the ids of sorts
    sorts: IndexMap<u64, u32>,
    alloc: Global,
}

impl std::marker::Model for ListMaker {
    ghost use Rattle.std.specs.Prelude.{List};
    ghost use Rattle.btor2.specs.declared.item.Item.{Item};

    ghost Value = { List Item };

    ghost view = { λ m. m.model };

    ghost use Rattle.cells.specs.Kept.{IsKept};

    ghost invariant = { IsKept };
}

impl ListMaker {
    /// A list of no items.
    pub fn new(alloc: Global) -> ListMaker
        ensures { result ≡ [] }
    {
        ListMaker {
            model: WideModel::new(alloc),
            sorts: IndexMap::new(alloc),
            alloc,
        }
    }

    /// The list as it stands.
    pub fn model(&self) -> &WideModel
        ensures model { result.now ≡ self.now }
        ensures numbered { IsNumbered self.now }
    {
        &self.model
    }

    /// The list.
    pub fn finish(self) -> WideModel
        ensures model { result ≡ self }
        ensures numbered { IsNumbered self }
    {
        self.model
    }

    /// The id of the next line.
    fn next(&self) -> u64
        ensures id { result ≡ length self.now + 1 }
        ensures fresh { find_item self.now result ≡ None }
    {
        self.model.lines().len() as u64 + 1
    }

    /// Adds a line that is no constant in digits, and that no row but the number of items may refuse, with a name or without.
    /// Answers its id.
    pub fn put(&mut self, symbol: Option<Symbol>, body: Body) -> Result<u32, Shortage>
        requires sound { IsSound self.old body }
        requires no_digits { digits_sort body ≡ None }
        ensures line { IfOk result (λ id. (self.new ≡ self.old ++ named id symbol body ∷ [])
            × (id ≡ length self.old + 1) × (find_item self.old id ≡ None)) }
        ensures stands { IfErr result (λ e. self.new ≡ self.old) }
        ensures short { IfErr result (IsShort self.new) }
    {
        if self.model.lines().len() >= MOST_ITEMS {
            return Err(Shortage::TooManyItems);
        }
        let id = self.next();
        match self.model.push(Item { id, symbol, body }) {
            Ok(()) => Ok(id as u32),
            Err(fault) => Err(wanting(fault)),
        }
    }

    /// Adds a constant in digits that no row but the number of items may refuse, with a name or without. Answers its id.
    pub fn put_constant(
        &mut self,
        symbol: Option<Symbol>,
        sort: u32,
        spelling: Spelling,
        count: usize,
        number: Vec<u64>,
    ) -> Result<u32, Shortage>
        requires { IsSound self.old (constant_body spelling sort count (number_of_digits number.items)) }
        ensures line { IfOk result (λ id. (self.new ≡ self.old
            ++ named id symbol (constant_body spelling sort count (number_of_digits number.items)) ∷ [])
            × (id ≡ length self.old + 1) × (find_item self.old id ≡ None)) }
        ensures stands { IfErr result (λ e. self.new ≡ self.old) }
        ensures short { IfErr result (IsShort self.new) }
    {
        if self.model.lines().len() >= MOST_ITEMS {
            return Err(Shortage::TooManyItems);
        }
        let id = self.next();
        let constant = Constant {
            id,
            symbol,
            sort,
            spelling,
            count,
            number,
        };
        match self.model.push_constant(constant) {
            Ok(()) => Ok(id as u32),
            Err(fault) => Err(wanting(fault)),
        }
    }

    /// The id of a sort of so many bits, which is made where this call made none yet.
    pub fn sort(&mut self, width: u64) -> Result<u32, Shortage>
        requires least { 1 ≤ width }
        requires most { width ≤ greatest_width }
        ensures sort { IfOk result (λ id. sort_width self.new id ≡ Some width) }
        ensures extends { Extends self.old self.new [] }
        ensures short { IfErr result (IsShort self.new) }
    {
        if let Some(kept) = self.sorts.get(&width).copied() {
            return Ok(kept);
        }
        let id = self.put(None, Body::Sort { width })?;
        keep_sort(&mut self.sorts, width, id)?;
        Ok(id)
    }

    /// What the list keeps is known of a node: it has at most 1,048,576 bits.
    fn know(&self, a: u32)
        ensures { bits_of self.now a ≤ greatest_width }
    {
        let _lines = self.model.lines();
    }

    /// The same of a node whose width is known: it has at least one.
    fn know_width(&self, a: u32, width: u64)
        requires { node_width self.now a ≡ Some width }
        ensures least { 1 ≤ width }
        ensures most { width ≤ greatest_width }
    {
        let _lines = self.model.lines();
    }
}
