//! Models with words of any width up to a greatest one: checked lists of lines.
ghost use Rattle.std.specs.Prelude.{◌≡◌, [], None, Some, map, is_some, unwrap_or, ◌==◌, MatchResult};
ghost use Rattle.std.specs.List.{list_all};
ghost use Rattle.btor2.specs.Items.{sort_width, node_width, names_state, constant_of, init_value, next_value};
ghost use Rattle.wide.specs.Lines.{item_of};
ghost use Rattle.wide.specs.WideModels.{greatest_width, IsWideModel};

mod check;
mod push;

use crate::constant::Line;
use crate::entries::{Entry, is_constant, is_state, node_of, sort_of};
use btor2::PushFault;
pub use check::constant_fits;
use indexmap::IndexMap;
use std::alloc::Global;

/// A word-level model with words of any width up to 1,048,576 bits: a list of lines, each accepted after those before it.
///
/// Clauses see the list of its items.
#[derive(Drop)]
pub struct WideModel {
    lines: Vec<Line>,
    // by their ids, what the items are to those that name them
    entries: IndexMap<u64, Entry>,
    // from the id of a state to that of the value of its init line, and of its next line
    inits: IndexMap<u64, u64>,
    nexts: IndexMap<u64, u64>,
}

impl std::marker::Model for WideModel {
    ghost use Rattle.std.specs.Prelude.{List};
    ghost use Rattle.btor2.specs.declared.item.Item.{Item};
    ghost use Rattle.wide.specs.Lines.{items_of};

    ghost Value = { List Item };

    ghost view = { λ m. items_of m.lines.items };

    ghost use Rattle.wide.specs.Index.{IsIndexed};

    ghost invariant = { IsIndexed };
}

impl WideModel {
    /// A model of no lines.
    pub fn new(alloc: Global) -> WideModel
        ensures { result ≡ [] }
    {
        WideModel {
            lines: Vec::new(alloc),
            entries: IndexMap::new(alloc),
            inits: IndexMap::new(alloc),
            nexts: IndexMap::new(alloc),
        }
    }

    /// The lines, in file order.
    pub fn lines(&self) -> &[Line]
        ensures items { map item_of result.now ≡ self.now }
        ensures well_formed { IsWideModel greatest_width self.now }
    {
        self.lines.as_slice()
    }

    /// The lines, in file order, by value.
    pub fn into_lines(self) -> Vec<Line>
        ensures items { map item_of result.items ≡ self }
        ensures well_formed { IsWideModel greatest_width self }
    {
        self.lines
    }

    /// The width of a sort that is named.
    fn named_sort(&self, id: u32) -> Result<u64, PushFault>
        ensures { MatchResult result (λ n. sort_width self.now id ≡ Some n)
            (λ e. (e ≡ PushFault.NoSuchSort) × (sort_width self.now id ≡ None)) }
    {
        match sort_of(self.entries.get(&u64::from(id)).copied()) {
            Some(width) => Ok(width),
            None => Err(PushFault::NoSuchSort),
        }
    }

    /// The width of a node with a value, by its id.
    pub fn node_width(&self, id: u64) -> Option<u64>
        ensures { result ≡ node_width self.now id }
    {
        node_of(self.entries.get(&id).copied())
    }

    /// The width of a node that is named.
    fn width(&self, id: u32) -> Option<u64>
        ensures { result ≡ node_width self.now id }
    {
        self.node_width(u64::from(id))
    }

    /// The width of a node that is named.
    fn named_node(&self, id: u32) -> Result<u64, PushFault>
        ensures { MatchResult result (λ n. node_width self.now id ≡ Some n)
            (λ e. (e ≡ PushFault.NoSuchNode) × (node_width self.now id ≡ None)) }
    {
        match self.width(id) {
            Some(width) => Ok(width),
            None => Err(PushFault::NoSuchNode),
        }
    }

    /// The width of a node that is named where a state is to stand, and whether it is one.
    fn named_state(&self, id: u32) -> Result<(u64, bool), PushFault>
        ensures { MatchResult result
            (λ x. (node_width self.now id ≡ Some x.0) × (x.1 ≡ names_state self.now id))
            (λ e. (e ≡ PushFault.NoSuchNode) × (node_width self.now id ≡ None)) }
    {
        let entry = self.entries.get(&u64::from(id)).copied();
        match node_of(entry) {
            Some(width) => Ok((width, is_state(entry))),
            None => Err(PushFault::NoSuchNode),
        }
    }

    /// The width of a node that is named where a constant is to stand, and whether it is one.
    fn named_value(&self, id: u32) -> Result<(u64, bool), PushFault>
        ensures { MatchResult result
            (λ x. (node_width self.now id ≡ Some x.0) × (x.1 ≡ is_some (constant_of self.now id)))
            (λ e. (e ≡ PushFault.NoSuchNode) × (node_width self.now id ≡ None)) }
    {
        let entry = self.entries.get(&u64::from(id)).copied();
        match node_of(entry) {
            Some(width) => Ok((width, is_constant(entry))),
            None => Err(PushFault::NoSuchNode),
        }
    }

    /// Whether a state, by its id, has an init line.
    pub fn has_init(&self, state: u64) -> bool
        ensures { result ≡ is_some (init_value self.now state) }
    {
        self.inits.get(&state).is_some()
    }

    /// Whether a state, by its id, has a next line.
    pub fn has_next(&self, state: u64) -> bool
        ensures { result ≡ is_some (next_value self.now state) }
    {
        self.nexts.get(&state).is_some()
    }

    /// Whether each of some ids is that of a node with a value.
    fn all_have_values(&self, ids: &[u32]) -> bool
        ensures { result ≡ list_all (λ a. is_some (node_width self.now a)) ids.now }
    {
        ids.iter().all(|id| self.width(*id).is_some())
    }

    /// Whether each of some ids is that of a node of one bit.
    fn are_bits(&self, ids: &[u32]) -> bool
        ensures { result ≡ list_all (λ a. unwrap_or (node_width self.now a) 0 == 1) ids.now }
    {
        ids.iter().all(|id| self.width(*id).unwrap_or(0) == 1)
    }
}
