//! Models: checked lists of items, with what is read of them.
ghost use Rattle.std.specs.Prelude.{nat_eq, ◌≡◌, ◌<◌, ◌≤◌, ◌-◌, IfSome, [], length, option_and_then, option_copied, slice_get, slice_index};
ghost use Rattle.std.specs.HashMap.{get};
ghost use Rattle.btor2.specs.Items.{find_item, position_of, sort_bits, sort_width, node_width, width_of_body, constant_of, constant_of_body, init_value, next_value, is_input, is_state, is_bad, is_constraint};
ghost use Rattle.btor2.specs.Check.{IsWellFormed};
ghost use Rattle.btor2.specs.Parts.{HaveSoundParts};
ghost use Rattle.btor2.specs.Index.{is_in_place};
ghost use Rattle.btor2.specs.Entries.{entry_sort, entry_node};
ghost use Rattle.btor2.specs.Lists.{places, id_at, init_place, next_place, is_free_at, has_init_without_next_at, first_init_without_next, width_at, constant_at};

mod check;
mod entries;
mod push;

use crate::item::{Body, Item};
use base::Width;
use entries::Entry;
use indexmap::IndexMap;
use std::alloc::Global;

/// A word-level model: a list of items, each accepted after those before it.
#[derive(Drop)]
pub struct Model {
    items: Vec<Item>,
    // by their ids the positions of those items alone whose id is not their position plus 1:
    // nearly all files number their lines 1, 2, 3 and so on, and take no map
    elsewhere: IndexMap<u64, usize>,
    // how many of the first items have their position plus 1 as their id
    in_place: usize,
    // by position, what the items are to those that name them
    entries: Vec<Entry>,
    // positions in `items`, in file order
    inputs: Vec<usize>,
    states: Vec<usize>,
    bads: Vec<usize>,
    constraints: Vec<usize>,
    // from the id of a state to that of the value of its init line, and of its next line
    inits: IndexMap<u64, u64>,
    nexts: IndexMap<u64, u64>,
}

impl std::marker::Model for Model {
    ghost use Rattle.std.specs.Prelude.{List};
    ghost use Rattle.btor2.specs.declared.item.Item.{Item};

    ghost Value = { List Item };

    ghost use Rattle.btor2.specs.Index.{IsIndexed};

    ghost view = { λ m. m.items.items };

    ghost invariant = { IsIndexed };
}

/// The item at a position.
fn item_at(items: &[Item], place: usize) -> Option<&Item>
    ensures { option_copied result ≡ slice_get items.now place }
{
    items.get(place)
}

/// The position that an id has in a file whose lines are numbered 1, 2, 3 and so on. No item has the id 0.
fn place_by_number(id: u64) -> usize
    ensures { result ≡ id - 1 }
{
    id.saturating_sub(1) as usize
}

/// The position that a map gives an id. Most maps are empty, and then no hash is taken.
fn found_in(positions: &IndexMap<u64, usize>, id: u64) -> Option<usize>
    ensures { result ≡ get nat_eq positions.now id }
{
    if positions.is_empty() {
        return None;
    }
    positions.get(&id).copied()
}

impl Model {
    /// A model of no items.
    pub fn new(alloc: Global) -> Model
        ensures { result ≡ [] }
    {
        Model {
            items: Vec::new(alloc),
            elsewhere: IndexMap::new(alloc),
            in_place: 0,
            entries: Vec::new(alloc),
            inputs: Vec::new(alloc),
            states: Vec::new(alloc),
            bads: Vec::new(alloc),
            constraints: Vec::new(alloc),
            inits: IndexMap::new(alloc),
            nexts: IndexMap::new(alloc),
        }
    }

    /// The items, in file order.
    pub fn items(&self) -> &[Item]
        ensures items { result.now ≡ self.now }
        ensures well_formed { IsWellFormed self.now }
        ensures parts { HaveSoundParts self.now }
    {
        self.items.as_slice()
    }

    /// The positions of the inputs in `items`, in file order.
    pub fn inputs(&self) -> &[usize]
        ensures { result.now ≡ places is_input 0 self.now }
    {
        self.inputs.as_slice()
    }

    /// The positions of the states in `items`, in file order.
    pub fn states(&self) -> &[usize]
        ensures { result.now ≡ places is_state 0 self.now }
    {
        self.states.as_slice()
    }

    /// The positions of the bad properties in `items`, in file order.
    pub fn bads(&self) -> &[usize]
        ensures { result.now ≡ places is_bad 0 self.now }
    {
        self.bads.as_slice()
    }

    /// The positions of the constraints in `items`, in file order.
    pub fn constraints(&self) -> &[usize]
        ensures { result.now ≡ places is_constraint 0 self.now }
    {
        self.constraints.as_slice()
    }

    /// Whether an id is in place: the item at the position `id - 1` has it.
    fn is_in_place(&self, id: u64) -> bool
        ensures { result ≡ is_in_place self.now id }
    {
        match item_at(self.items.as_slice(), place_by_number(id)) {
            Some(item) => item.id == id,
            None => false,
        }
    }

    /// The same as `position`: the items are looked at, whichever it is.
    #[inline(never)]
    fn searched(&self, id: u64) -> Option<usize>
        ensures { result ≡ position_of self.now id }
    {
        // The item in place is asked first, since that takes no hash. If it has the id it is the one: ids are distinct.
        if self.is_in_place(id) {
            Some(place_by_number(id))
        } else {
            found_in(&self.elsewhere, id)
        }
    }

    /// The position in `items` of the item with an id.
    #[inline(always)]
    pub fn position(&self, id: u64) -> Option<usize>
        ensures { result ≡ position_of self.now id }
    {
        // the first items are in place, and are not touched; one less than 0 is more here than there are items
        let place = id.wrapping_sub(1) as usize;
        if place < self.in_place {
            return Some(place);
        }
        // where they are all, no other id has an item
        if self.in_place == self.items.len() {
            return None;
        }
        self.searched(id)
    }

    /// The item with an id.
    fn item(&self, id: u64) -> Option<&Item>
        ensures value { option_copied result ≡ find_item self.now id }
        ensures well_formed { IsWellFormed self.now }
    {
        match self.position(id) {
            Some(place) => item_at(self.items.as_slice(), place),
            None => None,
        }
    }

    /// What the item at a position is to those that name it.
    ///
    /// Condition: `place` is below the number of items.
    #[inline(always)]
    fn entry_at(&self, place: usize) -> Entry
        requires { place < length self.now }
        ensures sort { entry_sort result ≡ option_and_then (λ (x : Item). sort_bits x.body)
            (slice_get self.now place) }
        ensures node { entry_node result ≡ width_at self.now place }
    {
        self.entries[place]
    }

    /// What the item with an id is to those that name it.
    #[inline(always)]
    fn entry(&self, id: u32) -> Entry
        ensures sort { entry_sort result ≡ sort_width self.now id }
        ensures node { entry_node result ≡ node_width self.now id }
    {
        let id = u64::from(id);
        let place = id.wrapping_sub(1) as usize;
        if place < self.in_place {
            return self.entry_at(place);
        }
        match self.searched(id) {
            Some(place) => self.entry_at(place),
            None => Entry::Other,
        }
    }

    /// The width of the sort with an id.
    fn sort_width(&self, id: u32) -> Option<u64>
        ensures value { result ≡ sort_width self.now id }
        ensures range { IfSome result (λ n. (1 ≤ n) × (n ≤ 64)) }
    {
        self.entry(id).sort_width()
    }

    /// The width of what a body says the value of, if it has one.
    fn body_width(&self, body: &Body) -> Option<u64>
        ensures value { result ≡ width_of_body self.now body.now }
        ensures range { IfSome result (λ n. (1 ≤ n) × (n ≤ 64)) }
    {
        let sort = body.node_sort()?;
        self.sort_width(sort)
    }

    /// The width of the node with an id.
    fn node_width(&self, id: u32) -> Option<u64>
        ensures { result ≡ node_width self.now id }
    {
        let width = self.entry(id).node()?;
        Some(width.bits())
    }

    /// The word of a constant's body.
    fn body_constant(&self, body: &Body) -> Option<u64>
        ensures { result ≡ constant_of_body self.now body.now }
    {
        let width = self.body_width(body)?;
        body.constant_word(width)
    }

    /// The word of the constant node with an id.
    fn constant_word(&self, id: u32) -> Option<u64>
        ensures { result ≡ constant_of self.now id }
    {
        let item = self.item(u64::from(id))?;
        self.body_constant(&item.body)
    }

    /// The id of the item at a position.
    fn id_at(&self, place: usize) -> Option<u64>
        ensures { result ≡ id_at self.now place }
    {
        let item = item_at(self.items.as_slice(), place)?;
        Some(item.id)
    }

    /// The id of the value that an init line gives the state with an id.
    fn init_value(&self, id: u64) -> Option<u64>
        ensures { result ≡ init_value self.now id }
    {
        self.inits.get(&id).copied()
    }

    /// The id of the value that a next line gives the state with an id.
    fn next_value(&self, id: u64) -> Option<u64>
        ensures { result ≡ next_value self.now id }
    {
        self.nexts.get(&id).copied()
    }

    /// The position in `items` of the value of a state's init line, if the state has one.
    /// `k` counts the states in file order.
    ///
    /// Condition: `k` is below the number of states.
    pub fn init_of(&self, k: usize) -> Option<usize>
        requires { k < length (places is_state 0 self.now) }
        ensures { result ≡ init_place self.now (slice_index (places is_state 0 self.now) k) }
    {
        let id = self.id_at(self.states[k])?;
        let value = self.init_value(id)?;
        self.position(value)
    }

    /// The position in `items` of the value of a state's next line, if the state has one.
    /// `k` counts the states in file order.
    ///
    /// Condition: `k` is below the number of states.
    pub fn next_of(&self, k: usize) -> Option<usize>
        requires { k < length (places is_state 0 self.now) }
        ensures { result ≡ next_place self.now (slice_index (places is_state 0 self.now) k) }
    {
        let id = self.id_at(self.states[k])?;
        let value = self.next_value(id)?;
        self.position(value)
    }

    /// Whether a state is free: it has neither an init line nor a next line, so it has any word in each frame.
    /// `k` counts the states in file order. No memory, and no walk of the model.
    ///
    /// Condition: `k` is below the number of states.
    pub fn is_free(&self, k: usize) -> bool
        requires { k < length (places is_state 0 self.now) }
        ensures { result ≡ is_free_at self.now (slice_index (places is_state 0 self.now) k) }
    {
        match self.id_at(self.states[k]) {
            Some(id) => self.init_value(id).is_none() && self.next_value(id).is_none(),
            None => false,
        }
    }

    /// Whether the state at a position has an init line and no next line.
    fn has_init_without_next(&self, place: usize) -> bool
        ensures { result ≡ has_init_without_next_at self.now place }
    {
        match self.id_at(place) {
            Some(id) => self.init_value(id).is_some() && self.next_value(id).is_none(),
            None => false,
        }
    }

    /// The id of the first state in file order that has an init line and no next line, if there is one: nothing says
    /// what it takes after the first frame. No memory.
    pub fn first_init_without_next(&self) -> Option<u64>
        ensures { result ≡ first_init_without_next self.now self.now }
    {
        for place in self.states() {
            if self.has_init_without_next(*place) {
                return self.id_at(*place);
            }
        }
        None
    }

    /// The width of a node with a value, by its position in `items`; none for other items.
    ///
    /// Condition: `node` is below the number of items.
    pub fn width_of(&self, node: usize) -> Option<Width>
        requires { node < length self.now }
        ensures { result ≡ width_at self.now node }
    {
        self.entry_at(node).node()
    }

    /// The word of a constant node, by its position in `items`; none for other items.
    ///
    /// Condition: `node` is below the number of items.
    pub fn constant(&self, node: usize) -> Option<u64>
        requires { node < length self.now }
        ensures { result ≡ constant_at self.now node }
    {
        let item = item_at(self.items.as_slice(), node)?;
        self.body_constant(&item.body)
    }
}
