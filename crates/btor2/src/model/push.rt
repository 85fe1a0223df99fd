//! How an item is added: the lists and maps beside the items get their entries first.
ghost use Rattle.std.specs.Prelude.{◌≡◌, ℕ, ◌<◌, ◌≤◌, ◌+◌, ◌-◌, ◌^◌, ◌==◌, ◌&&◌, IfSome, not, false, [], ◌∷◌, ◌++◌, None, Some, OnOk, OnErr, IfErr, is_ok, MatchResult, nat_eq, if◌then◌else◌, length, vec_len, vec_capacity};
ghost use Rattle.std.specs.HashMap.{get};
ghost use Rattle.std.specs.Option.{option_or};
ghost use Rattle.indexmap.specs.IndexMap.{spare};
ghost use Rattle.btor2.specs.Entries.{entry_of};
ghost use Rattle.btor2.specs.Items.{sort_bits, is_input, is_state, is_bad, is_constraint, init_for, next_for};
ghost use Rattle.btor2.specs.Check.{refusal, AnswersRefusal};
ghost use Rattle.btor2.specs.Lists.{with_place};

use crate::fault::PushFault;
use crate::item::{Body, Item};
use crate::model::entries::Entry;
use crate::model::{Model, place_by_number};
use base::Width;
use indexmap::IndexMap;

/// How many items a model gets room for at first: so much that the allocator gives them pages of their own, which a growth
/// moves and does not copy.
const FIRST_ROOM: usize = 16_384;

/// Adds a place at the end of a list.
fn add_place(list: &mut Vec<usize>, place: usize) -> Result<(), PushFault>
    ensures { MatchResult result
        (λ u. list.new.items ≡ list.old.items ++ place ∷ [])
        (λ fault. (fault ≡ PushFault.NoMemory) × (list.new.items ≡ list.old.items)) }
{
    match list.push(place) {
        Ok(()) => Ok(()),
        Err(_) => Err(PushFault::NoMemory),
    }
}

/// Gives a state's id the id of a value.
fn add_value(map: &mut IndexMap<u64, u64>, state: u32, value: u32) -> Result<(), PushFault>
    ensures { MatchResult result
        (λ u. (id : ℕ) → get nat_eq map.new id
        ≡ (if id == state then Some value else get nat_eq map.old id))
        (λ fault. (fault ≡ PushFault.NoMemory)
        × ((id : ℕ) → get nat_eq map.new id ≡ get nat_eq map.old id)) }
{
    match map.insert(u64::from(state), u64::from(value)) {
        Ok(_) => Ok(()),
        Err(_) => Err(PushFault::NoMemory),
    }
}

/// Makes room for an item, for what it is to those that name it, and for its place by its id where the id is not in place.
/// Answers the place.
fn make_room(
    items: &mut Vec<Item>,
    entries: &mut Vec<Entry>,
    elsewhere: &mut IndexMap<u64, usize>,
    id: u64,
) -> Result<usize, PushFault>
    ensures answer { MatchResult result
        (λ place. (place ≡ length items.old.items)
        × ((vec_len items.new < vec_capacity items.new)
        × ((vec_len entries.new < vec_capacity entries.new)
        × ((id - 1 == place) ≡ false → 0 < spare elsewhere.new))))
        (λ fault. fault ≡ PushFault.NoMemory) }
    ensures same { items.new.items ≡ items.old.items }
    ensures same_entries { entries.new.items ≡ entries.old.items }
    ensures kept { (k : ℕ) → get nat_eq elsewhere.new k ≡ get nat_eq elsewhere.old k }
{
    let place = items.len();
    if place == 0 && items.reserve(FIRST_ROOM).is_err() {
        return Err(PushFault::NoMemory);
    }
    if items.reserve(1).is_err() || entries.reserve(1).is_err() {
        return Err(PushFault::NoMemory);
    }
    if place_by_number(id) == place {
        return Ok(place);
    }
    match elsewhere.reserve(1) {
        Ok(()) => Ok(place),
        Err(_) => Err(PushFault::NoMemory),
    }
}

/// Adds the place of an item by its id, where the id is not in place and there is room. Answers how many of the first
/// items are in place with it.
fn add_by_id(elsewhere: &mut IndexMap<u64, usize>, in_place: usize, id: u64, place: usize) -> usize
    requires room { (id - 1 == place) ≡ false → 0 < spare elsewhere.old }
    requires few { place < 2 ^ 64 - 1 }
    ensures elsewhere { (k : ℕ) → get nat_eq elsewhere.new k
        ≡ (if not (id - 1 == place) && (k == id) then Some place else get nat_eq elsewhere.old k) }
    ensures front { result
        ≡ (if (in_place == place) && (id - 1 == place) then in_place + 1 else in_place) }
{
    if place_by_number(id) != place {
        match elsewhere.insert(id, place) {
            Ok(_) => in_place,
            Err(_) => unreachable!(),
        }
    } else if in_place == place {
        in_place + 1
    } else {
        in_place
    }
}

/// Adds an item, or what stands beside one, where there is room.
fn add_last<T: Drop>(list: &mut Vec<T>, last: T)
    requires { vec_len list.old < vec_capacity list.old }
    ensures { list.new.items ≡ list.old.items ++ last ∷ [] }
{
    match list.push(last) {
        Ok(()) => {}
        Err(_) => unreachable!(),
    }
}

/// Adds what an item says to the list or the map of its form, where there is one.
fn note(
    body: &Body,
    place: usize,
    inputs: &mut Vec<usize>,
    states: &mut Vec<usize>,
    bads: &mut Vec<usize>,
    constraints: &mut Vec<usize>,
    inits: &mut IndexMap<u64, u64>,
    nexts: &mut IndexMap<u64, u64>,
) -> Result<(), PushFault>
    ensures fault { IfErr result (λ fault. fault ≡ PushFault.NoMemory) }
    ensures inputs { inputs.new.items
        ≡ with_place (is_ok result && is_input body.now) place inputs.old.items }
    ensures states { states.new.items
        ≡ with_place (is_ok result && is_state body.now) place states.old.items }
    ensures bads { bads.new.items ≡ with_place (is_ok result && is_bad body.now) place
        bads.old.items }
    ensures constraints { constraints.new.items
        ≡ with_place (is_ok result && is_constraint body.now) place constraints.old.items }
    ensures inits { OnOk result ((id : ℕ) → get nat_eq inits.new id
        ≡ option_or (init_for id body.now) (get nat_eq inits.old id)) }
    ensures nexts { OnOk result ((id : ℕ) → get nat_eq nexts.new id
        ≡ option_or (next_for id body.now) (get nat_eq nexts.old id)) }
    ensures inits_kept { OnErr result ((id : ℕ) → get nat_eq inits.new id
        ≡ get nat_eq inits.old id) }
    ensures nexts_kept { OnErr result ((id : ℕ) → get nat_eq nexts.new id
        ≡ get nat_eq nexts.old id) }
{
    match body {
        Body::Input { .. } => add_place(inputs, place),
        Body::State { .. } => add_place(states, place),
        Body::Bad { .. } => add_place(bads, place),
        Body::Constraint { .. } => add_place(constraints, place),
        Body::Init { state, value, .. } => add_value(inits, *state, *value),
        Body::Next { state, value, .. } => add_value(nexts, *state, *value),
        _ => Ok(()),
    }
}

impl Model {
    /// What an item that no row refuses is to those that will name it.
    fn entry_of(&self, body: &Body) -> Entry
        requires { IfSome (sort_bits body.now) (λ n. (1 ≤ n) × (n ≤ 64)) }
        ensures { result ≡ entry_of self.now body.now }
    {
        match body.sort_bits() {
            Some(bits) => match Width::new(bits) {
                Some(width) => Entry::Sort(width),
                None => unreachable!(),
            },
            None => match body.node_sort() {
                Some(sort) => self.entry(sort).of_node(),
                None => Entry::Other,
            },
        }
    }

    /// Adds an item that no row refuses.
    fn add(&mut self, item: Item) -> Result<(), PushFault>
        requires { refusal self.old item ≡ None }
        ensures { MatchResult result
            (λ u. self.new ≡ self.old ++ item ∷ [])
            (λ fault. (fault ≡ PushFault.NoMemory) × (self.new ≡ self.old)) }
    {
        let entry = self.entry_of(&item.body);
        let place = make_room(
            &mut self.items,
            &mut self.entries,
            &mut self.elsewhere,
            item.id,
        )?;
        item.know_parts();
        note(
            &item.body,
            place,
            &mut self.inputs,
            &mut self.states,
            &mut self.bads,
            &mut self.constraints,
            &mut self.inits,
            &mut self.nexts,
        )?;
        self.in_place = add_by_id(&mut self.elsewhere, self.in_place, item.id, place);
        add_last(&mut self.entries, entry);
        add_last(&mut self.items, item);
        Ok(())
    }

    /// Adds an item at the end.
    ///
    /// Errors: the first that applies of `TooManyItems`, `IdOutOfRange`, `IdTaken`, `NoSuchSort`, `NoSuchNode`,
    /// `NotAState`, `WidthOutOfRange`, `SliceOutOfRange`, `SortMismatch`, `ConstantDoesNotFit`, `InitNotConstant`,
    /// `SecondInit`, `SecondNext` and `JusticeEmpty`, as said at each; else `NoMemory` where a growth was refused. The model is unchanged then.
    pub fn push(&mut self, item: Item) -> Result<(), PushFault>
        ensures answer { AnswersRefusal result (refusal self.old item) }
        ensures ok { OnOk result (self.new ≡ self.old ++ item ∷ []) }
        ensures err { OnErr result (self.new ≡ self.old) }
    {
        self.check(&item)?;
        self.add(item)
    }
}
