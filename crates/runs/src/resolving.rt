//! What a run keeps of its model: each id resolved once.
ghost use Rattle.std.specs.Prelude.{◌≡◌, ℕ, ◌<◌, ◌≤◌, true, Some, map, length, is_some, slice_get, slice_index, option_copied, IfOk};
ghost use Rattle.btor2.specs.Items.{is_state};
ghost use Rattle.btor2.specs.Check.{IsWellFormed};
ghost use Rattle.btor2.specs.Lists.{places, of_kind};
ghost use Rattle.runs.specs.Frames.{has_value, ids_of};
ghost use Rattle.runs.specs.Nodes.{slot, run_nodes, standing_word, property_slot};
ghost use Rattle.runs.specs.Holds.{next_slot, AreSlotsOf};
ghost use Rattle.runs.specs.Run.{first_word, property_at};

use crate::nodes::{Node, operand, operator_of};
use btor2::{Body, Item, Model};
use std::alloc::{AllocError, Global};

/// Whether the item at a place is a node with a value.
fn is_node(model: &Model, place: usize, item: &Item) -> bool
    requires well_formed { IsWellFormed model.now }
    requires at { slice_get model.now place ≡ Some item.now }
    ensures { result ≡ has_value item.now.body }
{
    model.width_of(place).is_some()
}

/// For each item how many nodes with a value stand before it.
pub(crate) fn node_slots(alloc: Global, model: &Model) -> Result<Vec<usize>, AllocError>
    ensures { IfOk result (λ v. v.items ≡ map (λ x. slot model.now x.id) model.now) }
{
    let items = model.items();
    let mut slots = Vec::new(alloc);
    let mut count = 0;
    for (place, item) in items.iter().enumerate() {
        slots.push(count)?;
        if is_node(model, place, item) {
            count += 1;
        }
    }
    Ok(slots)
}

/// The nodes that are operators, with their operands resolved.
pub(crate) fn resolved_nodes(
    alloc: Global,
    model: &Model,
    slots: &[usize],
) -> Result<Vec<Node>, AllocError>
    requires { slots.now ≡ map (λ x. slot model.now x.id) model.now }
    ensures { IfOk result (λ v. v.items ≡ run_nodes model.now model.now) }
{
    let items = model.items();
    let mut nodes = Vec::new(alloc);
    for (place, item) in items.iter().enumerate() {
        if let Some(operator) = operator_of(model, slots, place, item) {
            nodes.push(Node {
                place: slots[place],
                operator,
            })?;
        }
    }
    Ok(nodes)
}

/// The words of the nodes with a value before any is given: those of the constants, and 0 for the others.
pub(crate) fn standing_words(alloc: Global, model: &Model) -> Result<Vec<u64>, AllocError>
    ensures { IfOk result (λ v. v.items ≡ map (λ x. standing_word model.now x.body)
        (of_kind has_value model.now)) }
{
    let items = model.items();
    let mut words = Vec::new(alloc);
    for (place, item) in items.iter().enumerate() {
        if is_node(model, place, item) {
            words.push(model.constant(place).unwrap_or(0))?;
        }
    }
    Ok(words)
}

/// The slots of the items at some places.
pub(crate) fn picked(
    alloc: Global,
    slots: &[usize],
    places: &[usize],
) -> Result<Vec<usize>, AllocError>
    requires { (k : ℕ) → k < length places.now → slice_index places.now k < length slots.now }
    ensures { IfOk result (λ v. v.items ≡ map (slice_index slots.now) places.now) }
{
    let mut chosen = Vec::new(alloc);
    for place in places {
        chosen.push(slots[*place])?;
    }
    Ok(chosen)
}

/// The slot of a state's next node, if it has a next. `k` counts the states.
fn next_slot(model: &Model, slots: &[usize], k: usize) -> Option<usize>
    requires well_formed { IsWellFormed model.now }
    requires slots { slots.now ≡ map (λ x. slot model.now x.id) model.now }
    requires there { k < length (ids_of is_state model.now) }
    ensures { result ≡ next_slot model.now (slice_index (ids_of is_state model.now) k) }
{
    match model.next_of(k) {
        Some(place) => Some(slots[place]),
        None => None,
    }
}

/// The slots of the states' next nodes, where they have one.
pub(crate) fn next_slots(
    alloc: Global,
    model: &Model,
    slots: &[usize],
) -> Result<Vec<Option<usize>>, AllocError>
    requires well_formed { IsWellFormed model.now }
    requires slots { slots.now ≡ map (λ x. slot model.now x.id) model.now }
    ensures { IfOk result (λ v. v.items ≡ map (next_slot model.now) (ids_of is_state model.now)) }
{
    let mut nexts = Vec::new(alloc);
    for k in 0..model.states().len() {
        nexts.push(next_slot(model, slots, k))?;
    }
    Ok(nexts)
}

/// The word that a state begins with. `k` counts the states.
fn first_word(model: &Model, k: usize) -> u64
    requires { k < length (ids_of is_state model.now) }
    ensures { result ≡ first_word model.now (slice_index (ids_of is_state model.now) k) }
{
    match model.init_of(k) {
        Some(place) => model.constant(place).unwrap_or(0),
        None => 0,
    }
}

/// The words that the states begin with.
pub(crate) fn first_words(alloc: Global, model: &Model) -> Result<Vec<u64>, AllocError>
    ensures { IfOk result (λ v. v.items ≡ map (first_word model.now) (ids_of is_state model.now)) }
{
    let mut words = Vec::new(alloc);
    for k in 0..model.states().len() {
        words.push(first_word(model, k))?;
    }
    Ok(words)
}

/// The slot of the node that the property at a place names.
fn property_slot(model: &Model, slots: &[usize], place: usize) -> usize
    requires slots { slots.now ≡ map (λ x. slot model.now x.id) model.now }
    requires property { is_some (property_at model.now place) ≡ true }
    ensures { result ≡ property_slot model.now place }
{
    match model.items().get(place) {
        Some(item) => match &item.body {
            Body::Bad { operand: id } => operand(model, slots, *id).1,
            Body::Constraint { operand: id } => operand(model, slots, *id).1,
            _ => unreachable!(),
        },
        None => unreachable!(),
    }
}

/// The slots of the nodes that the properties at some places name.
pub(crate) fn property_slots(
    alloc: Global,
    model: &Model,
    slots: &[usize],
    places: &[usize],
) -> Result<Vec<usize>, AllocError>
    requires slots { slots.now ≡ map (λ x. slot model.now x.id) model.now }
    requires properties { (k : ℕ) → k < length places.now
        → is_some (property_at model.now (slice_index places.now k)) ≡ true }
    ensures { IfOk result (λ v. v.items ≡ map (property_slot model.now) places.now) }
{
    let mut named = Vec::new(alloc);
    for place in places {
        named.push(property_slot(model, slots, *place))?;
    }
    Ok(named)
}

/// The slots that a run goes by: of the states, of the inputs, of the states' next nodes where they have one, and of the
/// nodes that the properties name.
#[derive(Drop)]
pub(crate) struct Slots {
    pub(crate) states: Vec<usize>,
    pub(crate) inputs: Vec<usize>,
    pub(crate) nexts: Vec<Option<usize>>,
    pub(crate) bads: Vec<usize>,
    pub(crate) constraints: Vec<usize>,
}

/// The slots that a run of a model goes by.
pub(crate) fn run_slots(alloc: Global, model: &Model, slots: &[usize]) -> Result<Slots, AllocError>
    requires well_formed { IsWellFormed model.now }
    requires slots { slots.now ≡ map (λ x. slot model.now x.id) model.now }
    ensures { IfOk result (AreSlotsOf model.now) }
{
    let states = picked(alloc, slots, model.states())?;
    let inputs = picked(alloc, slots, model.inputs())?;
    let nexts = next_slots(alloc, model, slots)?;
    let bads = property_slots(alloc, model, slots, model.bads())?;
    let constraints = property_slots(alloc, model, slots, model.constraints())?;
    Ok(Slots {
        states,
        inputs,
        nexts,
        bads,
        constraints,
    })
}
