//! What speaks against a model by its form.
ghost use Rattle.std.specs.Prelude.{◌≡◌, ◌+◌, ◌<◌, ◌≤◌, length, take, None, Some, slice_get, slice_index, if◌then◌else◌};
ghost use Rattle.btor2.specs.Check.{IsWellFormed};
ghost use Rattle.btor2.specs.Items.{is_state};
ghost use Rattle.btor2.specs.Lists.{places, has_init_without_next};
ghost use Rattle.blast.specs.declared.fault.LowerFault.TheVariants as fault;
ghost use Rattle.blast.specs.Refusal.{line_refusal, form_refusal};

use crate::fault::LowerFault;
use crate::items::item_at;
use btor2::{Body, Item, Model};

/// What speaks against a state: it has an init line and no next line. `k` counts the states.
fn state_refusal(model: &Model, item: &Item, k: usize) -> Option<LowerFault>
    requires well_formed { IsWellFormed model.now }
    requires there { k < length (places is_state 0 model.now) }
    requires place { slice_get model.now (slice_index (places is_state 0 model.now) k)
        ≡ Some item.now }
    ensures { result ≡ (if has_init_without_next model.now item.now.id then Some
        (fault.NoNext item.now.id) else None) }
{
    if !model.is_free(k) && model.next_of(k).is_none() {
        Some(LowerFault::NoNext(item.id))
    } else {
        None
    }
}

/// What speaks against the item at a place. `k` counts the states before it.
fn item_refusal(model: &Model, place: usize, item: &Item, k: usize) -> Option<LowerFault>
    requires well_formed { IsWellFormed model.now }
    requires at { slice_get model.now place ≡ Some item.now }
    requires before { k ≡ length (places is_state 0 (take place model.now)) }
    ensures { result ≡ line_refusal model.now item.now.id item.now.body }
{
    match &item.body {
        Body::Justice { .. } => Some(LowerFault::Justice(item.id)),
        Body::Fair { .. } => Some(LowerFault::Fair(item.id)),
        Body::State { .. } => state_refusal(model, item, k),
        _ => None,
    }
}

/// How many states there are up to an item, this one included. `k` counts those before it.
fn count_state(item: &Item, k: usize) -> usize
    requires { k ≤ 1048576 }
    ensures { result ≡ k + (if is_state item.now.body then 1 else 0) }
{
    match item.body {
        Body::State { .. } => k + 1,
        _ => k,
    }
}

/// What speaks against a model by its form: the first item in file order that is a justice line, a fairness line or a
/// state with an init line and no next line.
pub(crate) fn form_refusal(model: &Model) -> Option<LowerFault>
    ensures { result ≡ form_refusal model.now }
{
    let items = model.items();
    let mut states = 0;
    for place in 0..items.len() {
        let item = item_at(items, place);
        let refused = item_refusal(model, place, item, states);
        if refused.is_some() {
            return refused;
        }
        states = count_state(item, states);
    }
    None
}
