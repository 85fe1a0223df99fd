//! Which signals are told apart from an earlier one of their scope.
ghost use Rattle.std.specs.Prelude.{◌≡◌, ◌+◌, ◌-◌, ◌^◌, ◌<◌, ◌||◌, ◌++◌, List, ℕ, Some, [], IfOk, OnOk, slice_get, decimal};
ghost use Rattle.std.specs.List.{list_any};
ghost use Rattle.std.specs.Str.{bytes_eq};
ghost use Rattle.btor2.specs.Check.{IsWellFormed};
ghost use Rattle.vcd.specs.Names.{stem_by, ends_in_number};
ghost use Rattle.vcd.specs.Stands.{HasSeen, is_marked_signal, scope_marks, marks};

use crate::names::{ends_in_number, own_name};
use crate::scope::{Scope, Shown, is_in, scopes};
use btor2::{Item, Model};
use indexmap::IndexSet;
use itoa::Buffer;
use std::alloc::{AllocError, Global};

/// The signals of a scope so far: what names them, behind what stands before all names of the scope, and their number.
#[derive(Drop)]
struct Seen {
    stems: IndexSet<Vec<u8>>,
    number: u64,
}

impl std::marker::Model for Seen {
    ghost use Rattle.std.specs.Prelude.{map};
    ghost use Rattle.vcd.specs.Stands.{Seen as SeenValue};

    ghost Value = { SeenValue };

    ghost view = { λ s. record { names = map (λ v. v.items) s.stems.keys; number = s.number } };
}

/// Bytes and the decimal of a number.
fn numbered(alloc: Global, front: &[u8], number: u64) -> Result<Vec<u8>, AllocError>
    ensures { IfOk result (λ v. v.items ≡ front.now ++ decimal number) }
{
    let mut buffer = Buffer::new();
    let mut bytes = Vec::from_slice(alloc, front)?;
    bytes.extend_from_slice(buffer.format(number).as_bytes())?;
    Ok(bytes)
}

/// What names the line that is a signal of this number of a scope.
fn stem(alloc: Global, scope: Scope, number: u64, item: &Item) -> Result<Vec<u8>, AllocError>
    ensures { IfOk result (λ v. v.items ≡ stem_by scope number item.now.id item.now.symbol) }
{
    if let Some(symbol) = &item.symbol {
        return Vec::from_slice(alloc, symbol.bytes());
    }
    let (front, own) = own_name(scope, number, item.id);
    numbered(alloc, front, own)
}

impl Seen {
    /// No signals.
    fn new(alloc: Global) -> Seen
        ensures names { result.names ≡ [] }
        ensures number { result.number ≡ 0 }
    {
        Seen {
            stems: IndexSet::new(alloc),
            number: 0,
        }
    }

    /// Adds a signal that is named by these bytes; whether one before it is.
    fn add(&mut self, stem: Vec<u8>) -> Result<bool, AllocError>
        requires { self.old.number < 2 ^ 64 - 1 }
        ensures there { IfOk result (λ there. there
            ≡ list_any (bytes_eq stem.items) self.old.names) }
        ensures names { OnOk result ((name : List ℕ) → list_any (bytes_eq name) self.new.names
            ≡ (list_any (bytes_eq name) self.old.names || bytes_eq name stem.items)) }
        ensures number { OnOk result (self.new.number ≡ self.old.number + 1) }
    {
        let added = self.stems.insert(stem)?;
        self.number += 1;
        Ok(!added)
    }

    /// Takes the signal of a line; whether it is told apart from those before it.
    fn take(&mut self, alloc: Global, scope: Scope, item: &Item) -> Result<bool, AllocError>
        requires { self.old.number < 2 ^ 64 - 1 }
        ensures apart { IfOk result (λ apart. apart
            ≡ (list_any (bytes_eq (stem_by scope self.old.number item.now.id item.now.symbol))
            self.old.names || ends_in_number
            (stem_by scope self.old.number item.now.id item.now.symbol))) }
        ensures names { OnOk result ((name : List ℕ) → list_any (bytes_eq name) self.new.names
            ≡ (list_any (bytes_eq name) self.old.names || bytes_eq name
            (stem_by scope self.old.number item.now.id item.now.symbol))) }
        ensures number { OnOk result (self.new.number ≡ self.old.number + 1) }
    {
        let stem = stem(alloc, scope, self.number, item)?;
        let ends = ends_in_number(stem.as_slice());
        let there = self.add(stem)?;
        Ok(there | ends)
    }
}

/// Whether the line at a place is a signal of a scope that is told apart from those before it.
fn is_marked(
    alloc: Global,
    seen: &mut Seen,
    model: &Model,
    shown: Shown,
    scope: Scope,
    place: usize,
    item: &Item,
) -> Result<bool, AllocError>
    requires well_formed { IsWellFormed model.now }
    requires at { slice_get model.now place ≡ Some item.now }
    requires seen { HasSeen shown model.now scope place seen.old }
    ensures marked { IfOk result (λ apart. apart
        ≡ is_marked_signal shown model.now scope item.now) }
    ensures seen { OnOk result (HasSeen shown model.now scope (place + 1) seen.new) }
{
    if !is_in(model, shown, scope, place, item) {
        return Ok(false);
    }
    seen.take(alloc, scope, item)
}

/// Puts behind other marks one for each line: whether it is a signal of a scope that is told apart.
fn push_marks(
    alloc: Global,
    marks: &mut Vec<bool>,
    model: &Model,
    shown: Shown,
    scope: Scope,
) -> Result<(), AllocError>
    ensures pushed { OnOk result (marks.new.items
        ≡ marks.old.items ++ scope_marks shown model.now scope) }
{
    let items = model.items();
    let mut seen = Seen::new(alloc);
    for (place, item) in items.iter().enumerate() {
        let apart = is_marked(alloc, &mut seen, model, shown, scope, place, item)?;
        marks.push(apart)?;
    }
    Ok(())
}

/// The marks of the lines of a model, scope by scope: which are told apart. Beside them the names of one scope are held.
pub(crate) fn marks(alloc: Global, model: &Model, shown: Shown) -> Result<Vec<bool>, AllocError>
    ensures { IfOk result (λ v. v.items ≡ marks shown model.now) }
{
    let scopes = scopes();
    let mut marks = Vec::new(alloc);
    for scope in &scopes {
        push_marks(alloc, &mut marks, model, shown, *scope)?;
    }
    Ok(marks)
}
