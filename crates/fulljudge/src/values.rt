//! The sorts of a model's states, or of its inputs, and where the words stand by which their values are told.
ghost use Rattle.std.specs.Prelude.{◌≡◌, ◌+◌, ◌<◌, ◌≤◌, ◌^◌, [], ◌∷◌, ◌++◌, None, Some, true, false, length, slice_get, IfOk, OnOk, MatchOption};
ghost use Rattle.btor2.specs.Items.{node_sort};
ghost use Rattle.fullmodel.specs.Lines.{sort_value, line_of};
ghost use Rattle.fulljudge.specs.Shapes.{full_shape, word_count, first_index};
ghost use Rattle.fulljudge.specs.Kept.{words_in, kind_of, sorts_among};

use btor2::Body;
use fullmodel::{FullModel, Line, Says, Sort};
use std::alloc::{AllocError, Global};

/// Of what values are.
#[derive(Clone, Copy)]
enum Kind {
    /// Of the states.
    States,
    /// Of the inputs.
    Inputs,
}

/// A value of a state or of an input.
#[derive(Clone, Copy)]
pub struct Value {
    /// Its sort.
    pub sort: Sort,
    /// The index of its first word, among the words of all.
    pub first: u64,
}

/// How many words there are by which a value of a sort is told.
pub(crate) fn word_count(sort: Sort) -> u64
    requires { word_count (sort_value sort) < 2 ^ 64 }
    ensures { result ≡ word_count (sort_value sort) }
{
    match sort {
        Sort::Words(_) => 1,
        Sort::Arrays { index, .. } => 1 << index,
    }
}

/// The id of the sort that a form names, where it is of a kind.
fn sort_named(kind: Kind, body: &Body) -> Option<u32>
    ensures { MatchOption result (kind_of kind body.now ≡ false)
        (λ s. (kind_of kind body.now ≡ true) × (node_sort body.now ≡ Some s)) }
{
    match (kind, body) {
        (Kind::States, Body::State { sort }) => Some(*sort),
        (Kind::Inputs, Body::Input { sort }) => Some(*sort),
        _ => None,
    }
}

/// The sorts of a model's states, or of its inputs, in file order, and where the words stand by which their values are told: of a
/// word itself, of an array each of its cells. It holds a sort and a number for each.
///
/// Clauses see the list of the sorts.
#[derive(Drop)]
pub struct Values {
    list: Vec<Value>,
    // how many words there are
    words: u64,
}

impl std::marker::Model for Values {
    ghost use Rattle.std.specs.Prelude.{List, map};
    ghost use Rattle.full.specs.Lines.{Sort};
    ghost use Rattle.fulljudge.specs.Kept.{sort_kept, AreKept};

    ghost Value = { List Sort };

    ghost view = { λ v. map sort_kept v.list.items };

    ghost invariant = { λ v. AreKept v.list.items v.words };
}

impl Values {
    /// Puts a sort behind the others.
    fn put(&mut self, sort: Sort) -> Result<(), AllocError>
        requires { words_in self.old + word_count (sort_value sort) < 2 ^ 64 }
        ensures { OnOk result (self.new ≡ self.old ++ sort_value sort ∷ []) }
    {
        let count = word_count(sort);
        let first = self.words;
        self.list.push(Value { sort, first })?;
        self.words += count;
        Ok(())
    }

    /// Adds a line of a model.
    fn add_line(&mut self, model: &FullModel, kind: Kind, line: &Line) -> Result<(), AllocError>
        requires { words_in self.old + 2 ^ 20 < 2 ^ 64 }
        ensures sorts { OnOk result (self.new ≡ self.old
            ++ sorts_among model.now (kind_of kind) (line_of line.now ∷ [])) }
        ensures few { OnOk result (words_in self.new ≤ words_in self.old + 2 ^ 20) }
    {
        let Says::Form { body, .. } = &line.says else {
            return Ok(());
        };
        let Some(id) = sort_named(kind, body) else {
            return Ok(());
        };
        match model.sort_at(id) {
            Some(sort) => self.put(sort),
            None => self.put(Sort::Words(0)),
        }
    }

    /// Those of the states, or of the inputs, of a model.
    fn of_kind(alloc: Global, model: &FullModel, kind: Kind) -> Result<Values, AllocError>
        ensures { IfOk result (λ v. v ≡ sorts_among model.now (kind_of kind) model.now) }
    {
        let mut values = Values {
            list: Vec::new(alloc),
            words: 0,
        };
        for line in model.lines() {
            values.add_line(model, kind, line)?;
        }
        Ok(values)
    }

    /// Those of the states of a model.
    ///
    /// Error: a growth was refused.
    pub fn of_states(alloc: Global, model: &FullModel) -> Result<Values, AllocError>
        ensures { IfOk result (λ v. v ≡ (full_shape model.now).states) }
    {
        Values::of_kind(alloc, model, Kind::States)
    }

    /// Those of the inputs of a model.
    ///
    /// Error: a growth was refused.
    pub fn of_inputs(alloc: Global, model: &FullModel) -> Result<Values, AllocError>
        ensures { IfOk result (λ v. v ≡ (full_shape model.now).inputs) }
    {
        Values::of_kind(alloc, model, Kind::Inputs)
    }

    /// How many words there are by which all values are told.
    pub fn words(&self) -> u64
        ensures { result ≡ words_in self.now }
    {
        let _ = &self.list;
        self.words
    }

    /// How many values there are.
    pub fn count(&self) -> u64
        ensures { result ≡ length self.now }
    {
        self.list.len() as u64
    }

    /// The value with an index; none behind the last.
    pub fn value(&self, index: u64) -> Option<Value>
        ensures value { MatchOption result (slice_get self.now index ≡ None)
            (λ v. (slice_get self.now index ≡ Some (sort_value v.sort)) × (v.first ≡ first_index self.now index)) }
        ensures few { words_in self.now < 2 ^ 64 }
    {
        if index < self.list.len() as u64 {
            Some(self.list[index as usize])
        } else {
            None
        }
    }
}
