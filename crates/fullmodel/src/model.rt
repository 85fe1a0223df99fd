//! Models of the whole safety language: checked lists of lines.
ghost use Rattle.std.specs.Prelude.{◌≡◌, ◌<◌, ◌≤◌, [], None, Some, true, IfSome, length, map, option_map, is_some, slice_get};
ghost use Rattle.std.specs.List.{AllByRecursion};
ghost use Rattle.std.specs.Option.{IfNone};
ghost use Rattle.full.specs.Lines.{FullLine, find_line, sort_size, sort_at, sort_of_node, init_of, next_of};
ghost use Rattle.wide.specs.WideModels.{greatest_width};
ghost use Rattle.full.specs.Agreement.{names_full_state, IsFullModel};
ghost use Rattle.fullmodel.specs.Lines.{line_of, operand_of, sort_value, HasNoDigits};
ghost use Rattle.fullmodel.specs.FullModels.{IsAccepted};
ghost use Rattle.fullmodel.specs.Entries.{entry_at};

mod check;
mod push;
mod rows;

use crate::entries::{Entry, is_state, node_of, sort_of};
use crate::line::{Line, Operand};
use crate::sorts::Sort;
use indexmap::IndexMap;
use std::alloc::Global;

/// A model of the whole safety language: a list of lines, each accepted after those before it.
///
/// Clauses see the list of its lines as `full` has them.
#[derive(Drop)]
pub struct FullModel {
    lines: Vec<Line>,
    // by their ids, what the lines are to those that name them, in file order
    entries: IndexMap<u64, Entry>,
    // from the id of a state to the value of its init line, and of its next line
    inits: IndexMap<u64, Operand>,
    nexts: IndexMap<u64, Operand>,
}

impl std::marker::Model for FullModel {
    ghost use Rattle.std.specs.Prelude.{List};
    ghost use Rattle.full.specs.Lines.{FullLine};
    ghost use Rattle.fullmodel.specs.Lines.{lines_in};

    ghost Value = { List FullLine };

    ghost view = { λ m. lines_in m.lines.items };

    ghost use Rattle.fullmodel.specs.Index.{IsIndexed};

    ghost invariant = { IsIndexed };
}

impl FullModel {
    /// A model of no lines.
    pub fn new(alloc: Global) -> FullModel
        ensures { result ≡ [] }
    {
        FullModel {
            lines: Vec::new(alloc),
            entries: IndexMap::new(alloc),
            inits: IndexMap::new(alloc),
            nexts: IndexMap::new(alloc),
        }
    }

    /// The lines, in file order.
    pub fn lines(&self) -> &[Line]
        ensures lines { map line_of result.now ≡ self.now }
        ensures accepted { IsAccepted self.now }
        ensures model { IsFullModel self.now }
        ensures ids { AllByRecursion (λ (x : FullLine). find_line self.now x.id ≡ Some x) self.now }
        ensures forms { AllByRecursion (λ x. HasNoDigits x.says) result.now }
    {
        self.lines.as_slice()
    }

    /// The position in `lines` of the line with an id.
    pub fn position(&self, id: u32) -> Option<usize>
        ensures found { IfSome result (λ p. find_line self.now id ≡ slice_get self.now p) }
        ensures none { IfNone result (find_line self.now id ≡ None) }
        ensures within { IfSome result (λ p. p < length self.now) }
    {
        self.entries.get_index_of(&u64::from(id))
    }

    /// What the line with an id is to those that name it.
    fn entry(&self, id: u32) -> Option<Entry>
        ensures { result ≡ entry_at self.now id }
    {
        self.entries.get(&u64::from(id)).copied()
    }

    /// The sort with an id.
    pub fn sort_at(&self, id: u32) -> Option<Sort>
        ensures sort { option_map sort_value result ≡ sort_at self.now id }
        ensures size { IfSome result (λ s. (1 ≤ sort_size (sort_value s)) × (sort_size (sort_value s) ≤ greatest_width)) }
    {
        let _ = &self.lines;
        sort_of(self.entry(id))
    }

    /// The sort of the node with a value that has an id.
    pub fn sort_of_node(&self, id: u32) -> Option<Sort>
        ensures sort { option_map sort_value result ≡ sort_of_node self.now id }
        ensures size { IfSome result (λ s. (1 ≤ sort_size (sort_value s)) × (sort_size (sort_value s) ≤ greatest_width)) }
    {
        let _ = &self.lines;
        node_of(self.entry(id))
    }

    /// Whether an id is that of a state.
    ///
    /// Condition: it is that of a node with a value.
    fn names_state(&self, id: u32) -> bool
        requires { is_some (sort_of_node self.now id) ≡ true }
        ensures { result ≡ names_full_state self.now id }
    {
        is_state(self.entry(id))
    }

    /// The value of the init line of a state, where it has one.
    pub fn init_of(&self, state: u32) -> Option<Operand>
        ensures { option_map operand_of result ≡ init_of self.now state }
    {
        self.inits.get(&u64::from(state)).copied()
    }

    /// The value of the next line of a state, where it has one.
    pub fn next_of(&self, state: u32) -> Option<Operand>
        ensures { option_map operand_of result ≡ next_of self.now state }
    {
        self.nexts.get(&u64::from(state)).copied()
    }
}
