//! What lines are to the lines that name them.
ghost use Rattle.std.specs.Prelude.{◌≡◌, option_map};
ghost use Rattle.fullmodel.specs.Lines.{sort_value};
ghost use Rattle.fullmodel.specs.Entries.{entry_sort, entry_node, is_state_entry, entry_by};

use crate::sorts::Sort;

/// What a line is to those that name it.
#[derive(Clone, Copy)]
pub(crate) enum Entry {
    /// A sort.
    Sort(Sort),
    /// A state of a sort.
    State(Sort),
    /// Another node of a sort.
    Node(Sort),
    /// A line without a value.
    Line,
}

/// The sort that it is.
pub(crate) fn sort_of(entry: Option<Entry>) -> Option<Sort>
    ensures { option_map sort_value result ≡ entry_sort entry }
{
    match entry {
        Some(Entry::Sort(sort)) => Some(sort),
        _ => None,
    }
}

/// The sort of a node with a value.
pub(crate) fn node_of(entry: Option<Entry>) -> Option<Sort>
    ensures { option_map sort_value result ≡ entry_node entry }
{
    match entry {
        Some(Entry::State(sort)) | Some(Entry::Node(sort)) => Some(sort),
        _ => None,
    }
}

/// Whether it is a state.
pub(crate) fn is_state(entry: Option<Entry>) -> bool
    ensures { result ≡ is_state_entry entry }
{
    matches!(entry, Some(Entry::State(_)))
}

/// What a line is by the sort that it makes, the sort of its node, and whether it is a state.
pub(crate) fn entry_by(made: Option<Sort>, node: Option<Sort>, state: bool) -> Entry
    ensures { result ≡ entry_by (option_map sort_value made) (option_map sort_value node) state }
{
    match made {
        Some(sort) => Entry::Sort(sort),
        None => match node {
            Some(sort) => {
                if state {
                    Entry::State(sort)
                } else {
                    Entry::Node(sort)
                }
            }
            None => Entry::Line,
        },
    }
}
