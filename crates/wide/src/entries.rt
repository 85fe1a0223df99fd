//! What items are to the lines that name them.
ghost use Rattle.std.specs.Prelude.{◌≡◌};
ghost use Rattle.wide.specs.Entries.{entry_sort, entry_node, is_state_entry, is_constant_entry};

/// What an item is to those that name it.
#[derive(Clone, Copy)]
pub(crate) enum Entry {
    /// A sort of words of so many bits.
    Sort(u64),
    /// A state whose words have so many bits.
    State(u64),
    /// A constant node whose word has so many bits.
    Constant(u64),
    /// Another node whose words have so many bits.
    Node(u64),
    /// A line without a value.
    Line,
}

/// The width of a sort.
pub(crate) fn sort_of(entry: Option<Entry>) -> Option<u64>
    ensures { result ≡ entry_sort entry }
{
    match entry {
        Some(Entry::Sort(width)) => Some(width),
        _ => None,
    }
}

/// The width of a node with a value.
pub(crate) fn node_of(entry: Option<Entry>) -> Option<u64>
    ensures { result ≡ entry_node entry }
{
    match entry {
        Some(Entry::State(width)) | Some(Entry::Constant(width)) | Some(Entry::Node(width)) => Some(
            width,
        ),
        _ => None,
    }
}

/// Whether it is a state.
pub(crate) fn is_state(entry: Option<Entry>) -> bool
    ensures { result ≡ is_state_entry entry }
{
    matches!(entry, Some(Entry::State(_)))
}

/// Whether it is a constant node.
pub(crate) fn is_constant(entry: Option<Entry>) -> bool
    ensures { result ≡ is_constant_entry entry }
{
    matches!(entry, Some(Entry::Constant(_)))
}
