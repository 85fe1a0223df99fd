//! What items are to the lines that name them.
ghost use Rattle.std.specs.Prelude.{◌≡◌, ◌≤◌, IfSome, None};
ghost use Rattle.btor2.specs.Entries.{entry_sort, entry_node, entry_by};

use base::Width;

/// What an item is to those that name it: two bytes, so that a look-up of an operand's width touches no item.
#[derive(Clone, Copy)]
pub(crate) enum Entry {
    /// A sort of words of so many bits.
    Sort(Width),
    /// A node whose words have so many bits.
    Node(Width),
    /// A line without a value.
    Other,
}

impl Entry {
    /// The width of a sort.
    pub(crate) fn sort_width(self) -> Option<u64>
        ensures value { result ≡ entry_sort self }
        ensures range { IfSome result (λ n. (1 ≤ n) × (n ≤ 64)) }
    {
        match self {
            Entry::Sort(width) => Some(width.bits()),
            Entry::Node(_) | Entry::Other => None,
        }
    }

    /// The width of a node.
    pub(crate) fn node(self) -> Option<Width>
        ensures { result ≡ entry_node self }
    {
        match self {
            Entry::Node(width) => Some(width),
            Entry::Sort(_) | Entry::Other => None,
        }
    }

    /// What a node of this sort is.
    pub(crate) fn of_node(self) -> Entry
        ensures { result ≡ entry_by None (entry_sort self) }
    {
        match self {
            Entry::Sort(width) => Entry::Node(width),
            Entry::Node(_) | Entry::Other => Entry::Other,
        }
    }
}
