//! Words by their ids, as nodes of the narrow model.
ghost use Rattle.std.specs.Prelude.{◌≡◌, ℕ, ◌+◌, ◌≤◌, ◌++◌, nat_eq, Some, OnOk, OnErr, IfErr, length, take, drop, vec_len};
ghost use Rattle.pieces.specs.declared.shortage.Shortage.TheVariants as shortage;
ghost use Rattle.std.specs.HashMap.{get};
ghost use Rattle.fitting.specs.declared.words.Span.{Span};

use indexmap::IndexMap;
use pieces::{Node, Shortage};
use std::alloc::Global;

/// Where the nodes of a word stand among all.
#[derive(Clone, Copy)]
struct Span {
    // the place of the first
    start: usize,
    // how many they are
    count: usize,
}

/// Words by their ids: of each its nodes, the lowest first.
#[derive(Drop)]
pub(crate) struct Words {
    spans: IndexMap<u64, Span>,
    // the nodes of all words, those of a word one behind the other
    nodes: Vec<Node>,
    ghost within: { (id : ℕ) (s : Span) → get nat_eq spans id ≡ Some s → s.start + s.count ≤ vec_len nodes },
}

/// So many elements of a slice, from a place on.
fn part(nodes: &[Node], start: usize, count: usize) -> &[Node]
    requires { start + count ≤ length nodes.now }
    ensures { result.now ≡ take count (drop start nodes.now) }
{
    let (_, behind) = nodes.split_at(start);
    let (word, _) = behind.split_at(count);
    word
}

/// Adds nodes to a list.
fn add_all(list: &mut Vec<Node>, nodes: &[Node]) -> Result<(), Shortage>
    ensures ok { OnOk result (list.new.items ≡ list.old.items ++ nodes.now) }
    ensures stands { OnErr result (list.new.items ≡ list.old.items) }
    ensures short { IfErr result (λ e. e ≡ shortage.NoMemory) }
{
    match list.extend_from_slice(nodes) {
        Ok(()) => Ok(()),
        Err(_) => Err(Shortage::NoMemory),
    }
}

impl Words {
    ghost use Rattle.std.specs.Prelude.{◌==◌, [], if◌then◌else◌};
    ghost use Rattle.fitting.specs.Fitters.{word_at};

    /// No words.
    pub(crate) fn new(alloc: Global) -> Words
        ensures { (id : ℕ) → word_at result id ≡ [] }
    {
        Words {
            spans: IndexMap::new(alloc),
            nodes: Vec::new(alloc),
        }
    }

    /// The nodes of a word by its id, the lowest first. There are none where there is no such word.
    pub(crate) fn get(&self, id: u32) -> &[Node]
        ensures { result.now ≡ word_at self.now id }
    {
        match self.spans.get(&u64::from(id)) {
            Some(span) => part(self.nodes.as_slice(), span.start, span.count),
            None => &[],
        }
    }

    /// Gives an id a word.
    pub(crate) fn put(&mut self, id: u64, nodes: &[Node]) -> Result<(), Shortage>
        ensures word { OnOk result ((k : ℕ) → word_at self.new k
            ≡ (if id == k then nodes.now else word_at self.old k)) }
        ensures short { IfErr result (λ e. e ≡ shortage.NoMemory) }
    {
        let span = Span {
            start: self.nodes.len(),
            count: nodes.len(),
        };
        add_all(&mut self.nodes, nodes)?;
        match self.spans.insert(id, span) {
            Ok(_) => Ok(()),
            Err(_) => Err(Shortage::NoMemory),
        }
    }
}
