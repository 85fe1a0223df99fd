//! Words that are told of states, beside those that the states have in the first frame.
ghost use Rattle.std.specs.Prelude.{◌≡◌, ℕ, ◌+◌, ◌*◌, ◌<◌, ◌≤◌, ◌^◌, List, true, false, length, slice_get, Some, None, MatchOption};
ghost use Rattle.btor2.specs.declared.item.Item.{Item};
ghost use Rattle.btor2.specs.Trace.{Frame};
ghost use Rattle.fullmodel.specs.Lines.{sort_value};
ghost use Rattle.full.specs.Lines.{Sort as SortValue};
ghost use Rattle.witness.specs.WordStands.{StandsForWitness};
ghost use Rattle.witness.specs.ClosedWords.{IsClosedTrace, last_word};
ghost use Rattle.fulljudge.specs.Compared.{Tells, bit_in, DifferWithin, flag_at, IsToldOtherwise, DiffersFirst, IsFound};
ghost use Rattle.fulljudge.specs.Shapes.{word_count, word_width};

use crate::values::{Value, Values, word_count};
use base::Rows;
use fullmodel::Sort;
use witness::WordJudge;

/// Where the words of a model's states stand in what the model became, in file order.
#[derive(Drop)]
pub struct StateWords {
    /// In the list that it is written out as, the nodes with the words of the states' leaves.
    pub leaves: Vec<u32>,
    /// The nodes with the states' words.
    pub nodes: Vec<u32>,
    /// Of the ones, and behind them of the others, the positions of their pieces in the fitted model's items, the lowest first.
    pub places: Rows<usize>,
}

impl std::marker::Model for StateWords {
    ghost use Rattle.fulljudge.specs.Compared.{StateWords as StateWordsValue};

    ghost Value = { StateWordsValue };

    ghost view = { λ w. record { leaves = w.leaves.items; nodes = w.nodes.items; places = w.places } };
}

/// How many bits a word has by which a value of a sort is told.
fn word_width(sort: Sort) -> u64
    ensures { result ≡ word_width (sort_value sort) }
{
    match sort {
        Sort::Words(width) => width,
        Sort::Arrays { element, .. } => element,
    }
}

/// Whether a bit of the word of pieces is 1, in the frame that was closed last.
fn bit_in(judge: &WordJudge<'_>, pieces: &[usize], place: u128) -> bool
    ensures { (items : List Item) (text : List ℕ) (fs : List Frame)
        → StandsForWitness items judge.now text → IsClosedTrace items text fs
        → result ≡ bit_in (last_word items text fs) pieces.now place }
{
    let index = place / 64;
    if index >= pieces.len() as u128 {
        return false;
    }
    let word = judge.closed_word(pieces[index as usize]).unwrap_or(0);
    (word >> (place % 64) as u64) % 2 == 1
}

/// Whether two words differ in one of so many bits from a place on.
fn differ_within(
    judge: &WordJudge<'_>,
    one: &[usize],
    other: &[usize],
    from: u128,
    count: u64,
) -> bool
    requires { from + count < 2 ^ 128 }
    ensures { (items : List Item) (text : List ℕ) (fs : List Frame)
        → StandsForWitness items judge.now text → IsClosedTrace items text fs
        → Tells result (DifferWithin (last_word items text fs) one.now other.now from count) }
{
    for place in 0..count {
        let at = from + u128::from(place);
        if bit_in(judge, one, at) != bit_in(judge, other, at) {
            return true;
        }
    }
    false
}

/// Whether of a value one of the words that are told is another in the one than in the other.
fn is_told_otherwise(
    judge: &WordJudge<'_>,
    value: Value,
    flags: &[bool],
    leaf: &[usize],
    node: &[usize],
) -> bool
    requires { value.first + word_count (sort_value value.sort) < 2 ^ 64 }
    ensures { (items : List Item) (text : List ℕ) (fs : List Frame)
        → StandsForWitness items judge.now text → IsClosedTrace items text fs
        → Tells result (IsToldOtherwise (last_word items text fs) flags.now (sort_value value.sort) value.first leaf.now node.now) }
{
    let width = word_width(value.sort);
    for cell in 0..word_count(value.sort) {
        if flag_at(flags, value.first + cell)
            && differ_within(
                judge,
                leaf,
                node,
                u128::from(cell) * u128::from(width),
                width,
            )
        {
            return true;
        }
    }
    false
}

/// The flag of the word with an index, and false behind the last.
fn flag_at(flags: &[bool], index: u64) -> bool
    ensures { result ≡ flag_at flags.now index }
{
    match flags.get(index as usize) {
        Some(flag) => *flag,
        None => false,
    }
}

impl StateWords {
    /// How many states there are.
    fn count(&self) -> usize
        ensures { result ≡ length self.now.leaves }
    {
        self.leaves.len()
    }

    /// Whether the state with an index has another node than its leaf's.
    fn is_apart(&self, index: usize) -> bool
        ensures { result ≡ false → slice_get self.now.leaves index ≡ slice_get self.now.nodes index }
    {
        match (self.leaves.get(index), self.nodes.get(index)) {
            (Some(leaf), Some(node)) => *leaf != *node,
            _ => true,
        }
    }

    /// Whether the state with an index is told otherwise.
    fn is_otherwise(
        &self,
        judge: &WordJudge<'_>,
        states: &Values,
        flags: &[bool],
        index: usize,
    ) -> bool
        requires { index < length self.now.leaves }
        ensures { (items : List Item) (text : List ℕ) (fs : List Frame)
            → StandsForWitness items judge.now text → IsClosedTrace items text fs
            → Tells result (DiffersFirst (last_word items text fs) flags.now states.now self.now index) }
    {
        let Some(value) = states.value(index as u64) else {
            return false;
        };
        let behind = self.count() as u128 + index as u128;
        if behind >= self.places.len() as u128 {
            return false;
        }
        is_told_otherwise(
            judge,
            value,
            flags,
            self.places.row(index),
            self.places.row(behind as usize),
        )
    }

    /// A state that is told otherwise than it is in the frame that was closed last, where there is one.
    pub(crate) fn first_otherwise(
        &self,
        judge: &WordJudge<'_>,
        states: &Values,
        flags: &[bool],
    ) -> Option<u64>
        ensures { (items : List Item) (text : List ℕ) (fs : List Frame)
            → StandsForWitness items judge.now text → IsClosedTrace items text fs
            → IsFound (last_word items text fs) flags.now states.now self.now result }
    {
        for index in 0..self.count() {
            if self.is_apart(index) && self.is_otherwise(judge, states, flags, index) {
                return Some(index as u64);
            }
        }
        None
    }
}
