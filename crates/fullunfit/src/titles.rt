//! What stands beside the digits of a word in a witness over a model of the whole language.
ghost use Rattle.std.specs.Prelude.{◌≡◌, ◌<◌, ◌≤◌, ◌^◌, ◌++◌, [], length, slice_get, unwrap_or};
ghost use Rattle.fullmodel.specs.Lines.{sort_value};
ghost use Rattle.fulljudge.specs.Compared.{has_other_node};
ghost use Rattle.fulljudge.specs.Shapes.{value_of_word, word_count};
ghost use Rattle.fulljudge.specs.Kept.{words_in};
ghost use Rattle.unfit.specs.Joined.{is_told, listed};
ghost use Rattle.fullunfit.specs.Titles.{first_fronts, value_front, word_front, word_fronts, word_symbols};

use base::Line;
use btor2::Symbol;
use fulljudge::{StateWords, Value, Values, value_of_word};
use fullmodel::Sort;
use unfit::{Titles, add_digits, add_name};

/// Puts what stands before the digits of a cell of the value with an index in front of a line.
fn add_value_front(line: &mut Line, value: Value, index: u64, cell: u64)
    requires line { length line.old ≤ 1 }
    requires cells { word_count (sort_value value.sort) < 2 ^ 64 }
    ensures { line.new ≡ value_front (sort_value value.sort) index cell ++ line.old }
{
    match value.sort {
        Sort::Words(_) => line.number(index),
        Sort::Arrays { index: bits, .. } => {
            line.byte(b']');
            add_digits(line, bits, cell);
            line.byte(b'[');
            line.byte(b' ');
            line.number(index);
        }
    }
}

/// Puts what stands before the digits of a word in front of a line.
fn add_word_front(line: &mut Line, values: &Values, word: u64)
    requires line { length line.old ≤ 1 }
    requires word { word < words_in values.now }
    ensures { line.new ≡ word_front values.now word ++ line.old }
{
    let index = value_of_word(values, word);
    match values.value(index) {
        Some(value) => add_value_front(line, value, index, word.saturating_sub(value.first)),
        None => unreachable!(),
    }
}

/// The node at a place, and 0 behind the last.
fn node_at(nodes: &[u32], place: u64) -> u32
    ensures { result ≡ unwrap_or (slice_get nodes.now place) 0 }
{
    if place < nodes.len() as u64 {
        nodes[place as usize]
    } else {
        0
    }
}

/// The words of the values of a model's states, or of its inputs, each told by its value, and with its value's name.
#[derive(Drop)]
pub(crate) struct ByValue<'v> {
    values: &'v Values,
    symbols: &'v [Option<Symbol>],
    // the nodes of the states' leaves, and of the states; of inputs none
    leaves: &'v [u32],
    nodes: &'v [u32],
}

impl<'v> ByValue<'v> {
    /// Those of inputs of such values, with these symbols.
    pub(crate) fn of_inputs(values: &'v Values, symbols: &'v [Option<Symbol>]) -> ByValue<'v>
        ensures values { result.values.now ≡ values.now }
        ensures symbols { result.symbols.now ≡ symbols.now }
        ensures leaves { result.leaves.now ≡ [] }
        ensures nodes { result.nodes.now ≡ [] }
    {
        ByValue {
            values,
            symbols,
            leaves: &[],
            nodes: &[],
        }
    }

    /// Those of states, whose words stand there. Of one that has another node than its leaf's nothing is told in the first frame.
    pub(crate) fn of_states(
        values: &'v Values,
        symbols: &'v [Option<Symbol>],
        words: &'v StateWords,
    ) -> ByValue<'v>
        ensures values { result.values.now ≡ values.now }
        ensures symbols { result.symbols.now ≡ symbols.now }
        ensures leaves { result.leaves.now ≡ words.now.leaves }
        ensures nodes { result.nodes.now ≡ words.now.nodes }
    {
        ByValue {
            values,
            symbols,
            leaves: words.leaves.as_slice(),
            nodes: words.nodes.as_slice(),
        }
    }

    /// Whether of a word nothing is told in the first frame.
    fn is_left_out(&self, word: u64) -> bool
        ensures { result ≡ has_other_node self.now.leaves.now self.now.nodes.now
            (value_of_word self.now.values.now word) }
    {
        let place = value_of_word(self.values, word);
        node_at(self.leaves, place) != node_at(self.nodes, place)
    }

    /// Whether a word is told in a frame.
    fn tells_word(&self, frame: u64, word: u64) -> bool
        ensures { result ≡ is_told (listed (first_fronts self.now.values.now self.now.leaves.now self.now.nodes.now)
            (word_fronts self.now.values.now)) frame word }
    {
        if word >= self.values.words() {
            return false;
        }
        frame > 0 || !self.is_left_out(word)
    }
}

impl<'v> Titles for ByValue<'v> {
    ghost fronts = { λ t. listed (first_fronts t.values.now t.leaves.now t.nodes.now) (word_fronts t.values.now) };

    ghost symbols = { λ t. word_symbols t.values.now t.symbols.now };

    fn tells(&self, frame: u64, index: usize) -> bool {
        self.tells_word(frame, index as u64)
    }

    fn add_front(&self, line: &mut Line, frame: u64, index: usize) {
        let word = index as u64;
        if self.tells_word(frame, word) {
            add_word_front(line, self.values, word);
        }
    }

    fn add_name(&self, line: &mut Line, frame: u64, index: usize) {
        let word = index as u64;
        if word < self.values.words() {
            let value = value_of_word(self.values, word);
            add_name(line, self.symbols, frame, value as usize);
        }
    }
}
