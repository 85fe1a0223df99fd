//! The passes over the lists of words of a run.
ghost use Rattle.std.specs.Prelude.{◌≡◌, ◌≢◌, ℕ, ◌<◌, ◌≤◌, length, map, All, slice_index};
ghost use Rattle.base.specs.Steps.{more_steps};
ghost use Rattle.runs.specs.Nodes.{settled_values, NodesFit, words_at, word_where, IsInside};

use crate::nodes::{Node, operator_word};
use base::Tally;

/// Gives each node that is an operator its word, from the words so far; all others have theirs. One step for each node.
pub(crate) fn settle_nodes(nodes: &[Node], values: &mut [u64], tally: &mut Tally)
    requires fit { NodesFit nodes.now values.old }
    requires most { length nodes.now ≤ length values.old }
    ensures values { values.new ≡ settled_values nodes.now values.old }
    ensures steps { tally.new ≡ more_steps (length values.old) tally.old }
{
    base::take_all(values.len() - nodes.len(), tally);
    for at in 0..nodes.len() {
        let node = &nodes[at];
        values[node.place] = operator_word(&node.operator, values, tally);
    }
}

/// The word at a place, where there is a place, and else 0.
fn word_where(values: &[u64], place: Option<usize>) -> u64
    requires { IsInside (length values.now) place }
    ensures { result ≡ word_where values.now place }
{
    match place {
        Some(place) => values[place],
        None => 0,
    }
}

/// Takes the words at some places, and 0 where there is none. One step for each.
pub(crate) fn take_words(
    values: &[u64],
    places: &[Option<usize>],
    taken: &mut [u64],
    tally: &mut Tally,
)
    requires inside { All (IsInside (length values.now)) places.now }
    requires as_many { length taken.old ≡ length places.now }
    ensures taken { taken.new ≡ map (word_where values.now) places.now }
    ensures steps { tally.new ≡ more_steps (length places.now) tally.old }
{
    for k in 0..places.len() {
        taken[k] = base::take(word_where(values, places[k]), tally);
    }
}

/// Puts words at some places, each of which stands there once.
pub(crate) fn put_words(words: &[u64], places: &[usize], values: &mut [u64])
    requires inside { All (λ p. p < length values.old) places.now }
    requires as_many { length words.now ≡ length places.now }
    requires once { (j k : ℕ) → j < k → k < length places.now
        → slice_index places.now j ≢ slice_index places.now k }
    ensures put { words_at values.new places.now ≡ words.now }
    ensures others { (p : ℕ) → ((k : ℕ) → k < length places.now → slice_index places.now k ≢ p)
        → slice_index values.new p ≡ slice_index values.old p }
    ensures as_many { length values.new ≡ length values.old }
{
    for k in 0..places.len() {
        values[places[k]] = words[k];
    }
}

/// Puts 0 at some places.
pub(crate) fn clear_words(places: &[usize], values: &mut [u64])
    requires inside { All (λ p. p < length values.old) places.now }
    ensures cleared { (k : ℕ) → k < length places.now
        → slice_index values.new (slice_index places.now k) ≡ 0 }
    ensures others { (p : ℕ) → ((k : ℕ) → k < length places.now → slice_index places.now k ≢ p)
        → slice_index values.new p ≡ slice_index values.old p }
    ensures as_many { length values.new ≡ length values.old }
{
    for k in 0..places.len() {
        values[places[k]] = 0;
    }
}
