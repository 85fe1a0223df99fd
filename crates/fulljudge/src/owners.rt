//! The value that a word is of.
ghost use Rattle.std.specs.Prelude.{◌≡◌, ◌<◌, length};
ghost use Rattle.fulljudge.specs.Shapes.{first_index, value_of_word};
ghost use Rattle.fulljudge.specs.Kept.{words_in};

use crate::values::Values;

/// The index of the first word of a value, among the words of all.
fn first_word(values: &Values, index: u64) -> u64
    requires { index < length values.now }
    ensures { result ≡ first_index values.now index }
{
    match values.value(index) {
        Some(value) => value.first,
        None => unreachable!(),
    }
}

/// The index of the value that a word is of, by halves.
fn owner(values: &Values, word: u64) -> u64
    requires { word < words_in values.now }
    ensures { result ≡ value_of_word values.now word }
{
    let mut low = 0;
    let mut high = values.count();
    while high - low > 1 {
        let middle = low + (high - low) / 2;
        if first_word(values, middle) <= word {
            low = middle;
        } else {
            high = middle;
        }
    }
    low
}

/// The index of the value that a word is of, among the words by which all values are told, and how many there are where the word
/// is none of them.
pub fn value_of_word(values: &Values, word: u64) -> u64
    ensures { result ≡ value_of_word values.now word }
{
    if word < values.words() {
        owner(values, word)
    } else {
        values.count()
    }
}
