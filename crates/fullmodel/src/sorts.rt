//! Sorts, and how they agree.
ghost use Rattle.std.specs.Prelude.{◌≡◌, ◌≤◌, ◌+◌, ◌-◌, ◌*◌, ◌^◌, ◌&&◌, ◌||◌, ◌==◌, not, true, nat_le, option_map, Some};
ghost use Rattle.base.specs.Widths.{unary_width, binary_width, is_of_bits};
ghost use Rattle.wide.specs.WideModels.{greatest_width};
ghost use Rattle.full.specs.Lines.{words, arrays};
ghost use Rattle.full.specs.Agreement.{is_words, element_sort};
ghost use Rattle.fullmodel.specs.Lines.{sort_value};
ghost use Rattle.fullmodel.specs.FullModels.{width_in, index_sort, same_sort, is_bit, makes_arrays, is_no_slice_of, is_equality, binary_agrees, read_agrees, write_agrees};

use base::{Binary, Unary};

/// A sort.
#[derive(Clone, Copy)]
pub enum Sort {
    /// Words of so many bits.
    Words(u64),
    /// Arrays of words.
    Arrays {
        /// How many bits an index has.
        index: u64,
        /// How many bits an element has.
        element: u64,
    },
}

/// The greatest width of a word, and of an array.
const GREATEST_WIDTH: u64 = 1_048_576;

/// Whether it is one of words.
pub(crate) fn is_words(sort: Option<Sort>) -> bool
    ensures { result ≡ is_words (option_map sort_value sort) }
{
    match sort {
        Some(Sort::Words(_)) => true,
        Some(Sort::Arrays { .. }) => false,
        None => false,
    }
}

/// The width of words.
pub(crate) fn width_in(sort: Option<Sort>) -> u64
    ensures { result ≡ width_in (option_map sort_value sort) }
{
    match sort {
        Some(Sort::Words(width)) => width,
        Some(Sort::Arrays { .. }) => 0,
        None => 0,
    }
}

/// Whether it is one of words of one bit.
pub(crate) fn is_bit(sort: Option<Sort>) -> bool
    ensures { result ≡ is_bit (option_map sort_value sort) }
{
    match sort {
        Some(Sort::Words(width)) => width == 1,
        Some(Sort::Arrays { .. }) => false,
        None => false,
    }
}

/// The sort of an array's elements.
pub(crate) fn element_sort(sort: Option<Sort>) -> Option<Sort>
    ensures { option_map sort_value result ≡ element_sort (option_map sort_value sort) }
{
    match sort {
        Some(Sort::Words(_)) => None,
        Some(Sort::Arrays { element, .. }) => Some(Sort::Words(element)),
        None => None,
    }
}

/// The sort of an array's indices.
fn index_sort(sort: Option<Sort>) -> Option<Sort>
    ensures { option_map sort_value result ≡ index_sort (option_map sort_value sort) }
{
    match sort {
        Some(Sort::Words(_)) => None,
        Some(Sort::Arrays { index, .. }) => Some(Sort::Words(index)),
        None => None,
    }
}

/// Whether a sort is that of words of so many bits.
fn is_of_words(sort: Option<Sort>, width: u64) -> bool
    ensures { result ≡ same_sort (Some (words width)) (option_map sort_value sort) }
{
    match sort {
        Some(Sort::Words(other)) => width == other,
        Some(Sort::Arrays { .. }) => false,
        None => false,
    }
}

/// Whether a sort is that of arrays by such indices of such elements.
fn is_of_arrays(sort: Option<Sort>, index: u64, element: u64) -> bool
    ensures { result ≡ same_sort (Some (arrays index element)) (option_map sort_value sort) }
{
    match sort {
        Some(Sort::Words(_)) => false,
        Some(
            Sort::Arrays {
                index: width,
                element: bits,
            },
        ) => index == width && element == bits,
        None => false,
    }
}

/// Whether both are there, and one sort.
pub(crate) fn same_sort(first: Option<Sort>, second: Option<Sort>) -> bool
    ensures { result ≡ same_sort (option_map sort_value first) (option_map sort_value second) }
{
    match first {
        Some(Sort::Words(width)) => is_of_words(second, width),
        Some(Sort::Arrays { index, element }) => is_of_arrays(second, index, element),
        None => false,
    }
}

/// Whether an array of 2 to the width of an index such elements has at most the greatest width.
///
/// Condition: an element has a bit.
fn has_room(index: u64, element: u64) -> bool
    requires { 1 ≤ element }
    ensures { result ≡ nat_le (2 ^ index * element) greatest_width }
{
    if index > 20 {
        return false;
    }
    u128::from(element) << index <= u128::from(GREATEST_WIDTH)
}

/// Whether a sort of arrays is made of the sorts of index and element.
///
/// Condition: an element has a bit.
pub(crate) fn makes_arrays(index: Option<Sort>, element: Option<Sort>) -> bool
    requires { is_words (option_map sort_value element) ≡ true → 1 ≤ width_in (option_map sort_value element) }
    ensures { result ≡ makes_arrays (option_map sort_value index) (option_map sort_value element) }
{
    if !is_words(index) {
        return false;
    }
    if !is_words(element) {
        return false;
    }
    has_room(width_in(index), width_in(element))
}

/// Whether the bits `upper` down to `lower` are not those of the word that a slice is of.
pub(crate) fn is_no_slice_of(sort: Option<Sort>, upper: u32, lower: u32) -> bool
    ensures { result ≡ is_no_slice_of (option_map sort_value sort) upper lower }
{
    match sort {
        Some(Sort::Words(width)) => !(lower <= upper && u64::from(upper) < width),
        Some(Sort::Arrays { .. }) => false,
        None => false,
    }
}

/// Whether a node that widens another by so many bits is of its sort.
pub(crate) fn extension_agrees(sort: Option<Sort>, operand: Option<Sort>, by: u64) -> bool
    ensures { result ≡ ((is_words (option_map sort_value sort) && is_words (option_map sort_value operand))
        && (width_in (option_map sort_value sort) == width_in (option_map sort_value operand) + by)) }
{
    let sum = u128::from(width_in(operand)) + u128::from(by);
    is_words(sort) && is_words(operand) && u128::from(width_in(sort)) == sum
}

/// Whether a slice is of its sort.
pub(crate) fn slice_agrees(
    sort: Option<Sort>,
    operand: Option<Sort>,
    upper: u32,
    lower: u32,
) -> bool
    ensures { result ≡ ((is_words (option_map sort_value sort) && is_words (option_map sort_value operand))
        && (width_in (option_map sort_value sort) == upper - lower + 1)) }
{
    let width = u64::from(upper.saturating_sub(lower)) + 1;
    is_words(sort) && is_words(operand) && width_in(sort) == width
}

/// Whether an operator of one operand takes its sort, and gives that of its own.
pub(crate) fn unary_agrees(operator: Unary, sort: Option<Sort>, operand: Option<Sort>) -> bool
    ensures { result ≡ ((is_words (option_map sort_value sort) && is_words (option_map sort_value operand))
        && (width_in (option_map sort_value sort) == unary_width operator (width_in (option_map sort_value operand)))) }
{
    is_words(sort) && is_words(operand) && width_in(sort) == operator.width(width_in(operand))
}

/// Whether an operator takes arrays, too.
fn is_equality(operator: Binary) -> bool
    ensures { result ≡ is_equality operator }
{
    matches!(operator, Binary::Eq | Binary::Neq)
}

/// Whether an operator of two words takes their widths, and gives that of its sort.
fn widths_agree(operator: Binary, sort: u64, left: u64, right: u64) -> bool
    ensures { result ≡ ((left == right) && ((not (is_of_bits operator) || (left == 1))
        && (sort == binary_width operator left))) }
{
    left == right && (!operator.is_of_bits() || left == 1) && sort == operator.width(left)
}

/// Whether an operator of two operands takes their sorts, and gives that of its own.
pub(crate) fn binary_agrees(
    operator: Binary,
    sort: Option<Sort>,
    left: Option<Sort>,
    right: Option<Sort>,
) -> bool
    ensures { result ≡ binary_agrees operator (option_map sort_value sort) (option_map sort_value left) (option_map sort_value right) }
{
    if is_equality(operator) {
        is_bit(sort) && same_sort(left, right)
    } else {
        is_words(sort)
            && is_words(left)
            && is_words(right)
            && widths_agree(operator, width_in(sort), width_in(left), width_in(right))
    }
}

/// Whether a concatenation is of its sort.
pub(crate) fn concat_agrees(sort: Option<Sort>, high: Option<Sort>, low: Option<Sort>) -> bool
    ensures { result ≡ ((is_words (option_map sort_value sort) && (is_words (option_map sort_value high) && is_words (option_map sort_value low)))
        && (width_in (option_map sort_value sort) == width_in (option_map sort_value high) + width_in (option_map sort_value low))) }
{
    let sum = u128::from(width_in(high)) + u128::from(width_in(low));
    is_words(sort) && is_words(high) && is_words(low) && u128::from(width_in(sort)) == sum
}

/// Whether a choice is of its sort.
pub(crate) fn ite_agrees(
    sort: Option<Sort>,
    condition: Option<Sort>,
    first: Option<Sort>,
    second: Option<Sort>,
) -> bool
    ensures { result ≡ (is_bit (option_map sort_value condition) && (same_sort (option_map sort_value first) (option_map sort_value sort)
        && same_sort (option_map sort_value second) (option_map sort_value sort))) }
{
    is_bit(condition) && same_sort(first, sort) && same_sort(second, sort)
}

/// Whether a state begins with a value, or an array with a value in each cell.
pub(crate) fn init_agrees(sort: Option<Sort>, state: Option<Sort>, value: Option<Sort>) -> bool
    ensures { result ≡ (same_sort (option_map sort_value state) (option_map sort_value sort)
        && (same_sort (option_map sort_value value) (option_map sort_value sort)
        || same_sort (option_map sort_value value) (element_sort (option_map sort_value sort)))) }
{
    same_sort(state, sort) && (same_sort(value, sort) || same_sort(value, element_sort(sort)))
}

/// Whether a state takes a value.
pub(crate) fn next_agrees(sort: Option<Sort>, state: Option<Sort>, value: Option<Sort>) -> bool
    ensures { result ≡ (same_sort (option_map sort_value state) (option_map sort_value sort)
        && same_sort (option_map sort_value value) (option_map sort_value sort)) }
{
    same_sort(state, sort) && same_sort(value, sort)
}

/// Whether a word is read of an array.
pub(crate) fn read_agrees(sort: Option<Sort>, array: Option<Sort>, index: Option<Sort>) -> bool
    ensures { result ≡ read_agrees (option_map sort_value sort) (option_map sort_value array) (option_map sort_value index) }
{
    same_sort(sort, element_sort(array)) && same_sort(index, index_sort(array))
}

/// Whether a word is written into an array.
pub(crate) fn write_agrees(
    sort: Option<Sort>,
    array: Option<Sort>,
    index: Option<Sort>,
    word: Option<Sort>,
) -> bool
    ensures { result ≡ write_agrees (option_map sort_value sort) (option_map sort_value array) (option_map sort_value index) (option_map sort_value word) }
{
    same_sort(sort, array)
        && same_sort(index, index_sort(array))
        && same_sort(word, element_sort(array))
}
