//! Tests of lines, one for each reason why a line is refused.
#![tactic(auto, unfolding(crate::specs::FullModels::sort_is_missing, crate::specs::FullModels::operand_is_missing, crate::specs::FullModels::state_is_none, crate::specs::FullModels::state_has_minus, crate::specs::FullModels::minus_is_at_array, crate::specs::FullModels::width_is_out_of_range, crate::specs::FullModels::slice_is_out_of_range, crate::specs::FullModels::is_second_init, crate::specs::FullModels::is_second_next, wide::specs::WideModels::width_is_above, btor2::specs::Check::justice_is_empty))]

ghost use Rattle.std.specs.Prelude.{◌≡◌, [], not, ◌||◌, None, false, is_some};
ghost use Rattle.std.specs.List.{list_all};
ghost use Rattle.btor2.specs.Check.{justice_is_empty};
ghost use Rattle.full.specs.Lines.{form, sort_at, sort_of_node};
ghost use Rattle.full.specs.Agreement.{is_words, first_is_plain};
ghost use Rattle.fullmodel.specs.FullModels.{is_bit, sort_is_missing, operand_is_missing, state_is_none, state_has_minus, minuses_at_words, minus_is_at_array, width_is_out_of_range, slice_is_out_of_range, sorts_agree, is_second_init, is_second_next};

use crate::bodies::named_sort;
use crate::model::FullModel;
use crate::sorts::{
    binary_agrees, concat_agrees, extension_agrees, init_agrees, is_bit, is_no_slice_of, is_words,
    ite_agrees, next_agrees, slice_agrees, unary_agrees,
};
use btor2::Body;

/// The greatest width of a word.
const GREATEST_WIDTH: u64 = 1_048_576;

/// Whether the first of some operands stands without a minus.
fn first_is_plain(minuses: &[bool]) -> bool
    ensures { result ≡ first_is_plain minuses.now }
{
    match minuses {
        [] => true,
        [minus, ..] => !*minus,
    }
}

/// Whether the state of an init or a next stands with a minus.
pub(crate) fn state_has_minus(body: &Body, minuses: &[bool]) -> bool
    ensures { result ≡ state_has_minus (form body.now minuses.now) }
{
    match body {
        Body::Init { .. } | Body::Next { .. } => !first_is_plain(minuses),
        Body::Sort { .. }
        | Body::Input { .. }
        | Body::State { .. }
        | Body::Zero { .. }
        | Body::One { .. }
        | Body::Ones { .. }
        | Body::Const { .. }
        | Body::Constd { .. }
        | Body::Consth { .. }
        | Body::Uext { .. }
        | Body::Sext { .. }
        | Body::Slice { .. }
        | Body::Unary { .. }
        | Body::Binary { .. }
        | Body::Concat { .. }
        | Body::Ite { .. }
        | Body::Bad { .. }
        | Body::Constraint { .. }
        | Body::Fair { .. }
        | Body::Output { .. }
        | Body::Justice { .. } => false,
    }
}

/// Whether a sort's width is not 1 to the greatest.
pub(crate) fn width_is_out_of_range(body: &Body) -> bool
    ensures { result ≡ width_is_out_of_range (form body.now []) }
{
    match body {
        Body::Sort { width } => !(1 <= *width && *width <= GREATEST_WIDTH),
        _ => false,
    }
}

/// Whether a justice line names no node.
pub(crate) fn justice_is_empty(body: &Body) -> bool
    ensures { result ≡ justice_is_empty body.now }
{
    match body {
        Body::Justice { operands } => operands.ids().is_empty(),
        _ => false,
    }
}

impl FullModel {
    /// Whether each of some ids is that of a node with a value.
    pub(crate) fn are_nodes(&self, ids: &[u32]) -> bool
        ensures { result ≡ list_all (λ a. is_some (sort_of_node self.now a)) ids.now }
    {
        ids.iter().all(|id| self.sort_of_node(*id).is_some())
    }

    /// Whether each of some ids is that of a node of one bit.
    fn are_bits(&self, ids: &[u32]) -> bool
        ensures { result ≡ list_all (λ a. is_bit (sort_of_node self.now a)) ids.now }
    {
        ids.iter().all(|id| is_bit(self.sort_of_node(*id)))
    }

    /// Whether a node is a word, or stands without a minus.
    fn minus_fits(&self, id: u32, minus: bool) -> bool
        ensures { result ≡ (not minus || is_words (sort_of_node self.now id)) }
    {
        !minus || is_words(self.sort_of_node(id))
    }

    /// Whether each of some nodes that stands with a minus is a word.
    pub(crate) fn minuses_at_words(&self, ids: &[u32], minuses: &[bool]) -> bool
        ensures { result ≡ minuses_at_words self.now ids.now minuses.now }
    {
        for (id, minus) in ids.iter().zip(minuses.iter()) {
            if !self.minus_fits(*id, *minus) {
                return false;
            }
        }
        true
    }

    /// Whether the sort that a form names is no earlier sort.
    pub(crate) fn sort_is_missing(&self, body: &Body) -> bool
        ensures { result ≡ sort_is_missing self.now (form body.now []) }
    {
        match named_sort(body) {
            Some(sort) => self.sort_at(sort).is_none(),
            None => false,
        }
    }

    /// Whether an operand of a form is no earlier node with a value.
    pub(crate) fn operand_is_missing(&self, body: &Body) -> bool
        ensures { result ≡ operand_is_missing self.now (form body.now []) }
    {
        match body {
            Body::Uext { operand, .. }
            | Body::Sext { operand, .. }
            | Body::Slice { operand, .. }
            | Body::Unary { operand, .. }
            | Body::Bad { operand }
            | Body::Constraint { operand }
            | Body::Fair { operand }
            | Body::Output { operand } => !self.are_nodes(&[*operand]),
            Body::Binary { left, right, .. } => !self.are_nodes(&[*left, *right]),
            Body::Concat { high, low, .. } => !self.are_nodes(&[*high, *low]),
            Body::Ite {
                condition,
                first,
                second,
                ..
            } => !self.are_nodes(&[*condition, *first, *second]),
            Body::Init { state, value, .. } | Body::Next { state, value, .. } => {
                !self.are_nodes(&[*state, *value])
            }
            Body::Justice { operands } => !self.are_nodes(operands.ids()),
            Body::Sort { .. }
            | Body::Input { .. }
            | Body::State { .. }
            | Body::Zero { .. }
            | Body::One { .. }
            | Body::Ones { .. }
            | Body::Const { .. }
            | Body::Constd { .. }
            | Body::Consth { .. } => false,
        }
    }

    /// Whether the first operand of an init or a next is no state.
    ///
    /// Condition: it is a node with a value.
    pub(crate) fn state_is_none(&self, body: &Body) -> bool
        requires { operand_is_missing self.now (form body.now []) ≡ false }
        ensures { result ≡ state_is_none self.now (form body.now []) }
    {
        match body {
            Body::Init { state, .. } | Body::Next { state, .. } => !self.names_state(*state),
            _ => false,
        }
    }

    /// Whether an operand of a form that is no word stands with a minus.
    pub(crate) fn minus_is_at_array(&self, body: &Body, minuses: &[bool]) -> bool
        ensures { result ≡ minus_is_at_array self.now (form body.now minuses.now) }
    {
        if minuses.is_empty() {
            return false;
        }
        match body {
            Body::Uext { operand, .. }
            | Body::Sext { operand, .. }
            | Body::Slice { operand, .. }
            | Body::Unary { operand, .. }
            | Body::Bad { operand }
            | Body::Constraint { operand }
            | Body::Fair { operand }
            | Body::Output { operand } => !self.minuses_at_words(&[*operand], minuses),
            Body::Binary { left, right, .. } => !self.minuses_at_words(&[*left, *right], minuses),
            Body::Concat { high, low, .. } => !self.minuses_at_words(&[*high, *low], minuses),
            Body::Ite {
                condition,
                first,
                second,
                ..
            } => !self.minuses_at_words(&[*condition, *first, *second], minuses),
            Body::Init { state, value, .. } | Body::Next { state, value, .. } => {
                !self.minuses_at_words(&[*state, *value], minuses)
            }
            Body::Justice { operands } => !self.minuses_at_words(operands.ids(), minuses),
            Body::Sort { .. }
            | Body::Input { .. }
            | Body::State { .. }
            | Body::Zero { .. }
            | Body::One { .. }
            | Body::Ones { .. }
            | Body::Const { .. }
            | Body::Constd { .. }
            | Body::Consth { .. } => false,
        }
    }

    /// Whether the bits of a slice are not those of the word that it is of.
    pub(crate) fn slice_is_out_of_range(&self, body: &Body) -> bool
        ensures { result ≡ slice_is_out_of_range self.now (form body.now []) }
    {
        match body {
            Body::Slice {
                operand,
                upper,
                lower,
                ..
            } => is_no_slice_of(self.sort_of_node(*operand), *upper, *lower),
            _ => false,
        }
    }

    /// Whether a form has the sorts that it asks for.
    pub(crate) fn sorts_agree(&self, body: &Body) -> bool
        ensures { result ≡ sorts_agree (λ s. sort_at self.now s) (λ a. sort_of_node self.now a) body.now }
    {
        match body {
            Body::Sort { .. } | Body::Input { .. } | Body::State { .. } | Body::Output { .. } =>
                true,
            Body::Zero { sort }
            | Body::One { sort }
            | Body::Ones { sort }
            | Body::Const { sort, .. }
            | Body::Constd { sort, .. }
            | Body::Consth { sort, .. } => is_words(self.sort_at(*sort)),
            Body::Uext { sort, operand, by } | Body::Sext { sort, operand, by } => {
                extension_agrees(self.sort_at(*sort), self.sort_of_node(*operand), *by)
            }
            Body::Slice {
                sort,
                operand,
                upper,
                lower,
            } => slice_agrees(
                self.sort_at(*sort),
                self.sort_of_node(*operand),
                *upper,
                *lower,
            ),
            Body::Unary {
                operator,
                sort,
                operand,
            } => unary_agrees(*operator, self.sort_at(*sort), self.sort_of_node(*operand)),
            Body::Binary {
                operator,
                sort,
                left,
                right,
            } => binary_agrees(
                *operator,
                self.sort_at(*sort),
                self.sort_of_node(*left),
                self.sort_of_node(*right),
            ),
            Body::Concat { sort, high, low } => concat_agrees(
                self.sort_at(*sort),
                self.sort_of_node(*high),
                self.sort_of_node(*low),
            ),
            Body::Ite {
                sort,
                condition,
                first,
                second,
            } => ite_agrees(
                self.sort_at(*sort),
                self.sort_of_node(*condition),
                self.sort_of_node(*first),
                self.sort_of_node(*second),
            ),
            Body::Init { sort, state, value } => init_agrees(
                self.sort_at(*sort),
                self.sort_of_node(*state),
                self.sort_of_node(*value),
            ),
            Body::Next { sort, state, value } => next_agrees(
                self.sort_at(*sort),
                self.sort_of_node(*state),
                self.sort_of_node(*value),
            ),
            Body::Bad { operand } | Body::Constraint { operand } | Body::Fair { operand } => {
                is_bit(self.sort_of_node(*operand))
            }
            Body::Justice { operands } => self.are_bits(operands.ids()),
        }
    }

    /// Whether a state has an init line already.
    pub(crate) fn is_second_init(&self, body: &Body) -> bool
        ensures { result ≡ is_second_init self.now (form body.now []) }
    {
        match body {
            Body::Init { state, .. } => self.init_of(*state).is_some(),
            _ => false,
        }
    }

    /// Whether a state has a next line already.
    pub(crate) fn is_second_next(&self, body: &Body) -> bool
        ensures { result ≡ is_second_next self.now (form body.now []) }
    {
        match body {
            Body::Next { state, .. } => self.next_of(*state).is_some(),
            _ => false,
        }
    }
}
