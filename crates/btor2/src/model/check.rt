//! Why a model refuses an item: the tests of the table's rows, of each form those that concern it, in the table's order.
//! Each id that an item names is looked up once.
#![tactic(auto, unfolding(crate::specs::Check::refusal, crate::specs::Check::id_is_out_of_range, crate::specs::Check::id_is_taken, crate::specs::Check::sort_is_missing, crate::specs::Check::operand_is_missing, crate::specs::Check::state_is_none, crate::specs::Check::width_is_out_of_range, crate::specs::Check::slice_is_out_of_range, crate::specs::Check::widths_differ, crate::specs::Check::constant_does_not_fit, crate::specs::Check::init_is_not_constant, crate::specs::Check::is_second_init, crate::specs::Check::is_second_next, crate::specs::Check::justice_is_empty))]

ghost use Rattle.std.specs.Prelude.{◌≡◌, [], ◌∷◌, ◌≤◌, ◌+◌, ◌-◌, ◌^◌, ◌==◌, not, ◌&&◌, ◌||◌, length, nat_le, nat_lt, pos, neg_ℤ, int_le, int_lt, is_some, unwrap_or, Some, None, IfOk, MatchResult};
ghost use Rattle.std.specs.List.{list_all};
ghost use Rattle.base.specs.Widths.{binary_width, is_of_bits};
ghost use Rattle.btor2.specs.Items.{node_width, names_state, sort_width};
ghost use Rattle.btor2.specs.declared.item.Body.TheVariants as body;
ghost use Rattle.btor2.specs.Check.{first_row, said_rows, refusal, Refuses};

use crate::fault::PushFault;
use crate::item::{Body, Item, all_ones};
use crate::model::Model;
use base::{Binary, Unary, Width};

/// The greatest number of items.
const MOST_ITEMS: usize = 1_048_576;

/// The greatest id.
const GREATEST_ID: u64 = 4_294_967_295;

/// Whether the widths of an operator's operands are not those that it takes, or that of its sort not that of what it gives.
fn binary_differs(operator: Binary, sort: u64, left: u64, right: u64) -> bool
    ensures { result ≡ not
        ((left == right) && ((not (is_of_bits operator) || (left == 1))
        && (sort == binary_width operator left))) }
{
    !(left == right && (!operator.is_of_bits() || left == 1) && sort == operator.width(left))
}

/// Whether a width is not the sum of two.
fn is_no_sum(width: u64, first: u64, second: u64) -> bool
    ensures { result ≡ not (width == first + second) }
{
    u128::from(width) != u128::from(first) + u128::from(second)
}

/// Whether a width is not that of the bits `upper` down to `lower`.
fn is_no_slice_width(width: u64, upper: u32, lower: u32) -> bool
    ensures { result ≡ not (width == upper - lower + 1) }
{
    width != u64::from(upper.saturating_sub(lower)) + 1
}

/// Whether a decimal constant fits a sort of so many bits.
fn decimal_fits(width: u64, value: i128) -> bool
    requires { width ≤ 64 }
    ensures { result ≡ (int_le (neg_ℤ (pos (2 ^ (width - 1)))) value
        && int_lt value (pos (2 ^ width))) }
{
    let least = i128::from(all_ones(width.saturating_sub(1))) + 1;
    -least <= value && value <= i128::from(all_ones(width))
}

/// Whether a binary constant fits a sort of so many bits.
fn binary_digits_fit(width: u64, digits: u32, value: u64) -> bool
    requires { width ≤ 64 }
    ensures { result ≡ ((digits == width) && nat_lt value (2 ^ digits)) }
{
    u64::from(digits) == width && value <= all_ones(width)
}

/// Whether a value is one of so many hexadecimal digits.
fn is_of_hex_digits(digits: u32, value: u64) -> bool
    requires { digits ≤ 16 }
    ensures { result ≡ nat_lt value (16 ^ digits) }
{
    value <= all_ones(4 * u64::from(digits))
}

/// Whether a hexadecimal constant fits a sort of so many bits.
fn hex_digits_fit(width: u64, digits: u32, value: u64) -> bool
    requires { width ≤ 64 }
    ensures { result ≡ (nat_le 1 digits
        && (nat_le digits 16 && (nat_lt value (2 ^ width) && nat_lt value (16 ^ digits)))) }
{
    1 <= digits && digits <= 16 && value <= all_ones(width) && is_of_hex_digits(digits, value)
}

/// Refuses where a test finds a fault.
fn refuse_if(found: bool, fault: PushFault) -> Result<(), PushFault>
    ensures { Refuses result (first_row ((found, fault) ∷ [])) }
{
    if found { Err(fault) } else { Ok(()) }
}

impl Model {
    /// The width of a sort that is named.
    #[inline(always)]
    fn named_sort(&self, id: u32) -> Result<u64, PushFault>
        ensures value { MatchResult result (λ n. sort_width self.now id ≡ Some n)
            (λ e. (e ≡ PushFault.NoSuchSort) × (sort_width self.now id ≡ None)) }
        ensures range { IfOk result (λ n. n ≤ 64) }
    {
        match self.sort_width(id) {
            Some(width) => Ok(width),
            None => Err(PushFault::NoSuchSort),
        }
    }

    /// The width of a node that is named.
    #[inline(always)]
    fn named_node(&self, id: u32) -> Result<u64, PushFault>
        ensures { MatchResult result (λ n. node_width self.now id ≡ Some n)
            (λ e. (e ≡ PushFault.NoSuchNode) × (node_width self.now id ≡ None)) }
    {
        match self.node_width(id) {
            Some(width) => Ok(width),
            None => Err(PushFault::NoSuchNode),
        }
    }

    /// The width of a node that is named where a state is to stand, and whether it is one.
    fn named_state(&self, id: u32) -> Result<(u64, bool), PushFault>
        ensures { MatchResult result
            (λ x. (node_width self.now id ≡ Some x.0) × (x.1 ≡ names_state self.now id))
            (λ e. (e ≡ PushFault.NoSuchNode) × (node_width self.now id ≡ None)) }
    {
        match self.item(u64::from(id)) {
            Some(item) => match self.body_width(&item.body) {
                Some(width) => Ok((width, item.body.is_state())),
                None => Err(PushFault::NoSuchNode),
            },
            None => Err(PushFault::NoSuchNode),
        }
    }

    /// Tests a node that has a sort alone.
    fn check_leaf(&self, sort: u32) -> Result<(), PushFault>
        ensures { Refuses result (first_row (said_rows self.now (body.Input sort))) }
    {
        let _width = self.named_sort(sort)?;
        Ok(())
    }

    /// Tests a constant in binary digits.
    fn check_const(&self, sort: u32, digits: u32, value: u64) -> Result<(), PushFault>
        ensures { Refuses result (first_row (said_rows self.now (body.Const sort digits value))) }
    {
        let width = self.named_sort(sort)?;
        refuse_if(
            !binary_digits_fit(width, digits, value),
            PushFault::ConstantDoesNotFit,
        )
    }

    /// Tests a decimal constant.
    fn check_constd(&self, sort: u32, value: i128) -> Result<(), PushFault>
        ensures { Refuses result (first_row (said_rows self.now (body.Constd sort value))) }
    {
        let width = self.named_sort(sort)?;
        refuse_if(!decimal_fits(width, value), PushFault::ConstantDoesNotFit)
    }

    /// Tests a constant in hexadecimal digits.
    fn check_consth(&self, sort: u32, digits: u32, value: u64) -> Result<(), PushFault>
        ensures { Refuses result (first_row (said_rows self.now (body.Consth sort digits value))) }
    {
        let width = self.named_sort(sort)?;
        refuse_if(
            !hex_digits_fit(width, digits, value),
            PushFault::ConstantDoesNotFit,
        )
    }

    /// Tests a node that widens another.
    fn check_extension(&self, sort: u32, operand: u32, by: u64) -> Result<(), PushFault>
        ensures { Refuses result (first_row (said_rows self.now (body.Uext sort operand by))) }
    {
        let width = self.named_sort(sort)?;
        let given = self.named_node(operand)?;
        refuse_if(is_no_sum(width, given, by), PushFault::SortMismatch)
    }

    /// Tests a slice.
    fn check_slice(&self, sort: u32, operand: u32, upper: u32, lower: u32) -> Result<(), PushFault>
        ensures { Refuses result
            (first_row (said_rows self.now (body.Slice sort operand upper lower))) }
    {
        let width = self.named_sort(sort)?;
        let given = self.named_node(operand)?;
        if !(lower <= upper && u64::from(upper) < given) {
            return Err(PushFault::SliceOutOfRange);
        }
        refuse_if(
            is_no_slice_width(width, upper, lower),
            PushFault::SortMismatch,
        )
    }

    /// Tests an operator of one operand.
    fn check_unary(&self, operator: Unary, sort: u32, operand: u32) -> Result<(), PushFault>
        ensures { Refuses result
            (first_row (said_rows self.now (body.Unary operator sort operand))) }
    {
        let width = self.named_sort(sort)?;
        let given = self.named_node(operand)?;
        refuse_if(width != operator.width(given), PushFault::SortMismatch)
    }

    /// Tests an operator of two operands.
    fn check_binary(
        &self,
        operator: Binary,
        sort: u32,
        left: u32,
        right: u32,
    ) -> Result<(), PushFault>
        ensures { Refuses result
            (first_row (said_rows self.now (body.Binary operator sort left right))) }
    {
        let width = self.named_sort(sort)?;
        let first = self.named_node(left)?;
        let second = self.named_node(right)?;
        refuse_if(
            binary_differs(operator, width, first, second),
            PushFault::SortMismatch,
        )
    }

    /// Tests a concatenation.
    fn check_concat(&self, sort: u32, high: u32, low: u32) -> Result<(), PushFault>
        ensures { Refuses result (first_row (said_rows self.now (body.Concat sort high low))) }
    {
        let width = self.named_sort(sort)?;
        let first = self.named_node(high)?;
        let second = self.named_node(low)?;
        refuse_if(is_no_sum(width, first, second), PushFault::SortMismatch)
    }

    /// Tests a choice.
    fn check_ite(&self, sort: u32, condition: u32, first: u32, second: u32) -> Result<(), PushFault>
        ensures { Refuses result
            (first_row (said_rows self.now (body.Ite sort condition first second))) }
    {
        let width = self.named_sort(sort)?;
        let chooses = self.named_node(condition)?;
        let first = self.named_node(first)?;
        let second = self.named_node(second)?;
        refuse_if(
            chooses != 1 || width != first || width != second,
            PushFault::SortMismatch,
        )
    }

    /// Tests an init.
    fn check_init(&self, sort: u32, state: u32, value: u32) -> Result<(), PushFault>
        ensures { Refuses result (first_row (said_rows self.now (body.Init sort state value))) }
    {
        let width = self.named_sort(sort)?;
        let (kept, is_state) = self.named_state(state)?;
        let given = self.named_node(value)?;
        if !is_state {
            return Err(PushFault::NotAState);
        }
        if width != kept || width != given {
            return Err(PushFault::SortMismatch);
        }
        if self.constant_word(value).is_none() {
            return Err(PushFault::InitNotConstant);
        }
        refuse_if(
            self.init_value(u64::from(state)).is_some(),
            PushFault::SecondInit,
        )
    }

    /// Tests a next.
    fn check_next(&self, sort: u32, state: u32, value: u32) -> Result<(), PushFault>
        ensures { Refuses result (first_row (said_rows self.now (body.Next sort state value))) }
    {
        let width = self.named_sort(sort)?;
        let (kept, is_state) = self.named_state(state)?;
        let given = self.named_node(value)?;
        if !is_state {
            return Err(PushFault::NotAState);
        }
        if width != kept || width != given {
            return Err(PushFault::SortMismatch);
        }
        refuse_if(
            self.next_value(u64::from(state)).is_some(),
            PushFault::SecondNext,
        )
    }

    /// Tests what marks a node of one bit.
    fn check_bit(&self, operand: u32) -> Result<(), PushFault>
        ensures { Refuses result (first_row (said_rows self.now (body.Bad operand))) }
    {
        let width = self.named_node(operand)?;
        refuse_if(width != 1, PushFault::SortMismatch)
    }

    /// Tests an output.
    fn check_output(&self, operand: u32) -> Result<(), PushFault>
        ensures { Refuses result (first_row (said_rows self.now (body.Output operand))) }
    {
        let _width = self.named_node(operand)?;
        Ok(())
    }

    /// Whether each of some ids is that of a node with a value.
    fn all_have_values(&self, ids: &[u32]) -> bool
        ensures { result ≡ list_all (λ a. is_some (node_width self.now a)) ids.now }
    {
        ids.iter().all(|id| self.node_width(*id).is_some())
    }

    /// Whether each of some ids is that of a node of one bit.
    fn are_bits(&self, ids: &[u32]) -> bool
        ensures { result ≡ list_all (λ a. unwrap_or (node_width self.now a) 0 == 1) ids.now }
    {
        ids.iter().all(|id| self.node_width(*id).unwrap_or(0) == 1)
    }

    /// Tests a justice line.
    fn check_justice(&self, ids: &[u32]) -> Result<(), PushFault>
        ensures { Refuses result (first_row (said_rows self.now (body.Justice ids.now))) }
    {
        if !self.all_have_values(ids) {
            return Err(PushFault::NoSuchNode);
        }
        if !self.are_bits(ids) {
            return Err(PushFault::SortMismatch);
        }
        refuse_if(ids.is_empty(), PushFault::JusticeEmpty)
    }

    /// Tests what an item says.
    fn check_body(&self, body: &Body) -> Result<(), PushFault>
        ensures { Refuses result (first_row (said_rows self.now body.now)) }
    {
        match body {
            Body::Sort { width } => refuse_if(
                !(1 <= *width && *width <= Width::MAX),
                PushFault::WidthOutOfRange,
            ),
            Body::Input { sort }
            | Body::State { sort }
            | Body::Zero { sort }
            | Body::One { sort }
            | Body::Ones { sort } => self.check_leaf(*sort),
            Body::Const {
                sort,
                digits,
                value,
            } => self.check_const(*sort, *digits, *value),
            Body::Constd { sort, value } => self.check_constd(*sort, value.value()),
            Body::Consth {
                sort,
                digits,
                value,
            } => self.check_consth(*sort, *digits, *value),
            Body::Uext { sort, operand, by } | Body::Sext { sort, operand, by } => {
                self.check_extension(*sort, *operand, *by)
            }
            Body::Slice {
                sort,
                operand,
                upper,
                lower,
            } => self.check_slice(*sort, *operand, *upper, *lower),
            Body::Unary {
                operator,
                sort,
                operand,
            } => self.check_unary(*operator, *sort, *operand),
            Body::Binary {
                operator,
                sort,
                left,
                right,
            } => self.check_binary(*operator, *sort, *left, *right),
            Body::Concat { sort, high, low } => self.check_concat(*sort, *high, *low),
            Body::Ite {
                sort,
                condition,
                first,
                second,
            } => self.check_ite(*sort, *condition, *first, *second),
            Body::Init { sort, state, value } => self.check_init(*sort, *state, *value),
            Body::Next { sort, state, value } => self.check_next(*sort, *state, *value),
            Body::Bad { operand } | Body::Constraint { operand } | Body::Fair { operand } => {
                self.check_bit(*operand)
            }
            Body::Output { operand } => self.check_output(*operand),
            Body::Justice { operands } => self.check_justice(operands.ids()),
        }
    }

    /// Tests an item after those here. Errors: the fault of the first row of the table that applies.
    pub(crate) fn check(&self, item: &Item) -> Result<(), PushFault>
        ensures { Refuses result (refusal self.now item.now) }
    {
        if MOST_ITEMS <= self.items.len() {
            return Err(PushFault::TooManyItems);
        }
        if !(1 <= item.id && item.id <= GREATEST_ID) {
            return Err(PushFault::IdOutOfRange);
        }
        if self.item(item.id).is_some() {
            return Err(PushFault::IdTaken);
        }
        self.check_body(&item.body)
    }
}
