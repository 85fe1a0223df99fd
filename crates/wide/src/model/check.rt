//! Why a line is refused: the tests of the table's rows, of each form those that concern it, in the table's order.
//! Each id that a line names is looked up once.
#![tactic(auto, unfolding(crate::specs::WideModels::wide_refusal, crate::specs::WideModels::width_is_above, crate::specs::WideModels::constant_is_above, btor2::specs::Check::id_is_out_of_range, btor2::specs::Check::id_is_taken, btor2::specs::Check::sort_is_missing, btor2::specs::Check::operand_is_missing, btor2::specs::Check::state_is_none, btor2::specs::Check::slice_is_out_of_range, btor2::specs::Check::widths_differ, btor2::specs::Check::init_is_not_constant, btor2::specs::Check::is_second_init, btor2::specs::Check::is_second_next, btor2::specs::Check::justice_is_empty))]

ghost use Rattle.std.specs.Prelude.{◌≡◌, ℕ, [], ◌∷◌, ◌+◌, ◌-◌, ◌*◌, ◌^◌, ◌==◌, ◌≤◌, nat_le, nat_lt, not, ◌&&◌, ◌||◌, Some, None, IfOk, MatchResult};
ghost use Rattle.wide.specs.Rows.{HasDigitsRow, IsConstantRefused};
ghost use Rattle.btor2.specs.Items.{sort_width};
ghost use Rattle.base.specs.Widths.{binary_width, is_of_bits};
ghost use Rattle.btor2.specs.declared.item.Body.TheVariants as body;
ghost use Rattle.btor2.specs.Check.{first_row, Refuses};
ghost use Rattle.wide.specs.Entries.{digits_sort};
ghost use Rattle.wide.specs.Lines.{constant_body, constant_item, number_of_digits};
ghost use Rattle.wide.specs.WideModels.{greatest_width, constant_fits_within, wide_said_rows, wide_id_rows, wide_refusal};

use crate::constant::{Constant, Spelling};
use crate::model::WideModel;
use crate::numbers::{is_at_most, is_below};
use base::{Binary, Unary};
use btor2::{Body, Item, PushFault};

/// The greatest number of items.
const MOST_ITEMS: usize = 1_048_576;

/// The greatest id.
const GREATEST_ID: u64 = 4_294_967_295;

/// The greatest number of hexadecimal digits of a constant.
const MOST_HEX_DIGITS: usize = 262_144;

/// The greatest width of a word.
const GREATEST_WIDTH: u64 = 1_048_576;

/// Whether the widths of an operator's operands are not those that it takes, or that of its sort not that of what it gives.
fn binary_differs(operator: Binary, sort: u64, left: u64, right: u64) -> bool
    ensures { result ≡ not
        ((left == right) && ((not (is_of_bits operator) || (left == 1))
        && (sort == binary_width operator left))) }
{
    !(left == right && (!operator.is_of_bits() || left == 1) && sort == operator.width(left))
}

/// Whether a width is not the sum of two.
fn is_no_sum(width: u64, first: u64, second: u64) -> bool
    ensures { result ≡ not (width == first + second) }
{
    u128::from(width) != u128::from(first) + u128::from(second)
}

/// Whether a width is not that of the bits `upper` down to `lower`.
fn is_no_slice_width(width: u64, upper: u32, lower: u32) -> bool
    ensures { result ≡ not (width == upper - lower + 1) }
{
    width != u64::from(upper.saturating_sub(lower)) + 1
}

/// Refuses where a test finds a fault.
fn refuse_if(found: bool, fault: PushFault) -> Result<(), PushFault>
    ensures { Refuses result (first_row ((found, fault) ∷ [])) }
{
    if found { Err(fault) } else { Ok(()) }
}

/// Whether a hexadecimal constant fits a sort of so many bits.
fn hex_digits_fit(width: u64, count: usize, number: &[u64]) -> bool
    ensures { result ≡ (nat_le 1 count && (nat_le (4 * count) (greatest_width + 3)
        && (nat_lt (number_of_digits number.now) (2 ^ width)
        && nat_lt (number_of_digits number.now) (16 ^ count)))) }
{
    if count < 1 {
        return false;
    }
    if count > MOST_HEX_DIGITS {
        return false;
    }
    if !is_below(number, width) {
        return false;
    }
    is_below(number, 4 * count as u64)
}

/// Whether a constant in digits fits a sort of so many bits: as many binary digits as the width, a decimal from -2^(width - 1)
/// to 2^width - 1, 1 to 262,144 hexadecimal digits, and a value below 2^width.
///
/// Condition: the width is 1 to 1,048,576.
pub fn constant_fits(width: u64, spelling: Spelling, count: usize, number: &[u64]) -> bool
    requires least { 1 ≤ width }
    requires most { width ≤ greatest_width }
    ensures { (sort : ℕ) → result ≡ constant_fits_within greatest_width width
        (constant_body spelling sort count (number_of_digits number.now)) }
{
    match spelling {
        Spelling::Binary => count as u64 == width && is_below(number, width),
        Spelling::Decimal => is_below(number, width),
        Spelling::Negative => is_at_most(number, width - 1),
        Spelling::Hexadecimal => hex_digits_fit(width, count, number),
    }
}

impl WideModel {
    /// Tests a node that has a sort alone.
    fn check_leaf(&self, sort: u32) -> Result<(), PushFault>
        ensures { Refuses result (first_row (wide_said_rows greatest_width self.now (body.Input sort))) }
    {
        let _width = self.named_sort(sort)?;
        Ok(())
    }

    /// Tests a node that widens another.
    fn check_extension(&self, sort: u32, operand: u32, by: u64) -> Result<(), PushFault>
        ensures { Refuses result
            (first_row (wide_said_rows greatest_width self.now (body.Uext sort operand by))) }
    {
        let width = self.named_sort(sort)?;
        let given = self.named_node(operand)?;
        refuse_if(is_no_sum(width, given, by), PushFault::SortMismatch)
    }

    /// Tests a slice.
    fn check_slice(&self, sort: u32, operand: u32, upper: u32, lower: u32) -> Result<(), PushFault>
        ensures { Refuses result
            (first_row (wide_said_rows greatest_width self.now (body.Slice sort operand upper lower))) }
    {
        let width = self.named_sort(sort)?;
        let given = self.named_node(operand)?;
        if !(lower <= upper && u64::from(upper) < given) {
            return Err(PushFault::SliceOutOfRange);
        }
        refuse_if(
            is_no_slice_width(width, upper, lower),
            PushFault::SortMismatch,
        )
    }

    /// Tests an operator of one operand.
    fn check_unary(&self, operator: Unary, sort: u32, operand: u32) -> Result<(), PushFault>
        ensures { Refuses result
            (first_row (wide_said_rows greatest_width self.now (body.Unary operator sort operand))) }
    {
        let width = self.named_sort(sort)?;
        let given = self.named_node(operand)?;
        refuse_if(width != operator.width(given), PushFault::SortMismatch)
    }

    /// Tests an operator of two operands.
    fn check_binary(
        &self,
        operator: Binary,
        sort: u32,
        left: u32,
        right: u32,
    ) -> Result<(), PushFault>
        ensures { Refuses result
            (first_row (wide_said_rows greatest_width self.now (body.Binary operator sort left right))) }
    {
        let width = self.named_sort(sort)?;
        let first = self.named_node(left)?;
        let second = self.named_node(right)?;
        refuse_if(
            binary_differs(operator, width, first, second),
            PushFault::SortMismatch,
        )
    }

    /// Tests a concatenation.
    fn check_concat(&self, sort: u32, high: u32, low: u32) -> Result<(), PushFault>
        ensures { Refuses result
            (first_row (wide_said_rows greatest_width self.now (body.Concat sort high low))) }
    {
        let width = self.named_sort(sort)?;
        let first = self.named_node(high)?;
        let second = self.named_node(low)?;
        refuse_if(is_no_sum(width, first, second), PushFault::SortMismatch)
    }

    /// Tests a choice.
    fn check_ite(&self, sort: u32, condition: u32, first: u32, second: u32) -> Result<(), PushFault>
        ensures { Refuses result
            (first_row (wide_said_rows greatest_width self.now (body.Ite sort condition first second))) }
    {
        let width = self.named_sort(sort)?;
        let chooses = self.named_node(condition)?;
        let first = self.named_node(first)?;
        let second = self.named_node(second)?;
        refuse_if(
            chooses != 1 || width != first || width != second,
            PushFault::SortMismatch,
        )
    }

    /// Tests an init.
    fn check_init(&self, sort: u32, state: u32, value: u32) -> Result<(), PushFault>
        ensures { Refuses result
            (first_row (wide_said_rows greatest_width self.now (body.Init sort state value))) }
    {
        let width = self.named_sort(sort)?;
        let (kept, is_state) = self.named_state(state)?;
        let (given, is_constant) = self.named_value(value)?;
        if !is_state {
            return Err(PushFault::NotAState);
        }
        if width != kept || width != given {
            return Err(PushFault::SortMismatch);
        }
        if !is_constant {
            return Err(PushFault::InitNotConstant);
        }
        refuse_if(self.has_init(u64::from(state)), PushFault::SecondInit)
    }

    /// Tests a next.
    fn check_next(&self, sort: u32, state: u32, value: u32) -> Result<(), PushFault>
        ensures { Refuses result
            (first_row (wide_said_rows greatest_width self.now (body.Next sort state value))) }
    {
        let width = self.named_sort(sort)?;
        let (kept, is_state) = self.named_state(state)?;
        let given = self.named_node(value)?;
        if !is_state {
            return Err(PushFault::NotAState);
        }
        if width != kept || width != given {
            return Err(PushFault::SortMismatch);
        }
        refuse_if(self.has_next(u64::from(state)), PushFault::SecondNext)
    }

    /// Tests what marks a node of one bit.
    fn check_bit(&self, operand: u32) -> Result<(), PushFault>
        ensures { Refuses result (first_row (wide_said_rows greatest_width self.now (body.Bad operand))) }
    {
        let width = self.named_node(operand)?;
        refuse_if(width != 1, PushFault::SortMismatch)
    }

    /// Tests an output.
    fn check_output(&self, operand: u32) -> Result<(), PushFault>
        ensures { Refuses result
            (first_row (wide_said_rows greatest_width self.now (body.Output operand))) }
    {
        let _width = self.named_node(operand)?;
        Ok(())
    }

    /// Tests a justice line.
    fn check_justice(&self, ids: &[u32]) -> Result<(), PushFault>
        ensures { Refuses result
            (first_row (wide_said_rows greatest_width self.now (body.Justice ids.now))) }
    {
        if !self.all_have_values(ids) {
            return Err(PushFault::NoSuchNode);
        }
        if !self.are_bits(ids) {
            return Err(PushFault::SortMismatch);
        }
        refuse_if(ids.is_empty(), PushFault::JusticeEmpty)
    }

    /// Tests what an item says that is no constant in digits.
    fn check_body(&self, body: &Body) -> Result<(), PushFault>
        requires { digits_sort body.now ≡ None }
        ensures { Refuses result (first_row (wide_said_rows greatest_width self.now body.now)) }
    {
        match body {
            Body::Sort { width } => refuse_if(
                !(1 <= *width && *width <= GREATEST_WIDTH),
                PushFault::WidthOutOfRange,
            ),
            Body::Input { sort }
            | Body::State { sort }
            | Body::Zero { sort }
            | Body::One { sort }
            | Body::Ones { sort } => self.check_leaf(*sort),
            Body::Const { .. } | Body::Constd { .. } | Body::Consth { .. } => unreachable!(),
            Body::Uext { sort, operand, by } | Body::Sext { sort, operand, by } => {
                self.check_extension(*sort, *operand, *by)
            }
            Body::Slice {
                sort,
                operand,
                upper,
                lower,
            } => self.check_slice(*sort, *operand, *upper, *lower),
            Body::Unary {
                operator,
                sort,
                operand,
            } => self.check_unary(*operator, *sort, *operand),
            Body::Binary {
                operator,
                sort,
                left,
                right,
            } => self.check_binary(*operator, *sort, *left, *right),
            Body::Concat { sort, high, low } => self.check_concat(*sort, *high, *low),
            Body::Ite {
                sort,
                condition,
                first,
                second,
            } => self.check_ite(*sort, *condition, *first, *second),
            Body::Init { sort, state, value } => self.check_init(*sort, *state, *value),
            Body::Next { sort, state, value } => self.check_next(*sort, *state, *value),
            Body::Bad { operand } | Body::Constraint { operand } | Body::Fair { operand } => {
                self.check_bit(*operand)
            }
            Body::Output { operand } => self.check_output(*operand),
            Body::Justice { operands } => self.check_justice(operands.ids()),
        }
    }

    /// Tests whether there may be one item more, with an id.
    fn check_id(&self, id: u64) -> Result<(), PushFault>
        ensures { Refuses result (first_row (wide_id_rows greatest_width self.now id)) }
    {
        if MOST_ITEMS <= self.lines.len() {
            return Err(PushFault::TooManyItems);
        }
        if !(1 <= id && id <= GREATEST_ID) {
            return Err(PushFault::IdOutOfRange);
        }
        refuse_if(self.entries.get(&id).is_some(), PushFault::IdTaken)
    }

    /// Tests an item that is no constant in digits. Errors: the fault of the first row of the table that applies.
    pub(crate) fn check(&self, item: &Item) -> Result<(), PushFault>
        requires { digits_sort item.now.body ≡ None }
        ensures { Refuses result (wide_refusal greatest_width self.now item.now) }
    {
        self.check_id(item.id)?;
        self.check_body(&item.body)
    }

    /// The width of the sort of a constant in digits, which is to follow with an id.
    ///
    /// Errors: the first that applies of `TooManyItems`, `IdOutOfRange`, `IdTaken` and `NoSuchSort`. No other row refuses
    /// the constant but that of its digits, `ConstantDoesNotFit`.
    pub fn constant_width(&self, id: u64, sort: u32) -> Result<u64, PushFault>
        ensures answer { MatchResult result
            (λ n. (sort_width self.now sort ≡ Some n) × HasDigitsRow self.now id sort n)
            (λ e. IsConstantRefused self.now id sort e) }
        ensures range { IfOk result (λ n. (1 ≤ n) × (n ≤ greatest_width)) }
    {
        let _ = &self.lines;
        self.check_id(id)?;
        self.named_sort(sort)
    }

    /// Tests a constant in digits.
    pub(crate) fn check_constant(&self, constant: &Constant) -> Result<(), PushFault>
        ensures { Refuses result (wide_refusal greatest_width self.now (constant_item constant.now)) }
    {
        let width = self.constant_width(constant.id, constant.sort)?;
        let fits = constant_fits(
            width,
            constant.spelling,
            constant.count,
            constant.number.as_slice(),
        );
        refuse_if(!fits, PushFault::ConstantDoesNotFit)
    }
}
