//! Why a line is refused: the rows of the table, in its order.
#![tactic(auto, unfolding(crate::specs::FullModels::line_refusal, crate::specs::FullModels::id_is_out_of_range, crate::specs::FullModels::id_is_taken, crate::specs::FullModels::sort_is_missing, crate::specs::FullModels::operand_is_missing, crate::specs::FullModels::state_is_none, crate::specs::FullModels::state_has_minus, crate::specs::FullModels::minus_is_at_array, crate::specs::FullModels::width_is_out_of_range, crate::specs::FullModels::is_no_array_sort, crate::specs::FullModels::slice_is_out_of_range, crate::specs::FullModels::sorts_differ, crate::specs::FullModels::constant_does_not_fit, crate::specs::FullModels::is_second_init, crate::specs::FullModels::is_second_next, wide::specs::WideModels::width_is_above, btor2::specs::Check::justice_is_empty))]

ghost use Rattle.std.specs.Prelude.{◌≡◌, [], ◌∷◌, not, ◌||◌, None, Some, true, false, is_some, MatchResult};
ghost use Rattle.std.specs.List.{list_all};
ghost use Rattle.btor2.specs.Items.{named_sort};
ghost use Rattle.btor2.specs.Check.{justice_is_empty};
ghost use Rattle.wide.specs.Lines.{constant_body, number_of_digits};
ghost use Rattle.wide.specs.Entries.{digits_sort};
ghost use Rattle.fullmodel.specs.Rows.{HasDigitsRow, IsConstantRefused};
ghost use Rattle.full.specs.Lines.{words, form, array_sort, read, write, sort_at, sort_of_node};
ghost use Rattle.full.specs.Agreement.{is_words, first_is_plain};
ghost use Rattle.fullmodel.specs.Lines.{line_of, says_of, operand_of, HasNoDigits};
ghost use Rattle.fullmodel.specs.FullModels.{is_bit, sort_is_missing, operand_is_missing, state_is_none, state_has_minus, minuses_at_words, minus_is_at_array, width_is_out_of_range, slice_is_out_of_range, sorts_agree, constant_does_not_fit, is_second_init, is_second_next, first_fault, id_rows, said_rows, line_refusal, RefusesLine};

use crate::fault::LineFault;
use crate::line::{Line, Operand, Says};
use crate::model::FullModel;
use crate::model::rows::{justice_is_empty, state_has_minus, width_is_out_of_range};
use crate::sorts::{Sort, is_words, makes_arrays, read_agrees, width_in, write_agrees};
use btor2::{Body, PushFault};
use wide::{Spelling, constant_fits};

/// The greatest number of lines.
const MOST_LINES: usize = 1_048_576;

/// The greatest id.
const GREATEST_ID: u64 = 4_294_967_295;

/// Refuses where a test finds a fault.
fn refuse_if(found: bool, fault: PushFault) -> Result<(), LineFault>
    ensures { RefusesLine result (first_fault ((found, LineFault.Push fault) ∷ [])) }
{
    if found {
        Err(LineFault::Push(fault))
    } else {
        Ok(())
    }
}

impl FullModel {
    /// Tests a form that is no constant in digits.
    fn check_form(&self, body: &Body, minuses: &[bool]) -> Result<(), LineFault>
        requires { digits_sort body.now ≡ None }
        ensures { RefusesLine result (first_fault (said_rows self.now (form body.now minuses.now))) }
    {
        if self.sort_is_missing(body) {
            return Err(LineFault::Push(PushFault::NoSuchSort));
        }
        if self.operand_is_missing(body) {
            return Err(LineFault::Push(PushFault::NoSuchNode));
        }
        if self.state_is_none(body) {
            return Err(LineFault::Push(PushFault::NotAState));
        }
        if state_has_minus(body, minuses) {
            return Err(LineFault::NegativeOperand);
        }
        if self.minus_is_at_array(body, minuses) {
            return Err(LineFault::NegativeOperand);
        }
        if width_is_out_of_range(body) {
            return Err(LineFault::Push(PushFault::WidthOutOfRange));
        }
        if self.slice_is_out_of_range(body) {
            return Err(LineFault::Push(PushFault::SliceOutOfRange));
        }
        if !self.sorts_agree(body) {
            return Err(LineFault::Push(PushFault::SortMismatch));
        }
        if self.is_second_init(body) {
            return Err(LineFault::Push(PushFault::SecondInit));
        }
        if self.is_second_next(body) {
            return Err(LineFault::Push(PushFault::SecondNext));
        }
        refuse_if(justice_is_empty(body), PushFault::JusticeEmpty)
    }

    /// Tests a constant in digits.
    fn check_constant(
        &self,
        sort: u32,
        spelling: Spelling,
        count: usize,
        number: &[u64],
    ) -> Result<(), LineFault>
        ensures { RefusesLine result (first_fault (said_rows self.now
            (form (constant_body spelling sort count (number_of_digits number.now)) []))) }
    {
        let kept = self.sort_at(sort);
        if kept.is_none() {
            return Err(LineFault::Push(PushFault::NoSuchSort));
        }
        if !is_words(kept) {
            return Err(LineFault::Push(PushFault::SortMismatch));
        }
        refuse_if(
            !constant_fits(width_in(kept), spelling, count, number),
            PushFault::ConstantDoesNotFit,
        )
    }

    /// Tests a sort of arrays.
    fn check_array_sort(&self, index: u32, element: u32) -> Result<(), LineFault>
        ensures { RefusesLine result (first_fault (said_rows self.now (array_sort index element))) }
    {
        let indices = self.sort_at(index);
        let elements = self.sort_at(element);
        if indices.is_none() | elements.is_none() {
            return Err(LineFault::Push(PushFault::NoSuchSort));
        }
        if makes_arrays(indices, elements) {
            Ok(())
        } else {
            Err(LineFault::ArraySort)
        }
    }

    /// Tests what reads a cell of an array.
    fn check_read(&self, sort: u32, array: u32, index: Operand) -> Result<(), LineFault>
        ensures { RefusesLine result (first_fault (said_rows self.now (read sort array (operand_of index)))) }
    {
        if self.sort_at(sort).is_none() {
            return Err(LineFault::Push(PushFault::NoSuchSort));
        }
        if !self.are_nodes(&[array, index.id]) {
            return Err(LineFault::Push(PushFault::NoSuchNode));
        }
        if !self.minuses_at_words(&[array, index.id], &[false, index.minus]) {
            return Err(LineFault::NegativeOperand);
        }
        let agrees = read_agrees(
            self.sort_at(sort),
            self.sort_of_node(array),
            self.sort_of_node(index.id),
        );
        refuse_if(!agrees, PushFault::SortMismatch)
    }

    /// Tests what writes a word into an array.
    fn check_write(
        &self,
        sort: u32,
        array: u32,
        index: Operand,
        word: Operand,
    ) -> Result<(), LineFault>
        ensures { RefusesLine result (first_fault (said_rows self.now
            (write sort array (operand_of index) (operand_of word)))) }
    {
        if self.sort_at(sort).is_none() {
            return Err(LineFault::Push(PushFault::NoSuchSort));
        }
        if !self.are_nodes(&[array, index.id, word.id]) {
            return Err(LineFault::Push(PushFault::NoSuchNode));
        }
        if !self.minuses_at_words(
            &[array, index.id, word.id],
            &[false, index.minus, word.minus],
        ) {
            return Err(LineFault::NegativeOperand);
        }
        let agrees = write_agrees(
            self.sort_at(sort),
            self.sort_of_node(array),
            self.sort_of_node(index.id),
            self.sort_of_node(word.id),
        );
        refuse_if(!agrees, PushFault::SortMismatch)
    }

    /// Tests what a line says.
    fn check_said(&self, says: &Says) -> Result<(), LineFault>
        requires { HasNoDigits says.now }
        ensures { RefusesLine result (first_fault (said_rows self.now (says_of says.now))) }
    {
        match says {
            Says::Form { body, minuses } => self.check_form(body, minuses.as_slice()),
            Says::Constant {
                sort,
                spelling,
                count,
                number,
            } => self.check_constant(*sort, *spelling, *count, number.as_slice()),
            Says::ArraySort { index, element } => self.check_array_sort(*index, *element),
            Says::Read { sort, array, index } => self.check_read(*sort, *array, *index),
            Says::Write {
                sort,
                array,
                index,
                word,
            } => self.check_write(*sort, *array, *index, *word),
        }
    }

    /// Tests whether there may be one line more, with an id.
    fn check_id(&self, id: u64) -> Result<(), LineFault>
        ensures { RefusesLine result (first_fault (id_rows self.now id)) }
    {
        if MOST_LINES <= self.lines.len() {
            return Err(LineFault::Push(PushFault::TooManyItems));
        }
        if !(1 <= id && id <= GREATEST_ID) {
            return Err(LineFault::Push(PushFault::IdOutOfRange));
        }
        refuse_if(self.entries.get(&id).is_some(), PushFault::IdTaken)
    }

    /// Tests a line. Errors: the fault of the first row of the table that applies.
    pub(crate) fn check(&self, line: &Line) -> Result<(), LineFault>
        requires { HasNoDigits line.now.says }
        ensures { RefusesLine result (line_refusal self.now (line_of line.now)) }
    {
        self.check_id(line.id)?;
        self.check_said(&line.says)
    }

    /// The width of the sort of a constant in digits, which is to follow with an id.
    ///
    /// Errors: the first that applies of `TooManyItems`, `IdOutOfRange`, `IdTaken`, `NoSuchSort` and `SortMismatch`. No
    /// other row refuses the constant but that of its digits, `ConstantDoesNotFit`.
    pub fn constant_width(&self, id: u64, sort: u32) -> Result<u64, LineFault>
        ensures { MatchResult result
            (λ n. (sort_at self.now sort ≡ Some (words n)) × HasDigitsRow self.now id sort n)
            (λ e. IsConstantRefused self.now id sort e) }
    {
        self.check_id(id)?;
        match self.sort_at(sort) {
            Some(Sort::Words(width)) => Ok(width),
            Some(Sort::Arrays { .. }) => Err(LineFault::Push(PushFault::SortMismatch)),
            None => Err(LineFault::Push(PushFault::NoSuchSort)),
        }
    }
}
