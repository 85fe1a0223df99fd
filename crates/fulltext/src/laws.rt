//! Which texts stand for which models of the whole safety language, and which fault the others have, as functions with no code.
ghost use Rattle.std.specs.Prelude.{◌≡◌, ℕ, List, [], ◌∷◌, ◌++◌, Ok, Err, Some, true, false, codes, pos, negsuc};
ghost use Rattle.btor2.specs.declared.item.Body.TheVariants as body;
ghost use Rattle.btor2.specs.declared.fault.PushFault.TheVariants as push;
ghost use Rattle.btor2text.specs.declared.fault.Why.TheVariants as why;
ghost use Rattle.btor2text.specs.Tokens.{tokens};
ghost use Rattle.btor2text.specs.declared.fault.ReadFault.{ReadFault};
ghost use Rattle.full.specs.Lines.{FullLine, plain, operand, form, array_sort, read, write};
ghost use Rattle.full.specs.Worked.{lines_numbered};
ghost use Rattle.btor2.specs.declared.item.Item.{Item};
ghost use Rattle.btor2.specs.Check.{IsWellFormed};
ghost use Rattle.btor2text.specs.Writing.{written};
ghost use Rattle.widetext.specs.Spelling.{StandsForWide};
ghost use Rattle.full.specs.Plain.{plain_lines};
ghost use Rattle.fulltext.specs.Spelling.{StandsForFull};
ghost use Rattle.fulltext.specs.FirstFault.{IsFullFaultOf};
ghost use Rattle.fulltext.specs.Reading.{full_line_on, full_text_on};
ghost use Rattle.fulltext.specs.Writing.{written_full};

/// Reading a text gives the lines that it stands for, and where it stands for none the fault of the first line that has one.
pub fn texts_are_read()
    ensures stands { (text : List ℕ) (items : List FullLine) → full_text_on text ≡ Ok items
        → StandsForFull text items }
    ensures read { (text : List ℕ) (items : List FullLine) → StandsForFull text items
        → full_text_on text ≡ Ok items }
    ensures same { (text : List ℕ) (items others : List FullLine) → StandsForFull text items
        → StandsForFull text others → items ≡ others }
    ensures fault { (text : List ℕ) (e : ReadFault) → full_text_on text ≡ Err e
        → IsFullFaultOf text e }
{}

/// A law: a text that stands for a model of wide words stands for its lines here.
pub fn wide_texts_are_read()
    ensures { (text : List ℕ) (items : List Item) → StandsForWide text items
        → StandsForFull text (plain_lines items) }
{}

/// Where any text stands for lines, what is written does, and is read again as them: so it is for all that reading gives.
pub fn texts_are_written()
    ensures stands { (text : List ℕ) (items : List FullLine) → StandsForFull text items
        → StandsForFull (written_full items) items }
    ensures read { (text : List ℕ) (items : List FullLine) → StandsForFull text items
        → full_text_on (written_full items) ≡ Ok items }
{}

/// A law: a model of the profile is written as `btor2text` writes it.
pub fn profile_is_written()
    ensures { (items : List Item) → IsWellFormed items → written_full (plain_lines items) ≡ written items }
{}

/// Worked rows: the writer's text of lines.
pub fn worked_writing()
    ensures array { written_full (lines_numbered 3 (array_sort 1 2 ∷ [])) ≡ codes "3 sort array 1 2\n" }
    ensures read { written_full (lines_numbered 7 (read 2 5 (operand 4 true) ∷ [])) ≡ codes "7 read 2 5 -4\n" }
    ensures write { written_full (lines_numbered 7 (write 3 5 (plain 4) (operand 6 true) ∷ []))
        ≡ codes "7 write 3 5 4 -6\n" }
    ensures filled { written_full (lines_numbered 7 (form (body.Init 3 5 6) (false ∷ true ∷ []) ∷ []))
        ≡ codes "7 init 3 5 -6\n" }
    ensures slice { written_full (lines_numbered 5 (form (body.Slice 1 4 7 0) (true ∷ []) ∷ []))
        ≡ codes "5 slice 1 -4 7 0\n" }
    ensures bad { written_full (lines_numbered 9 (form (body.Bad 8) (true ∷ []) ∷ [])) ≡ codes "9 bad -8\n" }
    ensures justice { written_full (lines_numbered 9 (form (body.Justice (2 ∷ 3 ∷ [])) (false ∷ true ∷ []) ∷ []))
        ≡ codes "9 justice 2 2 -3\n" }
    ensures named { written_full (record { id = 6; symbol = Some (codes "cells"); says = form (body.State 3) [] } ∷ [])
        ≡ codes "6 state 3 cells\n" }
    ensures wide { written_full (lines_numbered 2 (form (body.Consth 1 18 4701378187390224568575) [] ∷ []))
        ≡ codes "2 consth 1 fedcba9876543210ff\n" }
    ensures decimal { written_full (lines_numbered 2 (form (body.Constd 1 (pos 12345678901234567890123456789012345678901234567890123456789012345678901234567890)) [] ∷ []))
        ≡ codes "2 constd 1 12345678901234567890123456789012345678901234567890123456789012345678901234567890\n" }
    ensures negative { written_full (lines_numbered 2 (form (body.Constd 1 (negsuc 7)) [] ∷ []))
        ≡ codes "2 constd 1 -8\n" }
{}

/// Worked rows: what lines give behind sorts of one and of two bits, one of arrays of these, an input and two states.
#[tactic(auto, unfolding(crate::specs::Signs::has_minus, crate::specs::Reading::kind_at, crate::specs::Reading::form_at, crate::specs::Reading::array_at, crate::specs::Reading::sort_said_at, crate::specs::Reading::read_at, crate::specs::Reading::write_at, crate::specs::Reading::said_at, crate::specs::Reading::full_line_at, crate::specs::Reading::full_line_on, fullmodel::specs::FullModels::line_refusal, fullmodel::specs::FullModels::id_is_out_of_range, fullmodel::specs::FullModels::id_is_taken, fullmodel::specs::FullModels::sort_is_missing, fullmodel::specs::FullModels::operand_is_missing, fullmodel::specs::FullModels::state_is_none, fullmodel::specs::FullModels::state_has_minus, fullmodel::specs::FullModels::minus_is_at_array, fullmodel::specs::FullModels::width_is_out_of_range, fullmodel::specs::FullModels::is_no_array_sort, fullmodel::specs::FullModels::slice_is_out_of_range, fullmodel::specs::FullModels::sorts_differ, fullmodel::specs::FullModels::constant_does_not_fit, fullmodel::specs::FullModels::is_second_init, fullmodel::specs::FullModels::is_second_next, wide::specs::WideModels::width_is_above, widetext::specs::Reading::wide_body_at, base::specs::Decimals::capped_value, base::specs::Decimals::is_decimal, base::specs::Decimals::number_of, btor2::specs::Check::justice_is_empty, btor2text::specs::Reading::bit_at, btor2text::specs::Reading::body_at, btor2text::specs::Reading::counted_at, btor2text::specs::Reading::is_negative, btor2text::specs::Reading::kept_slice_bit, btor2text::specs::Reading::kept_id, btor2text::specs::Reading::operand, btor2text::specs::Reading::operand_at, btor2text::specs::Reading::operands_at, btor2text::specs::Reading::pair_at, btor2text::specs::Reading::plain_number, btor2text::specs::Reading::plain_at, btor2text::specs::Reading::sort_at, btor2text::specs::Reading::symbol_at, btor2text::specs::Reading::triple_at, btor2text::specs::Reading::width_told, btor2text::specs::Words::binary_of, btor2text::specs::Words::form_named, btor2text::specs::Words::form_of, btor2text::specs::Words::no_form, btor2text::specs::Words::unary_of))]
pub fn worked_lines()
    ensures arrays { full_line_on (lines_numbered 1 (form (body.Sort 1) [] ∷ form (body.Sort 2) [] ∷ array_sort 1 2 ∷ form (body.Input 1) [] ∷ form (body.State 3) [] ∷ form (body.State 2) [] ∷ [])) (tokens (codes "7 sort array 2 1"))
        ≡ Ok ((lines_numbered 1 (form (body.Sort 1) [] ∷ form (body.Sort 2) [] ∷ array_sort 1 2 ∷ form (body.Input 1) [] ∷ form (body.State 3) [] ∷ form (body.State 2) [] ∷ [])) ++ lines_numbered 7 (array_sort 2 1 ∷ [])) }
    ensures reads { full_line_on (lines_numbered 1 (form (body.Sort 1) [] ∷ form (body.Sort 2) [] ∷ array_sort 1 2 ∷ form (body.Input 1) [] ∷ form (body.State 3) [] ∷ form (body.State 2) [] ∷ [])) (tokens (codes "7 read 2 5 -4"))
        ≡ Ok ((lines_numbered 1 (form (body.Sort 1) [] ∷ form (body.Sort 2) [] ∷ array_sort 1 2 ∷ form (body.Input 1) [] ∷ form (body.State 3) [] ∷ form (body.State 2) [] ∷ [])) ++ lines_numbered 7 (read 2 5 (operand 4 true) ∷ [])) }
    ensures writes { full_line_on (lines_numbered 1 (form (body.Sort 1) [] ∷ form (body.Sort 2) [] ∷ array_sort 1 2 ∷ form (body.Input 1) [] ∷ form (body.State 3) [] ∷ form (body.State 2) [] ∷ [])) (tokens (codes "7 write 3 5 4 -6"))
        ≡ Ok ((lines_numbered 1 (form (body.Sort 1) [] ∷ form (body.Sort 2) [] ∷ array_sort 1 2 ∷ form (body.Input 1) [] ∷ form (body.State 3) [] ∷ form (body.State 2) [] ∷ [])) ++ lines_numbered 7 (write 3 5 (plain 4) (operand 6 true) ∷ [])) }
    ensures inverted { full_line_on (lines_numbered 1 (form (body.Sort 1) [] ∷ form (body.Sort 2) [] ∷ array_sort 1 2 ∷ form (body.Input 1) [] ∷ form (body.State 3) [] ∷ form (body.State 2) [] ∷ [])) (tokens (codes "7 init 3 5 -6"))
        ≡ Ok ((lines_numbered 1 (form (body.Sort 1) [] ∷ form (body.Sort 2) [] ∷ array_sort 1 2 ∷ form (body.Input 1) [] ∷ form (body.State 3) [] ∷ form (body.State 2) [] ∷ [])) ++ lines_numbered 7 (form (body.Init 3 5 6) (false ∷ true ∷ []) ∷ [])) }
    ensures bare { full_line_on (lines_numbered 1 (form (body.Sort 1) [] ∷ form (body.Sort 2) [] ∷ array_sort 1 2 ∷ form (body.Input 1) [] ∷ form (body.State 3) [] ∷ form (body.State 2) [] ∷ [])) (tokens (codes "7 next 3 5 5"))
        ≡ Ok ((lines_numbered 1 (form (body.Sort 1) [] ∷ form (body.Sort 2) [] ∷ array_sort 1 2 ∷ form (body.Input 1) [] ∷ form (body.State 3) [] ∷ form (body.State 2) [] ∷ [])) ++ lines_numbered 7 (form (body.Next 3 5 5) [] ∷ [])) }
    ensures state_inverted { full_line_on (lines_numbered 1 (form (body.Sort 1) [] ∷ form (body.Sort 2) [] ∷ array_sort 1 2 ∷ form (body.Input 1) [] ∷ form (body.State 3) [] ∷ form (body.State 2) [] ∷ [])) (tokens (codes "7 next 2 -6 6"))
        ≡ Err why.NegativeOperand }
    ensures array_inverted { full_line_on (lines_numbered 1 (form (body.Sort 1) [] ∷ form (body.Sort 2) [] ∷ array_sort 1 2 ∷ form (body.Input 1) [] ∷ form (body.State 3) [] ∷ form (body.State 2) [] ∷ [])) (tokens (codes "7 read 2 -5 4"))
        ≡ Err why.NegativeOperand }
    ensures value_inverted { full_line_on (lines_numbered 1 (form (body.Sort 1) [] ∷ form (body.Sort 2) [] ∷ array_sort 1 2 ∷ form (body.Input 1) [] ∷ form (body.State 3) [] ∷ form (body.State 2) [] ∷ [])) (tokens (codes "7 next 3 5 -5"))
        ≡ Err why.NegativeOperand }
    ensures of_arrays { full_line_on (lines_numbered 1 (form (body.Sort 1) [] ∷ form (body.Sort 2) [] ∷ array_sort 1 2 ∷ form (body.Input 1) [] ∷ form (body.State 3) [] ∷ form (body.State 2) [] ∷ [])) (tokens (codes "7 sort array 1 3"))
        ≡ Err why.ArraySort }
    ensures wrong_index { full_line_on (lines_numbered 1 (form (body.Sort 1) [] ∷ form (body.Sort 2) [] ∷ array_sort 1 2 ∷ form (body.Input 1) [] ∷ form (body.State 3) [] ∷ form (body.State 2) [] ∷ [])) (tokens (codes "7 read 2 5 6"))
        ≡ Err (why.Refused push.SortMismatch) }
    ensures no_operator { full_line_on (lines_numbered 1 (form (body.Sort 1) [] ∷ form (body.Sort 2) [] ∷ array_sort 1 2 ∷ form (body.Input 1) [] ∷ form (body.State 3) [] ∷ form (body.State 2) [] ∷ [])) (tokens (codes "7 udivo 2 6 6"))
        ≡ Err why.UnknownOperator }
{}
