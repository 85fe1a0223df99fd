//! Which texts stand for which models with words of any width, and which fault the others have, as functions with no code.
ghost use Rattle.std.specs.Prelude.{◌≡◌, ℕ, List, [], ◌∷◌, Ok, Err, codes, pos};
ghost use Rattle.btor2.specs.declared.item.Body.TheVariants as body;
ghost use Rattle.btor2.specs.declared.fault.PushFault.TheVariants as push;
ghost use Rattle.btor2.specs.Worked.{line};
ghost use Rattle.btor2text.specs.declared.fault.Why.TheVariants as why;
ghost use Rattle.btor2text.specs.Tokens.{tokens};
ghost use Rattle.btor2.specs.declared.item.Item.{Item};
ghost use Rattle.btor2text.specs.declared.fault.ReadFault.{ReadFault};
ghost use Rattle.btor2text.specs.Spelling.{StandsFor};
ghost use Rattle.widetext.specs.Spelling.{StandsForWide};
ghost use Rattle.widetext.specs.FirstFault.{IsWideFaultOf};
ghost use Rattle.widetext.specs.Reading.{wide_line_on, wide_text_on};

/// Reading a text gives the items that it stands for, and where it stands for none the fault of the first line that has one.
pub fn texts_are_read()
    ensures stands { (text : List ℕ) (items : List Item) → wide_text_on text ≡ Ok items
        → StandsForWide text items }
    ensures read { (text : List ℕ) (items : List Item) → StandsForWide text items
        → wide_text_on text ≡ Ok items }
    ensures same { (text : List ℕ) (items others : List Item) → StandsForWide text items
        → StandsForWide text others → items ≡ others }
    ensures fault { (text : List ℕ) (e : ReadFault) → wide_text_on text ≡ Err e
        → IsWideFaultOf text e }
{}

/// A text of the profile stands for the same items here.
pub fn profile_is_read()
    ensures { (text : List ℕ) (items : List Item) → StandsFor text items → StandsForWide text items }
{}

/// Worked rows: what lines give, alone or behind a sort.
#[tactic(auto, unfolding(crate::specs::Digits::whole_number, crate::specs::Digits::whole_decimal, crate::specs::Digits::whole_signed, crate::specs::Reading::digits_at, crate::specs::Reading::wide_body_at, crate::specs::Reading::wide_item_at, crate::specs::Reading::wide_line_on, wide::specs::WideModels::wide_refusal, wide::specs::WideModels::width_is_above, wide::specs::WideModels::constant_is_above, base::specs::Decimals::capped_value, base::specs::Decimals::is_decimal, base::specs::Decimals::number_of, btor2::specs::Check::id_is_out_of_range, btor2::specs::Check::id_is_taken, btor2::specs::Check::init_is_not_constant, btor2::specs::Check::is_second_init, btor2::specs::Check::is_second_next, btor2::specs::Check::justice_is_empty, btor2::specs::Check::operand_is_missing, btor2::specs::Check::slice_is_out_of_range, btor2::specs::Check::sort_is_missing, btor2::specs::Check::state_is_none, btor2::specs::Check::widths_differ, btor2text::specs::Reading::bit_at, btor2text::specs::Reading::body_at, btor2text::specs::Reading::counted_at, btor2text::specs::Reading::form_at, btor2text::specs::Reading::is_negative, btor2text::specs::Reading::kept_slice_bit, btor2text::specs::Reading::kept_id, btor2text::specs::Reading::operand, btor2text::specs::Reading::operand_at, btor2text::specs::Reading::operands_at, btor2text::specs::Reading::pair_at, btor2text::specs::Reading::plain_number, btor2text::specs::Reading::plain_at, btor2text::specs::Reading::sort_at, btor2text::specs::Reading::symbol_at, btor2text::specs::Reading::triple_at, btor2text::specs::Reading::width_told, btor2text::specs::Words::binary_of, btor2text::specs::Words::form_named, btor2text::specs::Words::form_of, btor2text::specs::Words::no_form, btor2text::specs::Words::unary_of))]
pub fn worked_lines()
    ensures sort { wide_line_on [] (tokens (codes "1 sort bitvec 128")) ≡ Ok (line 1 (body.Sort 128) ∷ []) }
    ensures too_wide { wide_line_on [] (tokens (codes "1 sort bitvec 1048577"))
        ≡ Err (why.Refused push.WidthOutOfRange) }
    ensures digits { wide_line_on (line 1 (body.Sort 72) ∷ []) (tokens (codes "2 consth 1 fedcba9876543210FF"))
        ≡ Ok (line 1 (body.Sort 72) ∷ line 2 (body.Consth 1 18 4701378187390224568575) ∷ []) }
    ensures decimal { wide_line_on (line 1 (body.Sort 131) ∷ [])
        (tokens (codes "2 constd 1 1234567890123456789012345678901234567890"))
        ≡ Ok (line 1 (body.Sort 131) ∷ line 2 (body.Constd 1 (pos 1234567890123456789012345678901234567890)) ∷ []) }
    ensures beyond { wide_line_on (line 1 (body.Sort 130) ∷ [])
        (tokens (codes "2 constd 1 1361129467683753853853498429727072845824"))
        ≡ Err why.ConstantDoesNotFit }
{}
