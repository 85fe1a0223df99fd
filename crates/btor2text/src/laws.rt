//! That what is written is read again, and worked rows of lines, items and faults, as functions with no code.
ghost use Rattle.std.specs.Prelude.{◌≡◌, ℕ, List, [], ◌∷◌, ◌++◌, ◌≤◌, false, codes, negsuc};
ghost use Rattle.base.specs.declared.operators.Unary.TheVariants as unary;
ghost use Rattle.base.specs.declared.operators.Binary.TheVariants as binary;
ghost use Rattle.btor2.specs.declared.item.Body.TheVariants as body;
ghost use Rattle.btor2.specs.declared.fault.PushFault.TheVariants as push;
ghost use Rattle.btor2.specs.declared.item.Item.{Item};
ghost use Rattle.btor2.specs.Check.{IsWellFormed, is_no_slice};
ghost use Rattle.btor2.specs.Parts.{HaveSoundParts};
ghost use Rattle.btor2.specs.Worked.{line};
ghost use Rattle.btor2text.specs.declared.fault.Why.TheVariants as why;
ghost use Rattle.btor2text.specs.Tokens.{tokens};
ghost use Rattle.btor2text.specs.Whys.{line_why_number};
ghost use Rattle.btor2text.specs.Words.{unary_of, binary_of};
ghost use Rattle.btor2text.specs.Spelling.{SpellsItem, StandsFor};
ghost use Rattle.btor2text.specs.Writing.{written};
ghost use Rattle.btor2text.specs.FirstFault.{IsFaultOf};
ghost use Rattle.btor2text.specs.Reading.{line_on, text_on, kept_slice_bit};

/// What is written stands for the items that are written, and is read again as them, for all well-formed lists of items
/// whose parts are as their types keep them: `btor2::Model::items` gives both of every model, and `write` says it of them.
pub fn read_back()
    ensures stands { (items : List Item) → IsWellFormed items → HaveSoundParts items
        → StandsFor (written items) items }
    ensures read { (items : List Item) → IsWellFormed items → HaveSoundParts items
        → text_on (written items) ≡ Ok items }
{}

/// A text stands for at most one list of items: each that it stands for is the one that reading it gives.
pub fn one_model()
    ensures read { (text : List ℕ) (items : List Item) → StandsFor text items
        → text_on text ≡ Ok items }
    ensures same { (text : List ℕ) (items others : List Item) → StandsFor text items
        → StandsFor text others → items ≡ others }
{}

/// A slice is refused by the bits that it keeps as by the numbers on its line, whatever the width of its node is, and
/// where it is not, they are these numbers.
#[tactic(auto, unfolding(crate::specs::Reading::kept_slice_bit))]
pub fn bits_are_kept()
    ensures refused { (width upper lower : ℕ) → width ≤ 64
        → is_no_slice width (kept_slice_bit upper) (kept_slice_bit lower)
        ≡ is_no_slice width upper lower }
    ensures same { (width upper lower : ℕ) → width ≤ 64 → is_no_slice width upper lower ≡ false
        → (kept_slice_bit upper ≡ upper) × (kept_slice_bit lower ≡ lower) }
{}

/// Worked rows: the tokens of lines.
pub fn worked_tokens()
    ensures spaces { tokens (codes "  5 not  1 3 ")
        ≡ codes "5" ∷ codes "not" ∷ codes "1" ∷ codes "3" ∷ [] }
    ensures tab_and_comment { tokens (codes "1 sort\tbitvec 1 ; a bit")
        ≡ codes "1" ∷ codes "sort" ∷ codes "bitvec" ∷ codes "1" ∷ [] }
    ensures only_comment { tokens (codes " ; t") ≡ [] }
    ensures no_comment { tokens (codes "a;b") ≡ codes "a;b" ∷ [] }
{}

/// Worked rows: lines that spell items, and a text that stands for one: without its last byte 10 it stands for none.
pub fn worked_items()
    ensures negated { SpellsItem (tokens (codes "5 not 1 3")) (line 5 (body.Unary unary.Not 1 3)) }
    ensures named { SpellsItem (tokens (codes "3 state 1 t ; named"))
        (record { id = 3; symbol = Some (codes "t"); body = body.State 1 }) }
    ensures hexadecimal { SpellsItem (tokens (codes "2 consth 1 00Ff"))
        (line 2 (body.Consth 1 4 255)) }
    ensures negative { SpellsItem (tokens (codes "2 constd 1 -8"))
        (line 2 (body.Constd 1 (negsuc 7))) }
    ensures justice { SpellsItem (tokens (codes "4 justice 2 2 3"))
        (line 4 (body.Justice (2 ∷ 3 ∷ []))) }
    ensures leading_zero { ¬ SpellsItem (tokens (codes "05 not 1 3"))
        (line 5 (body.Unary unary.Not 1 3)) }
    ensures text { StandsFor (codes "1 sort bitvec 1\n") (line 1 (body.Sort 1) ∷ []) }
    ensures unended { ¬ StandsFor (codes "1 sort bitvec 1") (line 1 (body.Sort 1) ∷ []) }
    ensures empty { StandsFor [] [] }
{}

/// Worked rows: words that name operators, and words that name none.
#[tactic(auto, unfolding(crate::specs::Words::unary_of, crate::specs::Words::binary_of))]
pub fn worked_operators()
    ensures one_operand { unary_of (codes "redxor") ≡ Some unary.Redxor }
    ensures not_of_one { unary_of (codes "sub") ≡ None }
    ensures two_operands { binary_of (codes "smod") ≡ Some binary.Smod }
    ensures overflow { binary_of (codes "sdivo") ≡ Some binary.Sdivo }
    ensures beginning { binary_of (codes "sdiv") ≡ Some binary.Sdiv }
    ensures unknown { binary_of (codes "udivo") ≡ None }
{}

/// Worked rows: what is wrong with lines that are read behind no item.
#[tactic(auto, unfolding(base::specs::Decimals::capped_value, base::specs::Decimals::is_decimal, base::specs::Decimals::number_of, btor2::specs::Check::constant_does_not_fit, btor2::specs::Check::id_is_out_of_range, btor2::specs::Check::id_is_taken, btor2::specs::Check::init_is_not_constant, btor2::specs::Check::is_second_init, btor2::specs::Check::is_second_next, btor2::specs::Check::justice_is_empty, btor2::specs::Check::operand_is_missing, btor2::specs::Check::refusal, btor2::specs::Check::slice_is_out_of_range, btor2::specs::Check::sort_is_missing, btor2::specs::Check::state_is_none, btor2::specs::Check::width_is_out_of_range, btor2::specs::Check::widths_differ, crate::specs::Digits::decimal_number, crate::specs::Digits::number_in, crate::specs::Digits::signed_number, crate::specs::Reading::bit_at, crate::specs::Reading::body_at, crate::specs::Reading::constant_told, crate::specs::Reading::counted_at, crate::specs::Reading::digits_at, crate::specs::Reading::form_at, crate::specs::Reading::is_negative, crate::specs::Reading::item_at, crate::specs::Reading::kept_slice_bit, crate::specs::Reading::kept_id, crate::specs::Reading::line_on, crate::specs::Reading::operand, crate::specs::Reading::operand_at, crate::specs::Reading::operands_at, crate::specs::Reading::pair_at, crate::specs::Reading::plain_number, crate::specs::Reading::plain_at, crate::specs::Reading::signed_at, crate::specs::Reading::sort_at, crate::specs::Reading::symbol_at, crate::specs::Reading::triple_at, crate::specs::Reading::width_told, crate::specs::Words::binary_of, crate::specs::Words::form_named, crate::specs::Words::form_of, crate::specs::Words::no_form, crate::specs::Words::unary_of))]
pub fn worked_whys()
    ensures bad_token { line_on [] (tokens (codes "1 sort foo")) ≡ Err why.BadToken }
    ensures leading_zero { line_on [] (tokens (codes "01 sort bitvec 1")) ≡ Err why.BadToken }
    ensures negative_sort { line_on [] (tokens (codes "3 not -1 2")) ≡ Err why.BadToken }
    ensures two_symbols { line_on [] (tokens (codes "2 input 1 a b")) ≡ Err why.BadToken }
    ensures array_sort { line_on [] (tokens (codes "2 sort array 1 1")) ≡ Err why.ArraySort }
    ensures array_operator { line_on [] (tokens (codes "4 read 1 2 3")) ≡ Err why.ArrayOperator }
    ensures unknown_operator { line_on [] (tokens (codes "2 udivo 1 1 1"))
        ≡ Err why.UnknownOperator }
    ensures negative_operand { line_on [] (tokens (codes "3 not 1 -2")) ≡ Err why.NegativeOperand }
    ensures negative_zero { line_on [] (tokens (codes "2 constd 1 -0")) ≡ Err why.BadToken }
    ensures no_count { line_on [] (tokens (codes "3 justice")) ≡ Err why.BadToken }
    ensures few_operands { line_on [] (tokens (codes "3 justice 2 1")) ≡ Err why.BadToken }
    ensures no_operands { line_on [] (tokens (codes "3 justice 0"))
        ≡ Err (why.Refused push.JusticeEmpty) }
    ensures refused { line_on [] (tokens (codes "2 input 1")) ≡ Err (why.Refused push.NoSuchSort) }
    ensures above_the_greatest { line_on [] (tokens (codes "2 input 4294967296"))
        ≡ Err (why.Refused push.NoSuchSort) }
    ensures beyond_all_bits { line_on (line 1 (body.Sort 4) ∷ line 2 (body.Input 1) ∷ [])
        (tokens (codes "3 slice 1 2 4294967299 0")) ≡ Err (why.Refused push.SliceOutOfRange) }
    ensures bad_symbol { line_on [] (tokens (codes "2 input 1 a" ++ 200 ∷ [])) ≡ Err why.BadSymbol }
    ensures nothing { line_on [] (tokens (codes "; t")) ≡ Ok [] }
    ensures does_not_fit { line_on (line 1 (body.Sort 4) ∷ []) (tokens (codes "2 const 1 101"))
        ≡ Err why.ConstantDoesNotFit }
{}

/// Worked rows: the first faults of texts, and the numbers of some whys.
pub fn worked_faults()
    ensures second_line { IsFaultOf (codes "1 sort bitvec 1\n3 not 1 -2\n")
        (record { line = 2; why = why.NegativeOperand }) }
    ensures unfinished { IsFaultOf (codes "1 sort bitvec 1")
        (record { line = 1; why = why.Unfinished }) }
    ensures numbers { (line_why_number why.ArraySort ≡ 21)
        × (line_why_number why.NegativeOperand ≡ 24) × (line_why_number why.UnknownOperator ≡ 23)
        × (line_why_number why.ConstantDoesNotFit ≡ 25) }
{}

/// Worked rows: the writer's text of items.
pub fn worked_texts()
    ensures hexadecimal { written (line 2 (body.Consth 1 4 255) ∷ []) ≡ codes "2 consth 1 00ff\n" }
    ensures binary { written (line 2 (body.Const 1 3 5) ∷ []) ≡ codes "2 const 1 101\n" }
    ensures negative { written (line 2 (body.Constd 1 (negsuc 7)) ∷ []) ≡ codes "2 constd 1 -8\n" }
    ensures named { written (line 1 (body.Sort 8)
        ∷ record { id = 2; symbol = Some (codes "a"); body = body.Input 1 }
        ∷ []) ≡ codes "1 sort bitvec 8\n2 input 1 a\n" }
    ensures justice { written (line 4 (body.Justice (2 ∷ 3 ∷ [])) ∷ [])
        ≡ codes "4 justice 2 2 3\n" }
{}
