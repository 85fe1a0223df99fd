//! Theorems on the definitions, as functions with no code.
ghost use Rattle.std.specs.Prelude.{◌≡◌, ◌≢◌, ◌↔◌, ℕ, ◌+◌, ◌-◌, ◌*◌, ◌%◌, ◌^◌, ◌<◌, ◌≤◌, min, max, ◌==◌, Bool, true, false, List, [], ◌∷◌, length, slice_get, ℤ, pos, nat_abs, ◌+ℤ◌, ◌-ℤ◌, ◌*ℤ◌, ◌≤ℤ◌, ◌<ℤ◌, ◌++◌, All, codes, decimal};
ghost use Rattle.base.specs.Operator.{ones, unary_value, binary_value, ite_value, slice_value, uext_value, sext_value, concat_value, udiv, urem, sdiv, srem, smod, sdiv_overflows};
ghost use Rattle.base.specs.Signed.{signed, wrapped, truncated, floored, overflows};
ghost use Rattle.base.specs.Widths.{unary_width, binary_width};
ghost use Rattle.base.specs.Word.{bit, bits, word};
ghost use Rattle.base.specs.Lines.{text_of_lines, IsLine, whole_lines, unfinished};
ghost use Rattle.base.specs.Held.{Advances};
ghost use Rattle.base.specs.Decimals.{number_of};
ghost use Rattle.base.specs.Trials.{is_due, one_later, all_failures};

use crate::operators::{Binary, Unary};

/// A law, with no code: a word of width n and its n bits stand for each other, and the bit at place i
/// is the word over 2 to the i, odd or even.
pub fn bits_stand_for_words()
    ensures back { (n x : ℕ) → x < 2 ^ n → word (bits n x) ≡ x }
    ensures forth { (list : List Bool) → bits (length list) (word list) ≡ list }
    ensures at { (n x i : ℕ) → i < n → slice_get (bits n x) i ≡ Some (bit x i == 1) }
{}

/// A law, with no code: words of width n and the whole numbers that do not overflow at that width stand for each other, and
/// numbers that differ by some times 2 to the n have one word.
pub fn words_stand_for_numbers()
    ensures fits { (n x : ℕ) → 1 ≤ n → x < 2 ^ n → overflows n (signed n x) ≡ false }
    ensures back { (n x : ℕ) → x < 2 ^ n → wrapped n (signed n x) ≡ x }
    ensures forth { (n : ℕ) (z : ℤ) → 1 ≤ n → overflows n z ≡ false → signed n (wrapped n z) ≡ z }
    ensures word { (n : ℕ) (z : ℤ) → wrapped n z < 2 ^ n }
    ensures again { (n : ℕ) (z t : ℤ) → wrapped n (z +ℤ t *ℤ pos (2 ^ n)) ≡ wrapped n z }
{}

/// A law, with no code: what an operator gives for words of width n is a word of the operator's width.
pub fn values_fit()
    ensures unary { (op : Unary) (n a : ℕ) → 1 ≤ n → a < 2 ^ n
        → unary_value op n a < 2 ^ unary_width op n }
    ensures binary { (op : Binary) (n a b : ℕ) → 1 ≤ n → a < 2 ^ n → b < 2 ^ n
        → binary_value op n a b < 2 ^ binary_width op n }
    ensures ite { (n c t e : ℕ) → t < 2 ^ n → e < 2 ^ n → ite_value c t e < 2 ^ n }
    ensures slice { (a u l : ℕ) → slice_value a u l < 2 ^ (u - l + 1) }
    ensures uext { (n a by : ℕ) → a < 2 ^ n → uext_value a < 2 ^ (n + by) }
    ensures sext { (n a by : ℕ) → sext_value n a by < 2 ^ (n + by) }
    ensures concat { (n m a b : ℕ) → a < 2 ^ n → b < 2 ^ m → concat_value a m b < 2 ^ (n + m) }
{}

/// A law, with no code: a reduction, a test of bits and a comparison give 1 exactly where what they ask for holds.
pub fn tests_decide()
    ensures redand { (n a : ℕ) → (unary_value Unary.Redand n a ≡ 1) ↔ (a ≡ ones n) }
    ensures redor { (n a : ℕ) → (unary_value Unary.Redor n a ≡ 1) ↔ (a ≢ 0) }
    ensures iff { (a b : ℕ) → (binary_value Binary.Iff 1 a b ≡ 1) ↔ (a ≡ b) }
    ensures implies { (a b : ℕ) → a < 2 → b < 2 → (binary_value Binary.Implies 1 a b ≡ 1)
        ↔ (a ≤ b) }
    ensures eq { (n a b : ℕ) → (binary_value Binary.Eq n a b ≡ 1) ↔ (a ≡ b) }
    ensures neq { (n a b : ℕ) → (binary_value Binary.Neq n a b ≡ 1) ↔ (a ≢ b) }
    ensures ugt { (n a b : ℕ) → (binary_value Binary.Ugt n a b ≡ 1) ↔ (b < a) }
    ensures ugte { (n a b : ℕ) → (binary_value Binary.Ugte n a b ≡ 1) ↔ (b ≤ a) }
    ensures ult { (n a b : ℕ) → (binary_value Binary.Ult n a b ≡ 1) ↔ (a < b) }
    ensures ulte { (n a b : ℕ) → (binary_value Binary.Ulte n a b ≡ 1) ↔ (a ≤ b) }
    ensures sgt { (n a b : ℕ) → (binary_value Binary.Sgt n a b ≡ 1) ↔ (signed n b <ℤ signed n a) }
    ensures sgte { (n a b : ℕ) → (binary_value Binary.Sgte n a b ≡ 1) ↔ (signed n b ≤ℤ signed n a) }
    ensures slt { (n a b : ℕ) → (binary_value Binary.Slt n a b ≡ 1) ↔ (signed n a <ℤ signed n b) }
    ensures slte { (n a b : ℕ) → (binary_value Binary.Slte n a b ≡ 1) ↔ (signed n a ≤ℤ signed n b) }
{}

/// A law, with no code: the bitwise operators, bit by bit.
pub fn bits_of_bitwise_words()
    ensures not { (n a i : ℕ) → a < 2 ^ n → i < n → bit (unary_value Unary.Not n a) i
        ≡ 1 - bit a i }
    ensures and { (n a b i : ℕ) → bit (binary_value Binary.And n a b) i ≡ min (bit a i) (bit b i) }
    ensures nand { (n a b i : ℕ) → a < 2 ^ n → i < n → bit (binary_value Binary.Nand n a b) i
        ≡ 1 - min (bit a i) (bit b i) }
    ensures or { (n a b i : ℕ) → bit (binary_value Binary.Or n a b) i ≡ max (bit a i) (bit b i) }
    ensures nor { (n a b i : ℕ) → a < 2 ^ n → b < 2 ^ n → i < n
        → bit (binary_value Binary.Nor n a b) i ≡ 1 - max (bit a i) (bit b i) }
    ensures xor { (n a b i : ℕ) → bit (binary_value Binary.Xor n a b) i ≡ (bit a i + bit b i) % 2 }
    ensures xnor { (n a b i : ℕ) → a < 2 ^ n → b < 2 ^ n → i < n
        → bit (binary_value Binary.Xnor n a b) i ≡ 1 - (bit a i + bit b i) % 2 }
{}

/// A law, with no code: the slices of two words side by side are the two words.
pub fn joined_words_come_apart()
    ensures high { (n m a b : ℕ) → 1 ≤ n → a < 2 ^ n → b < 2 ^ m
        → slice_value (concat_value a m b) (n + m - 1) m ≡ a }
    ensures low { (m a b : ℕ) → 1 ≤ m → b < 2 ^ m → slice_value (concat_value a m b) (m - 1) 0 ≡ b }
{}

/// A law, with no code: a word made wider stands for the same number, without a sign and with one.
pub fn wider_words_keep_numbers()
    ensures uext { (a : ℕ) → uext_value a ≡ a }
    ensures sext { (n a by : ℕ) → 1 ≤ n → a < 2 ^ n → signed (n + by) (sext_value n a by)
        ≡ signed n a }
{}

/// A law, with no code: the divisor times the quotient, with the remainder, is the dividend, and the remainder is nearer to 0
/// than the divisor. So for words, for signed numbers with the quotient rounded towards zero, and for signed numbers with the
/// quotient rounded down. The word of a signed quotient stands for it, unless it overflows.
pub fn quotients_and_remainders()
    ensures whole { (n a b : ℕ) → b ≢ 0 → a ≡ udiv n a b * b + urem a b }
    ensures below { (a b : ℕ) → b ≢ 0 → urem a b < b }
    ensures truncated_whole { (n a b : ℕ) → 1 ≤ n → b < 2 ^ n → b ≢ 0
        → signed n a ≡ signed n b *ℤ truncated (signed n a) (signed n b) +ℤ signed n (srem n a b) }
    ensures truncated_below { (n a b : ℕ) → 1 ≤ n → b < 2 ^ n → b ≢ 0
        → nat_abs (signed n (srem n a b)) < nat_abs (signed n b) }
    ensures floored_whole { (n a b : ℕ) → 1 ≤ n → b < 2 ^ n → b ≢ 0
        → signed n a ≡ signed n b *ℤ floored (signed n a) (signed n b) +ℤ signed n (smod n a b) }
    ensures floored_below { (n a b : ℕ) → 1 ≤ n → b < 2 ^ n → b ≢ 0
        → nat_abs (signed n (smod n a b)) < nat_abs (signed n b) }
    ensures quotient { (n a b : ℕ) → 1 ≤ n → a < 2 ^ n → b < 2 ^ n → b ≢ 0
        → sdiv_overflows n a b ≡ false → signed n (sdiv n a b)
        ≡ truncated (signed n a) (signed n b) }
{}

/// A law, with no code: the remainder of `srem` has the dividend's sign, and that of `smod` the divisor's, or it is 0.
pub fn signs_of_remainders()
    ensures srem_from_0 { (n a b : ℕ) → 1 ≤ n → b < 2 ^ n → b ≢ 0 → pos 0 ≤ℤ signed n a
        → pos 0 ≤ℤ signed n (srem n a b) }
    ensures srem_below_0 { (n a b : ℕ) → 1 ≤ n → b < 2 ^ n → b ≢ 0 → signed n a <ℤ pos 0
        → signed n (srem n a b) ≤ℤ pos 0 }
    ensures smod_from_0 { (n a b : ℕ) → 1 ≤ n → b < 2 ^ n → b ≢ 0 → pos 0 <ℤ signed n b
        → pos 0 ≤ℤ signed n (smod n a b) }
    ensures smod_below_0 { (n a b : ℕ) → 1 ≤ n → b < 2 ^ n → b ≢ 0 → signed n b <ℤ pos 0
        → signed n (smod n a b) ≤ℤ pos 0 }
{}

/// A law, with no code: each rotation undoes the other by the same amount.
pub fn rotations_return()
    ensures right { (n a b : ℕ) → 1 ≤ n → a < 2 ^ n
        → binary_value Binary.Ror n (binary_value Binary.Rol n a b) b ≡ a }
    ensures left { (n a b : ℕ) → 1 ≤ n → a < 2 ^ n
        → binary_value Binary.Rol n (binary_value Binary.Ror n a b) b ≡ a }
{}

/// A law, with no code: a rotation moves the bit at each place by the amount, modulo the width.
pub fn rotations_move_bits()
    ensures rol { (n a b i : ℕ) → a < 2 ^ n → i < n
        → bit (binary_value Binary.Rol n a b) ((i + b) % n) ≡ bit a i }
    ensures ror { (n a b i : ℕ) → a < 2 ^ n → i < n → bit (binary_value Binary.Ror n a b) i
        ≡ bit a ((i + b) % n) }
{}

/// A law, with no code: the two shifts to the right agree on a word whose sign is 0, and on the others the signed one shifts the
/// word's bits negated. A shift by the width or more leaves nothing.
pub fn shifts_agree()
    ensures sign_0 { (n a b : ℕ) → 1 ≤ n → a < 2 ^ (n - 1) → binary_value Binary.Sra n a b
        ≡ binary_value Binary.Srl n a b }
    ensures sign_1 { (n a b : ℕ) → 1 ≤ n → 2 ^ (n - 1) ≤ a → a < 2 ^ n
        → binary_value Binary.Sra n a b ≡ unary_value Unary.Not n
        (binary_value Binary.Srl n (unary_value Unary.Not n a) b) }
    ensures sll_all { (n a b : ℕ) → n ≤ b → binary_value Binary.Sll n a b ≡ 0 }
    ensures srl_all { (n a b : ℕ) → a < 2 ^ n → n ≤ b → binary_value Binary.Srl n a b ≡ 0 }
{}

/// A law, with no code: a word is negated by one more than its bits negated, subtracted by adding it negated, and one more and
/// one less undo each other.
pub fn negation()
    ensures neg { (n a : ℕ) → a < 2 ^ n → unary_value Unary.Neg n a
        ≡ unary_value Unary.Inc n (unary_value Unary.Not n a) }
    ensures sub { (n a b : ℕ) → binary_value Binary.Sub n a b
        ≡ binary_value Binary.Add n a (unary_value Unary.Neg n b) }
    ensures dec { (n a : ℕ) → a < 2 ^ n → unary_value Unary.Dec n (unary_value Unary.Inc n a) ≡ a }
    ensures inc { (n a : ℕ) → a < 2 ^ n → unary_value Unary.Inc n (unary_value Unary.Dec n a) ≡ a }
{}

/// A law, with no code: an overflow test gives 0 exactly where the word that its operator gives stands for the sum, the
/// difference, the product or the quotient.
pub fn overflow_tests()
    ensures uaddo { (n a b : ℕ) → (binary_value Binary.Uaddo n a b ≡ 0)
        ↔ (binary_value Binary.Add n a b ≡ a + b) }
    ensures usubo { (n a b : ℕ) → (binary_value Binary.Usubo n a b ≡ 0) ↔ (b ≤ a) }
    ensures usubo_word { (n a b : ℕ) → a < 2 ^ n → b ≤ a → binary_value Binary.Sub n a b ≡ a - b }
    ensures umulo { (n a b : ℕ) → (binary_value Binary.Umulo n a b ≡ 0)
        ↔ (binary_value Binary.Mul n a b ≡ a * b) }
    ensures saddo { (n a b : ℕ) → 1 ≤ n → (binary_value Binary.Saddo n a b ≡ 0)
        ↔ (signed n (binary_value Binary.Add n a b) ≡ signed n a +ℤ signed n b) }
    ensures ssubo { (n a b : ℕ) → 1 ≤ n → (binary_value Binary.Ssubo n a b ≡ 0)
        ↔ (signed n (binary_value Binary.Sub n a b) ≡ signed n a -ℤ signed n b) }
    ensures smulo { (n a b : ℕ) → 1 ≤ n → (binary_value Binary.Smulo n a b ≡ 0)
        ↔ (signed n (binary_value Binary.Mul n a b) ≡ signed n a *ℤ signed n b) }
    ensures sdivo { (n a b : ℕ) → 1 ≤ n → a < 2 ^ n → b < 2 ^ n → b ≢ 0
        → (binary_value Binary.Sdivo n a b ≡ 0)
        ↔ (signed n (binary_value Binary.Sdiv n a b) ≡ truncated (signed n a) (signed n b)) }
    ensures sdivo_by_0 { (n a : ℕ) → 1 ≤ n → binary_value Binary.Sdivo n a 0 ≡ 0 }
{}

/// A law, with no code: a text is its whole lines and its unfinished rest, none of which has a byte 10. The whole lines of a
/// text of lines, with whatever rest behind them, are those lines and the rest's, and what is unfinished is the rest's;
/// so nothing is unfinished in a text of lines alone.
pub fn lines_and_texts()
    ensures parts { (text : List ℕ) → text_of_lines (whole_lines text) ++ unfinished text ≡ text }
    ensures each { (text : List ℕ) → All IsLine (whole_lines text) }
    ensures last { (text : List ℕ) → IsLine (unfinished text) }
    ensures whole { (lines : List (List ℕ)) → All IsLine lines
        → whole_lines (text_of_lines lines) ≡ lines }
    ensures ended { (lines : List (List ℕ)) → unfinished (text_of_lines lines) ≡ [] }
    ensures whole_front { (lines : List (List ℕ)) (rest : List ℕ) → All IsLine lines
        → whole_lines (text_of_lines lines ++ rest) ≡ lines ++ whole_lines rest }
    ensures ended_front { (lines : List (List ℕ)) (rest : List ℕ)
        → unfinished (text_of_lines lines ++ rest) ≡ unfinished rest }
{}

/// A law, with no code: a number below 2 to the 64 is read from its decimal, and a decimal that is read as a number below
/// 2 to the 64 less 1 is its one spelling.
pub fn decimals_are_numbers()
    ensures read { (n : ℕ) → n < 2 ^ 64 → number_of (decimal n) ≡ Some n }
    ensures spelled { (token : List ℕ) (n : ℕ) → number_of token ≡ Some n → n < 2 ^ 64 - 1
        → token ≡ decimal n }
{}

/// Worked rows, with no code: the lines of a text, and what follows them.
pub fn worked_lines()
    ensures whole { whole_lines (codes "a\n\nbc") ≡ codes "a" ∷ [] ∷ [] }
    ensures rest { unfinished (codes "a\n\nbc") ≡ codes "bc" }
    ensures ended { unfinished (codes "a\n") ≡ [] }
    ensures no_line { whole_lines (codes "bc") ≡ [] }
    ensures text { text_of_lines (codes "a" ∷ [] ∷ []) ≡ codes "a\n\n" }
{}

/// Worked rows, with no code: steps of a reader of lines that hold or give bytes, and what is none: a rest that is dropped,
/// a line that is given twice, and a whole line that is taken as unfinished.
pub fn worked_steps()
    ensures held { Advances (Ok true) (record { line = []; rest = codes "a\nb" })
        (record { line = codes "a"; rest = codes "b" }) (Some (codes "c\n")) (Some (codes "c\n")) }
    ensures read { Advances (Ok true) (record { line = []; rest = codes "a" })
        (record { line = codes "ab"; rest = codes "c" }) (Some (codes "b\nc\n"))
        (Some (codes "\n")) }
    ensures last { Advances (Ok false) (record { line = codes "x"; rest = codes "a" })
        (record { line = []; rest = codes "ab" }) (Some (codes "b")) (Some []) }
    ensures dropped { ¬ Advances (Ok true) (record { line = []; rest = codes "a\nb" })
        (record { line = codes "a"; rest = [] }) (Some []) (Some []) }
    ensures twice { ¬ Advances (Ok true) (record { line = []; rest = codes "a\nb" })
        (record { line = codes "a"; rest = codes "a\nb" }) (Some []) (Some []) }
    ensures whole { ¬ Advances (Ok false) (record { line = []; rest = codes "a\n" })
        (record { line = []; rest = codes "a\n" }) (Some []) (Some []) }
{}

/// Worked rows, with no code: decimals, and what is none.
pub fn worked_decimals()
    ensures zero { number_of (codes "0") ≡ Some 0 }
    ensures forty_two { number_of (codes "42") ≡ Some 42 }
    ensures leading_zero { number_of (codes "042") ≡ None }
    ensures signed { number_of (codes "-1") ≡ None }
    ensures letter { number_of (codes "4a") ≡ None }
    ensures empty { number_of [] ≡ None }
    ensures greatest { number_of (codes "18446744073709551615") ≡ Some 18446744073709551615 }
    ensures above { number_of (codes "18446744073709551616") ≡ Some 18446744073709551615 }
{}

/// Worked rows, with no code: the call of a device for trials that fails, as calls are counted down, and its failure.
pub fn worked_trials()
    ensures at_the_call { is_due (Some 0) ≡ true }
    ensures before_the_call { is_due (Some 1) ≡ false }
    ensures behind_the_call { is_due None ≡ false }
    ensures one_call_less { one_later (Some 2) ≡ Some 1 }
    ensures made { one_later (Some 0) ≡ None }
    ensures stays_made { one_later None ≡ None }
    ensures failures_before { all_failures (Some 0) 7 ≡ 7 }
    ensures failures_behind { all_failures None 7 ≡ 8 }
    ensures greatest { all_failures None (2 ^ 128 - 1) ≡ 2 ^ 128 - 1 }
{}

/// Worked rows, with no code: words of width 8 where no other stands, and the bits of a word.
pub fn worked_words()
    ensures not_200 { unary_value Unary.Not 8 200 ≡ 55 }
    ensures not_0_width_64 { unary_value Unary.Not 64 0 ≡ 18446744073709551615 }
    ensures inc_7 { unary_value Unary.Inc 8 7 ≡ 8 }
    ensures inc_255 { unary_value Unary.Inc 8 255 ≡ 0 }
    ensures dec_7 { unary_value Unary.Dec 8 7 ≡ 6 }
    ensures dec_0 { unary_value Unary.Dec 8 0 ≡ 255 }
    ensures neg_1 { unary_value Unary.Neg 8 1 ≡ 255 }
    ensures neg_128 { unary_value Unary.Neg 8 128 ≡ 128 }
    ensures neg_0 { unary_value Unary.Neg 8 0 ≡ 0 }
    ensures redand_255 { unary_value Unary.Redand 8 255 ≡ 1 }
    ensures redand_254 { unary_value Unary.Redand 8 254 ≡ 0 }
    ensures redor_0 { unary_value Unary.Redor 8 0 ≡ 0 }
    ensures redor_16 { unary_value Unary.Redor 8 16 ≡ 1 }
    ensures redxor_7 { unary_value Unary.Redxor 8 7 ≡ 1 }
    ensures redxor_255 { unary_value Unary.Redxor 8 255 ≡ 0 }
    ensures iff_1_0_width_1 { binary_value Binary.Iff 1 1 0 ≡ 0 }
    ensures iff_0_0_width_1 { binary_value Binary.Iff 1 0 0 ≡ 1 }
    ensures implies_1_0_width_1 { binary_value Binary.Implies 1 1 0 ≡ 0 }
    ensures implies_0_0_width_1 { binary_value Binary.Implies 1 0 0 ≡ 1 }
    ensures implies_1_1_width_1 { binary_value Binary.Implies 1 1 1 ≡ 1 }
    ensures eq_7_7 { binary_value Binary.Eq 8 7 7 ≡ 1 }
    ensures eq_7_8 { binary_value Binary.Eq 8 7 8 ≡ 0 }
    ensures neq_7_8 { binary_value Binary.Neq 8 7 8 ≡ 1 }
    ensures ugt_1_255 { binary_value Binary.Ugt 8 1 255 ≡ 0 }
    ensures ugt_255_1 { binary_value Binary.Ugt 8 255 1 ≡ 1 }
    ensures ugte_1_1 { binary_value Binary.Ugte 8 1 1 ≡ 1 }
    ensures ult_1_255 { binary_value Binary.Ult 8 1 255 ≡ 1 }
    ensures ult_1_1 { binary_value Binary.Ult 8 1 1 ≡ 0 }
    ensures ulte_1_1 { binary_value Binary.Ulte 8 1 1 ≡ 1 }
    ensures sgt_1_255 { binary_value Binary.Sgt 8 1 255 ≡ 1 }
    ensures sgt_255_1 { binary_value Binary.Sgt 8 255 1 ≡ 0 }
    ensures sgte_255_255 { binary_value Binary.Sgte 8 255 255 ≡ 1 }
    ensures slt_128_127 { binary_value Binary.Slt 8 128 127 ≡ 1 }
    ensures slt_127_128 { binary_value Binary.Slt 8 127 128 ≡ 0 }
    ensures slte_255_0 { binary_value Binary.Slte 8 255 0 ≡ 1 }
    ensures and_12_10 { binary_value Binary.And 8 12 10 ≡ 8 }
    ensures nand_12_10 { binary_value Binary.Nand 8 12 10 ≡ 247 }
    ensures or_12_10 { binary_value Binary.Or 8 12 10 ≡ 14 }
    ensures nor_12_10 { binary_value Binary.Nor 8 12 10 ≡ 241 }
    ensures xor_12_10 { binary_value Binary.Xor 8 12 10 ≡ 6 }
    ensures xnor_12_10 { binary_value Binary.Xnor 8 12 10 ≡ 249 }
    ensures rol_6_5_width_3 { binary_value Binary.Rol 3 6 5 ≡ 3 }
    ensures rol_129_1 { binary_value Binary.Rol 8 129 1 ≡ 3 }
    ensures ror_1_1 { binary_value Binary.Ror 8 1 1 ≡ 128 }
    ensures ror_1_8 { binary_value Binary.Ror 8 1 8 ≡ 1 }
    ensures sll_1_7 { binary_value Binary.Sll 8 1 7 ≡ 128 }
    ensures sll_1_8 { binary_value Binary.Sll 8 1 8 ≡ 0 }
    ensures srl_128_7 { binary_value Binary.Srl 8 128 7 ≡ 1 }
    ensures srl_255_8 { binary_value Binary.Srl 8 255 8 ≡ 0 }
    ensures sra_128_200 { binary_value Binary.Sra 8 128 200 ≡ 255 }
    ensures sra_144_4 { binary_value Binary.Sra 8 144 4 ≡ 249 }
    ensures sra_64_4 { binary_value Binary.Sra 8 64 4 ≡ 4 }
    ensures add_200_100 { binary_value Binary.Add 8 200 100 ≡ 44 }
    ensures sub_100_200 { binary_value Binary.Sub 8 100 200 ≡ 156 }
    ensures mul_15_18 { binary_value Binary.Mul 8 15 18 ≡ 14 }
    ensures mul_of_ones { binary_value Binary.Mul 64 18446744073709551615 18446744073709551615 ≡ 1 }
    ensures udiv_200_0 { binary_value Binary.Udiv 8 200 0 ≡ 255 }
    ensures udiv_200_7 { binary_value Binary.Udiv 8 200 7 ≡ 28 }
    ensures urem_200_0 { binary_value Binary.Urem 8 200 0 ≡ 200 }
    ensures urem_200_7 { binary_value Binary.Urem 8 200 7 ≡ 4 }
    ensures sdiv_200_0 { binary_value Binary.Sdiv 8 200 0 ≡ 1 }
    ensures sdiv_100_0 { binary_value Binary.Sdiv 8 100 0 ≡ 255 }
    ensures sdiv_128_255 { binary_value Binary.Sdiv 8 128 255 ≡ 128 }
    ensures sdiv_249_3 { binary_value Binary.Sdiv 8 249 3 ≡ 254 }
    ensures sdiv_7_253 { binary_value Binary.Sdiv 8 7 253 ≡ 254 }
    ensures srem_200_0 { binary_value Binary.Srem 8 200 0 ≡ 200 }
    ensures srem_249_3 { binary_value Binary.Srem 8 249 3 ≡ 255 }
    ensures srem_7_253 { binary_value Binary.Srem 8 7 253 ≡ 1 }
    ensures smod_200_0 { binary_value Binary.Smod 8 200 0 ≡ 200 }
    ensures smod_249_3 { binary_value Binary.Smod 8 249 3 ≡ 2 }
    ensures smod_7_253 { binary_value Binary.Smod 8 7 253 ≡ 254 }
    ensures uaddo_255_1 { binary_value Binary.Uaddo 8 255 1 ≡ 1 }
    ensures uaddo_254_1 { binary_value Binary.Uaddo 8 254 1 ≡ 0 }
    ensures saddo_127_1 { binary_value Binary.Saddo 8 127 1 ≡ 1 }
    ensures saddo_128_255 { binary_value Binary.Saddo 8 128 255 ≡ 1 }
    ensures saddo_255_1 { binary_value Binary.Saddo 8 255 1 ≡ 0 }
    ensures usubo_0_1 { binary_value Binary.Usubo 8 0 1 ≡ 1 }
    ensures usubo_1_1 { binary_value Binary.Usubo 8 1 1 ≡ 0 }
    ensures ssubo_128_1 { binary_value Binary.Ssubo 8 128 1 ≡ 1 }
    ensures ssubo_0_128 { binary_value Binary.Ssubo 8 0 128 ≡ 1 }
    ensures ssubo_255_127 { binary_value Binary.Ssubo 8 255 127 ≡ 0 }
    ensures umulo_15_17 { binary_value Binary.Umulo 8 15 17 ≡ 0 }
    ensures umulo_16_16 { binary_value Binary.Umulo 8 16 16 ≡ 1 }
    ensures smulo_16_8 { binary_value Binary.Smulo 8 16 8 ≡ 1 }
    ensures smulo_240_8 { binary_value Binary.Smulo 8 240 8 ≡ 0 }
    ensures smulo_of_ones { binary_value Binary.Smulo 64 18446744073709551615 18446744073709551615
        ≡ 0 }
    ensures sdivo_128_255 { binary_value Binary.Sdivo 8 128 255 ≡ 1 }
    ensures sdivo_128_1 { binary_value Binary.Sdivo 8 128 1 ≡ 0 }
    ensures ite_1 { ite_value 1 200 100 ≡ 200 }
    ensures ite_0 { ite_value 0 200 100 ≡ 100 }
    ensures slice_180_5_2 { slice_value 180 5 2 ≡ 13 }
    ensures uext_9 { uext_value 9 ≡ 9 }
    ensures concat_10_5 { concat_value 10 3 5 ≡ 85 }
    ensures sext_9 { sext_value 4 9 4 ≡ 249 }
    ensures sext_5 { sext_value 4 5 4 ≡ 5 }
    ensures bits_10 { bits 4 10 ≡ false ∷ true ∷ false ∷ true ∷ [] }
    ensures word_10 { word (false ∷ true ∷ false ∷ true ∷ []) ≡ 10 }
{}
