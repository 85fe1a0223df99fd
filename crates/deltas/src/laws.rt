//! Laws and worked rows of deltas: functions that do nothing, whose contracts are the laws.
ghost use Rattle.std.specs.Prelude.{◌≡◌, ℕ, ◌<◌, ◌^◌, List, [], ◌∷◌, ◌++◌, Ok, Err};
ghost use Rattle.std.specs.List.{AllByRecursion};
ghost use Rattle.deltas.specs.Deltas.{delta, number_at};
ghost use Rattle.deltas.specs.Pairs.{word_of, ends_of, value_of};
ghost use Rattle.deltas.specs.declared.reading.DeltaFault.TheVariants as fault;

/// Worked rows: the bytes of deltas, on both sides of each number of digits.
pub fn worked_deltas()
    ensures least { delta 0 ≡ 0 ∷ [] }
    ensures one_digit { (delta 2 ≡ 2 ∷ []) × (delta 127 ≡ 127 ∷ []) }
    ensures two_digits { (delta 128 ≡ 128 ∷ 1 ∷ []) × (delta 130 ≡ 130 ∷ 1 ∷ [])
        × (delta 16383 ≡ 255 ∷ 127 ∷ []) }
    ensures three_digits { (delta 16384 ≡ 128 ∷ 128 ∷ 1 ∷ [])
        × (delta 2097151 ≡ 255 ∷ 255 ∷ 127 ∷ []) }
    ensures four_digits { (delta 2097152 ≡ 128 ∷ 128 ∷ 128 ∷ 1 ∷ [])
        × (delta 268435455 ≡ 255 ∷ 255 ∷ 255 ∷ 127 ∷ []) }
    ensures five_digits { (delta 268435456 ≡ 128 ∷ 128 ∷ 128 ∷ 128 ∷ 1 ∷ [])
        × (delta 2147483648 ≡ 128 ∷ 128 ∷ 128 ∷ 128 ∷ 8 ∷ []) }
{}

/// Worked rows: what stands at the front of a text, and why no delta does.
#[tactic(auto, unfolding(crate::specs::Deltas::number_at))]
pub fn worked_numbers()
    ensures one_digit { number_at (5 ∷ 7 ∷ []) ≡ Ok (5, 7 ∷ []) }
    ensures two_digits { number_at (130 ∷ 1 ∷ 7 ∷ []) ≡ Ok (130, 7 ∷ []) }
    ensures five_digits { number_at (128 ∷ 128 ∷ 128 ∷ 128 ∷ 8 ∷ []) ≡ Ok (2147483648, []) }
    ensures zero { number_at (0 ∷ []) ≡ Ok (0, []) }
    ensures zero_in_two { number_at (128 ∷ 0 ∷ []) ≡ Err fault.NotShortest }
    ensures two_in_three { number_at (130 ∷ 128 ∷ 0 ∷ 7 ∷ []) ≡ Err fault.NotShortest }
    ensures nothing { number_at [] ≡ Err fault.Truncated }
    ensures cut { number_at (130 ∷ []) ≡ Err fault.Truncated }
    ensures too_long { number_at (255 ∷ 255 ∷ 255 ∷ 255 ∷ 255 ∷ 0 ∷ []) ≡ Err fault.TooLong }
{}

/// Worked rows: bytes as a word, where the deltas in it end, and the number of one of two bytes.
pub fn worked_words()
    ensures word { (word_of (130 ∷ 1 ∷ []) ≡ 386) × (word_of (5 ∷ 7 ∷ []) ≡ 1797) }
    ensures ends { (ends_of (130 ∷ 1 ∷ []) ≡ 32768) × (ends_of (5 ∷ 7 ∷ []) ≡ 32896) }
    ensures value { (value_of 5 ≡ 5) × (value_of 386 ≡ 130) × (value_of 2139062143 ≡ 268435455) }
{}

/// A delta that is written is read again, and each number has one spelling.
pub fn one_spelling()
    ensures read { (n : ℕ) (rest : List ℕ) → n < 2 ^ 35 → number_at (delta n ++ rest)
        ≡ Ok (n, rest) }
    ensures written { (text : List ℕ) (n : ℕ) (rest : List ℕ) → AllByRecursion (λ b. b < 256) text
        → number_at text ≡ Ok (n, rest) → text ≡ delta n ++ rest }
{}
