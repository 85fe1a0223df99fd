//! A law of proofs with hints, and worked rows, as functions with no code.
ghost use Rattle.std.specs.Prelude.{◌≡◌, ℕ, ◌^◌, ◌<◌, ◌≤◌, true, false, List, [], ◌∷◌, length, All, codes};
ghost use Rattle.drup.specs.Formula.{Formula, IsUnsatisfiable};
ghost use Rattle.drup.specs.Hints.{HintedStep, addition, deletion, ended};
ghost use Rattle.drup.specs.Proofs.{most_proof_lines};
ghost use Rattle.drup.specs.Worked.{eight};
ghost use Rattle.drup.specs.declared.judgement.Judgement.TheVariants as judgement;
ghost use Rattle.drup.specs.declared.why.Why.TheVariants as why;
ghost use Rattle.lrat.specs.HintedForms.{is_binary_lrat, read_lrat};
ghost use Rattle.lrat.specs.LratJudgements.{judge_lrat};
ghost use Rattle.lrat.specs.LratTexts.{lrat_text, IsId, IsWritten, on_lines};
ghost use Rattle.lrat.specs.BinaryLratTexts.{WritesSteps};
ghost use Rattle.lrat.specs.Worked.{four_steps, reads, faults};

/// A law: where a text with hints is judged as a proof, nothing satisfies the formula.
pub fn derived_is_unsatisfiable()
    ensures { (formula : Formula) (text : List ℕ) (line : ℕ)
        → judge_lrat formula text ≡ judgement.Derived line → IsUnsatisfiable formula }
{
    drup::laws::hinted_is_unsatisfiable();
}

/// A law: what is written of steps is read as them, each on its line.
pub fn written_is_read()
    ensures { (variables front : ℕ) (steps : List HintedStep) → variables < 2 ^ 63 → IsId front
        → All (IsWritten variables) steps → length steps ≤ most_proof_lines
        → read_lrat variables (lrat_text front steps) ≡ reads (on_lines 1 steps) }
{}

/// A law: bytes that write steps in the binary form are read as them.
pub fn written_bytes_are_read()
    ensures { (variables : ℕ) (steps : List HintedStep) (bytes : List ℕ) → variables < 2 ^ 63
        → All (IsWritten variables) steps → length steps ≤ most_proof_lines
        → WritesSteps steps bytes → read_lrat variables bytes ≡ reads (on_lines 1 steps) }
{}

/// Worked rows: what is read of the texts of proofs with hints over a formula of three variables: four steps; a step over
/// lines, behind a comment; clauses that are taken away, one after the other; the greatest id; and no step.
pub fn worked_reading()
    ensures steps { read_lrat 3
        (codes "9 1 2 0 1 2 0\n10 1 0 9 3 4 0\n11 2 0 10 5 6 0\n12 0 10 11 7 8 0\n") ≡ four_steps }
    ensures over_lines { read_lrat 3 (codes "c 1 0\n9 -1\r\n\t2  0 1\ncomment\n2 0 10 0 0")
        ≡ reads (ended 5 (addition 9 (3 ∷ 4 ∷ []) (1 ∷ 2 ∷ [])) ∷ ended 5 (addition 10 [] []) ∷ []) }
    ensures deletions { read_lrat 3 (codes "8 d 3 1\n2 0\n8 d 0")
        ≡ reads (ended 1 (deletion 3) ∷ ended 1 (deletion 1) ∷ ended 2 (deletion 2) ∷ []) }
    ensures greatest_id { read_lrat 3 (codes "4294967295 0 1 0")
        ≡ reads (ended 1 (addition 4294967295 [] (1 ∷ [])) ∷ []) }
    ensures nothing { read_lrat 3 (codes "c\n\n") ≡ reads [] }
{}

/// Worked rows: where a text has its first fault: a word, zeros in front, an id too great, a first word that is no id, a `d`
/// behind a literal or a hint, an id with a minus, a hint that is 0 with a minus, one with a minus, a variable too many, and
/// texts that end within a step.
pub fn worked_faults()
    ensures word { read_lrat 3 (codes "9 1 0 1 0\n10 1 0 +9 0\n")
        ≡ faults (ended 1 (addition 9 (2 ∷ []) (1 ∷ [])) ∷ []) 2 why.BadWord }
    ensures zeros { read_lrat 3 (codes "09 1 0 1 0\n") ≡ faults [] 1 why.BadWord }
    ensures great_id { read_lrat 3 (codes "4294967296 1 0 1 0\n") ≡ faults [] 1 why.BadWord }
    ensures no_id { read_lrat 3 (codes "\nd 1 0\n") ≡ faults [] 2 why.BadWord }
    ensures within { read_lrat 3 (codes "9 1 d 2 0\n") ≡ faults [] 1 why.BadWord }
    ensures behind { read_lrat 3 (codes "9 1 0\n1 d 0\n") ≡ faults [] 2 why.BadWord }
    ensures negative_id { read_lrat 3 (codes "8 d 1 -2 0\n")
        ≡ faults (ended 1 (deletion 1) ∷ []) 1 why.BadWord }
    ensures no_hint { read_lrat 3 (codes "9 1 0 -0 0\n") ≡ faults [] 1 why.BadWord }
    ensures resolving { read_lrat 3 (codes "9 1 0 1 0\n10 1 0\n-9 1 0\n")
        ≡ faults (ended 1 (addition 9 (2 ∷ []) (1 ∷ [])) ∷ []) 3 why.RatStep }
    ensures variable { read_lrat 3 (codes "\n9 -4 0 1 0\n") ≡ faults [] 2 why.BadVariable }
    ensures cut_off { read_lrat 3 (codes "8 d 1 0\n9 1 0 1\n")
        ≡ faults (ended 1 (deletion 1) ∷ []) 3 why.CutOff }
    ensures cut_deletion { read_lrat 3 (codes "8 d 1")
        ≡ faults (ended 1 (deletion 1) ∷ []) 1 why.CutOff }
{}

/// Worked rows: all eight clauses of three variables are refuted by four steps; not where a clause was taken away before a
/// hint names it, where a hint is missing, or by none. A hint with a minus is refused where no step before it says more.
pub fn worked_judgements()
    ensures derived { judge_lrat eight
        (codes "9 1 2 0 1 2 0\n10 1 0 9 3 4 0\n11 2 0 10 5 6 0\n8 d 1 2 0\n12 0 10 11 7 8 0\n")
        ≡ judgement.Derived 5 }
    ensures taken_away { judge_lrat eight (codes "8 d 2 0\n9 1 2 0 1 2 0\n")
        ≡ judgement.Malformed 2 why.NoClause }
    ensures not_implied { judge_lrat eight (codes "9 1 2 0 1 0\nx")
        ≡ judgement.NotImplied 1 }
    ensures low_id { judge_lrat eight (codes "8 1 2 0 1 2 0\n")
        ≡ judgement.Malformed 1 why.BadId }
    ensures malformed { judge_lrat eight (codes "9 1 2 0 1 2 0\nx")
        ≡ judgement.Malformed 2 why.BadWord }
    ensures not_derived { judge_lrat eight (codes "9 1 2 0 1 2 0\n")
        ≡ judgement.NotDerived }
    ensures resolving { judge_lrat eight (codes "9 1 2 0 1 2 0\n10 1 0 -9 3 0\n")
        ≡ judgement.Malformed 2 why.RatStep }
    ensures resolving_behind { judge_lrat eight (codes "9 1 2 0 1 0\n10 1 0 -9 3 0\n")
        ≡ judgement.NotImplied 1 }
{}

/// Worked rows: what is read of proofs in the binary form: the same four steps; clauses that are taken away, and a step without
/// literals and hints; a number of two bytes, which is an id, a hint or a literal.
pub fn worked_binary_reading()
    ensures steps { read_lrat 3
        (97 ∷ 9 ∷ 2 ∷ 4 ∷ 0 ∷ 1 ∷ 2 ∷ 0 ∷ 97 ∷ 10 ∷ 2 ∷ 0 ∷ 9 ∷ 3 ∷ 4 ∷ 0 ∷ 97 ∷ 11 ∷ 4 ∷ 0 ∷ 10 ∷ 5 ∷ 6 ∷ 0 ∷ 97 ∷ 12 ∷ 0 ∷ 10 ∷ 11 ∷ 7 ∷ 8 ∷ 0 ∷ [])
        ≡ four_steps }
    ensures deletions { read_lrat 3 (100 ∷ 3 ∷ 1 ∷ 0 ∷ 97 ∷ 9 ∷ 0 ∷ 0 ∷ [])
        ≡ reads (ended 1 (deletion 3) ∷ ended 1 (deletion 1) ∷ ended 2 (addition 9 [] []) ∷ []) }
    ensures two_bytes { read_lrat 70 (97 ∷ 131 ∷ 1 ∷ 131 ∷ 1 ∷ 0 ∷ 131 ∷ 1 ∷ 0 ∷ [])
        ≡ reads (ended 1 (addition 131 (131 ∷ []) (131 ∷ [])) ∷ []) }
{}

/// Worked rows: where a proof in the binary form has its first fault: a needless byte, an id that is 0 or too great, a variable
/// too many, no literal, a byte between steps, and texts that end within a step or a number.
pub fn worked_binary_faults()
    ensures needless { read_lrat 3 (100 ∷ 3 ∷ 0 ∷ 97 ∷ 137 ∷ 0 ∷ [])
        ≡ faults (ended 1 (deletion 3) ∷ []) 2 why.BadWord }
    ensures no_id { read_lrat 3 (97 ∷ 0 ∷ []) ≡ faults [] 1 why.BadWord }
    ensures great_id { read_lrat 3 (97 ∷ 128 ∷ 128 ∷ 128 ∷ 128 ∷ 16 ∷ 0 ∷ [])
        ≡ faults [] 1 why.BadWord }
    ensures variable { read_lrat 3 (97 ∷ 9 ∷ 8 ∷ 0 ∷ []) ≡ faults [] 1 why.BadVariable }
    ensures no_literal { read_lrat 3 (97 ∷ 9 ∷ 1 ∷ 0 ∷ []) ≡ faults [] 1 why.BadWord }
    ensures between { read_lrat 3 (97 ∷ 9 ∷ 0 ∷ 0 ∷ 10 ∷ [])
        ≡ faults (ended 1 (addition 9 [] []) ∷ []) 2 why.BadWord }
    ensures cut_off { read_lrat 3 (97 ∷ 9 ∷ 2 ∷ 0 ∷ 1 ∷ []) ≡ faults [] 1 why.CutOff }
    ensures cut_number { read_lrat 3 (97 ∷ 137 ∷ []) ≡ faults [] 1 why.CutOff }
    ensures cut_deletion { read_lrat 3 (100 ∷ []) ≡ faults [] 1 why.CutOff }
{}

/// Worked rows: a text that begins with an `a` or a `d` is binary; one that begins otherwise is not.
pub fn worked_forms()
    ensures addition { is_binary_lrat (97 ∷ []) ≡ true }
    ensures deletion { is_binary_lrat (codes "d 1 0\n") ≡ true }
    ensures digits { is_binary_lrat (codes "9 1 0 1 0\n") ≡ false }
    ensures comment { is_binary_lrat (codes "c\n") ≡ false }
    ensures nothing { is_binary_lrat [] ≡ false }
{}

/// Worked rows: the same judgements of proofs in the binary form.
pub fn worked_binary_judgements()
    ensures derived { judge_lrat eight
        (97 ∷ 9 ∷ 2 ∷ 4 ∷ 0 ∷ 1 ∷ 2 ∷ 0 ∷ 97 ∷ 10 ∷ 2 ∷ 0 ∷ 9 ∷ 3 ∷ 4 ∷ 0 ∷ 97 ∷ 11 ∷ 4 ∷ 0 ∷ 10 ∷ 5 ∷ 6 ∷ 0 ∷ 100 ∷ 1 ∷ 2 ∷ 0 ∷ 97 ∷ 12 ∷ 0 ∷ 10 ∷ 11 ∷ 7 ∷ 8 ∷ 0 ∷ [])
        ≡ judgement.Derived 5 }
    ensures taken_away { judge_lrat eight
        (100 ∷ 2 ∷ 0 ∷ 97 ∷ 9 ∷ 2 ∷ 4 ∷ 0 ∷ 1 ∷ 2 ∷ 0 ∷ [])
        ≡ judgement.Malformed 2 why.NoClause }
    ensures not_implied { judge_lrat eight (97 ∷ 9 ∷ 2 ∷ 4 ∷ 0 ∷ 1 ∷ 0 ∷ 10 ∷ [])
        ≡ judgement.NotImplied 1 }
    ensures not_derived { judge_lrat eight (97 ∷ 9 ∷ 2 ∷ 4 ∷ 0 ∷ 1 ∷ 2 ∷ 0 ∷ [])
        ≡ judgement.NotDerived }
{}
