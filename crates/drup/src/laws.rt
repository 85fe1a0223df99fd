//! Laws of unit propagation, and worked rows, as functions with no code.
ghost use Rattle.std.specs.Prelude.{◌≡◌, ℕ, true, false, List, [], ◌∷◌, None, Some, codes};
ghost use Rattle.base.specs.Literal.{Valuation};
ghost use Rattle.drup.specs.Formula.{Formula, SatisfiesClause, IsUnsatisfiable};
ghost use Rattle.drup.specs.Propagation.{Literals, no_literal, IsModel, IsClosedUnder, IsClosure, Implied, MeetsConflict};
ghost use Rattle.drup.specs.Worked.{two, all_eight, twice, opposites, chain, eight, three_steps};
ghost use Rattle.drup.specs.declared.why.Why.TheVariants as why;
ghost use Rattle.drup.specs.declared.judgement.Judgement.{Judgement};
ghost use Rattle.drup.specs.declared.judgement.Judgement.TheVariants as judgement;
ghost use Rattle.drup.specs.FormulaTexts.{formula_text};
ghost use Rattle.drup.specs.Proofs.{ended, addition, deletion};
ghost use Rattle.drup.specs.ProofForms.{is_binary_proof, read_proof};
ghost use Rattle.drup.specs.Judgements.{JudgesProof};
ghost use Rattle.drup.specs.Hints.{HintedReading, judge_hinted, addition as hinted, deletion as unhinted, ended as at};
ghost use Rattle.drup.specs.Without.{IsWithout};
ghost use Rattle.drup.specs.StepJudges.{StepJudge, BeginsSteps, StandsForSteps};
ghost use Rattle.drup.specs.Propagator.{State, Extended, in_list};

/// A law: an implied clause is satisfied by whatever satisfies the clauses and what is given.
pub fn implied_is_satisfied()
    ensures { (clauses : List (List ℕ)) (given : Literals) (clause : List ℕ)
        → Implied clauses given clause → (a : Valuation) → IsModel a clauses given
        → SatisfiesClause a clause }
{}

/// A law: where propagation meets a conflict, nothing satisfies the clauses and what is given.
pub fn conflict_is_unsatisfied()
    ensures { (clauses : List (List ℕ)) (given : Literals) → MeetsConflict clauses given
        → (a : Valuation) → ¬ IsModel a clauses given }
{}

/// A law: whatever satisfies clauses and what followed, and another clause, satisfies these once the clause is added with
/// all that follows.
pub fn models_stay()
    ensures { (old : State) (clause : List ℕ) (new : State) → Extended old clause new
        → (a : Valuation) → IsModel a old.clauses (in_list old.followed) → SatisfiesClause a clause
        → IsModel a new.clauses (in_list new.followed) }
{}

/// A law: where a text is judged as a proof, nothing satisfies the formula.
pub fn derived_is_unsatisfiable()
    ensures { (formula : Formula) (text : List ℕ) (line : ℕ)
        → JudgesProof formula text (judgement.Derived line) → IsUnsatisfiable formula }
{}

/// A law: where steps with hints are judged as a proof, nothing satisfies the formula.
pub fn hinted_is_unsatisfiable()
    ensures { (formula : Formula) (reading : HintedReading) (line : ℕ)
        → judge_hinted formula reading ≡ judgement.Derived line → IsUnsatisfiable formula }
{}

/// A law: over a formula a text is judged in one way at most.
pub fn one_judgement()
    ensures { (formula : Formula) (text : List ℕ) (i j : Judgement) → JudgesProof formula text i
        → JudgesProof formula text j → i ≡ j }
{}

/// A law: a judge that has a formula's clauses and took no step stands for no steps over it.
pub fn begun_judge_stands()
    ensures { (formula : Formula) (judge : StepJudge) → BeginsSteps formula judge
        → StandsForSteps formula [] judge }
{}

/// Worked rows: of all eight clauses of three variables none gives a literal by itself, and nothing satisfies them; a clause
/// of two of the variables follows, and one of a single variable does not.
pub fn worked_all_eight()
    ensures free { ¬ MeetsConflict all_eight no_literal }
    ensures implied { Implied all_eight no_literal (2 ∷ 4 ∷ []) }
    ensures not_implied { ¬ Implied all_eight no_literal (2 ∷ []) }
    ensures unsatisfiable { IsUnsatisfiable (record { variables = 3; clauses = all_eight }) }
{}

/// Worked rows: a clause that has one literal twice gives it.
pub fn worked_literal_twice()
    ensures gives { (s : Literals) → IsClosedUnder (2 ∷ 2 ∷ []) s → s 2 ≡ true }
    ensures implied { Implied twice no_literal (2 ∷ []) }
    ensures not_implied { ¬ Implied twice no_literal (4 ∷ []) }
{}

/// Worked rows: a clause that has a literal and its negation gives nothing, and follows from anything.
pub fn worked_literal_and_negation()
    ensures gives_nothing { IsClosedUnder (2 ∷ 3 ∷ []) no_literal }
    ensures not_implied { ¬ Implied opposites no_literal (2 ∷ []) }
    ensures implied { (clauses : List (List ℕ)) (given : Literals)
        → Implied clauses given (2 ∷ 3 ∷ []) }
{}

/// A worked row: a clause of one literal gives it, and with it another clause gives another.
pub fn worked_chain()
    ensures { IsClosure chain no_literal (two 2 4) }
{}

/// Worked rows: the text of a formula of two clauses, one of them without literals, and of one without clauses.
pub fn worked_formula_text()
    ensures two_clauses { formula_text
        (record { variables = 12; clauses = (2 ∷ 25 ∷ []) ∷ [] ∷ [] })
        ≡ codes "p cnf 12 2\n1 -12 0\n0\n" }
    ensures no_clauses { formula_text (record { variables = 0; clauses = [] })
        ≡ codes "p cnf 0 0\n" }
{}

/// Worked rows: what is read of the texts of proofs over a formula of three variables.
pub fn worked_reading()
    ensures steps { read_proof 3 (codes "1 2 0\n1 0\n2 0\n") ≡ three_steps }
    ensures over_lines { read_proof 3 (codes "c 1 0\n-1\r\n\t2  0 d 3\ncomment\n0")
        ≡ record { steps = ended 3 (addition (3 ∷ 4 ∷ [])) ∷ ended 5 (deletion (6 ∷ [])) ∷ []; fault = None } }
    ensures no_literals { read_proof 3 (codes "0\nd 0\n")
        ≡ record { steps = ended 1 (addition []) ∷ ended 2 (deletion []) ∷ []; fault = None } }
    ensures word { read_proof 3 (codes "1 0\n1 +2 0\n")
        ≡ record { steps = ended 1 (addition (2 ∷ [])) ∷ []; fault = Some (record { line = 2; why = why.BadWord }) } }
    ensures zeros { read_proof 3 (codes "01 0\n")
        ≡ record { steps = []; fault = Some (record { line = 1; why = why.BadWord }) } }
    ensures within { read_proof 3 (codes "1 d 2 0\n")
        ≡ record { steps = []; fault = Some (record { line = 1; why = why.BadWord }) } }
    ensures variable { read_proof 3 (codes "\n-4 0\n")
        ≡ record { steps = []; fault = Some (record { line = 2; why = why.BadVariable }) } }
    ensures cut_off { read_proof 3 (codes "1 0\nd\n")
        ≡ record { steps = ended 1 (addition (2 ∷ [])) ∷ []; fault = Some (record { line = 3; why = why.CutOff }) } }
{}

/// Worked rows: what is read of proofs in the binary form: the same three steps, a deletion, a number of two bytes; a needless
/// byte, a variable too many, no literal, a byte between steps, and texts that end within a step.
pub fn worked_binary_reading()
    ensures steps { read_proof 3 (97 ∷ 2 ∷ 4 ∷ 0 ∷ 97 ∷ 2 ∷ 0 ∷ 97 ∷ 4 ∷ 0 ∷ []) ≡ three_steps }
    ensures deletes { read_proof 3 (100 ∷ 7 ∷ 0 ∷ 97 ∷ 0 ∷ [])
        ≡ record { steps = ended 1 (deletion (7 ∷ [])) ∷ ended 2 (addition []) ∷ []; fault = None } }
    ensures two_bytes { read_proof 70 (97 ∷ 131 ∷ 1 ∷ 0 ∷ [])
        ≡ record { steps = ended 1 (addition (131 ∷ [])) ∷ []; fault = None } }
    ensures needless { read_proof 3 (97 ∷ 2 ∷ 0 ∷ 97 ∷ 130 ∷ 0 ∷ 0 ∷ [])
        ≡ record { steps = ended 1 (addition (2 ∷ [])) ∷ []; fault = Some (record { line = 2; why = why.BadWord }) } }
    ensures variable { read_proof 3 (97 ∷ 8 ∷ 0 ∷ [])
        ≡ record { steps = []; fault = Some (record { line = 1; why = why.BadVariable }) } }
    ensures no_literal { read_proof 3 (97 ∷ 1 ∷ 0 ∷ [])
        ≡ record { steps = []; fault = Some (record { line = 1; why = why.BadWord }) } }
    ensures between { read_proof 3 (97 ∷ 2 ∷ 0 ∷ 10 ∷ 97 ∷ [])
        ≡ record { steps = ended 1 (addition (2 ∷ [])) ∷ []; fault = Some (record { line = 2; why = why.BadWord }) } }
    ensures cut_off { read_proof 3 (97 ∷ 2 ∷ 0 ∷ 97 ∷ [])
        ≡ record { steps = ended 1 (addition (2 ∷ [])) ∷ []; fault = Some (record { line = 2; why = why.CutOff }) } }
    ensures cut_number { read_proof 3 (97 ∷ 130 ∷ [])
        ≡ record { steps = []; fault = Some (record { line = 1; why = why.CutOff }) } }
{}

/// Worked rows: an `a` is binary, and so is a `d` with no space behind it; a `d` alone, one with a space, and digits are text,
/// and a binary proof that first takes away a clause of the literal 32 is malformed.
pub fn worked_forms()
    ensures addition { is_binary_proof (97 ∷ []) ≡ true }
    ensures deletion { is_binary_proof (100 ∷ 2 ∷ 0 ∷ []) ≡ true }
    ensures letter { is_binary_proof (100 ∷ []) ≡ false }
    ensures spaced { is_binary_proof (codes "d 1 0\n") ≡ false }
    ensures digits { is_binary_proof (codes "1 0\n") ≡ false }
    ensures nothing { is_binary_proof [] ≡ false }
    ensures misread { read_proof 16 (100 ∷ 32 ∷ 0 ∷ [])
        ≡ record { steps = []; fault = Some (record { line = 1; why = why.BadWord }) } }
{}

/// Worked rows: all eight clauses of three variables are refuted by three steps, the second of which alone is not implied,
/// and not by none.
pub fn worked_judgements()
    ensures derived { JudgesProof eight (codes "1 2 0\n1 0\n2 0\n") (judgement.Derived 3) }
    ensures not_implied { JudgesProof eight (codes "1 0\n2 0\n") (judgement.NotImplied 1) }
    ensures not_derived { JudgesProof eight (codes "1 2 0\n") judgement.NotDerived }
    ensures malformed { JudgesProof eight (codes "1 2 0\n1 x 0\n")
        (judgement.Malformed 2 why.BadWord) }
    ensures by_itself { JudgesProof (record { variables = 1; clauses = (2 ∷ []) ∷ (3 ∷ []) ∷ [] })
        (codes "x") (judgement.Derived 0) }
{}

/// Worked rows: the same of proofs in the binary form.
pub fn worked_binary_judgements()
    ensures derived { JudgesProof eight (97 ∷ 2 ∷ 4 ∷ 0 ∷ 97 ∷ 2 ∷ 0 ∷ 97 ∷ 4 ∷ 0 ∷ [])
        (judgement.Derived 3) }
    ensures not_implied { JudgesProof eight (97 ∷ 2 ∷ 0 ∷ 97 ∷ 4 ∷ 0 ∷ [])
        (judgement.NotImplied 1) }
    ensures not_derived { JudgesProof eight (97 ∷ 2 ∷ 4 ∷ 0 ∷ []) judgement.NotDerived }
    ensures malformed { JudgesProof eight (97 ∷ 2 ∷ 4 ∷ 0 ∷ 97 ∷ 2 ∷ [])
        (judgement.Malformed 2 why.CutOff) }
{}

/// Worked rows: of clauses that have the same literals in some order the last is taken away; none is where there is none.
pub fn worked_without()
    ensures last { IsWithout ((2 ∷ 4 ∷ []) ∷ (4 ∷ 2 ∷ []) ∷ (6 ∷ []) ∷ []) (2 ∷ 4 ∷ [])
        ((2 ∷ 4 ∷ []) ∷ (6 ∷ []) ∷ []) }
    ensures none { IsWithout ((2 ∷ 2 ∷ 4 ∷ []) ∷ []) (2 ∷ 4 ∷ []) ((2 ∷ 2 ∷ 4 ∷ []) ∷ []) }
{}

/// Worked rows: all eight clauses of three variables are refuted by four steps with hints; not where a hint is missing, where
/// one names no clause, also one that was taken away, or where an id is not above all before.
pub fn worked_hints()
    ensures derived { judge_hinted eight (record {
      steps = at 1 (hinted 9 (2 ∷ 4 ∷ []) (1 ∷ 2 ∷ []))
          ∷ at 2 (hinted 10 (2 ∷ []) (9 ∷ 3 ∷ 4 ∷ [])) ∷ at 3 (hinted 11 (4 ∷ []) (10 ∷ 5 ∷ 6 ∷ []))
          ∷ at 4 (hinted 12 [] (10 ∷ 11 ∷ 7 ∷ 8 ∷ [])) ∷ [];
      fault = None;
    }) ≡ judgement.Derived 4 }
    ensures too_few { judge_hinted eight (record { steps = at 1 (hinted 9 (2 ∷ 4 ∷ []) (1 ∷ [])) ∷ []; fault = None })
        ≡ judgement.NotImplied 1 }
    ensures two_open { judge_hinted eight (record { steps = at 1 (hinted 9 (2 ∷ []) (1 ∷ [])) ∷ []; fault = None })
        ≡ judgement.NotImplied 1 }
    ensures no_clause { judge_hinted eight (record { steps = at 1 (hinted 9 (2 ∷ 4 ∷ []) (9 ∷ [])) ∷ []; fault = None })
        ≡ judgement.Malformed 1 why.NoClause }
    ensures taken_away { judge_hinted eight (record {
      steps = at 1 (unhinted 1)
          ∷ at 2 (hinted 9 (2 ∷ 4 ∷ []) (1 ∷ 2 ∷ [])) ∷ [];
      fault = None;
    }) ≡ judgement.Malformed 2 why.NoClause }
    ensures low_id { judge_hinted eight (record { steps = at 1 (hinted 8 (2 ∷ 4 ∷ []) (1 ∷ 2 ∷ [])) ∷ []; fault = None })
        ≡ judgement.Malformed 1 why.BadId }
    ensures not_derived { judge_hinted eight (record { steps = []; fault = None }) ≡ judgement.NotDerived }
{}
