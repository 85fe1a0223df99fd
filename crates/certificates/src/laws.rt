//! Laws of invariants and their obligations, and worked rows: functions that do nothing, whose contracts are the laws.
ghost use Rattle.std.specs.Prelude.{◌≡◌, ℕ, Bool, true, false, List, [], ◌∷◌, Option, Some, Ok, Err, length, replicate, All, codes};
ghost use Rattle.std.specs.List.{list_all};
ghost use Rattle.aiger.specs.declared.circuit.Reset.TheVariants.{Zero};
ghost use Rattle.base.specs.Literal.{Valuation, literal_value};
ghost use Rattle.aiger.specs.Circuit.{Circuit, IsCircuit};
ghost use Rattle.aiger.specs.Trace.{IsCircuitTrace};
ghost use Rattle.aiger.specs.Reachability.{CanRiseInCircuit};
ghost use Rattle.aiger.specs.Worked.{toggler};
ghost use Rattle.engine_form.specs.EngineForm.{IsEngineFormOf};
ghost use Rattle.drup.specs.declared.judgement.Judgement.{Judgement};
ghost use Rattle.drup.specs.declared.judgement.Judgement.TheVariants as judgement;
ghost use Rattle.drup.specs.Formula.{Formula, IsFormula, IsUnsatisfiable};
ghost use Rattle.certificates.specs.Certificates.{JudgesIn, IsCertified};
ghost use Rattle.certificates.specs.declared.proof_form.ProofForm.{ProofForm};
ghost use Rattle.certificates.specs.Invariants.{AreOver, asks_one, bad_literal, IsInductive};
ghost use Rattle.certificates.specs.Obligation.{obligation};
ghost use Rattle.certificates.specs.Reading.{read_cubes};
ghost use Rattle.certificates.specs.Texts.{SaysCubes};
ghost use Rattle.certificates.specs.Worked.{kept_zero, gated, first_is_one, one_and_zero};
ghost use Rattle.certificates.specs.declared.why.InvariantWhy.TheVariants as why;

/// A law: an obligation is unsatisfiable exactly where no step enters its cubes from outside, and the bad property does not
/// rise outside of them.
pub fn unsatisfiable_where_inductive()
    ensures inductive { (d : Circuit) (cubes : List (List ℕ)) → IsCircuit d
        → AreOver (length d.latches) cubes → IsUnsatisfiable (obligation d cubes)
        → IsInductive d cubes }
    ensures unsatisfiable { (d : Circuit) (cubes : List (List ℕ)) → AreOver (length d.latches) cubes
        → IsInductive d cubes → IsUnsatisfiable (obligation d cubes) }
{}

/// A law: an obligation is a formula over its variables.
pub fn obligation_is_a_formula()
    ensures { (d : Circuit) (cubes : List (List ℕ)) → IsCircuit d → AreOver (length d.latches) cubes
        → IsFormula (obligation d cubes) }
{}

/// A law: where each cube asks for a 1 and the obligation is unsatisfiable, the bad property is 0 in every frame of every
/// trace from latches that are 0; so it cannot rise where all latches begin with 0.
pub fn bad_property_never_rises()
    ensures frames { (d : Circuit) (cubes : List (List ℕ)) → IsCircuit d
        → AreOver (length d.latches) cubes → list_all asks_one cubes ≡ true
        → IsUnsatisfiable (obligation d cubes)
        → (inputs : List (List Bool)) (vs : List Valuation)
        → IsCircuitTrace d (replicate (length d.latches) false) inputs vs
        → All (λ v. literal_value v (bad_literal d) ≡ false) vs }
    ensures circuit { (d : Circuit) (cubes : List (List ℕ)) → IsCircuit d
        → AreOver (length d.latches) cubes → list_all asks_one cubes ≡ true
        → IsUnsatisfiable (obligation d cubes)
        → All (λ latch. latch.reset ≡ Zero) d.latches → ¬ CanRiseInCircuit d 0 }
{}

/// A law: where a text in a form is judged as a proof, nothing satisfies the formula.
pub fn derived_is_unsatisfiable()
    ensures { (form : ProofForm) (formula : Formula) (text : List ℕ) (line : ℕ)
        → JudgesIn form formula text (judgement.Derived line) → IsUnsatisfiable formula }
{
    drup::laws::derived_is_unsatisfiable();
    lrat::laws::derived_is_unsatisfiable();
}

/// A law: in a form a text is judged over a formula in one way at most.
pub fn one_judgement()
    ensures { (form : ProofForm) (formula : Formula) (text : List ℕ) (i j : Judgement)
        → JudgesIn form formula text i → JudgesIn form formula text j → i ≡ j }
{
    drup::laws::one_judgement();
}

/// A law, what a proof of an invariant's obligation is worth: where each cube asks for a 1, and a text in a form is judged as a
/// proof over the obligation of the engine form of a bad property of a circuit, this property rises in no frame up to which the
/// circuit's constraints hold, in no trace from initial bits that agree with its resets.
pub fn proved_property_never_rises()
    ensures { (c : Circuit) (k : ℕ) (d : Circuit) (cubes : List (List ℕ)) (form : ProofForm)
        (text : List ℕ) (line : ℕ) → IsEngineFormOf c (Some k) d → AreOver (length d.latches) cubes
        → list_all asks_one cubes ≡ true
        → JudgesIn form (obligation d cubes) text (judgement.Derived line)
        → ¬ CanRiseInCircuit c k }
{
    derived_is_unsatisfiable();
    engine_form::laws::bad_properties_rise_alike();
}

/// A law, what a certificate is worth: where it is judged as `Derived`, the bad property rises in no frame up to which the
/// circuit's constraints hold, in no trace from initial bits that agree with its resets.
pub fn certified_property_never_rises()
    ensures { (c : Circuit) (k : ℕ) (form : ProofForm) (invariant proof : Option (List ℕ)) (line : ℕ)
        → IsCertified c k form invariant proof (judgement.Derived line) → ¬ CanRiseInCircuit c k }
{
    proved_property_never_rises();
}

/// A law: over one engine form the texts of a certificate, with a proof in one form, are judged in one way at most.
pub fn one_judgement_of_a_certificate()
    ensures { (c : Circuit) (k : ℕ) (form : ProofForm) (invariant proof : List ℕ) (i j : Judgement)
        (a : IsCertified c k form (Some invariant) (Some proof) i)
        (b : IsCertified c k form (Some invariant) (Some proof) j)
        → a.is_owed.form ≡ b.is_owed.form → i ≡ j }
{
    one_judgement();
}

/// A law: a text is read as some cubes exactly where it says them.
pub fn cubes_are_read_where_said()
    ensures said { (latches : ℕ) (text : List ℕ) (cubes : List (List ℕ))
        → SaysCubes latches text cubes → read_cubes latches text ≡ Ok cubes }
    ensures read { (latches : ℕ) (text : List ℕ) (cubes : List (List ℕ))
        → read_cubes latches text ≡ Ok cubes → SaysCubes latches text cubes }
{}

/// A law: a text says at most one list of cubes.
pub fn one_list_of_cubes()
    ensures { (latches : ℕ) (text : List ℕ) (cubes others : List (List ℕ))
        → SaysCubes latches text cubes → SaysCubes latches text others → cubes ≡ others }
{}

/// Worked rows: the obligations of a latch that toggles over no cube, and of a circuit with a gate and a constant over one.
pub fn worked_obligations()
    ensures toggler { obligation toggler []
        ≡ record { variables = 3; clauses = (4 ∷ []) ∷ (7 ∷ 2 ∷ []) ∷ (6 ∷ []) ∷ [] } }
    ensures gated { obligation gated (one_and_zero ∷ []) ≡ record {
      variables = 7;
      clauses =
          (10 ∷ []) ∷ (9 ∷ 7 ∷ []) ∷ (9 ∷ 2 ∷ []) ∷ (8 ∷ 6 ∷ 3 ∷ []) ∷ (5 ∷ 6 ∷ []) ∷ (13 ∷ 5 ∷ [])
          ∷ (15 ∷ 8 ∷ []) ∷ (15 ∷ 11 ∷ []) ∷ (12 ∷ 14 ∷ []) ∷ [];
    } }
{}

/// Worked rows: that a latch is 1 is never reached where it stays as it is, and the cube of it shows so; no cube does not,
/// and neither does the cube where the latch toggles.
pub fn worked_invariants()
    ensures keeps { IsInductive kept_zero (first_is_one ∷ []) }
    ensures no_cube { ¬ IsInductive kept_zero [] }
    ensures enters { ¬ IsInductive toggler (first_is_one ∷ []) }
    ensures asks { list_all asks_one (first_is_one ∷ one_and_zero ∷ []) ≡ true }
    ensures holds_at_start { asks_one (3 ∷ 5 ∷ []) ≡ false }
{}

/// Worked rows: a text says two cubes over two latches; one that names a latch twice says none.
pub fn worked_sayings()
    ensures two { SaysCubes 2
        (codes "# by hand\n.i 2\n.o 1\n.p 2\n.ilb lo0 lo01\n.ob inv\n10 1\n# a cube more\n-1 1\n.e")
        ((2 ∷ 5 ∷ []) ∷ (4 ∷ []) ∷ []) }
    ensures none { (cubes : List (List ℕ))
        → ¬ SaysCubes 2 (codes ".i 2\n.o 1\n.p 1\n.ilb lo0 lo00\n.ob inv\n10 1\n.e\n") cubes }
{}

/// Worked rows: texts over circuits of two and twelve latches, and what they read as.
pub fn worked_texts()
    ensures two { read_cubes 2
        (codes "# by hand\n.i 2\n.o 1\n.p 2\n.ilb lo0 lo1\n.ob inv\n10 1\n-1 1\n.e\n\n")
        ≡ Ok ((2 ∷ 5 ∷ []) ∷ (4 ∷ []) ∷ []) }
    // A latch is known by its name, and not by its place.
    ensures named { read_cubes 12 (codes ".i 2\n.o 1\n.p 1\n.ilb lo11 lo00\n.ob inv\n10 1\n.e")
        ≡ Ok ((24 ∷ 3 ∷ []) ∷ []) }
    ensures none { read_cubes 12 (codes ".i 0\n.o 1\n.p 0\n.ilb\n.ob inv\n.e\n") ≡ Ok [] }
    // What is wrong, and where.
    ensures inputs { read_cubes 2 (codes "\n.i x\n")
        ≡ Err (record { line = 2; why = why.BadInputs }) }
    ensures outputs { read_cubes 2 (codes ".i 2\n.o 2\n")
        ≡ Err (record { line = 2; why = why.BadOutputs }) }
    ensures count { read_cubes 2 (codes ".i 2\n.o 1\n.p 01\n")
        ≡ Err (record { line = 3; why = why.BadCount }) }
    ensures names { read_cubes 2 (codes ".i 2\n.o 1\n.p 1\n.ilb lo0 li1\n")
        ≡ Err (record { line = 4; why = why.BadNames }) }
    ensures no_latch { read_cubes 2 (codes ".i 2\n.o 1\n.p 1\n.ilb lo0 lo2\n")
        ≡ Err (record { line = 4; why = why.NoSuchLatch }) }
    ensures twice { read_cubes 2 (codes ".i 2\n.o 1\n.p 1\n.ilb lo0 lo00\n")
        ≡ Err (record { line = 4; why = why.NamedTwice }) }
    ensures few_names { read_cubes 2 (codes ".i 2\n.o 1\n.p 1\n.ilb lo0\n")
        ≡ Err (record { line = 4; why = why.WrongNames }) }
    ensures output { read_cubes 2 (codes ".i 1\n.o 1\n.p 1\n.ilb lo0\n.ob\n")
        ≡ Err (record { line = 5; why = why.BadOutput }) }
    ensures byte { read_cubes 2 (codes ".i 1\n.o 1\n.p 1\n.ilb lo0\n.ob inv\n2 1\n.e\n")
        ≡ Err (record { line = 6; why = why.BadCube }) }
    ensures no_output { read_cubes 2 (codes ".i 1\n.o 1\n.p 1\n.ilb lo0\n.ob inv\n1 0\n.e\n")
        ≡ Err (record { line = 6; why = why.BadCube }) }
    ensures long { read_cubes 2 (codes ".i 1\n.o 1\n.p 1\n.ilb lo0\n.ob inv\n1- 1\n.e\n")
        ≡ Err (record { line = 6; why = why.WrongLength }) }
    ensures at_start { read_cubes 2 (codes ".i 1\n.o 1\n.p 1\n.ilb lo0\n.ob inv\n0 1\n.e\n")
        ≡ Err (record { line = 6; why = why.HoldsAtStart }) }
    ensures few_cubes { read_cubes 2 (codes ".i 1\n.o 1\n.p 1\n.ilb lo0\n.ob inv\n.e\n")
        ≡ Err (record { line = 6; why = why.WrongCubes }) }
    ensures many_cubes { read_cubes 2 (codes ".i 1\n.o 1\n.p 0\n.ilb lo0\n.ob inv\n1 1\n.e\n")
        ≡ Err (record { line = 6; why = why.WrongCubes }) }
    ensures behind { read_cubes 2 (codes ".i 0\n.o 1\n.p 0\n.ilb\n.ob inv\n.e\n# end\n1\n")
        ≡ Err (record { line = 8; why = why.BehindEnd }) }
    ensures cut_off { read_cubes 2 (codes ".i 1\n.o 1\n.p 1\n.ilb lo0\n.ob inv\n1 1\n")
        ≡ Err (record { line = 7; why = why.CutOff }) }
{}
