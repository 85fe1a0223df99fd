//! Laws of certificates and their tests, and worked rows: functions that do nothing, whose contracts are the laws.
ghost use Rattle.std.specs.Prelude.{◌≡◌, ◌∷◌, ℕ, List, [], Option, None, Some, codes};
ghost use Rattle.aiger.specs.Circuit.{Circuit, IsCircuit};
ghost use Rattle.aiger.specs.Reachability.{CanRiseInCircuit};
ghost use Rattle.aiger.specs.Worked.{toggler};
ghost use Rattle.drup.specs.declared.judgement.Judgement.TheVariants as judgement;
ghost use Rattle.drup.specs.Formula.{Formula, IsUnsatisfiable};
ghost use Rattle.certificates.specs.Certificates.{JudgesIn};
ghost use Rattle.certificates.specs.Obligation.{obligation};
ghost use Rattle.certificates.specs.declared.proof_form.ProofForm.{ProofForm};
ghost use Rattle.witness_circuits.specs.Mapping.{Mapping, IsMappingOf, shared_literal, mapping_of};
ghost use Rattle.witness_circuits.specs.Certificate.{IsCertificate};
ghost use Rattle.witness_circuits.specs.Guards.{Guards};
ghost use Rattle.witness_circuits.specs.Owing.{IsTestedFormula, IsTestedOverForm};
ghost use Rattle.witness_circuits.specs.Tests.{IsTestOf};
ghost use Rattle.witness_circuits.specs.Worked.{stays_off, watcher, output_watcher, named_watcher, shared_latch, own_latch, watched_latch, watched_nothing};

/// A law: beside a circuit that a witness circuit guards, the bad property rises in no frame up to which the circuit's
/// constraints hold, in no trace from initial bits that agree with its resets.
pub fn guarded_property_never_rises()
    ensures { (c : Circuit) (k : ℕ) (w : Circuit) (m : Mapping) → Guards c k w m
        → ¬ CanRiseInCircuit c k }
{
    aiger::laws::exactly_one_trace();
}

/// A law: a witness circuit for which the five checks of the competition hold guards the bad property.
pub fn certificates_guard()
    ensures { (c : Circuit) (k : ℕ) (w : Circuit) (m : Mapping) → IsCertificate c k w m
        → Guards c k w m }
{}

/// A law: a bad property that is certified rises in no frame up to which the circuit's constraints hold, in no trace from
/// initial bits that agree with its resets.
pub fn certified_property_never_rises()
    ensures { (c : Circuit) (k : ℕ) (w : Circuit) (m : Mapping) → IsCertificate c k w m
        → ¬ CanRiseInCircuit c k }
{
    guarded_property_never_rises();
    certificates_guard();
}

/// A law: what is shared speaks of the inputs and latches of the witness circuit.
pub fn shared_is_a_mapping()
    ensures { (n : Option (List ℕ)) (c : Circuit) (w : Circuit) → IsMappingOf w (mapping_of n c w) }
{}

/// A law: the formula of a test, which is the obligation of no cubes over it, is unsatisfiable exactly where the witness
/// circuit guards the bad property.
pub fn unsatisfiable_where_it_guards()
    ensures guards { (c : Circuit) (k : ℕ) (w : Circuit) (m : Mapping) (t : Circuit)
        → IsTestOf c k w m t → IsUnsatisfiable (obligation t []) → Guards c k w m }
    ensures unsatisfiable { (c : Circuit) (k : ℕ) (w : Circuit) (m : Mapping) (t : Circuit)
        → IsTestOf c k w m t → Guards c k w m → IsUnsatisfiable (obligation t []) }
{
    certificates::laws::unsatisfiable_where_inductive();
}

/// A law: where a text in a form is judged as a proof over the formula of a test, the bad property rises in no frame up to which the
/// circuit's constraints hold, in no trace from initial bits that agree with its resets.
pub fn proved_property_never_rises()
    ensures { (c : Circuit) (k : ℕ) (w : Circuit) (m : Mapping) (t : Circuit) (form : ProofForm)
        (text : List ℕ) (line : ℕ) → IsTestOf c k w m t
        → JudgesIn form (obligation t []) text (judgement.Derived line) → ¬ CanRiseInCircuit c k }
{
    unsatisfiable_where_it_guards();
    certificates::laws::derived_is_unsatisfiable();
    guarded_property_never_rises();
}

/// A law: where a text in a form is judged as a proof over the formula that the text of a witness circuit owes, the bad property rises in
/// no frame up to which the circuit's constraints hold, in no trace from initial bits that agree with its resets.
pub fn owed_formula_proved_never_rises()
    ensures { (n : Option (List ℕ)) (c : Circuit) (k : ℕ) (witness : Option (List ℕ)) (f : Formula)
        (form : ProofForm) (text : List ℕ) (line : ℕ) → IsTestedFormula n c k witness f
        → JudgesIn form f text (judgement.Derived line) → ¬ CanRiseInCircuit c k }
{
    proved_property_never_rises();
}

/// A law: the same of a witness circuit of the engine form with the bad property.
pub fn owed_formula_over_form_proved_never_rises()
    ensures { (c : Circuit) (k : ℕ) (witness : Option (List ℕ)) (f : Formula) (form : ProofForm)
        (text : List ℕ) (line : ℕ) → IsTestedOverForm c k witness f
        → JudgesIn form f text (judgement.Derived line) → ¬ CanRiseInCircuit c k }
{
    owed_formula_proved_never_rises();
    engine_form::laws::bad_properties_rise_alike();
}

/// A law: each certificate of the competition owes an unsatisfiable formula.
pub fn certificates_can_be_proved()
    ensures { (c : Circuit) (k : ℕ) (w : Circuit) (m : Mapping) (t : Circuit) → IsTestOf c k w m t
        → IsCertificate c k w m → IsUnsatisfiable (obligation t []) }
{
    unsatisfiable_where_it_guards();
    certificates_guard();
}

/// Worked rows: the circuits of the rows on certificates are circuits.
pub fn worked_circuits()
    ensures stays_off { IsCircuit stays_off }
    ensures watcher { IsCircuit watcher }
    ensures output_watcher { IsCircuit output_watcher }
{}

/// Worked rows: a latch that stays as it is certifies that it is never 1, where it is shared; where it is not, it certifies
/// nothing, and one that toggles does not certify that it is never 1. What watches the latch guards it, by a bad property or an
/// output, and is no certificate, since nothing in it goes on; what watches nothing guards nothing.
pub fn worked_certificates()
    ensures stays_off { IsCertificate stays_off 0 stays_off shared_latch }
    ensures own { ¬ IsCertificate stays_off 0 stays_off own_latch }
    ensures toggler { ¬ IsCertificate toggler 0 toggler shared_latch }
    ensures other { ¬ IsCertificate toggler 0 stays_off shared_latch }
    ensures watcher { Guards stays_off 0 watcher watched_latch }
    ensures output { Guards stays_off 0 output_watcher watched_latch }
    ensures no_certificate { ¬ IsCertificate stays_off 0 watcher watched_latch }
    ensures nothing { ¬ Guards stays_off 0 watcher watched_nothing }
    ensures other_guard { ¬ Guards toggler 0 watcher watched_latch }
{
    worked_circuits();
}

/// Worked rows: names and what they say, and what is shared by a name, in order, or where there is nothing to stand for.
pub fn worked_names()
    ensures shared { shared_literal None (Some (codes "= 12")) ≡ Some 12 }
    ensures zero { shared_literal None (Some (codes "= 0")) ≡ Some 0 }
    ensures padded { shared_literal None (Some (codes "= 012")) ≡ None }
    ensures bare { shared_literal None (Some (codes "=")) ≡ None }
    ensures renumbered { shared_literal (Some (5 ∷ 3 ∷ [])) (Some (codes "= 7")) ≡ Some 5 }
    ensures other { shared_literal None (Some (codes "count[3]")) ≡ None }
    ensures unnamed { shared_literal None None ≡ None }
    ensures named { mapping_of None stays_off named_watcher ≡ watched_latch }
    ensures in_order { mapping_of None stays_off stays_off ≡ shared_latch }
    ensures none { mapping_of None stays_off watcher ≡ watched_nothing }
{}
