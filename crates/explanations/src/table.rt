//! What refusals mean and what to do about them: a table, which docs/REFUSALS.md repeats.

ghost use Rattle.aiger.specs.Refusal.{circuit_fault_name, circuit_fault_number};
ghost use Rattle.aigerlists.specs.Renumbering.{loose_fault_name, loose_fault_number};
ghost use Rattle.aiger.specs.declared.fault.CircuitFault.{CircuitFault};
ghost use Rattle.aigerlists.specs.declared.fault.LooseFault.{LooseFault};
ghost use Rattle.aigertext.specs.Whys.{circuit_why_name, circuit_why_number};
ghost use Rattle.aigertext.specs.declared.fault.Why.{Why as CircuitWhy};
ghost use Rattle.blast.specs.Faults.{convert_name, convert_number, lower_name, lower_number};
ghost use Rattle.blast.specs.declared.fault.ConvertFault.{ConvertFault};
ghost use Rattle.blast.specs.declared.fault.LowerFault.{LowerFault};
ghost use Rattle.btor2.specs.Faults.{symbol_fault_name, symbol_fault_number};
ghost use Rattle.btor2.specs.declared.symbol.SymbolFault.{SymbolFault};
ghost use Rattle.btor2text.specs.Whys.{line_why_name, printed_number};
ghost use Rattle.btor2text.specs.declared.fault.Why.{Why};
ghost use Rattle.witness_circuits.specs.Faults.{test_name, test_number};
ghost use Rattle.witness_circuits.specs.declared.fault.TestFault.{TestFault};
ghost use Rattle.drup.specs.Faults.{clause_name, clause_number, formula_name, formula_number};
ghost use Rattle.drup.specs.Printed.{proof_why_name as proof_name, proof_why_number as proof_number};
ghost use Rattle.drup.specs.declared.fault.ClauseFault.{ClauseFault};
ghost use Rattle.drup.specs.declared.fault.FormulaFault.{FormulaFault};
ghost use Rattle.drup.specs.declared.why.Why.{Why as ProofWhy};
ghost use Rattle.explanations.specs.Explanations.{Explains, NameOnce};
ghost use Rattle.fitting.specs.Faults.{fit_fault_name, fit_fault_number};
ghost use Rattle.fitting.specs.declared.fault.FitFault.{FitFault};
ghost use Rattle.engine_form.specs.Faults.{engine_fault_name as engine_name, engine_fault_number as engine_number};
ghost use Rattle.engine_form.specs.declared.fault.EngineFault.{EngineFault};
ghost use Rattle.gates.specs.Faults.{gate_fault_name as gate_name, gate_fault_number as gate_number};
ghost use Rattle.gates.specs.declared.fault.GateFault.{GateFault};
ghost use Rattle.certificates.specs.Faults.{certificate_name, certificate_number, claim_name, claim_number, invariant_why_name as invariant_name, invariant_why_number as invariant_number, obligation_name, obligation_number};
ghost use Rattle.certificates.specs.declared.certificate_fault.CertificateFault.{CertificateFault};
ghost use Rattle.certificates.specs.declared.claim_fault.ClaimFault.{ClaimFault};
ghost use Rattle.certificates.specs.declared.fault.ObligationFault.{ObligationFault};
ghost use Rattle.certificates.specs.declared.why.InvariantWhy.{InvariantWhy};
ghost use Rattle.rejoin.specs.Faults.{unfit_fault_name, unfit_fault_number};
ghost use Rattle.rejoin.specs.declared.fault.UnfitFault.{UnfitFault};
ghost use Rattle.lift.specs.Answers.{lift_fault_name as lift_name, lift_fault_number as lift_number};
ghost use Rattle.lift.specs.declared.fault.LiftFault.{LiftFault};
ghost use Rattle.restore.specs.Faults.{restore_why_name as restore_name, restore_why_number as restore_number};
ghost use Rattle.restore.specs.declared.fault.RestoreWhy.{RestoreWhy};
ghost use Rattle.runs.specs.Faults.{new_name, new_number};
ghost use Rattle.runs.specs.declared.fault.NewFault.{NewFault};
ghost use Rattle.tidy.specs.Answers.{tidy_fault_name as tidy_name, tidy_fault_number as tidy_number};
ghost use Rattle.tidy.specs.declared.fault.TidyFault.{TidyFault};
ghost use Rattle.vcd.specs.Answers.{wave_fault_name as wave_name, wave_fault_number as wave_number};
ghost use Rattle.vcd.specs.declared.fault.WaveFault.{WaveFault};
ghost use Rattle.witness.specs.Answers.{judge_name, judge_number};
ghost use Rattle.witness.specs.Printed.{why_number as witness_number, why_name as witness_name};
ghost use Rattle.witness.specs.declared.fault.JudgeFault.{JudgeFault};
ghost use Rattle.witness.specs.declared.why.Why.{Why as WitnessWhy};
ghost use Rattle.writeout.specs.Numbers.{write_fault_name, write_fault_number};
ghost use Rattle.writeout.specs.declared.fault.WriteFault.{WriteFault};

mod certified;
mod circuits;
mod models;
mod often;
mod witnesses;

/// One case of a refusal: its number and name, when it is told, and what to do then.
#[derive(Clone, Copy)]
pub struct Explanation {
    /// The number.
    pub number: u32,
    /// The name.
    pub name: &'static str,
    /// When it is told.
    pub when: &'static str,
    /// What to do about it.
    pub remedy: &'static str,
}

/// Cases of refusals that are found in one place, in the order in which they are found.
#[derive(Clone, Copy)]
pub struct Part {
    /// The place.
    pub title: &'static str,
    /// The cases.
    pub rows: &'static [Explanation],
}

/// What all refusals mean and what to do about them. A refusal may have several cases, also in several parts.
///
/// Each refusal of each library is there, by the number and the name that the library gives it, and no number has two names.
pub fn refusal_table() -> [Part; 21]
    ensures names { NameOnce result }
    // the number of a why of a model's text that a push gives is its own, which is printed for it
    ensures models { (why : Why) → Explains result (printed_number why) (line_why_name why) }
    ensures symbols { (fault : SymbolFault)
        → Explains result (symbol_fault_number fault) (symbol_fault_name fault) }
    ensures lowerings { (fault : LowerFault)
        → Explains result (lower_number fault) (lower_name fault) }
    ensures fittings { (fault : FitFault)
        → Explains result (fit_fault_number fault) (fit_fault_name fault) }
    ensures writings { (fault : WriteFault)
        → Explains result (write_fault_number fault) (write_fault_name fault) }
    ensures conversions { (fault : ConvertFault)
        → Explains result (convert_number fault) (convert_name fault) }
    ensures runs { (fault : NewFault) → Explains result (new_number fault) (new_name fault) }
    ensures judges { (fault : JudgeFault)
        → Explains result (judge_number fault) (judge_name fault) }
    ensures witnesses { (why : WitnessWhy)
        → Explains result (witness_number why) (witness_name why) }
    ensures gates { (fault : GateFault) → Explains result (gate_number fault) (gate_name fault) }
    ensures circuits { (fault : CircuitFault)
        → Explains result (circuit_fault_number fault) (circuit_fault_name fault) }
    ensures lists { (fault : LooseFault)
        → Explains result (loose_fault_number fault) (loose_fault_name fault) }
    ensures liftings { (fault : LiftFault) → Explains result (lift_number fault) (lift_name fault) }
    ensures unfittings { (fault : UnfitFault)
        → Explains result (unfit_fault_number fault) (unfit_fault_name fault) }
    ensures engines { (fault : EngineFault)
        → Explains result (engine_number fault) (engine_name fault) }
    ensures counterexamples { (why : RestoreWhy)
        → Explains result (restore_number why) (restore_name why) }
    ensures dumps { (fault : WaveFault) → Explains result (wave_number fault) (wave_name fault) }
    ensures texts { (why : CircuitWhy)
        → Explains result (circuit_why_number why) (circuit_why_name why) }
    ensures proofs { (why : ProofWhy) → Explains result (proof_number why) (proof_name why) }
    ensures clauses { (fault : ClauseFault)
        → Explains result (clause_number fault) (clause_name fault) }
    ensures formulas { (fault : FormulaFault)
        → Explains result (formula_number fault) (formula_name fault) }
    ensures claims { (fault : ClaimFault)
        → Explains result (claim_number fault) (claim_name fault) }
    ensures invariants { (why : InvariantWhy)
        → Explains result (invariant_number why) (invariant_name why) }
    ensures obligations { (fault : ObligationFault)
        → Explains result (obligation_number fault) (obligation_name fault) }
    ensures tidying { (fault : TidyFault) → Explains result (tidy_number fault) (tidy_name fault) }
    ensures tests { (fault : TestFault) → Explains result (test_number fault) (test_name fault) }
    ensures certificates { (fault : CertificateFault)
        → Explains result (certificate_number fault) (certificate_name fault) }
{
    [
        Part {
            title: "What is met most",
            rows: &often::OFTEN,
        },
        Part {
            title: "Texts of models",
            rows: &models::TEXTS,
        },
        Part {
            title: "Items of a model",
            rows: &models::ITEMS,
        },
        Part {
            title: "Names",
            rows: &models::NAMES,
        },
        Part {
            title: "Fitting",
            rows: &models::FITTING,
        },
        Part {
            title: "Lowering",
            rows: &models::LOWERING,
        },
        Part {
            title: "Runs and judges",
            rows: &witnesses::RUNS,
        },
        Part {
            title: "Witnesses",
            rows: &witnesses::WITNESSES,
        },
        Part {
            title: "Witnesses of circuits",
            rows: &witnesses::BIT_WITNESSES,
        },
        Part {
            title: "Gate makers",
            rows: &circuits::GATES,
        },
        Part {
            title: "Circuits",
            rows: &circuits::CIRCUITS,
        },
        Part {
            title: "Lifting",
            rows: &witnesses::LIFTING,
        },
        Part {
            title: "Witnesses of wide models",
            rows: &witnesses::UNFITTING,
        },
        Part {
            title: "Texts of circuits",
            rows: &circuits::TEXTS,
        },
        Part {
            title: "Engine forms",
            rows: &circuits::ENGINES,
        },
        Part {
            title: "Counterexamples over engine forms",
            rows: &circuits::COUNTEREXAMPLES,
        },
        Part {
            title: "Dumps",
            rows: &witnesses::DUMPS,
        },
        Part {
            title: "Formulas and proofs",
            rows: &certified::PROOFS,
        },
        Part {
            title: "Invariants and certificates",
            rows: &certified::INVARIANTS,
        },
        Part {
            title: "Witness circuits",
            rows: &certified::WITNESS_CIRCUITS,
        },
        Part {
            title: "Tidied witnesses",
            rows: &witnesses::TIDYING,
        },
    ]
}
