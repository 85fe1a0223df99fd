//! Judging witnesses.

ghost use Rattle.std.specs.Prelude.{◌≡◌, ℕ, List, Option, IfOk, IfErr, option_map};
ghost use Rattle.btor2text.specs.Spelling.{IsModelOf};
ghost use Rattle.invocation.specs.declared.tasks.Given.TheVariants as given_is;
ghost use Rattle.verbs.specs.Asked.{IsNotJudgedOverWith, IsNotJudgedWith, IsUnjudgedFor};
ghost use Rattle.verbs.specs.Judging.{IsJudged, IsJudgedFor, IsJudgedOver, IsJudgedOverFor};
ghost use Rattle.verbs.specs.Refusals.{IsNotClaimable, IsNotJudged};
ghost use Rattle.verbs.specs.Statuses.{Ends, IfInput};
ghost use Rattle.verbs.specs.Statuses.Use.{Unused, Used};

use crate::asked::asked;
use crate::claims::claimable;
use crate::outcomes::{Outcome, outcome_of};
use crate::reading::{read_circuit, read_model};
use crate::refusals::Refusal;
use crate::subjects::{Lines, Subject};
use aiger::Circuit;
use base::Source;
use btor2::Model;
use reached::laws::judged_claims_are_reached;
use rises::laws::{
    accepted_bit_claims_rise, accepted_claims_rise, exactly_one_bit_list, exactly_one_list,
};
use rises::{FirstRises, judge_bits_with_rises, judge_words_with_rises};
use std::alloc::Global;
use witness::{Judgement, judge_bits, judge_words};

/// A witness that is judged over a model.
#[derive(Drop)]
pub struct JudgedOverModel {
    /// The model.
    pub model: Model,
    /// What is told of the witness.
    pub outcome: Outcome,
    /// In which frames the claims of an acceptance are reached first.
    pub firsts: FirstRises,
}

/// A witness that is judged over a circuit.
#[derive(Drop)]
pub struct JudgedOverCircuit {
    /// The circuit.
    pub circuit: Circuit,
    /// What is told of the witness.
    pub outcome: Outcome,
    /// In which frames the claims of an acceptance are reached first.
    pub firsts: FirstRises,
}

/// Judges the second text, a witness, over the model of the first.
pub fn judge_over_model<A: Source, B: Source>(
    alloc: Global,
    first: &mut A,
    second: &mut B,
) -> Result<Judgement, Refusal>
    ensures judged { IfOk result (IsJudged (A.to_come first.old) (B.to_come second.old)) }
    ensures refused { IfErr result (IfInput (IsNotJudged (A.to_come first.old))) }
    ensures ends { Ends result (Used A.failures first.old first.new)
        (Used B.failures second.old second.new) Unused Unused }
{
    judged_claims_are_reached();
    let model = read_model(alloc, first)?;
    match judge_words(alloc, &model, second) {
        Ok(judgement) => Ok(judgement),
        Err(fault) => Err(Refusal::from(fault)),
    }
}

/// Judges the second text, a witness, over the circuit of the first.
pub fn judge_over_circuit<A: Source, B: Source>(
    alloc: Global,
    first: &mut A,
    second: &mut B,
) -> Result<Judgement, Refusal>
    ensures judged { IfOk result (IsJudgedOver (A.to_come first.old) (B.to_come second.old)) }
    ensures refused { IfErr result
        (IfInput (IsNotClaimable given_is.Circuit (A.to_come first.old))) }
    ensures ends { Ends result (Used A.failures first.old first.new)
        (Used B.failures second.old second.new) Unused Unused }
{
    judged_claims_are_reached();
    let circuit = read_circuit(alloc, first)?;
    // the lists of a circuit are one
    let _ = circuit.inputs();
    claimable(&circuit)?;
    match judge_bits(alloc, &circuit, second) {
        Ok(judgement) => Ok(judgement),
        Err(fault) => Err(Refusal::from(fault)),
    }
}

/// Judges whether a witness over a model is accepted and claims the bad property that a word asks for, where one does.
pub(crate) fn judge_with_claims<B: Source>(
    alloc: Global,
    word: Option<&str>,
    model: Model,
    second: &mut B,
) -> Result<JudgedOverModel, Refusal>
    ensures judged { IfOk result (λ judged. (judged.model ≡ model) × ((known : Option (List ℕ))
        → IsModelOf known model → IsJudgedFor (option_map (λ word. word.now) word.entry) known
        (B.to_come second.old) judged)) }
    ensures refused { IfErr result (IfInput
        (IsUnjudgedFor (option_map (λ word. word.now) word.entry) model)) }
    ensures ends { Ends result Unused (Used B.failures second.old second.new) Unused Unused }
{
    judged_claims_are_reached();
    accepted_claims_rise();
    exactly_one_list();
    let claim = asked(Subject::Model(Lines::Profile(&model)), word)?;
    match judge_words_with_rises(alloc, &model, second) {
        Ok((judgement, firsts)) => {
            let outcome = outcome_of(&judgement, &firsts, claim);
            Ok(JudgedOverModel {
                model,
                outcome,
                firsts,
            })
        }
        Err(fault) => Err(Refusal::from(fault)),
    }
}

/// Judges whether the second text, a witness over the model of the first, is accepted and claims the bad property that a word
/// asks for, where one does.
pub fn judge_for_model<A: Source, B: Source>(
    alloc: Global,
    word: Option<&str>,
    first: &mut A,
    second: &mut B,
) -> Result<JudgedOverModel, Refusal>
    ensures judged { IfOk result (IsJudgedFor (option_map (λ word. word.now) word.entry)
        (A.to_come first.old) (B.to_come second.old)) }
    ensures refused { IfErr result
        (IfInput (IsNotJudgedWith (option_map (λ word. word.now) word.entry)
        (A.to_come first.old))) }
    ensures ends { Ends result (Used A.failures first.old first.new)
        (Used B.failures second.old second.new) Unused Unused }
{
    let model = read_model(alloc, first)?;
    // a model's items are well-formed
    let _ = model.items();
    judge_with_claims(alloc, word, model, second)
}

/// The same over the circuit of the first text.
pub fn judge_for_circuit<A: Source, B: Source>(
    alloc: Global,
    word: Option<&str>,
    first: &mut A,
    second: &mut B,
) -> Result<JudgedOverCircuit, Refusal>
    ensures judged { IfOk result (IsJudgedOverFor (option_map (λ word. word.now) word.entry)
        (A.to_come first.old) (B.to_come second.old)) }
    ensures refused { IfErr result
        (IfInput (IsNotJudgedOverWith (option_map (λ word. word.now) word.entry)
        (A.to_come first.old))) }
    ensures ends { Ends result (Used A.failures first.old first.new)
        (Used B.failures second.old second.new) Unused Unused }
{
    judged_claims_are_reached();
    accepted_bit_claims_rise();
    exactly_one_bit_list();
    let circuit = read_circuit(alloc, first)?;
    // the lists of a circuit are one
    let _ = circuit.inputs();
    let claim = asked(Subject::Circuit(&circuit), word)?;
    claimable(&circuit)?;
    match judge_bits_with_rises(alloc, &circuit, second) {
        Ok((judgement, firsts)) => {
            let outcome = outcome_of(&judgement, &firsts, claim);
            Ok(JudgedOverCircuit {
                circuit,
                outcome,
                firsts,
            })
        }
        Err(fault) => Err(Refusal::from(fault)),
    }
}
