//! Judging witnesses over models of the whole language, with what they claim.

ghost use Rattle.std.specs.Prelude.{◌≡◌, IfOk, IfErr, None, Some, option_map};
ghost use Rattle.btor2.specs.Lists.{first_init_without_next};
ghost use Rattle.btor2text.specs.Spelling.{StandsFor};
ghost use Rattle.verbs.specs.Asked.{IsNotFittedWith};
ghost use Rattle.verbs.specs.Fitting.{IsProfileOf};
ghost use Rattle.verbs.specs.Judging.{IsJudgedFittedFor};
ghost use Rattle.verbs.specs.Statuses.{Ends, IfInput};
ghost use Rattle.verbs.specs.Statuses.Use.{Unused, Used};

use crate::asked::asked;
use crate::fitted::{read_profile, whole_model_of};
use crate::given::GivenModel;
use crate::judging::judge_with_claims;
use crate::outcomes::{Outcome, outcome_of};
use crate::refusals::Refusal;
use crate::subjects::{Lines, Subject};
use crate::whole::{judge_whole_with_rises, whole_of};
use base::{Source, read_all};
use btor2::Model;
use fulljudge::laws::accepted_claims_rise;
use rises::FirstRises;
use std::alloc::Global;

/// A witness that is judged over a model of the whole language.
#[derive(Drop)]
pub struct JudgedFitted {
    /// The model, as one of the profile where it needs no fitting.
    pub model: GivenModel,
    /// What is told of the witness.
    pub outcome: Outcome,
    /// In which frames the claims of an acceptance are reached first.
    pub firsts: FirstRises,
}

/// Judges a witness over a model that needs no fitting, for which a text stands.
fn judge_for_profile<B: Source>(
    alloc: Global,
    word: Option<&str>,
    text: &[u8],
    model: Model,
    second: &mut B,
) -> Result<JudgedFitted, Refusal>
    requires stands { StandsFor text.now model }
    requires ready { first_init_without_next model model ≡ None }
    ensures judged { IfOk result (IsJudgedFittedFor (option_map (λ word. word.now) word.entry)
        (Some text.now) (B.to_come second.old)) }
    ensures refused { IfErr result (IfInput
        (IsNotFittedWith (option_map (λ word. word.now) word.entry) (Some text.now))) }
    ensures ends { Ends result Unused (Used B.failures second.old second.new) Unused Unused }
{
    match judge_with_claims(alloc, word, model, second) {
        Ok(judged) => Ok(JudgedFitted {
            model: GivenModel::Profile(judged.model),
            outcome: judged.outcome,
            firsts: judged.firsts,
        }),
        Err(refusal) => Err(refusal),
    }
}

/// Judges a witness over the model of the whole language of a text.
fn judge_for_whole<B: Source>(
    alloc: Global,
    word: Option<&str>,
    text: &[u8],
    second: &mut B,
) -> Result<JudgedFitted, Refusal>
    requires not_profile { IsProfileOf text.now None }
    ensures judged { IfOk result (IsJudgedFittedFor (option_map (λ word. word.now) word.entry)
        (Some text.now) (B.to_come second.old)) }
    ensures refused { IfErr result (IfInput
        (IsNotFittedWith (option_map (λ word. word.now) word.entry) (Some text.now))) }
    ensures ends { Ends result Unused (Used B.failures second.old second.new) Unused Unused }
{
    accepted_claims_rise();
    let model = whole_model_of(alloc, text)?;
    let claim = asked(Subject::Model(Lines::Whole(&model)), word)?;
    let whole = whole_of(alloc, model.model())?;
    let (judgement, firsts) = judge_whole_with_rises(alloc, model.model(), &whole, second)?;
    let outcome = outcome_of(&judgement, &firsts, claim);
    Ok(JudgedFitted {
        model: GivenModel::Whole(model),
        outcome,
        firsts,
    })
}

/// Judges a witness over the model of a text.
fn judge_for_text<B: Source>(
    alloc: Global,
    word: Option<&str>,
    text: &[u8],
    second: &mut B,
) -> Result<JudgedFitted, Refusal>
    ensures judged { IfOk result (IsJudgedFittedFor (option_map (λ word. word.now) word.entry)
        (Some text.now) (B.to_come second.old)) }
    ensures refused { IfErr result (IfInput
        (IsNotFittedWith (option_map (λ word. word.now) word.entry) (Some text.now))) }
    ensures ends { Ends result Unused (Used B.failures second.old second.new) Unused Unused }
{
    match read_profile(alloc, text)? {
        Some(model) => judge_for_profile(alloc, word, text, model, second),
        None => judge_for_whole(alloc, word, text, second),
    }
}

/// Judges whether the second text, a witness over the model of the whole language of the first, is accepted and claims the bad property
/// that a word asks for, where one does. A model of the profile, each of whose states has a next or is free, is judged over as it is.
pub fn judge_fitted_for<A: Source, B: Source>(
    alloc: Global,
    word: Option<&str>,
    first: &mut A,
    second: &mut B,
) -> Result<JudgedFitted, Refusal>
    ensures judged { IfOk result (IsJudgedFittedFor (option_map (λ word. word.now) word.entry)
        (A.to_come first.old) (B.to_come second.old)) }
    ensures refused { IfErr result
        (IfInput (IsNotFittedWith (option_map (λ word. word.now) word.entry)
        (A.to_come first.old))) }
    ensures ends { Ends result (Used A.failures first.old first.new)
        (Used B.failures second.old second.new) Unused Unused }
{
    let text = read_all(alloc, first)?;
    judge_for_text(alloc, word, text.as_slice(), second)
}
