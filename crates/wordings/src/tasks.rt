//! The tasks that parts ask for.

ghost use Rattle.std.specs.Prelude.{◌≡◌, Some, None, if◌then◌else◌, codes, map, option_and_then, option_map};
ghost use Rattle.std.specs.Option.{unwrap_or};
ghost use Rattle.base.specs.Decimals.{number_of};
ghost use Rattle.certificates.specs.declared.proof_form.ProofForm.TheVariants as proof;
ghost use Rattle.invocation.specs.declared.tasks.Certificate.TheVariants as by;
ghost use Rattle.invocation.specs.declared.tasks.Given.TheVariants as given;
ghost use Rattle.wordings.specs.declared.table.Verb.TheVariants as verb;
ghost use Rattle.wordings.specs.Orders.{certified, has, judges, language_of, position, task_of, value};
ghost use Rattle.wordings.specs.Values.{said};

use crate::contents::{has, value};
use crate::parts::Part;
use crate::table::Verb;
use base::decimal;
use certificates::ProofForm;
use invocation::{
    Certificate, CertificateTask, Certified, CircuitTask, Given, Language, ModelTask, Task,
    TextTask,
};
use vcd::Shown;

/// The position of a bad property, where one is chosen.
fn position(parts: &[Part<'_>]) -> Option<usize>
    ensures { result ≡ position (map said parts.now) }
{
    match value("bad", parts) {
        Some(text) => match decimal(text.as_bytes()) {
            Some(position) => Some(position as usize),
            None => None,
        },
        None => None,
    }
}

/// The number of the witness that is picked, from 1; the first where none is.
fn picked(parts: &[Part<'_>]) -> u64
    ensures { result ≡ unwrap_or (option_and_then number_of (value (codes "pick") (map said parts.now))) 1 }
{
    match value("pick", parts) {
        Some(text) => match decimal(text.as_bytes()) {
            Some(number) => number,
            None => 1,
        },
        None => 1,
    }
}

/// What the first file of a command on certificates gives.
fn given(parts: &[Part<'_>]) -> Given
    ensures { result ≡ (if has (codes "aiger") (map said parts.now) then given.Circuit
        else (if has (codes "fit") (map said parts.now) then given.Fitted else given.Model)) }
{
    if has("aiger", parts) {
        Given::Circuit
    } else if has("fit", parts) {
        Given::Fitted
    } else {
        Given::Model
    }
}

/// What the second file of a command on certificates is.
fn certificate(parts: &[Part<'_>]) -> Certificate
    ensures { result ≡ (if has (codes "circuit") (map said parts.now)
        then (if has (codes "engine") (map said parts.now) then by.CircuitOfForm else by.Circuit)
        else by.Invariant) }
{
    if !has("circuit", parts) {
        Certificate::Invariant
    } else if has("engine", parts) {
        Certificate::CircuitOfForm
    } else {
        Certificate::Circuit
    }
}

/// What a certificate is about.
fn certified(parts: &[Part<'_>]) -> Certified
    ensures { result ≡ certified (map said parts.now) }
{
    Certified {
        given: given(parts),
        by: certificate(parts),
        choice: position(parts),
    }
}

/// The form of the proof of `check-proof`.
fn proof_form(parts: &[Part<'_>]) -> ProofForm
    ensures { result ≡ (if has (codes "lrat") (map said parts.now) then proof.Hinted else proof.Plain) }
{
    if has("lrat", parts) {
        ProofForm::Hinted
    } else {
        ProofForm::Plain
    }
}

/// The task of `lower`.
fn lowers(parts: &[Part<'_>]) -> Task
    ensures { Some result ≡ task_of verb.Lower (map said parts.now) }
{
    if has("engine", parts) {
        if has("fit", parts) {
            Task::Model(ModelTask::LowerFittedForEngines(position(parts)))
        } else {
            Task::Model(ModelTask::LowerForEngines(position(parts)))
        }
    } else if has("fit", parts) {
        Task::Model(ModelTask::LowerFitted)
    } else {
        Task::Text(TextTask::Lower)
    }
}

/// The task of `aig-convert`.
fn converts(parts: &[Part<'_>]) -> Task
    ensures { Some result ≡ task_of verb.AigConvert (map said parts.now) }
{
    let task = if has("engine", parts) {
        if has("outputs", parts) {
            CircuitTask::ConvertOutputsForEngines(position(parts))
        } else {
            CircuitTask::ConvertForEngines(position(parts))
        }
    } else if has("outputs", parts) {
        CircuitTask::ConvertOutputs
    } else {
        CircuitTask::AigConvert
    };
    Task::Circuit(task)
}

/// Which models the first file of `lift` may be of.
fn language(parts: &[Part<'_>]) -> Language
    ensures { result ≡ language_of (map said parts.now) }
{
    if has("fit", parts) {
        Language::Whole
    } else {
        Language::Profile
    }
}

/// The task of `lift`.
fn lifts(parts: &[Part<'_>]) -> Task
    ensures { Some result ≡ task_of verb.Lift (map said parts.now) }
{
    let task = if has("abc", parts) {
        ModelTask::LiftFound(language(parts), position(parts))
    } else if has("engine", parts) {
        ModelTask::LiftForm(language(parts), position(parts))
    } else {
        ModelTask::Lift(language(parts))
    };
    Task::Model(task)
}

/// The task of a command; the judgement of a list is none.
pub(crate) fn task_of(verb: Verb, parts: &[Part<'_>]) -> Option<Task>
    ensures { result ≡ task_of verb (map said parts.now) }
{
    match verb {
        Verb::Lower => Some(lowers(parts)),
        Verb::CheckBtor if has("fit", parts) => Some(Task::Model(ModelTask::CheckFitted)),
        Verb::CheckBtor => Some(Task::Model(ModelTask::CheckBtor)),
        Verb::Show if has("fit", parts) => Some(Task::Model(ModelTask::ShowWhole)),
        Verb::Show => Some(Task::Model(ModelTask::Show)),
        Verb::Cost if has("fit", parts) => Some(Task::Model(ModelTask::CostFitted)),
        Verb::Cost => Some(Task::Model(ModelTask::Cost)),
        Verb::Fit => Some(Task::Text(TextTask::Fit)),
        Verb::Unfit if has("back", parts) => Some(Task::Model(ModelTask::Spread)),
        Verb::Unfit => Some(Task::Model(ModelTask::Unfit)),
        Verb::AigConvert => Some(converts(parts)),
        Verb::CheckAig => Some(Task::Circuit(CircuitTask::CheckAig)),
        Verb::Lift => Some(lifts(parts)),
        Verb::Restore if has("abc", parts) => {
            Some(Task::Circuit(CircuitTask::Restore(position(parts))))
        }
        Verb::Restore => Some(Task::Circuit(CircuitTask::RestoreForm(position(parts)))),
        Verb::Wave if has("all", parts) => Some(Task::Model(ModelTask::Wave(Shown::All))),
        Verb::Wave => Some(Task::Model(ModelTask::Wave(Shown::Named))),
        Verb::Obligation => Some(Task::Certificate(CertificateTask::Obligation(certified(parts)))),
        Verb::CheckProof => Some(Task::Certificate(CertificateTask::CheckProof(
            certified(parts),
            proof_form(parts),
        ))),
        Verb::TidyWitness => Some(Task::Text(TextTask::TidyWitness(picked(parts)))),
        Verb::Vectors => Some(Task::Text(TextTask::Vectors)),
        Verb::Judge => None,
    }
}

/// The bad property that a witness is to claim, for a command that judges one.
pub(crate) fn asked<'a>(verb: Verb, parts: &[Part<'a>]) -> Option<&'a str>
    ensures { option_map (λ name. name.now) result
        ≡ (if judges verb then value (codes "bad") (map said parts.now) else None) }
{
    match verb {
        Verb::CheckBtor | Verb::CheckAig => value("bad", parts),
        _ => None,
    }
}
