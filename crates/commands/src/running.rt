//! Doing a command.

ghost use Rattle.std.specs.Prelude.{◌≡◌, ◌≢◌, ◌≤◌, ℕ, List, Option, true, false, IfOk, IfErr};
ghost use Rattle.subcommands.specs.declared.answers.Answer.TheVariants as answer;
ghost use Rattle.invocation.specs.declared.tasks.CircuitTask.TheVariants as circuit_is;
ghost use Rattle.invocation.specs.declared.tasks.ModelTask.TheVariants as model_is;
ghost use Rattle.invocation.specs.declared.tasks.Task.TheVariants as task_is;
ghost use Rattle.commands.specs.Done.{Answers, asked_of, has_one_file, has_three_files, is_plain, is_quiet, name_of};
ghost use Rattle.commands.specs.Refusals.{RefusesTask, RefusesSecond};
ghost use Rattle.std.specs.Io.KnownBytes.{Appends};
ghost use Rattle.subcommands.specs.Refusals.{second_name};
ghost use Rattle.verbs.specs.Statuses.{CountsAll, Ends, EndsAll, ErrUntold, IfInput, IfSecond};
ghost use Rattle.verbs.specs.Statuses.Use.{Unused, Used};
ghost use Rattle.commands.specs.Statuses.{HasFailed, IsLeftOpen, IsRefused};
ghost use Rattle.subcommands.specs.Objects.{refusal_written};

use base::{Reason, Sink, Source};
use blast::Watch;
use invocation::{
    CertificateTask, CircuitTask, DEVICE, Language, ModelTask, Order, Task, TextTask,
};
use std::alloc::Global;
use subcommands::{
    Answer, answered, check_circuit, check_circuit_with, check_fitted, check_fitted_with,
    check_model, check_model_with, check_proof, compare_vectors, dump_witness, lift_counterexample,
    lift_fitted_counterexample, lift_fitted_form_witness, lift_fitted_witness, lift_form_witness,
    lift_witness, restore_counterexample, restore_witness, show, show_whole, spread_witness, tell,
    tell_cost, tell_cost_fitted, tidy_witness, unfit_witness, write_obligation, write_refusal,
};
use verbs::{
    Device, Refusal, convert, convert_for_engines, convert_outputs, convert_outputs_for_engines,
    fit, lower, lower_fitted, lower_fitted_for_engines, lower_for_engines,
};

/// Does a command, and answers the exit status: 0 done or accepted, 1 not accepted, 2 input refused, 3 device or memory, 4
/// words refused.
///
/// While a model is lowered, `watch` is told behind each of its lines how many gates there are.
///
/// Results go to `out`; a refusal is one line on `err`, and so is the judgement of `lift`, of `restore`, of `unfit` and of `wave`; with
/// names the line that says what the judgement is about goes there too. Only a command of two or three
/// files reads the second source, and one of three the third.
///
/// - 0: all of the circuit's text was written (that of a lowering of the model, or of the circuit that was read, or of the
///   engine form of either, whose bad properties can rise exactly where those of the model or circuit can), the
///   witness is accepted and the line that says so was written, with `wave` the dump of its frames too, all of the model's text and the line of its counts were
///   written, or both lines of its cost, or the lifted text of a witness that is accepted, or the witness that a
///   counterexample is restored to and that is accepted, or that all vectors agree, or the text of the formula that a
///   certificate owes, or that a certificate holds: then the bad property that is claimed of the model or circuit rises in no
///   frame up to which its constraints hold, from any initial state, under every input sequence.
/// - 1: the witness is judged and not accepted, or does not claim the bad property that is asked for, and the line of its judgement, or what it is lifted or restored to, was
///   written; or a line of a counterexample is faulty, and what those before it are restored to was; or the lines of
///   vectors that differ were; or the line was that tells why a certificate does not hold.
/// - 2: the first file is refused, or, where it is a certificate, the second. Nothing was written to `out`, or an object that
///   tells it where one is asked for; no device failed, and the line on `err` names the file and tells the first fault of its text, or the first that speaks against
///   its model, or against an obligation of its cubes, or a test of its circuit.
/// - 3: a device failed, and the line on `err` names it, or `err` itself failed; or memory was wanting, and no device
///   failed.
/// - 4: the words leave open which bad property of the first file is claimed, or ask for one by a name that two have. Nothing was written to `out`, no device failed,
///   and the line on `err` says so.
pub fn run<A: Source, B: Source, T: Source, O: Sink, E: Sink, W: Watch>(
    alloc: Global,
    order: &Order<'_>,
    first: &mut A,
    second: &mut B,
    third: &mut T,
    out: &mut O,
    err: &mut E,
    watch: &mut W,
) -> u8
    ensures done { result ≡ 0 → Answers order.now order.now.task answer.Done
        (A.to_come first.old) (B.to_come second.old) (T.to_come third.old) (O.written out.old)
        (O.written out.new) (E.written err.old) (E.written err.new) }
    ensures not_accepted { result ≡ 1
        → Answers order.now order.now.task answer.NotAccepted
        (A.to_come first.old) (B.to_come second.old) (T.to_come third.old) (O.written out.old)
        (O.written out.new) (E.written err.old) (E.written err.new) }
    ensures refused { result ≡ 2 → IsRefused order.now (A.to_come first.old)
        (B.to_come second.old) (O.written out.old) (O.written out.new) (E.written err.old)
        (E.written err.new) }
    ensures left_open { result ≡ 4
        → IsLeftOpen order.now (A.to_come first.old) (O.written out.old) (O.written out.new)
        (E.written err.old) (E.written err.new) }
    // without objects nothing is written of an input that is refused, and nothing where the words are
    ensures unwritten { result ≡ 2 → order.now.as_json ≡ false → out.new ≡ out.old }
    ensures unwritten_words { result ≡ 4 → order.now.as_json ≡ false → out.new ≡ out.old }
    ensures failed { result ≡ 3
        → HasFailed order.now.first.now (name_of order.now.second)
        (name_of order.now.third)
        (name_of order.now.output) (E.written err.old) (E.written err.new)
        (A.failures first.old) (A.failures first.new) (B.failures second.old)
        (B.failures second.new) (T.failures third.old) (T.failures third.new) (O.failures out.old)
        (O.failures out.new) (E.failures err.old) (E.failures err.new) }
    // with any other status nothing failed
    ensures unfailed { result ≢ 3 → (A.failures first.new ≡ A.failures first.old)
        × (B.failures second.new ≡ B.failures second.old)
        × (T.failures third.new ≡ T.failures third.old) × (O.failures out.new ≡ O.failures out.old)
        × (E.failures err.new ≡ E.failures err.old) }
    // a command that is done tells nothing, but for `lift`, `restore` and `wave`, and those with names
    ensures quiet { result ≤ 1 → is_quiet order.now.named order.now.task ≡ true
        → err.new ≡ err.old }
    ensures one_file { has_one_file order.now.task ≡ true → second.new ≡ second.old }
    ensures no_third { has_three_files order.now.task ≡ false → third.new ≡ third.old }
    ensures statuses { result ≤ 4 }
{
    match obey_and_object(alloc, order, first, second, third, out, err, watch) {
        Ok(answer) => answer.status(),
        Err(refusal) => {
            let reason = reason_of(&refusal, first, second, third, out);
            match tell(alloc, order, &refusal, reason, err) {
                Ok(status) => status,
                Err(_) => DEVICE,
            }
        }
    }
}

/// Why the file or the stream that a refusal is about failed, where that is told.
fn reason_of<A: Source, B: Source, T: Source, O: Sink>(
    refusal: &Refusal,
    first: &A,
    second: &B,
    third: &T,
    out: &O,
) -> Option<Reason> {
    match refusal {
        Refusal::Failed(Device::First) => first.reason(),
        Refusal::Failed(Device::Second) => second.reason(),
        Refusal::Failed(Device::Third) => third.reason(),
        Refusal::Failed(Device::Output) => out.reason(),
        _ => None,
    }
}

/// Does a command, and of a refused file writes the object that tells it, where one is asked for.
fn obey_and_object<A: Source, B: Source, T: Source, O: Sink, E: Sink, W: Watch>(
    alloc: Global,
    order: &Order<'_>,
    first: &mut A,
    second: &mut B,
    third: &mut T,
    out: &mut O,
    err: &mut E,
    watch: &mut W,
) -> Result<Answer, Refusal>
    ensures done { IfOk result
        (λ answer. Answers order.now order.now.task answer
        (A.to_come first.old) (B.to_come second.old) (T.to_come third.old) (O.written out.old)
        (O.written out.new) (E.written err.old) (E.written err.new)) }
    ensures refused { IfErr result (IfInput (λ f. RefusesTask order.now.task (asked_of order.now)
        (A.to_come first.old) f × Appends (O.written out.old) (O.written out.new)
        (refusal_written order.now.as_json order.now.first.now f))) }
    ensures refused_second { IfErr result (IfSecond (λ f. RefusesSecond order.now.task
        (A.to_come first.old) (B.to_come second.old) f
        × Appends (O.written out.old) (O.written out.new)
        (refusal_written order.now.as_json (second_name (name_of order.now.second)) f))) }
    ensures counted { CountsAll result (A.failures first.old) (A.failures first.new)
        (B.failures second.old) (B.failures second.new) (T.failures third.old)
        (T.failures third.new) (O.failures out.old) (O.failures out.new) (E.failures err.old)
        (E.failures err.new) }
    ensures untold { ErrUntold result (err.new ≡ err.old) }
    ensures unwritten { order.now.as_json ≡ false
        → IfErr result (IfInput (λ _. out.new ≡ out.old)) }
    ensures unwritten_second { order.now.as_json ≡ false
        → IfErr result (IfSecond (λ _. out.new ≡ out.old)) }
    ensures quiet { is_quiet order.now.named order.now.task ≡ true → err.new ≡ err.old }
    ensures one_file { has_one_file order.now.task ≡ true → second.new ≡ second.old }
    ensures no_third { has_three_files order.now.task ≡ false → third.new ≡ third.old }
{
    match obey(alloc, order, first, second, third, out, err, watch) {
        Ok(answer) => Ok(answer),
        Err(refusal) => Err(write_refusal(order, refusal, out)),
    }
}

/// Does a command, and tells no refusal.
#[tactic(auto, unfolding(crate::specs::Done::has_one_file, crate::specs::Done::has_three_files))]
fn obey<A: Source, B: Source, T: Source, O: Sink, E: Sink, W: Watch>(
    alloc: Global,
    order: &Order<'_>,
    first: &mut A,
    second: &mut B,
    third: &mut T,
    out: &mut O,
    err: &mut E,
    watch: &mut W,
) -> Result<Answer, Refusal>
    ensures done { IfOk result
        (λ answer. Answers order.now order.now.task answer
        (A.to_come first.old) (B.to_come second.old) (T.to_come third.old) (O.written out.old)
        (O.written out.new) (E.written err.old) (E.written err.new)) }
    ensures refused { IfErr result (IfInput (RefusesTask order.now.task (asked_of order.now) (A.to_come first.old))) }
    ensures refused_second { IfErr result
        (IfSecond (RefusesSecond order.now.task (A.to_come first.old) (B.to_come second.old))) }
    ensures ends { EndsAll result (Used A.failures first.old first.new)
        (Used B.failures second.old second.new) (Used T.failures third.old third.new)
        (Used O.failures out.old out.new) (Used E.failures err.old err.new) }
    ensures quiet { is_quiet order.now.named order.now.task ≡ true → err.new ≡ err.old }
    ensures one_file { has_one_file order.now.task ≡ true → second.new ≡ second.old }
    ensures no_third { has_three_files order.now.task ≡ false → third.new ≡ third.old }
{
    match order.task {
        Task::Text(task) => obey_on_text(alloc, order, task, first, out, watch),
        Task::Model(task) => obey_on_model(alloc, order, task, first, second, out, err, watch),
        Task::Circuit(task) => obey_on_circuit(alloc, order, task, first, second, out, err),
        Task::Certificate(task) => {
            obey_on_certificate(alloc, order, task, first, second, third, out, err, watch)
        }
    }
}

/// Does a command on a certificate.
#[tactic(auto, unfolding(crate::specs::Done::Answers, crate::specs::Done::is_quiet, crate::specs::Done::has_three_files, crate::specs::Refusals::RefusesTask))]
fn obey_on_certificate<A: Source, B: Source, T: Source, O: Sink, E: Sink, W: Watch>(
    alloc: Global,
    order: &Order<'_>,
    task: CertificateTask,
    first: &mut A,
    second: &mut B,
    third: &mut T,
    out: &mut O,
    err: &mut E,
    watch: &mut W,
) -> Result<Answer, Refusal>
    ensures done { IfOk result
        (λ answer. Answers order.now (task_is.Certificate task) answer
        (A.to_come first.old) (B.to_come second.old) (T.to_come third.old) (O.written out.old)
        (O.written out.new) (E.written err.old) (E.written err.new)) }
    ensures refused { IfErr result
        (IfInput (RefusesTask (task_is.Certificate task) (asked_of order.now) (A.to_come first.old))) }
    ensures refused_second { IfErr result
        (IfSecond (RefusesSecond (task_is.Certificate task) (A.to_come first.old)
        (B.to_come second.old))) }
    ensures ends { EndsAll result (Used A.failures first.old first.new)
        (Used B.failures second.old second.new) (Used T.failures third.old third.new)
        (Used O.failures out.old out.new) (Used E.failures err.old err.new) }
    ensures quiet { is_quiet order.now.named (task_is.Certificate task) ≡ true → err.new ≡ err.old }
    ensures no_third { has_three_files (task_is.Certificate task) ≡ false → third.new ≡ third.old }
{
    match task {
        CertificateTask::Obligation(of) => write_obligation(alloc, of, first, second, out, watch),
        CertificateTask::CheckProof(of, form) => check_proof(
            alloc, order, of, form, first, second, third, out, err, watch,
        ),
    }
}

/// Does a command on a text that is read as it comes.
#[tactic(auto, unfolding(crate::specs::Done::Answers, crate::specs::Refusals::RefusesTask))]
fn obey_on_text<A: Source, O: Sink, W: Watch>(
    alloc: Global,
    order: &Order<'_>,
    task: TextTask,
    first: &mut A,
    out: &mut O,
    watch: &mut W,
) -> Result<Answer, Refusal>
    ensures done { (second third told : Option (List ℕ))
        → IfOk result (λ answer. Answers order.now (task_is.Text task) answer
        (A.to_come first.old) second third (O.written out.old) (O.written out.new) told told) }
    ensures refused { IfErr result
        (IfInput (RefusesTask (task_is.Text task) (asked_of order.now) (A.to_come first.old))) }
    ensures ends { Ends result (Used A.failures first.old first.new) Unused
        (Used O.failures out.old out.new) Unused }
{
    match task {
        TextTask::Lower => answered(lower(alloc, order.form, first, out, watch)),
        TextTask::Fit => answered(fit(alloc, first, out)),
        TextTask::TidyWitness(pick) => tidy_witness(pick, first, out),
        TextTask::Vectors => compare_vectors(alloc, first, out),
    }
}

/// Does a command on a model.
#[tactic(auto, unfolding(crate::specs::Done::Answers, crate::specs::Done::is_quiet, crate::specs::Done::has_one_file, crate::specs::Refusals::RefusesTask))]
fn obey_on_model<A: Source, B: Source, O: Sink, E: Sink, W: Watch>(
    alloc: Global,
    order: &Order<'_>,
    task: ModelTask,
    first: &mut A,
    second: &mut B,
    out: &mut O,
    err: &mut E,
    watch: &mut W,
) -> Result<Answer, Refusal>
    ensures done { (third : Option (List ℕ))
        → IfOk result (λ answer. Answers order.now (task_is.Model task) answer
        (A.to_come first.old) (B.to_come second.old) third (O.written out.old) (O.written out.new)
        (E.written err.old) (E.written err.new)) }
    ensures refused { IfErr result
        (IfInput (RefusesTask (task_is.Model task) (asked_of order.now) (A.to_come first.old))) }
    ensures ends { Ends result (Used A.failures first.old first.new)
        (Used B.failures second.old second.new) (Used O.failures out.old out.new)
        (Used E.failures err.old err.new) }
    ensures quiet { is_quiet order.now.named (task_is.Model task) ≡ true → err.new ≡ err.old }
    ensures one_file { has_one_file (task_is.Model task) ≡ true → second.new ≡ second.old }
{
    match task {
        ModelTask::LowerForEngines(choice) => answered(lower_for_engines(
            alloc, order.form, choice, first, out, watch,
        )),
        ModelTask::LowerFitted => answered(lower_fitted(alloc, order.form, first, out, watch)),
        ModelTask::LowerFittedForEngines(choice) => answered(lower_fitted_for_engines(
            alloc, order.form, choice, first, out, watch,
        )),
        ModelTask::CheckBtor => judge_on_model(alloc, order, first, second, out, err),
        ModelTask::Show => show(alloc, first, out),
        ModelTask::ShowWhole => show_whole(alloc, first, out),
        ModelTask::Cost => tell_cost(alloc, first, out),
        ModelTask::CostFitted => tell_cost_fitted(alloc, first, out),
        ModelTask::Lift(Language::Profile) => {
            lift_witness(alloc, order.named, first, second, out, err, watch)
        }
        ModelTask::Lift(Language::Whole) => {
            lift_fitted_witness(alloc, order.named, first, second, out, err, watch)
        }
        ModelTask::LiftFound(Language::Profile, choice) => {
            lift_counterexample(alloc, order.named, choice, first, second, out, err, watch)
        }
        ModelTask::LiftFound(Language::Whole, choice) => {
            lift_fitted_counterexample(alloc, order.named, choice, first, second, out, err, watch)
        }
        ModelTask::LiftForm(Language::Profile, choice) => {
            lift_form_witness(alloc, order.named, choice, first, second, out, err, watch)
        }
        ModelTask::LiftForm(Language::Whole, choice) => {
            lift_fitted_form_witness(alloc, order.named, choice, first, second, out, err, watch)
        }
        ModelTask::Wave(shown) => dump_witness(alloc, order, shown, first, second, out, err),
        ModelTask::CheckFitted => judge_on_fitted(alloc, order, first, second, out, err),
        ModelTask::Unfit => unfit_witness(alloc, order.named, first, second, out, err),
        ModelTask::Spread => spread_witness(alloc, first, second, out, err),
    }
}

/// Whether of a judgement only its line is written, without names or a bad property that is asked for.
fn is_plain(order: &Order<'_>) -> bool
    ensures { result ≡ is_plain order.now }
{
    match order.asked {
        Some(_) => false,
        None => !order.named && !order.as_json,
    }
}

/// Judges a witness over a model.
#[tactic(auto, unfolding(crate::specs::Done::Answers, crate::specs::Done::is_quiet, crate::specs::Refusals::RefusesTask))]
fn judge_on_model<A: Source, B: Source, O: Sink, E: Sink>(
    alloc: Global,
    order: &Order<'_>,
    first: &mut A,
    second: &mut B,
    out: &mut O,
    err: &mut E,
) -> Result<Answer, Refusal>
    ensures done { (third : Option (List ℕ))
        → IfOk result (λ answer. Answers order.now (task_is.Model model_is.CheckBtor) answer
        (A.to_come first.old) (B.to_come second.old) third (O.written out.old)
        (O.written out.new) (E.written err.old) (E.written err.new)) }
    ensures refused { IfErr result (IfInput (RefusesTask (task_is.Model model_is.CheckBtor)
        (asked_of order.now) (A.to_come first.old))) }
    ensures ends { Ends result (Used A.failures first.old first.new)
        (Used B.failures second.old second.new) (Used O.failures out.old out.new)
        (Used E.failures err.old err.new) }
    ensures quiet { order.now.named ≡ false → err.new ≡ err.old }
{
    if is_plain(order) {
        return check_model(alloc, first, second, out);
    }
    check_model_with(alloc, order, first, second, out, err)
}

/// Judges a witness over a model of the whole language.
#[tactic(auto, unfolding(crate::specs::Done::Answers, crate::specs::Done::is_quiet, crate::specs::Refusals::RefusesTask))]
fn judge_on_fitted<A: Source, B: Source, O: Sink, E: Sink>(
    alloc: Global,
    order: &Order<'_>,
    first: &mut A,
    second: &mut B,
    out: &mut O,
    err: &mut E,
) -> Result<Answer, Refusal>
    ensures done { (third : Option (List ℕ))
        → IfOk result (λ answer. Answers order.now (task_is.Model model_is.CheckFitted) answer
        (A.to_come first.old) (B.to_come second.old) third (O.written out.old)
        (O.written out.new) (E.written err.old) (E.written err.new)) }
    ensures refused { IfErr result (IfInput (RefusesTask (task_is.Model model_is.CheckFitted)
        (asked_of order.now) (A.to_come first.old))) }
    ensures ends { Ends result (Used A.failures first.old first.new)
        (Used B.failures second.old second.new) (Used O.failures out.old out.new)
        (Used E.failures err.old err.new) }
    ensures quiet { order.now.named ≡ false → err.new ≡ err.old }
{
    if is_plain(order) {
        return check_fitted(alloc, first, second, out);
    }
    check_fitted_with(alloc, order, first, second, out, err)
}

/// Does a command on a circuit.
#[tactic(auto, unfolding(crate::specs::Done::Answers, crate::specs::Done::is_quiet, crate::specs::Done::has_one_file, crate::specs::Refusals::RefusesTask))]
fn obey_on_circuit<A: Source, B: Source, O: Sink, E: Sink>(
    alloc: Global,
    order: &Order<'_>,
    task: CircuitTask,
    first: &mut A,
    second: &mut B,
    out: &mut O,
    err: &mut E,
) -> Result<Answer, Refusal>
    ensures done { (third : Option (List ℕ))
        → IfOk result (λ answer. Answers order.now (task_is.Circuit task) answer
        (A.to_come first.old) (B.to_come second.old) third (O.written out.old)
        (O.written out.new) (E.written err.old) (E.written err.new)) }
    ensures refused { IfErr result
        (IfInput (RefusesTask (task_is.Circuit task) (asked_of order.now) (A.to_come first.old))) }
    ensures ends { Ends result (Used A.failures first.old first.new)
        (Used B.failures second.old second.new) (Used O.failures out.old out.new)
        (Used E.failures err.old err.new) }
    ensures quiet { is_quiet order.now.named (task_is.Circuit task) ≡ true → err.new ≡ err.old }
    ensures one_file { has_one_file (task_is.Circuit task) ≡ true → second.new ≡ second.old }
{
    let form = order.form;
    match task {
        CircuitTask::AigConvert => answered(convert(alloc, form, first, out)),
        CircuitTask::ConvertForEngines(choice) => {
            answered(convert_for_engines(alloc, form, choice, first, out))
        }
        CircuitTask::ConvertOutputs => answered(convert_outputs(alloc, form, first, out)),
        CircuitTask::ConvertOutputsForEngines(choice) => {
            answered(convert_outputs_for_engines(alloc, form, choice, first, out))
        }
        CircuitTask::CheckAig => judge_on_circuit(alloc, order, first, second, out, err),
        CircuitTask::Restore(choice) => {
            restore_counterexample(alloc, choice, first, second, out, err)
        }
        CircuitTask::RestoreForm(choice) => {
            restore_witness(alloc, choice, first, second, out, err)
        }
    }
}

/// Judges a witness over a circuit.
#[tactic(auto, unfolding(crate::specs::Done::Answers, crate::specs::Done::is_quiet, crate::specs::Refusals::RefusesTask))]
fn judge_on_circuit<A: Source, B: Source, O: Sink, E: Sink>(
    alloc: Global,
    order: &Order<'_>,
    first: &mut A,
    second: &mut B,
    out: &mut O,
    err: &mut E,
) -> Result<Answer, Refusal>
    ensures done { (third : Option (List ℕ))
        → IfOk result (λ answer. Answers order.now (task_is.Circuit circuit_is.CheckAig) answer
        (A.to_come first.old) (B.to_come second.old) third (O.written out.old)
        (O.written out.new) (E.written err.old) (E.written err.new)) }
    ensures refused { IfErr result (IfInput (RefusesTask (task_is.Circuit circuit_is.CheckAig)
        (asked_of order.now) (A.to_come first.old))) }
    ensures ends { Ends result (Used A.failures first.old first.new)
        (Used B.failures second.old second.new) (Used O.failures out.old out.new)
        (Used E.failures err.old err.new) }
    ensures quiet { order.now.named ≡ false → err.new ≡ err.old }
{
    if is_plain(order) {
        return check_circuit(alloc, first, second, out);
    }
    check_circuit_with(alloc, order, first, second, out, err)
}
