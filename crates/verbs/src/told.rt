//! What restoring tells: a judgement, or the first faulty line of a text; or that no more could be read or written.

ghost use Rattle.std.specs.Prelude.{◌≡◌, ℕ, false, true, Ok, IfErr, IfOk};
ghost use Rattle.restore.specs.Answers.{CountsRestore};
ghost use Rattle.restore.specs.Faults.{is_of_text};
ghost use Rattle.verbs.specs.Conversions.{of_restoring};
ghost use Rattle.verbs.specs.Statuses.{Counts, IsOfNoInput};

use crate::refusals::{Device, Refusal};
use restore::{RestoreFault, RestoreWhy};

/// Why no more is restored, where that is no line.
fn device_of(fault: &RestoreFault) -> Refusal
    requires { is_of_text fault.now.why ≡ false }
    ensures { result ≡ of_restoring fault.now.why }
{
    match fault.why {
        RestoreWhy::Device => Refusal::Failed(Device::Second),
        RestoreWhy::Write => Refusal::Failed(Device::Output),
        _ => Refusal::NoMemory,
    }
}

/// What is told of a counterexample.
pub(crate) fn of_text<J>(told: Result<J, RestoreFault>) -> Result<Result<J, RestoreFault>, Refusal>
    ensures told { IfOk result (λ same. same ≡ told) }
    ensures of_text { IfOk result (λ same. IfErr same (λ e. is_of_text e.why ≡ true)) }
    ensures no_input { IsOfNoInput result }
    ensures counted { (f s s' o o' e : ℕ) → CountsRestore told s s' o o'
        → Counts result f f s s' o o' e e }
{
    match told {
        Ok(judgement) => Ok(Ok(judgement)),
        Err(fault) => {
            if fault.why.is_of_text() {
                Ok(Err(fault))
            } else {
                Err(device_of(&fault))
            }
        }
    }
}

/// What is told of a witness of an engine form, of which each line is judged.
pub(crate) fn of_form<J>(told: Result<J, RestoreFault>) -> Result<J, Refusal>
    requires { IfErr told (λ e. is_of_text e.why ≡ false) }
    ensures told { IfOk result (λ judged. told ≡ Ok judged) }
    ensures no_input { IsOfNoInput result }
    ensures counted { (f s s' o o' e : ℕ) → CountsRestore told s s' o o'
        → Counts result f f s s' o o' e e }
{
    match told {
        Ok(judgement) => Ok(judgement),
        Err(fault) => Err(device_of(&fault)),
    }
}
