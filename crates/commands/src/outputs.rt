//! Commands whose result gets a name once all of it is written.

ghost use Rattle.std.specs.Prelude.{◌≡◌, ◌≢◌, ◌≤◌, ◌⊎◌, true, false};
ghost use Rattle.subcommands.specs.declared.answers.Answer.TheVariants as answer;
ghost use Rattle.commands.specs.Done.{Answers, has_one_file, has_three_files, is_quiet, name_of};
ghost use Rattle.commands.specs.Statuses.{HasFailed, IsLeftOpen, IsRefused, IsUnnamed};

use crate::running::run;
use base::{Sink, Source};
use blast::Watch;
use invocation::{DEVICE, NOT_ACCEPTED, Order};
use std::alloc::Global;
use subcommands::{ResultName, tell_output};

/// Does a command, gives its result its name, and answers the exit status, as `run` does.
///
/// With status 0 and 1 the result was written to `out` and has its name, and with any other it has not. With status 3 also
/// the name could not be given.
pub fn run_to_file<A: Source, B: Source, T: Source, O: Sink, N: ResultName, E: Sink, W: Watch>(
    alloc: Global,
    order: &Order<'_>,
    first: &mut A,
    second: &mut B,
    third: &mut T,
    out: &mut O,
    name: &mut N,
    err: &mut E,
    watch: &mut W,
) -> u8
    ensures done { result ≡ 0 → Answers order.now order.now.task answer.Done
        (A.to_come first.old) (B.to_come second.old) (T.to_come third.old) (O.written out.old)
        (O.written out.new) (E.written err.old) (E.written err.new) }
    ensures not_accepted { result ≡ 1
        → Answers order.now order.now.task answer.NotAccepted
        (A.to_come first.old) (B.to_come second.old) (T.to_come third.old) (O.written out.old)
        (O.written out.new) (E.written err.old) (E.written err.new) }
    // the name is given to a result that is done, and to no other
    ensures named { result ≤ 1 → N.is_given name.new ≡ true }
    ensures unnamed { ¬ (result ≤ 1) → N.is_given name.new ≡ N.is_given name.old }
    ensures refused { result ≡ 2 → IsRefused order.now (A.to_come first.old)
        (B.to_come second.old) (O.written out.old) (O.written out.new) (E.written err.old)
        (E.written err.new) }
    ensures left_open { result ≡ 4
        → IsLeftOpen order.now (A.to_come first.old) (O.written out.old) (O.written out.new)
        (E.written err.old) (E.written err.new) }
    ensures unwritten { result ≡ 2 → order.now.as_json ≡ false → out.new ≡ out.old }
    ensures unwritten_words { result ≡ 4 → order.now.as_json ≡ false → out.new ≡ out.old }
    ensures same_name { N.name name.new ≡ N.name name.old }
    ensures failed { result ≡ 3
        → HasFailed order.now.first.now (name_of order.now.second)
        (name_of order.now.third)
        (name_of order.now.output) (E.written err.old) (E.written err.new)
        (A.failures first.old) (A.failures first.new) (B.failures second.old)
        (B.failures second.new) (T.failures third.old) (T.failures third.new) (O.failures out.old)
        (O.failures out.new) (E.failures err.old) (E.failures err.new)
        ⊎ IsUnnamed (Answers order.now order.now.task) (A.to_come first.old)
        (B.to_come second.old) (T.to_come third.old) (O.written out.old) (O.written out.new)
        (name_of order.now.output) (E.written err.old) (E.written err.new)
        (A.failures first.old) (A.failures first.new) (B.failures second.old)
        (B.failures second.new) (T.failures third.old) (T.failures third.new) (O.failures out.old)
        (O.failures out.new) (E.failures err.old) (E.failures err.new) (N.failures name.old)
        (N.failures name.new) }
    // with any other status nothing failed
    ensures unfailed { result ≢ 3 → (A.failures first.new ≡ A.failures first.old)
        × (B.failures second.new ≡ B.failures second.old)
        × (T.failures third.new ≡ T.failures third.old) × (O.failures out.new ≡ O.failures out.old)
        × (E.failures err.new ≡ E.failures err.old) }
    ensures name_unfailed { result ≢ 3 → N.failures name.new ≡ N.failures name.old }
    ensures quiet { result ≤ 1 → is_quiet order.now.named order.now.task ≡ true
        → err.new ≡ err.old }
    ensures one_file { has_one_file order.now.task ≡ true → second.new ≡ second.old }
    ensures no_third { has_three_files order.now.task ≡ false → third.new ≡ third.old }
    ensures statuses { result ≤ 4 }
{
    let status = run(alloc, order, first, second, third, out, err, watch);
    if status > NOT_ACCEPTED {
        name.give_up();
        return status;
    }
    match name.give() {
        Ok(()) => status,
        Err(_) => tell_output(order.output, name.reason(), err).unwrap_or(DEVICE),
    }
}
