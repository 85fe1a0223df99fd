//! An ascii text whose inputs and latches are in order, but one of whose gates is out of turn: its gates are read onto the
//! lists of a file. Where these are no circuit, or a line is spelled otherwise, the text is put together again.
ghost use Rattle.std.specs.Prelude.{◌≡◌, ◌+◌, ◌≤◌, ◌++◌, [], Some, length, Ok, IfOk, IfSome, OnOk, IsErrOf};
ghost use Rattle.std.specs.Io.KnownBytes.{prepend_known, IsAtEnd};
ghost use Rattle.base.specs.Device.{HasRisen};
ghost use Rattle.aigertext.specs.Binary.{gates_text};
ghost use Rattle.aigertext.specs.declared.forms.Form.TheVariants as variant;
ghost use Rattle.aigertext.specs.InOrder.{line_texts, IsPutOnLists, StandBefore, IsTakenFrom};

use crate::forms::Form;
use crate::reading::ascii::{named, read_lists};
use crate::reading::counts::Counts;
use crate::reading::gates::{push_line, read_gates};
use crate::reading::lines::header_line;
use crate::reading::pieces::read_rest;
use crate::reading::taking::Taken;
use crate::writing::numbers::{before, last};
use aiger::Gate;
use aigerlists::laws::one_renumbering;
use aigerlists::{GateLine, Loose};
use base::{Line, ReadAllFault, Source};
use std::alloc::{AllocError, Global};

/// Adds gates to the lists of a file, the first of which has the given variable; nothing where memory is wanting.
fn push_own(lists: &mut Loose, greatest: u32, first: u32, gates: &[Gate]) -> Option<()>
    requires { first + length gates.now ≤ 1073741825 }
    ensures { result ≡ Some tt → IsPutOnLists greatest lists.old lists.new
        (gates_text variant.Ascii first gates.now) }
{
    let mut variable = first;
    for gate in gates {
        let (first, second) = (gate.rhs0.number(), gate.rhs1.number());
        push_line(lists, greatest, 2 * variable, first, second)?;
        variable += 1;
    }
    Some(())
}

/// The lists of what stands before the gates of a text and of these gates, the first of which has the given variable, with
/// the counts of the text; nothing where memory is wanting.
pub fn lists_so_far(
    alloc: Global,
    before: &[u8],
    first: u32,
    gates: &[Gate],
) -> Option<(Counts, Loose)>
    requires { first + length gates.now ≤ 1073741825 }
    ensures stand { IfSome result (λ x. StandBefore x.0 before.now x.1) }
    ensures own { IfSome result (λ x. line_texts x.1.gates
        ≡ gates_text variant.Ascii first gates.now) }
{
    let Ok(((Form::Ascii, counts), lines)) = header_line(before) else {
        return None;
    };
    let mut without_gates = counts;
    without_gates.gates = 0;
    let mut lists = Loose::new(alloc);
    let Ok([]) = read_lists(alloc, &mut lists, &without_gates, lines) else {
        return None;
    };
    push_own(&mut lists, 2 * counts.variables + 1, first, gates)?;
    Some((counts, lists))
}

/// Puts the lines of gates behind a text.
fn append_lines(text: &mut Vec<u8>, gates: &[GateLine]) -> Result<(), AllocError>
    ensures { OnOk result (text.new.items ≡ text.old.items ++ line_texts gates.now) }
{
    let mut line = Line::new();
    for gate in gates {
        last(&mut line, gate.rhs1.number());
        before(&mut line, gate.rhs0.number());
        before(&mut line, gate.lhs.number());
        text.extend_from_slice(line.bytes())?;
    }
    Ok(())
}

/// The text that was read: what stands before the gates, the lines of those that were read, and what is held behind them.
fn restored(alloc: Global, before: &[u8], gates: &[GateLine], window: &[u8]) -> Option<Vec<u8>>
    ensures { IfSome result (λ text. text.items
        ≡ before.now ++ (line_texts gates.now ++ window.now)) }
{
    let mut text = before.to_vec(alloc).ok()?;
    append_lines(&mut text, gates).ok()?;
    text.extend_from_slice(window).ok()?;
    Some(text)
}

/// Takes all of a source behind a text: what stands before its gates, which the lists of a file have with some gates, the
/// lines of these, and what is held. Where the other gates' lines are in their one spelling, a piece of them is held.
pub fn take_onto<S: Source>(
    alloc: Global,
    before: &[u8],
    counts: &Counts,
    lists: &mut Loose,
    window: &mut Vec<u8>,
    source: &mut S,
    wanted: bool,
) -> Result<Taken, ReadAllFault>
    requires { StandBefore counts.now before.now lists.old }
    ensures taken { IfOk result
        (IsTakenFrom (prepend_known (before.now ++ (line_texts lists.old.gates ++ window.old.items))
        (S.to_come source.old)) wanted) }
    ensures end { OnOk result (IsAtEnd (S.to_come source.new)) }
    ensures counted { OnOk result (S.failures source.new ≡ S.failures source.old) }
    ensures device { IsErrOf result ReadAllFault.Device
        → HasRisen (S.failures source.old) (S.failures source.new) }
    ensures memory { IsErrOf result ReadAllFault.NoMemory → S.failures source.new
        ≡ S.failures source.old }
{
    one_renumbering();
    let greatest = 2 * counts.variables + 1;
    let count = counts.gates as usize;
    read_gates(Form::Ascii, greatest, lists, window, count, source)?;
    if lists.gates().len() != count {
        let text = restored(alloc, before, lists.gates(), window.as_slice());
        let mut text = text.ok_or(ReadAllFault::NoMemory)?;
        read_rest(&mut text, source)?;
        return Ok(Taken::Text(text));
    }
    read_rest(window, source)?;
    if let Ok(numbered) = named(alloc, lists, counts, before, window.as_slice(), wanted) {
        return Ok(Taken::Circuit(numbered));
    }
    let text = restored(alloc, before, lists.gates(), window.as_slice());
    Ok(Taken::Text(text.ok_or(ReadAllFault::NoMemory)?))
}
