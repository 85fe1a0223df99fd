//! Reading what stands behind the header of an ascii text.
ghost use Rattle.std.specs.Prelude.{◌≡◌, ◌-◌, ◌≤◌, true, [], Ok, length, IfOk};
ghost use Rattle.std.specs.List.{sum_by};
ghost use Rattle.aigerlists.specs.Loose.{empty_loose};
ghost use Rattle.aigerlists.specs.Renumbering.{used_lines};
ghost use Rattle.aigertext.specs.declared.forms.Form.TheVariants as form;
ghost use Rattle.aigertext.specs.AsciiReading.{lists_of_file, behind_lines, lines_before, AnswersLists};
ghost use Rattle.aigertext.specs.Numbering.{IsNumberingOfLists};
ghost use Rattle.aigertext.specs.Passes.{WasToBeRead, ReadsBy, AnswersWanted, AreNumbersOf, properties_onto};
ghost use Rattle.aigertext.specs.Counts.{AreSmall, Fits};

use crate::fault::{Stop, Why};
use crate::reading::ascii_definitions::push_definitions;
use crate::reading::counts::Counts;
use crate::reading::lines::stop;
use crate::reading::names::give_names;
use crate::reading::properties::read_properties;
use aiger::{Lit, Properties};
use aigerlists::laws::one_renumbering;
use aigerlists::{GateLine, LatchLine, Loose, LooseFault, Numbered};
use base::next_line;
use std::alloc::Global;

/// Sets the properties of a file by their lines, and answers the text behind them.
fn set_properties<'a>(
    alloc: Global,
    lists: &mut Loose,
    text: &'a [u8],
    counts: &Counts,
) -> Result<&'a [u8], Stop>
    requires unnamed { lists.old.names ≡ [] }
    requires small { AreSmall counts.now }
    ensures { WasToBeRead (λ x. (lists.new, x.now)) result
        (properties_onto counts.now lists.old text.now) }
{
    let mut properties = Properties::new(alloc);
    let rest = read_properties(alloc, &mut properties, text, counts)?;
    lists.set_properties(properties);
    Ok(rest)
}

/// Reads the lists of a file onto empty ones, and answers the text behind them.
pub fn read_lists<'a>(
    alloc: Global,
    lists: &mut Loose,
    counts: &Counts,
    text: &'a [u8],
) -> Result<&'a [u8], Stop>
    requires empty { lists.old ≡ empty_loose }
    requires small { AreSmall counts.now }
    requires fits { Fits form.Ascii counts.now }
    ensures { WasToBeRead (λ x. (lists.new, x.now)) result (lists_of_file counts.now text.now) }
{
    let greatest = 2 * counts.variables + 1;
    let rest = push_definitions::<Lit>(lists, text, greatest, counts.inputs)?;
    let rest = push_definitions::<LatchLine>(lists, rest, greatest, counts.latches)?;
    let rest = set_properties(alloc, lists, rest, counts)?;
    push_definitions::<GateLine>(lists, rest, greatest, counts.gates)
}

/// The text behind so many lines.
fn skip_lines(text: &[u8], count: usize) -> &[u8]
    ensures { result.now ≡ behind_lines count text.now }
{
    let mut rest = text;
    for _index in 0..count {
        rest = match next_line(rest) {
            None => rest,
            Some((_, behind)) => behind,
        };
    }
    rest
}

/// The text from the line that is k-th of those that use literals, where the first text stands behind the header.
fn from_use<'a>(text: &'a [u8], counts: &Counts, k: usize) -> &'a [u8]
    requires { AreSmall counts.now }
    ensures { result.now ≡ behind_lines (lines_before counts.now k) text.now }
{
    let before_sizes = counts.latches + counts.outputs;
    let before_sizes = before_sizes as usize + counts.bads as usize + counts.constraints as usize;
    let inputs = counts.inputs as usize;
    if k < before_sizes {
        skip_lines(skip_lines(text, inputs), k)
    } else {
        skip_lines(skip_lines(text, inputs + counts.justice as usize), k)
    }
}

/// How many literals the justice properties have.
fn justice_literals(lists: &Loose) -> usize
    ensures sum { result ≡ sum_by length lists.now.justice }
    ensures small { result ≤ 1073741824 }
{
    let mut sum = 0;
    for index in 0..lists.justice_count() {
        sum += lists.justice(index).len();
    }
    sum
}

/// How many lines that use literals stand before the gates.
fn uses_before_gates(lists: &Loose) -> usize
    ensures count { result ≡ length (used_lines lists.now) - length lists.now.gates }
    ensures small { result ≤ 6442450944 }
    ensures few { length lists.now.gates ≤ 1073741824 }
{
    lists.latches().len()
        + lists.outputs().len()
        + lists.bads().len()
        + lists.constraints().len()
        + justice_literals(lists)
        + lists.fair().len()
}

/// The circuit that the lists of a file are, with the numbers of its variables where these are wanted; else they are not
/// kept.
fn numbered(alloc: Global, lists: &Loose, wanted: bool) -> Result<Numbered, LooseFault>
    ensures { AnswersWanted lists.now wanted result }
{
    if wanted {
        return lists.numbered(alloc);
    }
    match lists.number(alloc) {
        Ok(circuit) => Ok(Numbered::own(circuit)),
        Err(fault) => Err(fault),
    }
}

/// The circuit that the lists of a file are, with the names behind them; else reading stops at the first line that uses a
/// variable that none defines, or at the first gate that leads to a cycle, or at a name.
pub fn named(
    alloc: Global,
    lists: &Loose,
    counts: &Counts,
    text: &[u8],
    names: &[u8],
    wanted: bool,
) -> Result<Numbered, Stop>
    requires { AreSmall counts.now }
    ensures answers { ReadsBy (λ e. e.why) (λ x. x.circuit) result
        (AnswersLists counts.now text.now (Ok (lists.now, names.now))) }
    ensures numbering { wanted ≡ true
        → IfOk result (λ x. AreNumbersOf lists.now names.now x.circuit x.numbering) }
{
    match numbered(alloc, lists, wanted) {
        Ok(mut numbered) => {
            give_names(&mut numbered.circuit, names)?;
            Ok(numbered)
        }
        Err(LooseFault::Undefined(k)) => Err(stop(from_use(text, counts, k), Why::Undefined)),
        Err(LooseFault::Cycle(gate)) => {
            let k = uses_before_gates(lists) + gate;
            Err(stop(from_use(text, counts, k), Why::Cycle))
        }
        Err(LooseFault::NoMemory) => Err(stop(text, Why::NoMemory)),
    }
}

/// The circuit behind a header of the ascii form. No list is made by a number of the header.
pub fn read_file(
    alloc: Global,
    counts: &Counts,
    text: &[u8],
    wanted: bool,
) -> Result<Numbered, Stop>
    requires small { AreSmall counts.now }
    requires fits { Fits form.Ascii counts.now }
    ensures answers { ReadsBy (λ e. e.why) (λ x. x.circuit) result
        (AnswersLists counts.now text.now (lists_of_file counts.now text.now)) }
    ensures numbering { wanted ≡ true
        → IfOk result (λ x. IsNumberingOfLists counts.now text.now x.circuit x.numbering) }
{
    one_renumbering();
    let mut lists = Loose::new(alloc);
    let names = read_lists(alloc, &mut lists, counts, text)?;
    named(alloc, &lists, counts, text, names, wanted)
}
