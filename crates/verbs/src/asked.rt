//! The bad property that a word of the command line asks for.

ghost use Rattle.std.specs.Prelude.{◌≡◌, ℕ, Bool, Option, ◌<◌, ◌≤◌, true, false, None, IfOk, IfErr, IfSome, option_map};
ghost use Rattle.base.specs.Decimals.{number_of};
ghost use Rattle.verbs.specs.Asked.{AsksFor, AsksForNone, IsAskedBy, IsUnaskedBy, IsUnknown, bad_count, is_called, is_name, is_name_of, is_symbol_of};
ghost use Rattle.verbs.specs.Subjects.{lines_told};

use crate::refusals::Fault;
use crate::subjects::{Lines, Subject};
use aiger::{Circuit, Section};
use base::decimal;
use btor2::Symbol;
use engine_form::EngineFault;

/// How many bad properties there are.
fn bad_count(subject: Subject<'_>) -> usize
    ensures { result ≡ bad_count subject.entry }
{
    match subject {
        Subject::Model(lines) | Subject::Lowered(lines, _) => lines.counts().bads,
        Subject::Circuit(circuit) => circuit.bads().len(),
    }
}

/// Whether there is a symbol, and a word is that.
fn is_symbol(symbol: &Option<Symbol>, word: &[u8]) -> bool
    ensures { result ≡ is_name word.now symbol.now }
{
    match symbol {
        Some(symbol) => symbol.bytes() == word,
        None => false,
    }
}

/// Whether the bad property of a model at a position has a word as its symbol.
fn is_symbol_of(lines: Lines<'_>, word: &[u8], position: usize) -> bool
    ensures { result ≡ is_symbol_of (lines_told lines.entry) word.now position }
{
    match lines.bad(position as u64) {
        Some(named) => is_symbol(named.symbol, word),
        None => false,
    }
}

/// Whether that of a circuit has it as its name.
fn is_name_of(circuit: &Circuit, word: &[u8], position: usize) -> bool
    ensures { result ≡ is_name_of circuit.now word.now position }
{
    match circuit.name(Section::Bad, position) {
        Some(name) => name == word,
        None => false,
    }
}

/// Whether the bad property at a position is called by a word.
fn is_called(subject: Subject<'_>, word: &[u8], position: usize) -> bool
    ensures { result ≡ is_called subject.entry word.now position }
{
    match subject {
        Subject::Model(lines) | Subject::Lowered(lines, _) => is_symbol_of(lines, word, position),
        Subject::Circuit(circuit) => is_name_of(circuit, word, position),
    }
}

/// The first bad property from a position on that is called by a word, where there is one.
fn first_called(subject: Subject<'_>, word: &[u8], from: usize) -> Option<usize>
    ensures there { IfSome result (λ k. (from ≤ k) × (k < bad_count subject.entry)
        × (is_called subject.entry word.now k ≡ true)) }
    ensures before { IfSome result (λ k. (j : ℕ) → from ≤ j → j < k
        → is_called subject.entry word.now j ≡ false) }
    ensures nowhere { result ≡ None → (j : ℕ) → from ≤ j → j < bad_count subject.entry
        → is_called subject.entry word.now j ≡ false }
{
    for position in from..bad_count(subject) {
        if is_called(subject, word, position) {
            return Some(position);
        }
    }
    None
}

/// What speaks against a bad property that is not there, by how many there are.
fn no_such_bad(count: usize) -> Fault
    ensures { (position : Option ℕ) (called : ℕ → Bool) → IsUnknown position count called
        → IsUnaskedBy position count called result }
{
    if count == 0 {
        Fault::Engine(EngineFault::NoBad)
    } else {
        Fault::Engine(EngineFault::NoSuchBad)
    }
}

/// The only bad property that is called by a word.
fn called(subject: Subject<'_>, word: &[u8]) -> Result<usize, Fault>
    requires { number_of word.now ≡ None }
    ensures asked { IfOk result (IsAskedBy None (bad_count subject.entry)
        (is_called subject.entry word.now)) }
    ensures unasked { IfErr result (IsUnaskedBy None (bad_count subject.entry)
        (is_called subject.entry word.now)) }
{
    let count = bad_count(subject);
    let first = match first_called(subject, word, 0) {
        Some(first) => first,
        None => return Err(no_such_bad(count)),
    };
    match first_called(subject, word, first + 1) {
        Some(second) => Err(Fault::SameName(first as u64, second as u64)),
        None => Ok(first),
    }
}

/// The bad property that a word asks for: the one at the position that it writes, or the only one of that name.
fn asked_by(subject: Subject<'_>, word: &[u8]) -> Result<usize, Fault>
    ensures asked { IfOk result (IsAskedBy (number_of word.now) (bad_count subject.entry)
        (is_called subject.entry word.now)) }
    ensures unasked { IfErr result (IsUnaskedBy (number_of word.now) (bad_count subject.entry)
        (is_called subject.entry word.now)) }
{
    let count = bad_count(subject);
    match decimal(word) {
        Some(position) if position < count as u64 => Ok(position as usize),
        Some(_) => Err(no_such_bad(count)),
        None => called(subject, word),
    }
}

/// The bad property that a command asks for, where a word does.
pub(crate) fn asked(subject: Subject<'_>, word: Option<&str>) -> Result<Option<usize>, Fault>
    ensures asked { IfOk result (AsksFor (option_map (λ word. word.now) word.entry)
        (bad_count subject.entry) (is_called subject.entry)) }
    ensures unasked { IfErr result (AsksForNone (option_map (λ word. word.now) word.entry)
        (bad_count subject.entry) (is_called subject.entry)) }
{
    match word {
        Some(word) => match asked_by(subject, word.as_bytes()) {
            Ok(position) => Ok(Some(position)),
            Err(fault) => Err(fault),
        },
        None => Ok(None),
    }
}
