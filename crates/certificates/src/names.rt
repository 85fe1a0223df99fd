//! The latches that the line of the names says.
ghost use Rattle.std.specs.Prelude.{◌≡◌, ℕ, ◌<◌, ◌≤◌, length, List, [], All, Ok, Err, IfOk, IfErr, OnOk, codes, ◌⊎◌, option_copied};
ghost use Rattle.certificates.specs.declared.why.InvariantWhy.TheVariants as why;
ghost use Rattle.certificates.specs.Reading.{line_words, behind_key, without_zeros, latch_named, with_named_latch, then_named, named_latches};
ghost use Rattle.certificates.specs.Reader.{Marks, words_behind, has_zero};

use crate::why::InvariantWhy;
use crate::words::{first_word, is_word};
use base::decimal;
use std::alloc::Global;

/// Whether a zero stands at a place and a digit behind it.
fn has_zero(digits: &[u8], at: usize) -> bool
    requires { at ≤ length digits.now }
    ensures { result ≡ has_zero digits.now at }
{
    at + 1 < digits.len() && digits[at] == b'0'
}

/// Digits without the zeros in front; of zeros alone the last stays.
fn without_zeros(digits: &[u8]) -> &[u8]
    ensures { result.now ≡ without_zeros digits.now }
{
    let mut at = 0;
    while has_zero(digits, at) {
        at += 1;
    }
    let (_, rest) = digits.split_at(at);
    rest
}

/// The latch that a name says, counted from 0.
fn latch_of(word: &[u8]) -> Option<u64>
    ensures { result ≡ latch_named word.now }
{
    match word {
        [first, second, digits @ ..] => {
            if *first == b'l' && *second == b'o' {
                decimal(without_zeros(digits))
            } else {
                None
            }
        }
        _ => None,
    }
}

/// Takes the name of a latch, one of as many as there are marks.
fn push_name(
    named: &mut Vec<u32>,
    marks: &mut [bool],
    latches: u32,
    word: &[u8],
) -> Result<(), InvariantWhy>
    requires { Marks latches marks.old named.old.items }
    ensures ok { OnOk result (with_named_latch latches named.old.items (latch_named word.now)
        ≡ Ok named.new.items) }
    ensures marks { OnOk result (Marks latches marks.new named.new.items) }
    ensures inside { OnOk result (All (λ k. k < latches) named.old.items
        → All (λ k. k < latches) named.new.items) }
    ensures err { IfErr result (λ e. (e ≡ why.NoMemory)
        ⊎ (with_named_latch latches named.old.items (latch_named word.now) ≡ Err e)) }
{
    let latch = match latch_of(word) {
        None => return Err(InvariantWhy::BadNames),
        Some(latch) => latch,
    };
    if latch >= u64::from(latches) {
        return Err(InvariantWhy::NoSuchLatch);
    }
    if marks[latch as usize] {
        return Err(InvariantWhy::NamedTwice);
    }
    match named.push(latch as u32) {
        Ok(()) => {}
        Err(_) => return Err(InvariantWhy::NoMemory),
    }
    marks[latch as usize] = true;
    Ok(())
}

/// Takes the names that words behind a blank say, one after the other.
fn push_names(
    named: &mut Vec<u32>,
    marks: &mut [bool],
    latches: u32,
    behind: Option<&[u8]>,
) -> Result<(), InvariantWhy>
    requires { Marks latches marks.old named.old.items }
    ensures inside { OnOk result (All (λ k. k < latches) named.old.items
        → All (λ k. k < latches) named.new.items) }
    ensures ok { OnOk result (then_named latches (Ok named.old.items)
        (words_behind (option_copied behind.entry)) ≡ Ok named.new.items) }
    ensures err { IfErr result (λ e. (e ≡ why.NoMemory)
        ⊎ (then_named latches (Ok named.old.items) (words_behind (option_copied behind.entry))
        ≡ Err e)) }
{
    let mut left = behind;
    while let Some(rest) = left {
        let (word, more) = first_word(rest);
        push_name(named, marks, latches, word)?;
        left = more;
    }
    Ok(())
}

/// The latches that the line of the names says, in turn; so many of them.
pub(crate) fn read_names(
    alloc: Global,
    latches: u32,
    width: u64,
    line: &[u8],
) -> Result<Vec<u32>, InvariantWhy>
    ensures inside { IfOk result (λ named. All (λ k. k < latches) named.items) }
    ensures ok { IfOk result (λ named. named_latches latches width
        (behind_key (codes ".ilb") (line_words line.now)) ≡ Ok named.items) }
    ensures err { IfErr result (λ e. (e ≡ why.NoMemory)
        ⊎ (named_latches latches width (behind_key (codes ".ilb") (line_words line.now)) ≡ Err e)) }
{
    let (first, behind) = first_word(line);
    if !is_word(first, b".ilb") {
        return Err(InvariantWhy::BadNames);
    }
    let mut marks = match vec![in alloc; false; latches as usize] {
        Ok(marks) => marks,
        Err(_) => return Err(InvariantWhy::NoMemory),
    };
    let mut named = Vec::new(alloc);
    push_names(&mut named, marks.as_mut_slice(), latches, behind)?;
    if named.len() as u64 != width {
        return Err(InvariantWhy::WrongNames);
    }
    Ok(named)
}
