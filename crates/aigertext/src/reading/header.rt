//! Reading a header.
ghost use Rattle.std.specs.Prelude.{◌≡◌, ◌≤◌, true, take, get_or, nat_le, Ok, Err, IfOk, IfErr};
ghost use Rattle.std.specs.List.{list_all};
ghost use Rattle.aiger.specs.Limits.{greatest_count};
ghost use Rattle.aigertext.specs.Reading.{IsAsRead, fields_behind, numbers_in, counts_of, counts_told, fitting, header_form, header_of, header_fields};

use crate::fault::Why;
use crate::forms::Form;
use crate::reading::counts::Counts;
use crate::reading::fields::{first_field, next_field};
use aiger::GREATEST_COUNT;
use base::decimal;

/// Puts the numbers of a line behind its first field into a list, and answers how many they are.
fn numbers_in(rest: &[u8], numbers: &mut [u64; 9]) -> Result<usize, Why>
    ensures told { IfOk result (λ n. numbers_in (fields_behind rest.now)
        ≡ Ok (take n numbers.new)) }
    ensures few { IfOk result (λ n. n ≤ 9) }
    ensures refused { IfErr result (λ e. counts_told (fields_behind rest.now) ≡ Err e) }
{
    let mut rest = rest;
    let mut count = 0;
    while let Some((field, behind)) = next_field(rest) {
        let number = decimal(field).ok_or(Why::BadHeader)?;
        if count == 9 {
            return Err(Why::BadHeader);
        }
        numbers[count] = number;
        count += 1;
        rest = behind;
    }
    Ok(count)
}

/// Whether all numbers are at most 2^30.
fn are_small(numbers: &[u64]) -> bool
    ensures { result ≡ list_all (λ n. nat_le n greatest_count) numbers.now }
{
    numbers.iter().all(|one| *one <= u64::from(GREATEST_COUNT))
}

/// One of small numbers, 0 where it is left out.
fn number_at(numbers: &[u64], k: usize) -> u32
    requires { list_all (λ n. nat_le n greatest_count) numbers.now ≡ true }
    ensures { result ≡ get_or numbers.now k 0 }
{
    match numbers.get(k) {
        Some(number) => *number as u32,
        None => 0,
    }
}

/// The counts that numbers are.
#[tactic(auto, unfolding(crate::specs::Reading::counts_of))]
fn counts_of(numbers: &[u64]) -> Result<Counts, Why>
    ensures { IsAsRead (λ x. x) result (counts_of numbers.now) }
{
    if numbers.len() < 5 || numbers.len() > 9 {
        return Err(Why::BadHeader);
    }
    if !are_small(numbers) {
        return Err(Why::TooBig);
    }
    Ok(Counts {
        variables: number_at(numbers, 0),
        inputs: number_at(numbers, 1),
        latches: number_at(numbers, 2),
        outputs: number_at(numbers, 3),
        gates: number_at(numbers, 4),
        bads: number_at(numbers, 5),
        constraints: number_at(numbers, 6),
        justice: number_at(numbers, 7),
        fair: number_at(numbers, 8),
    })
}

/// The form that a word is of.
#[tactic(auto, unfolding(crate::specs::Reading::header_form))]
fn form_of(word: &[u8]) -> Result<Form, Why>
    ensures { IsAsRead (λ x. x) result (header_form word.now) }
{
    if word == b"aag".as_slice() {
        return Ok(Form::Ascii);
    }
    if word == b"aig".as_slice() {
        return Ok(Form::Binary);
    }
    Err(Why::BadHeader)
}

/// Counts whose greatest variable fits what they count.
#[tactic(auto, unfolding(crate::specs::Reading::fitting))]
fn fitting(form: Form, counts: Counts) -> Result<Counts, Why>
    ensures { IsAsRead (λ x. x) result (fitting form counts) }
{
    let sum = u64::from(counts.inputs) + u64::from(counts.latches) + u64::from(counts.gates);
    let greatest = u64::from(counts.variables);
    match form {
        Form::Ascii if greatest >= sum => Ok(counts),
        Form::Binary if greatest == sum => Ok(counts),
        _ => Err(Why::CountsDisagree),
    }
}

/// What a header says: the form of the text, and how many of each section there are.
///
/// Errors, of which the first that applies in this order is answered: `BadHeader`, `TooBig` and `CountsDisagree`.
#[tactic(auto, unfolding(crate::specs::Reading::header_fields))]
pub fn header(line: &[u8]) -> Result<(Form, Counts), Why>
    ensures { IsAsRead (λ x. x) result (header_of line.now) }
{
    let (word, rest) = first_field(line);
    let form = form_of(word)?;
    let mut numbers = [0; 9];
    let count = numbers_in(rest, &mut numbers)?;
    let (told, _) = numbers.split_at(count);
    let counts = counts_of(told)?;
    let counts = fitting(form, counts)?;
    Ok((form, counts))
}
