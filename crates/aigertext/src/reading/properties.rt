//! The lines of properties.
ghost use Rattle.std.specs.Prelude.{◌≡◌, ◌≤◌, [], ◌++◌, length, IfOk, OnOk};
ghost use Rattle.std.specs.List.{sum};
ghost use Rattle.aigertext.specs.Reading.{sized_lists, literals_at, sizes_at, justice_at, properties_at};
ghost use Rattle.aigertext.specs.Passes.{WasToBeRead, properties_of, no_properties};

use crate::fault::{Stop, Why};
use crate::reading::counts::Counts;
use crate::reading::lines::{literal_line, size_line, stop};
use aiger::{Lit, Properties};
use base::Rows;
use std::alloc::{AllocError, Global};

/// Reads the literals of so many lines, and answers the text behind them.
fn read_literals<'a>(
    list: &mut Vec<Lit>,
    text: &'a [u8],
    greatest: u32,
    count: u32,
) -> Result<&'a [u8], Stop>
    requires { list.old.items ≡ [] }
    ensures { WasToBeRead (λ x. (list.new.items, x.now)) result
        (literals_at greatest count text.now) }
{
    let mut rest = text;
    for _index in 0..count {
        let (literal, after) = match literal_line(rest, greatest) {
            Ok(found) => found,
            Err(stop) => return Err(stop),
        };
        if list.push(literal).is_err() {
            return Err(stop(rest, Why::NoMemory));
        }
        rest = after;
    }
    Ok(rest)
}

/// Reads the sizes of so many lines, and answers their sum and the text behind them.
fn read_sizes<'a>(list: &mut Vec<u32>, text: &'a [u8], count: u32) -> Result<(u32, &'a [u8]), Stop>
    requires { list.old.items ≡ [] }
    ensures read { WasToBeRead (λ x. (list.new.items, x.1.now)) result (sizes_at 0 count text.now) }
    ensures sums { IfOk result (λ x. x.0 ≡ sum list.new.items) }
{
    let mut rest = text;
    let mut total = 0;
    for _index in 0..count {
        let (size, after) = size_line(rest, total)?;
        if list.push(size).is_err() {
            return Err(stop(rest, Why::NoMemory));
        }
        total += size;
        rest = after;
    }
    Ok((total, rest))
}

/// Adds rows of these sizes, by the literals of all of them.
fn push_rows(rows: &mut Rows<Lit>, sizes: &[u32], listed: &[Lit]) -> Result<(), AllocError>
    requires { length listed.now ≡ sum sizes.now }
    ensures { OnOk result (rows.new ≡ rows.old ++ sized_lists sizes.now listed.now) }
{
    let mut rest = listed;
    for size in sizes {
        let (row, behind) = rest.split_at(*size as usize);
        rows.push(row)?;
        rest = behind;
    }
    Ok(())
}

/// Reads so many justice properties, the sizes of all and then the literals of all, and answers the text behind them.
fn read_justice<'a>(
    alloc: Global,
    justice: &mut Rows<Lit>,
    text: &'a [u8],
    greatest: u32,
    count: u32,
) -> Result<&'a [u8], Stop>
    requires { justice.old ≡ [] }
    ensures { WasToBeRead (λ x. (justice.new, x.now)) result (justice_at greatest count text.now) }
{
    let mut sizes = Vec::new(alloc);
    let (total, rest) = read_sizes(&mut sizes, text, count)?;
    let mut listed = Vec::new(alloc);
    let rest = read_literals(&mut listed, rest, greatest, total)?;
    match push_rows(justice, &sizes, &listed) {
        Ok(()) => Ok(rest),
        Err(_) => Err(stop(rest, Why::NoMemory)),
    }
}

/// Reads the lines of all properties, and answers the text behind them.
pub fn read_properties<'a>(
    alloc: Global,
    properties: &mut Properties,
    text: &'a [u8],
    counts: &Counts,
) -> Result<&'a [u8], Stop>
    requires none { properties_of properties.old ≡ no_properties }
    requires small { counts.now.variables ≤ 1073741824 }
    ensures { WasToBeRead (λ x. (properties_of properties.new, x.now)) result
        (properties_at counts.now text.now) }
{
    let greatest = 2 * counts.variables + 1;
    let rest = read_literals(&mut properties.outputs, text, greatest, counts.outputs)?;
    let rest = read_literals(&mut properties.bads, rest, greatest, counts.bads)?;
    let rest = read_literals(
        &mut properties.constraints,
        rest,
        greatest,
        counts.constraints,
    )?;
    let rest = read_justice(
        alloc,
        &mut properties.justice,
        rest,
        greatest,
        counts.justice,
    )?;
    read_literals(&mut properties.fair, rest, greatest, counts.fair)
}
