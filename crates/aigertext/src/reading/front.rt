//! What stands before the gates of a text that can be read straight onto a circuit: a binary text, or an ascii text whose
//! inputs and latches have a circuit's numbers in turn.
ghost use Rattle.std.specs.Prelude.{◌≡◌, ◌+◌, ◌*◌, ◌≤◌, ◌++◌, [], IfOk, IfSome, MatchOption, OnOk, IsErrOf};
ghost use Rattle.std.specs.Io.KnownBytes.{prepend_known, Keeps, IsAtEnd};
ghost use Rattle.base.specs.Device.{HasRisen};
ghost use Rattle.aigertext.specs.Binary.{inputs_text};
ghost use Rattle.aigertext.specs.Counts.{AreSmall, Fits};
ghost use Rattle.aigertext.specs.Passes.{latches_in, WasToBeRead, no_properties};
ghost use Rattle.aigertext.specs.InOrder.{uses_at, uses_of, HasFront};

use crate::fault::{Stop, Why};
use crate::forms::Form;
use crate::reading::counts::Counts;
use crate::reading::lines::{header_line, latch_line, stop};
use crate::reading::pieces::{PIECE, read_piece};
use crate::reading::plain_numbers::number_before;
use crate::reading::properties::read_properties;
use aiger::{Latch, Properties};
use base::{ReadAllFault, Source};
use std::alloc::Global;

/// What stands before the gates of a text: its form and its counts, its latches and its properties.
#[derive(Drop)]
pub(crate) struct Front {
    /// The form.
    pub(crate) form: Form,
    /// The counts of its header.
    pub(crate) counts: Counts,
    /// The latches.
    pub(crate) latches: Vec<Latch>,
    /// The properties.
    pub(crate) properties: Properties,
}

/// Reads so many latches by their lines, the first of which has the given literal, and answers the text behind them.
fn read_latches<'a>(
    latches: &mut Vec<Latch>,
    form: Form,
    text: &'a [u8],
    greatest: u32,
    first: u32,
    count: u32,
) -> Result<&'a [u8], Stop>
    requires none { latches.old.items ≡ [] }
    requires fits { first + 2 * count ≤ 4294967295 }
    ensures { WasToBeRead (λ x. (latches.new.items, x.now)) result
        (latches_in form greatest first count text.now) }
{
    let mut rest = text;
    for index in 0..count {
        let (latch, after) = match latch_line(form, rest, greatest, first + 2 * index) {
            Ok(found) => found,
            Err(stop) => return Err(stop),
        };
        if latches.push(latch).is_err() {
            return Err(stop(rest, Why::NoMemory));
        }
        rest = after;
    }
    Ok(rest)
}

/// Reads the lines of the latches and of all properties, and answers the text behind them.
fn read_uses<'a>(alloc: Global, front: &mut Front, text: &'a [u8]) -> Result<&'a [u8], Stop>
    requires none { uses_of front.old ≡ ([], no_properties) }
    requires small { AreSmall front.old.counts }
    requires fits { front.old.counts.inputs + front.old.counts.latches
        ≤ front.old.counts.variables }
    ensures reads { WasToBeRead (λ x. (uses_of front.new, x.now)) result
        (uses_at front.old.form front.old.counts text.now) }
    ensures form { front.new.form ≡ front.old.form }
    ensures counts { front.new.counts ≡ front.old.counts }
{
    let counts = front.counts;
    let greatest = 2 * counts.variables + 1;
    let first = 2 * (counts.inputs + 1);
    let latches = &mut front.latches;
    let rest = read_latches(latches, front.form, text, greatest, first, counts.latches)?;
    read_properties(alloc, &mut front.properties, rest, &counts)
}

/// What the lines of latches and properties say in a form, and the text behind them.
pub fn uses<'a>(
    alloc: Global,
    form: Form,
    counts: &Counts,
    text: &'a [u8],
) -> Result<(Front, &'a [u8]), Stop>
    requires small { AreSmall counts.now }
    requires fits { counts.now.inputs + counts.now.latches ≤ counts.now.variables }
    ensures reads { WasToBeRead (λ x. (uses_of x.0, x.1.now)) result
        (uses_at form counts.now text.now) }
    ensures form { IfOk result (λ x. x.0.form ≡ form) }
    ensures counts { IfOk result (λ x. x.0.counts ≡ counts.now) }
{
    let mut front = Front {
        form,
        counts: *counts,
        latches: Vec::new(alloc),
        properties: Properties::new(alloc),
    };
    let gates = read_uses(alloc, &mut front, text)?;
    Ok((front, gates))
}

/// The text behind the lines of so many inputs, where these have the first variables in turn; only the ascii form has them.
fn behind_inputs(form: Form, text: &[u8], count: u32) -> Option<&[u8]>
    requires { count ≤ 1073741824 }
    ensures { IfSome result (λ rest. text.now ≡ inputs_text form count ++ rest.now) }
{
    if form == Form::Binary {
        return Some(text);
    }
    let mut rest = text;
    for index in 0..count {
        let (number, behind) = number_before(rest, b'\n')?;
        if number != 2 * (index + 1) {
            return None;
        }
        rest = behind;
    }
    Some(rest)
}

/// What stands before the gates of a text, and how many bytes that is, where all lines before the gates are there, none is
/// refused, and inputs and latches are in order.
fn front_of(alloc: Global, text: &[u8]) -> Option<(Front, usize)>
    ensures { IfSome result (λ x. HasFront x.0 x.1 text.now) }
{
    let Ok(((form, counts), lines)) = header_line(text) else {
        return None;
    };
    if counts.variables != counts.inputs + counts.latches + counts.gates {
        return None;
    }
    let latches = behind_inputs(form, lines, counts.inputs)?;
    let Ok((front, gates)) = uses(alloc, form, &counts, latches) else {
        return None;
    };
    Some((front, text.len() - gates.len()))
}

/// Reads a source until the lines before the gates of such a text are there, and answers what they say and how many bytes
/// they are; nothing where the source was read to its end without them. They are looked for again only once there is
/// twice as much.
pub fn read_front<S: Source>(
    alloc: Global,
    text: &mut Vec<u8>,
    source: &mut S,
) -> Result<Option<(Front, usize)>, ReadAllFault>
    ensures bytes { OnOk result (Keeps (prepend_known text.old.items (S.to_come source.old))
        (prepend_known text.new.items (S.to_come source.new))) }
    ensures front { IfOk result (λ x. MatchOption x (IsAtEnd (S.to_come source.new))
        (λ x. HasFront x.0 x.1 text.new.items)) }
    ensures counted { OnOk result (S.failures source.new ≡ S.failures source.old) }
    ensures device { IsErrOf result ReadAllFault.Device
        → HasRisen (S.failures source.old) (S.failures source.new) }
    ensures memory { IsErrOf result ReadAllFault.NoMemory → S.failures source.new
        ≡ S.failures source.old }
{
    let mut piece = [0u8; PIECE];
    let mut enough = 0;
    while read_piece(text, &mut piece, source)? {
        if text.len() >= enough {
            if let Some(found) = front_of(alloc, text.as_slice()) {
                return Ok(Some(found));
            }
            enough = text.len().saturating_mul(2);
        }
    }
    Ok(None)
}
