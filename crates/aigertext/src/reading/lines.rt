//! What stands at the front of a text: a line, and what it says.
ghost use Rattle.std.specs.Prelude.{◌≡◌, ◌+◌, ◌≤◌, Ok, Err, IfOk, MatchResult};
ghost use Rattle.aigertext.specs.Counts.{AreSmall, Fits};
ghost use Rattle.aigertext.specs.Reading.{IsAsRead, stop, line_at, header_of, literal_on, size_of};
ghost use Rattle.aigertext.specs.Passes.{latch_in, told};

use crate::fault::{ReadFault, Stop, Why};
use crate::forms::Form;
use crate::reading::counts::Counts;
use crate::reading::header::header;
use crate::reading::latches::latch_in;
use crate::reading::numbers::{literal_within, size};
use aiger::{Latch, Lit};
use base::next_line;

/// Reading stops at the front of a text.
pub fn stop(text: &[u8], why: Why) -> Stop
    ensures { result ≡ stop text.now why }
{
    let left = text.len();
    Stop { left, why }
}

/// What was read at the front of a text, whose why is told with its place.
#[inline(always)]
pub fn at<T>(text: &[u8], read: Result<T, Why>) -> Result<T, Stop>
    ensures { MatchResult result (λ x. read ≡ Ok x) (λ e. (read ≡ Err e.why)
        × (e ≡ stop text.now e.why)) }
{
    match read {
        Ok(found) => Ok(found),
        Err(why) => Err(stop(text, why)),
    }
}

/// The fault of a text of so many bytes at which reading stopped; want of memory has place 0, and is also told in place of
/// a device's fault, which no text has.
pub fn fault(total: u64, stop: Stop) -> ReadFault
    ensures { result ≡ told total stop.left stop.why }
{
    let (place, why) = match stop.why {
        Why::NoMemory | Why::Device => (0, Why::NoMemory),
        why => (total.saturating_sub(stop.left as u64), why),
    };
    ReadFault { place, why }
}

/// The first line of a text, and the text behind it.
pub fn line(text: &[u8]) -> Result<(&[u8], &[u8]), Stop>
    ensures { IsAsRead (λ x. (x.0.now, x.1.now)) result (line_at Ok text.now) }
{
    match next_line(text) {
        None => Err(stop(text, Why::Truncated)),
        Some(found) => Ok(found),
    }
}

/// What the header says, and the text behind it.
pub fn header_line(text: &[u8]) -> Result<((Form, Counts), &[u8]), Stop>
    ensures gives { IsAsRead (λ x. (x.0, x.1.now)) result (line_at header_of text.now) }
    ensures small { IfOk result (λ x. AreSmall x.0.1) }
    ensures fits { IfOk result (λ x. Fits x.0.0 x.0.1) }
{
    let (bytes, behind) = line(text)?;
    let said = at(text, header(bytes))?;
    Ok((said, behind))
}

/// The latch of the first line of a text of a form, whose own literal is given, and the text behind it.
pub fn latch_line(form: Form, text: &[u8], greatest: u32, own: u32) -> Result<(Latch, &[u8]), Stop>
    ensures { IsAsRead (λ x. (x.0, x.1.now)) result
        (line_at (latch_in form greatest own) text.now) }
{
    let (bytes, behind) = line(text)?;
    let latch = at(text, latch_in(form, bytes, greatest, own))?;
    Ok((latch, behind))
}

/// The literal of the first line, and the text behind it.
#[tactic(auto, unfolding(crate::specs::Reading::literal_on))]
pub fn literal_line(text: &[u8], greatest: u32) -> Result<(Lit, &[u8]), Stop>
    ensures { IsAsRead (λ x. (x.0, x.1.now)) result (line_at (literal_on greatest) text.now) }
{
    let (bytes, behind) = line(text)?;
    let literal = at(text, literal_within(bytes, greatest, Why::BadNumber))?;
    Ok((literal, behind))
}

/// The size that the first line gives, where those before it have so many literals together, and the text behind it.
pub fn size_line(text: &[u8], before: u32) -> Result<(u32, &[u8]), Stop>
    requires { before ≤ 1073741824 }
    ensures gives { IsAsRead (λ x. (x.0, x.1.now)) result (line_at (size_of before) text.now) }
    ensures small { IfOk result (λ x. before + x.0 ≤ 1073741824) }
{
    let (bytes, behind) = line(text)?;
    let size = at(text, size(bytes, before))?;
    Ok((size, behind))
}
