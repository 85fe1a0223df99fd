//! Reading a delta.
ghost use Rattle.std.specs.Prelude.{◌≡◌, ◌<◌, ◌≤◌, ◌+◌, ◌^◌, Ok, Err, IfOk, MatchResult};
ghost use Rattle.deltas.specs.Deltas.{more_digits, number_at};

/// Why no delta stands at the front of a text.
#[derive(Clone, Copy)]
pub enum DeltaFault {
    /// The text ends within it.
    Truncated,
    /// It has more than one byte, and ends in byte 0.
    NotShortest,
    /// Its first five bytes all have the top bit.
    TooLong,
}

/// The digits of a delta behind its first one, of which so many more may follow, and the text behind them.
fn more_digits(more: u32, text: &[u8]) -> Result<(u64, &[u8]), DeltaFault>
    requires { more ≤ 3 }
    ensures gives { MatchResult result (λ x. more_digits more text.now ≡ Ok (x.0, x.1.now))
        (λ e. more_digits more text.now ≡ Err e) }
    ensures small { IfOk result (λ x. x.0 < 128 ^ (more + 1)) }
{
    match text {
        [] => Err(DeltaFault::Truncated),
        [0, ..] => Err(DeltaFault::NotShortest),
        [byte, rest @ ..] => {
            if *byte < 128 {
                return Ok((u64::from(*byte), rest));
            }
            if more == 0 {
                return Err(DeltaFault::TooLong);
            }
            let (higher, behind) = more_digits(more - 1, rest)?;
            Ok((u64::from(*byte - 128) + 128 * higher, behind))
        }
    }
}

/// The delta at the front of a text, below 2^35, and the text behind it.
///
/// Errors: why none stands there.
#[cold]
#[inline(never)]
#[tactic(auto, unfolding(crate::specs::Deltas::number_at))]
pub fn read(text: &[u8]) -> Result<(u64, &[u8]), DeltaFault>
    ensures { MatchResult result (λ x. number_at text.now ≡ Ok (x.0, x.1.now))
        (λ e. number_at text.now ≡ Err e) }
{
    match text {
        [] => Err(DeltaFault::Truncated),
        [byte, rest @ ..] if *byte < 128 => Ok((u64::from(*byte), rest)),
        [byte, rest @ ..] => {
            let (higher, behind) = more_digits(3, rest)?;
            Ok((u64::from(*byte - 128) + 128 * higher, behind))
        }
    }
}
