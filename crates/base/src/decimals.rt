//! Numbers as decimals.
ghost use Rattle.std.specs.Prelude.{◌≡◌, ◌+◌, ◌-◌, ◌*◌, ◌^◌, ◌≤◌, min};
ghost use Rattle.base.specs.Decimals.{is_digit, begins_decimal, digits_number, number_of};

/// The greatest number that has room for one more digit, whatever that is.
const ROOM: u64 = u64::MAX / 10 - 1;

/// Whether a byte is a digit.
pub fn is_digit(byte: u8) -> bool
    ensures { result ≡ is_digit byte }
{
    b'0' <= byte && byte <= b'9'
}

/// A number with a digit more, at most 2^64 - 1.
fn with_digit(value: u64, digit: u64) -> u64
    requires { digit ≤ 9 }
    ensures { result ≡ min (min (value * 10) (2 ^ 64 - 1) + digit) (2 ^ 64 - 1) }
{
    if value <= ROOM {
        return value * 10 + digit;
    }
    value.saturating_mul(10).saturating_add(digit)
}

/// The number that digits write, at most 2^64 - 1; none where a byte is no digit. Each byte is looked at once.
fn digits_number(bytes: &[u8]) -> Option<u64>
    ensures { result ≡ digits_number bytes.now }
{
    let mut value = 0;
    for byte in bytes {
        if *byte < b'0' || *byte > b'9' {
            return None;
        }
        value = with_digit(value, u64::from(*byte - b'0'));
    }
    Some(value)
}

/// Whether a token has a first byte, and none behind it where that is `0`.
#[tactic(auto, unfolding(crate::specs::Decimals::begins_decimal))]
fn begins_decimal(token: &[u8]) -> bool
    ensures { result ≡ begins_decimal token.now }
{
    match token {
        [] => false,
        [first, rest @ ..] => *first != b'0' || rest.is_empty(),
    }
}

/// The number that a token's bytes write as a decimal: `0`, or a digit from 1 to 9 followed by digits. One above
/// 2^64 - 1 is read as 2^64 - 1; there is none where the bytes are no decimal.
pub fn decimal(token: &[u8]) -> Option<u64>
    ensures { result ≡ number_of token.now }
{
    if begins_decimal(token) {
        digits_number(token)
    } else {
        None
    }
}
