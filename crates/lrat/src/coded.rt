//! A whole number of the binary form at a place of a text, read in one pass.
ghost use Rattle.std.specs.Prelude.{◌<◌, IfSome, length};
ghost use Rattle.lrat.specs.Codes.{IsCodedAt};

/// The most bytes of a number that has room in 64 bits, whatever they are.
const MOST_BYTES: usize = 9;

/// The number whose bytes stand at a place, at most 9, none of them needless, and the place behind them.
#[inline(always)]
pub(crate) fn coded_at(bytes: &[u8], at: usize) -> Option<(u64, usize)>
    requires { at < length bytes.now }
    ensures { IfSome result (λ x. IsCodedAt bytes.now at x.0 x.1) }
{
    let mut value: u64 = 0;
    let mut unit: u64 = 1;
    let most = bytes.len().min(at.saturating_add(MOST_BYTES));
    for end in at..most {
        let byte = bytes[end];
        if byte == 0 {
            return None;
        }
        value += u64::from(byte % 128) * unit;
        if byte < 128 {
            return Some((value, end + 1));
        }
        unit *= 128;
    }
    None
}
