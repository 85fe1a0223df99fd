//! Models that are too big for a row.

use crate::answers::{Answer, gives_on};
use command_line::order;
use std::alloc::{AllocError, Global};

/// A division for which a fitted model has no room.
const DIVISION: &str = "1 sort bitvec 4096\n2 input 1\n3 input 1\n4 udiv 1 2 3\n";

/// How many overflow tests of a product of two inputs of 64 bits have too many gates: each has 164,096 at most, and the
/// inputs have 128 bits, in all 1,073,844,352, where 2^30 is 1,073,741,824.
const TOO_MANY: u64 = 6544;

/// The text of so many of these tests.
fn products(alloc: Global) -> Result<String, AllocError> {
    let inputs = "1 sort bitvec 64\n2 sort bitvec 1\n3 input 1\n4 input 1\n";
    let mut text = String::from_str(alloc, inputs)?;
    for k in 0..TOO_MANY {
        let id = k.saturating_add(5);
        let line = format!(in alloc; "{id} smulo 2 3 4\n")?;
        text.push_str(line.as_str())?;
    }
    Ok(text)
}

/// Whether a command refuses a model by this line.
fn refuses(alloc: Global, command: &str, text: &str, line: &[u8]) -> bool {
    let wanted = Answer {
        status: 2,
        out: b"",
        err: line,
    };
    match order(alloc, &[command, "model"]) {
        Ok(order) => gives_on(alloc, &order, Some(text.as_bytes()), None, None, wanted),
        Err(_) => false,
    }
}

/// Whether the commands that lower and fit a model tell that these are too big.
pub(crate) fn are_told_too_big(alloc: Global) -> Result<bool, AllocError> {
    let text = products(alloc)?;
    let is_lowered = refuses(alloc, "lower", text.as_str(), b"model: 93 TooBig\n");
    let line = b"model: item 4: 222 TooManyItems\n";
    Ok(is_lowered && refuses(alloc, "fit", DIVISION, line))
}
