//! Refusals of witnesses.

use super::Explanation;

/// Of runs and judges.
pub(super) const RUNS: [Explanation; 4] = [
    Explanation {
        number: 70,
        name: "NoNext",
        when: "a state has an `init` and no `next`; the first in the file is named",
        remedy: "as 92",
    },
    Explanation {
        number: 71,
        name: "NoMemory",
        when: "out of memory for a run; a judge tells 101",
        remedy: "add memory",
    },
    Explanation {
        number: 100,
        name: "Device",
        when: "reading failed",
        remedy: "name a readable file",
    },
    Explanation {
        number: 101,
        name: "NoMemory",
        when: "out of memory",
        remedy: "add memory",
    },
];

/// Of witnesses.
pub(super) const WITNESSES: [Explanation; 13] = [
    Explanation {
        number: 120,
        name: "TooLong",
        when: "it is line 2^62 + 1 and has a byte",
        remedy: "shorten the witness",
    },
    Explanation {
        number: 119,
        name: "Trailing",
        when: "something follows the line `.`",
        remedy: "`tidy-witness` keeps the first witness, with `--pick N` the N-th",
    },
    Explanation {
        number: 118,
        name: "Truncated",
        when: "the text ends before the line `.` or its line feed",
        remedy: "fetch the whole file",
    },
    Explanation {
        number: 110,
        name: "BadHeader",
        when: "the first line that is no comment is not `sat`, `unsat` or `unknown`",
        remedy: "begin with `sat`; only `;` comments stand before it",
    },
    Explanation {
        number: 111,
        name: "BadClaim",
        when: "the claims are no list of `b<i>` or `j<i>`, one space apart",
        remedy: "write `b0`, or `b0 b2`; `tidy-witness` drops blanks and carriage returns at line ends",
    },
    Explanation {
        number: 112,
        name: "JusticeClaim",
        when: "a justice property is claimed",
        remedy: "claim bad properties only",
    },
    Explanation {
        number: 111,
        name: "BadClaim",
        when: "a claim names no bad property of the model, or stands twice",
        remedy: "count bad properties in file order, from 0; name each once",
    },
    Explanation {
        number: 113,
        name: "FrameOrder",
        when: "neither `#0` nor `@0` follows the claims; or a later line that begins with `#`, `@` or `.` is neither the next frame's nor, behind a frame, the end nor there, with a free state, `#` and the next frame's number",
        remedy: "write `#0` at most once, then `@0`, `@1` and so on without gaps; words of free states stand behind `#k`, before `@k`; `tidy-witness` drops comments, empty lines and carriage returns",
    },
    Explanation {
        number: 114,
        name: "BadIndex",
        when: "an assignment's index is no decimal of a state (behind `#0`), a free state (behind a later `#k`) or an input (behind `@k`)",
        remedy: "count all states, or inputs, in file order from 0; `tidy-witness` drops comments and empty lines, also told so",
    },
    Explanation {
        number: 115,
        name: "IndexTwice",
        when: "the index stands earlier in this part",
        remedy: "drop one; if they differ, see which is meant",
    },
    Explanation {
        number: 116,
        name: "BadValue",
        when: "the value is missing, not of the width, or has a byte other than `0`, `1` and `x`",
        remedy: "write all binary digits, highest first, behind one space; `tidy-witness` drops carriage returns",
    },
    Explanation {
        number: 117,
        name: "Undetermined",
        when: "the value has an `x`",
        remedy: "choose 0 or 1, for a first state with an init the init's bit; `tidy-witness` puts 0",
    },
    Explanation {
        number: 121,
        name: "BadSymbol",
        when: "behind the value stands no name of 1 to 255 bytes from 33 to 126, the first not `;`",
        remedy: "drop the name, or write it as one token",
    },
];

/// Of witnesses of circuits.
pub(super) const BIT_WITNESSES: [Explanation; 6] = [
    Explanation {
        number: 110,
        name: "BadHeader",
        when: "the first line is not `1`, `0` or `2`",
        remedy: "begin with `1`",
    },
    Explanation {
        number: 111,
        name: "BadClaim",
        when: "the second line is no `b<i>` of an existing bad property",
        remedy: "name one bad property, counted from 0; `tidy-witness` drops blanks at line ends",
    },
    Explanation {
        number: 112,
        name: "JusticeClaim",
        when: "the second line is `j<i>`",
        remedy: "claim bad properties only",
    },
    Explanation {
        number: 113,
        name: "FrameOrder",
        when: "`.` stands in the first frame's place",
        remedy: "write a line of input bits per frame, at least one",
    },
    Explanation {
        number: 116,
        name: "BadValue",
        when: "a line has not one bit per latch, or input, or has a byte other than `0`, `1` and `x`",
        remedy: "write a bit for each, in order, without spaces; `tidy-witness` drops carriage returns, and empty lines that are no frames",
    },
    Explanation {
        number: 117,
        name: "Undetermined",
        when: "a bit of a line is `x`",
        remedy: "choose 0 or 1, for a latch with a reset, in the first line, its reset; `tidy-witness` puts 0",
    },
];

/// Of lifting.
pub(super) const LIFTING: [Explanation; 3] = [
    Explanation {
        number: 132,
        name: "NoMemory",
        when: "out of memory, before anything was read or written",
        remedy: "add memory",
    },
    Explanation {
        number: 130,
        name: "Read",
        when: "reading the witness failed, perhaps after a beginning was written",
        remedy: "name a readable file",
    },
    Explanation {
        number: 131,
        name: "Write",
        when: "writing failed, perhaps after a beginning",
        remedy: "make room; keep the output open",
    },
];

/// Of witnesses of models with words of any width.
pub(super) const UNFITTING: [Explanation; 4] = [
    Explanation {
        number: 70,
        name: "NoNext",
        when: "a state has an `init` and no `next`; the first in the file is named",
        remedy: "as 92",
    },
    Explanation {
        number: 138,
        name: "NoMemory",
        when: "out of memory, perhaps after a beginning was written",
        remedy: "add memory",
    },
    Explanation {
        number: 136,
        name: "Read",
        when: "reading the witness failed, perhaps after a beginning was written",
        remedy: "name a readable file",
    },
    Explanation {
        number: 137,
        name: "Write",
        when: "writing failed, perhaps after a beginning",
        remedy: "make room; keep the output open",
    },
];

/// Of dumps of witnesses.
pub(super) const DUMPS: [Explanation; 4] = [
    Explanation {
        number: 70,
        name: "NoNext",
        when: "a state has an `init` and no `next`; the first in the file is named",
        remedy: "as 92",
    },
    Explanation {
        number: 170,
        name: "Read",
        when: "reading failed; a beginning was written",
        remedy: "name a readable file",
    },
    Explanation {
        number: 171,
        name: "Write",
        when: "writing failed; a beginning was written",
        remedy: "make room; keep the output open",
    },
    Explanation {
        number: 172,
        name: "NoMemory",
        when: "out of memory; nothing was read or written",
        remedy: "add memory",
    },
];

/// The cases of tidied witnesses.
pub(super) const TIDYING: [Explanation; 2] = [
    Explanation {
        number: 200,
        name: "Read",
        when: "reading failed; a beginning was written",
        remedy: "name a readable file",
    },
    Explanation {
        number: 201,
        name: "Write",
        when: "writing failed; a beginning was written",
        remedy: "make room; keep the output open",
    },
];
