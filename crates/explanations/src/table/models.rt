//! Refusals of models.

use super::Explanation;

/// Of the texts of models.
pub(super) const TEXTS: [Explanation; 13] = [
    Explanation {
        number: 29,
        name: "Device",
        when: "reading failed",
        remedy: "name a readable file",
    },
    Explanation {
        number: 30,
        name: "NoMemory",
        when: "out of memory",
        remedy: "add memory",
    },
    Explanation {
        number: 28,
        name: "Unfinished",
        when: "the last line has bytes and no line feed; earlier lines are read first",
        remedy: "end the file with a line feed, or fetch it whole",
    },
    Explanation {
        number: 20,
        name: "BadToken",
        when: "the first token is no decimal (`0`, or 1 to 9 and digits), or there is no second",
        remedy: "number the line; write decimals without sign or leading zeros",
    },
    Explanation {
        number: 21,
        name: "ArraySort",
        when: "`sort array`; of `fit` one of arrays, or of more than 1,048,576 bits together",
        remedy: "`hwtool fit FILE >NEW` takes arrays of words; in Yosys, `memory_map` before `write_btor`; `clk2fflogic; memory_map -formal` for a memory with two write clocks",
    },
    Explanation {
        number: 22,
        name: "ArrayOperator",
        when: "the form is `read` or `write`",
        remedy: "as 21",
    },
    Explanation {
        number: 23,
        name: "UnknownOperator",
        when: "the form is no word of the format",
        remedy: "use a form that FORMATS lists; for `udivo` put `zero`: unsigned division never overflows",
    },
    Explanation {
        number: 24,
        name: "NegativeOperand",
        when: "an operand is `-` and a decimal; of `fit` where that is an array, or the state of an `init` or a `next`",
        remedy: "it means all bits inverted: `hwtool fit FILE >NEW` takes it; or give `not` of the operand a line and name that; in an `init`, name a constant with inverted bits",
    },
    Explanation {
        number: 20,
        name: "BadToken",
        when: "a token is missing, or is no number where one must stand; a negative number stands where no operand does; a constant has a byte that is no digit; a justice count is 2^64 - 1 or more",
        remedy: "write the form as FORMATS has it; for `z` in a constant, as in `const 1 1zzz`, `setundef -zero` in Yosys before `write_btor` puts 0, which changes the design",
    },
    Explanation {
        number: 26,
        name: "BadSymbol",
        when: "the symbol has more than 255 bytes, or one outside 33 to 126",
        remedy: "shorten it, or write it in ASCII",
    },
    Explanation {
        number: 20,
        name: "BadToken",
        when: "a token follows the symbol",
        remedy: "keep names in one token; begin a comment with `;`",
    },
    Explanation {
        number: 25,
        name: "ConstantDoesNotFit",
        when: "the constant does not fit its sort; a push tells 15",
        remedy: "as 15",
    },
    Explanation {
        number: 27,
        name: "Refused",
        when: "a push refuses the item otherwise: its own number and name, of the next table, are printed",
        remedy: "as there",
    },
];

/// Of the items of a model.
pub(super) const ITEMS: [Explanation; 15] = [
    Explanation {
        number: 12,
        name: "TooManyItems",
        when: "the model has 1,048,576 items",
        remedy: "drop what no property or constraint needs (Yosys: `opt_clean -purge`), or write one model per bad property",
    },
    Explanation {
        number: 2,
        name: "IdOutOfRange",
        when: "the id is not 1 to 4,294,967,295",
        remedy: "renumber lines and operands",
    },
    Explanation {
        number: 1,
        name: "IdTaken",
        when: "an earlier item has the id",
        remedy: "give one of them another id, also where operands name it",
    },
    Explanation {
        number: 3,
        name: "NoSuchSort",
        when: "the sort's id is no earlier sort",
        remedy: "define the sort on an earlier line",
    },
    Explanation {
        number: 4,
        name: "NoSuchNode",
        when: "an operand is no earlier node with a value: sorts, inits, nexts and properties have none",
        remedy: "define the operand on an earlier line",
    },
    Explanation {
        number: 8,
        name: "NotAState",
        when: "the first operand of `init` or `next` is no state",
        remedy: "name the state first, its value second",
    },
    Explanation {
        number: 5,
        name: "WidthOutOfRange",
        when: "a sort's width is not 1 to 64",
        remedy: "`hwtool fit FILE >NEW` takes words of up to 1,048,576 bits: see what is met most",
    },
    Explanation {
        number: 7,
        name: "SliceOutOfRange",
        when: "the bits of a slice are not `lower <= upper < width`",
        remedy: "count bits from 0; name the upper one first",
    },
    Explanation {
        number: 6,
        name: "SortMismatch",
        when: "the sort's and operands' widths are not the form's",
        remedy: "name the sort that the form needs; widen an operand by `uext`, or a signed one by `sext`; `slice` drops bits, so means something else",
    },
    Explanation {
        number: 15,
        name: "ConstantDoesNotFit",
        when: "at width n: not n binary digits, a decimal not from -2^(n-1) to 2^n - 1, not 1 to 16 hexadecimal digits, or a value of 2^n or more; from a text told as 25",
        remedy: "write it in the sort's width, with all digits",
    },
    Explanation {
        number: 11,
        name: "InitNotConstant",
        when: "an init's value is no constant (`zero`, `one`, `ones`, `const`, `constd`, `consth`)",
        remedy: "`hwtool fit FILE >NEW` takes any line, also a register of which only some bits have an initial value; no constraint does, which is for every frame",
    },
    Explanation {
        number: 9,
        name: "SecondInit",
        when: "the state has an `init` already",
        remedy: "drop one; if they differ, see which is meant",
    },
    Explanation {
        number: 10,
        name: "SecondNext",
        when: "the state has a `next` already",
        remedy: "drop one; if they differ, see which is meant",
    },
    Explanation {
        number: 13,
        name: "JusticeEmpty",
        when: "a `justice` line names no node",
        remedy: "leave it out: no bad property needs it",
    },
    Explanation {
        number: 14,
        name: "NoMemory",
        when: "out of memory; from a text told as 30",
        remedy: "add memory",
    },
];

/// Of names.
pub(super) const NAMES: [Explanation; 2] = [
    Explanation {
        number: 16,
        name: "BadBytes",
        when: "not 1 to 255 bytes from 33 to 126, the first not `;`",
        remedy: "choose another name",
    },
    Explanation {
        number: 17,
        name: "NoMemory",
        when: "out of memory",
        remedy: "add memory",
    },
];

/// Of fitting.
pub(super) const FITTING: [Explanation; 6] = [
    Explanation {
        number: 220,
        name: "Justice",
        when: "of a model that has to be fitted a justice line comes first in the file of what 220 to 222 refuse",
        remedy: "as 90",
    },
    Explanation {
        number: 221,
        name: "Fair",
        when: "of such a model a fairness line comes first of these",
        remedy: "as 91",
    },
    Explanation {
        number: 222,
        name: "TooManyItems",
        when: "with what is made for this item the fitted model would have more than 1,048,576 items: a division takes some ten for each bit of its words, and more as they grow",
        remedy: "write one model per bad property, of only what it and the constraints need",
    },
    Explanation {
        number: 222,
        name: "TooManyItems",
        when: "no item is told: so it is with what is made of arrays, of operands with a minus and of inits by lines; a write takes some six items for each cell",
        remedy: "make the memory smaller, or write one model per bad property, of only what it and the constraints need",
    },
    Explanation {
        number: 224,
        name: "InitCircle",
        when: "the word that this line has in the first frame needs itself: a state's init names what the state is needed for",
        remedy: "give one of the states on the circle an init that does not lead back to it, or none",
    },
    Explanation {
        number: 223,
        name: "NoMemory",
        when: "out of memory",
        remedy: "add memory",
    },
];

/// Of lowering.
pub(super) const LOWERING: [Explanation; 8] = [
    Explanation {
        number: 95,
        name: "Read",
        when: "the text is no model, or reading failed; that fault's line is printed",
        remedy: "see the texts of models",
    },
    Explanation {
        number: 96,
        name: "Lower",
        when: "the model is not lowered; the reason is printed",
        remedy: "see 90 to 94",
    },
    Explanation {
        number: 90,
        name: "Justice",
        when: "a justice line comes first in the file of what 90 to 92 refuse",
        remedy: "take the line out: no bad property needs it; the justice property is then unchecked",
    },
    Explanation {
        number: 91,
        name: "Fair",
        when: "a fairness line comes first in the file of what 90 to 92 refuse",
        remedy: "take the line out: only justice properties need it",
    },
    Explanation {
        number: 92,
        name: "NoNext",
        when: "a state with an `init` and no `next` comes first in the file of what 90 to 92 refuse",
        remedy: "`hwtool fit FILE >NEW` takes it; or give the state an input of its own as its next: any word from the second frame on, as without a next; itself only if it is to keep its word",
    },
    Explanation {
        number: 93,
        name: "TooBig",
        when: "the bound on the circuit's variables, which `hwtool cost` tells, is above 2^30 (1,073,741,824)",
        remedy: "write one model per bad property, of only what it and the constraints need",
    },
    Explanation {
        number: 94,
        name: "NoMemory",
        when: "out of memory",
        remedy: "add memory",
    },
    Explanation {
        number: 97,
        name: "Write",
        when: "writing failed, perhaps after a beginning",
        remedy: "make room; keep the output open",
    },
];
