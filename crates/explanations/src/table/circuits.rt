//! Refusals of circuits.

use super::Explanation;

/// Of gate makers.
pub(super) const GATES: [Explanation; 2] = [
    Explanation {
        number: 80,
        name: "TooBig",
        when: "a gate's variable would be above 2^30; from a builder only where variables so far plus its bound are more",
        remedy: "make one circuit per bad property, of only what it and the constraints need",
    },
    Explanation {
        number: 81,
        name: "NoMemory",
        when: "out of memory",
        remedy: "add memory",
    },
];

/// Of engine forms.
pub(super) const ENGINES: [Explanation; 6] = [
    Explanation {
        number: 140,
        name: "Justice",
        when: "the circuit has a justice property; position 0 is meant",
        remedy: "take justice properties out: no bad property needs them; to check one, translate liveness into safety, which `hwtool` does not",
    },
    Explanation {
        number: 141,
        name: "Fair",
        when: "the circuit has a fairness constraint; position 0 is meant",
        remedy: "take fairness constraints out: only justice properties need them",
    },
    Explanation {
        number: 145,
        name: "NoBad",
        when: "there is no bad property",
        remedy: "circuits from before AIGER 1.9 or from ABC have outputs as properties: `aig-convert --outputs` makes each a bad one; in a model write a `bad` line; of an empty or cut file, see whether its writer failed",
    },
    Explanation {
        number: 142,
        name: "NoSuchBad",
        when: "there is no bad property at the chosen position, or of the name",
        remedy: "count bad properties from 0; the last line of `hwtool show` counts a model's, B in the header a circuit's",
    },
    Explanation {
        number: 143,
        name: "TooBig",
        when: "the form's inputs, latches and bound on gates sum to more than 2^30",
        remedy: "as 80",
    },
    Explanation {
        number: 144,
        name: "NoMemory",
        when: "out of memory",
        remedy: "add memory",
    },
];

/// Of the calls of circuits.
pub(super) const CIRCUITS: [Explanation; 9] = [
    Explanation {
        number: 40,
        name: "LiteralOutOfRange",
        when: "a literal's variable is above the circuit's greatest; in `Loose`, a defining literal is odd, below 2 or of a variable defined already",
        remedy: "make the gate first; define each variable once",
    },
    Explanation {
        number: 41,
        name: "OrderBroken",
        when: "a gate's second operand is above its first",
        remedy: "give the greater literal first",
    },
    Explanation {
        number: 42,
        name: "TooBig",
        when: "a variable, a count or the sum of justice sizes would be above 2^30",
        remedy: "as 80",
    },
    Explanation {
        number: 44,
        name: "NoSuchPosition",
        when: "the section lacks the named position",
        remedy: "make the position first",
    },
    Explanation {
        number: 45,
        name: "NameTaken",
        when: "the position has a name already",
        remedy: "name each position once",
    },
    Explanation {
        number: 46,
        name: "BadName",
        when: "a name is not 1 to 300 bytes from 32 to 126",
        remedy: "choose another name",
    },
    Explanation {
        number: 63,
        name: "Undefined",
        when: "`Loose::number`: a line uses a variable neither 0 nor defined; the first is named, counted from 0 from the latches to the gates, without justice sizes",
        remedy: "define the variable: dropping the line changes the circuit",
    },
    Explanation {
        number: 62,
        name: "Cycle",
        when: "`Loose::number`: a gate depends on itself; the first that does, or depends on one that does, is named, from 0",
        remedy: "mend what made it: a latch in the cycle makes another circuit",
    },
    Explanation {
        number: 43,
        name: "NoMemory",
        when: "out of memory",
        remedy: "add memory",
    },
];

/// Of the texts of circuits.
pub(super) const TEXTS: [Explanation; 14] = [
    Explanation {
        number: 60,
        name: "Device",
        when: "reading failed",
        remedy: "name a readable file",
    },
    Explanation {
        number: 61,
        name: "NoMemory",
        when: "out of memory",
        remedy: "add memory",
    },
    Explanation {
        number: 58,
        name: "Truncated",
        when: "a line has no line feed, or a line or a delta is missing",
        remedy: "fetch the whole file; end each line with a line feed",
    },
    Explanation {
        number: 50,
        name: "BadHeader",
        when: "the first line is not `aag` or `aig` and 5 to 9 decimals, one space apart",
        remedy: "write `aag` or `aig` and `M I L O A`, then `B C J F` where not 0",
    },
    Explanation {
        number: 59,
        name: "TooBig",
        when: "a header number, or the sum of justice sizes, is above 2^30",
        remedy: "as 80; check the header",
    },
    Explanation {
        number: 51,
        name: "CountsDisagree",
        when: "M is not I + L + A, in the ascii form is below it",
        remedy: "correct M; check that no line is missing",
    },
    Explanation {
        number: 52,
        name: "BadNumber",
        when: "an input is no decimal that defines a new variable up to M; another line is no decimal up to 2M + 1, of justice sizes no decimal; an ascii gate is not three decimals, the last two up to 2M + 1",
        remedy: "write one number a line; name variables up to M",
    },
    Explanation {
        number: 53,
        name: "BadLatch",
        when: "a latch is not two or three decimals (binary: one or two); its literal defines no new variable; its next is above 2M + 1; or its reset is not 0, 1 or its own literal",
        remedy: "write it as FORMATS has it; where its first bit is another literal, use a latch that is 1 in the first frame alone, as with 11",
    },
    Explanation {
        number: 54,
        name: "GateOrder",
        when: "an ascii gate's literal defines no new variable; a binary first delta is 0 or above the gate's literal, or a second is above its first operand",
        remedy: "define each variable once",
    },
    Explanation {
        number: 56,
        name: "DeltaTooLong",
        when: "a delta's first five bytes all have the top bit",
        remedy: "fetch the whole file",
    },
    Explanation {
        number: 55,
        name: "DeltaNotShortest",
        when: "a delta of more than one byte ends in byte 0",
        remedy: "write deltas in the fewest bytes",
    },
    Explanation {
        number: 63,
        name: "Undefined",
        when: "an ascii line uses a variable neither 0 nor defined",
        remedy: "define the variable: dropping the line changes the circuit",
    },
    Explanation {
        number: 62,
        name: "Cycle",
        when: "an ascii gate depends on itself, or on one that does",
        remedy: "mend what made it: a latch in the cycle makes another circuit; in Yosys `check` tells where a design has one",
    },
    Explanation {
        number: 57,
        name: "BadSymbol",
        when: "a line behind the gates is neither `c` nor an existing position's first name, of 1 to 300 bytes from 32 to 126",
        remedy: "name each position once: `<letter><position> <name>`; for ABC's comment on the line `c` use `&w -n`, or `write_aiger` without `-u`; cut longer names, or drop all (Yosys: `write_aiger` without `-symbols`)",
    },
];

/// Of counterexamples over engine forms.
pub(super) const COUNTEREXAMPLES: [Explanation; 7] = [
    Explanation {
        number: 150,
        name: "NoFrame",
        when: "the text ends before a frame",
        remedy: "fetch the whole file; in ABC use `write_cex -a`",
    },
    Explanation {
        number: 151,
        name: "InitialOne",
        when: "an initial bit is 1",
        remedy: "in ABC use `write_cex -a`, a line per frame; let engines begin the form's latches with 0",
    },
    Explanation {
        number: 152,
        name: "NoBit",
        when: "a byte is no bit",
        remedy: "write `0` and `1` alone, and `#` before anything else",
    },
    Explanation {
        number: 153,
        name: "WrongLength",
        when: "a frame has not one bit per input of the form",
        remedy: "take the text of this form: same circuit or model, same `--bad`",
    },
    Explanation {
        number: 154,
        name: "NoMemory",
        when: "out of memory",
        remedy: "add memory",
    },
    Explanation {
        number: 155,
        name: "Device",
        when: "reading failed",
        remedy: "name a readable file",
    },
    Explanation {
        number: 156,
        name: "Write",
        when: "writing failed",
        remedy: "make room; keep the output open",
    },
];
