//! Refusals of proofs, invariants, certificates and witness circuits.

use super::Explanation;

/// Of formulas, and proofs over them.
pub(super) const PROOFS: [Explanation; 10] = [
    Explanation {
        number: 160,
        name: "NoMemory",
        when: "out of memory for a judge of proofs",
        remedy: "add memory",
    },
    Explanation {
        number: 161,
        name: "BadWord",
        when: "a word is no literal, no `0` ending a step, no `d` beginning one",
        remedy: "check that the file is a whole DRAT proof, text or binary",
    },
    Explanation {
        number: 162,
        name: "BadVariable",
        when: "a literal's variable is none of the formula's: another formula's, or one that the solver made",
        remedy: "take the proof of this formula; let the solver make no variables: `--no-factor` in Kissat, and in CaDiCaL where it has that option, `--bva 0` in CryptoMiniSat; no extended resolution",
    },
    Explanation {
        number: 163,
        name: "CutOff",
        when: "the text ends within a step",
        remedy: "fetch the whole file",
    },
    Explanation {
        number: 164,
        name: "TooLong",
        when: "there are more than 2^62 lines",
        remedy: "shorten the proof",
    },
    Explanation {
        number: 165,
        name: "BadLiteral",
        when: "a clause's literal is of none of the formula's variables",
        remedy: "count the formula's variables anew",
    },
    Explanation {
        number: 166,
        name: "NoMemory",
        when: "out of memory for a formula",
        remedy: "add memory",
    },
    Explanation {
        number: 167,
        name: "BadId",
        when: "a step with hints has an id that is not above those before",
        remedy: "number the clauses in their order, those of the formula from 1",
    },
    Explanation {
        number: 168,
        name: "NoClause",
        when: "a hint names a clause that does not stand",
        remedy: "name clauses that were given and not taken away",
    },
    Explanation {
        number: 169,
        name: "RatStep",
        when: "a hint has a minus: the step is one by resolution on a literal (RAT), which has no meaning here",
        remedy: "ask for a proof without such steps: `cadical --lrat` without options that make them; or take one without hints",
    },
];

/// Of invariants, and certificates.
pub(super) const INVARIANTS: [Explanation; 19] = [
    Explanation {
        number: 180,
        name: "BadInputs",
        when: "the latch count's line is not `.i` and a decimal",
        remedy: "take what ABC writes by `pdr -d -I`",
    },
    Explanation {
        number: 181,
        name: "BadOutputs",
        when: "the line behind it is not `.o 1`",
        remedy: "as 180",
    },
    Explanation {
        number: 182,
        name: "BadCount",
        when: "the cube count's line is not `.p` and a decimal",
        remedy: "as 180",
    },
    Explanation {
        number: 183,
        name: "BadNames",
        when: "the names' line is not `.ilb` and names, each `lo` and digits",
        remedy: "let ABC read the binary engine form, which has no names",
    },
    Explanation {
        number: 184,
        name: "NoSuchLatch",
        when: "a name is of no latch of the engine form",
        remedy: "take the invariant of this model and bad property",
    },
    Explanation {
        number: 185,
        name: "NamedTwice",
        when: "a latch is named twice",
        remedy: "name each latch once",
    },
    Explanation {
        number: 186,
        name: "WrongNames",
        when: "the number of names is not the latch count",
        remedy: "fetch the whole file",
    },
    Explanation {
        number: 187,
        name: "BadOutput",
        when: "the output name's line is not `.ob`, a blank and a word, which may be empty",
        remedy: "as 180",
    },
    Explanation {
        number: 188,
        name: "BadCube",
        when: "a cube's line is not bytes `0`, `1` and `-`, a blank and `1`",
        remedy: "as 180",
    },
    Explanation {
        number: 189,
        name: "WrongLength",
        when: "a cube's length is not the latch count",
        remedy: "fetch the whole file",
    },
    Explanation {
        number: 190,
        name: "HoldsAtStart",
        when: "a cube has no `1`, so the first state, all 0, is in it",
        remedy: "it is no invariant of an engine form: take what ABC's `pdr -d -I` writes over this property's form once that is proved",
    },
    Explanation {
        number: 191,
        name: "WrongCubes",
        when: "the number of cubes is not the cube count",
        remedy: "fetch the whole file",
    },
    Explanation {
        number: 192,
        name: "BehindEnd",
        when: "a line follows the end",
        remedy: "cut the file behind `.e`",
    },
    Explanation {
        number: 193,
        name: "CutOff",
        when: "the text ends before `.e`",
        remedy: "fetch the whole file",
    },
    Explanation {
        number: 194,
        name: "NoMemory",
        when: "out of memory for an invariant",
        remedy: "add memory",
    },
    Explanation {
        number: 195,
        name: "Device",
        when: "reading the invariant failed",
        remedy: "name a readable file",
    },
    Explanation {
        number: 196,
        name: "TooBig",
        when: "the engine form's variables and the cubes sum to more than 2^31 - 4",
        remedy: "take an invariant of fewer cubes",
    },
    Explanation {
        number: 197,
        name: "NoMemory",
        when: "out of memory for an obligation",
        remedy: "add memory",
    },
    Explanation {
        number: 198,
        name: "Device",
        when: "reading the proof failed",
        remedy: "name a readable file",
    },
];

/// Of witness circuits.
pub(super) const WITNESS_CIRCUITS: [Explanation; 8] = [
    Explanation {
        number: 210,
        name: "Justice",
        when: "it has a justice property",
        remedy: "take justice properties out: it is about its one property alone",
    },
    Explanation {
        number: 211,
        name: "Fair",
        when: "it has a fairness constraint",
        remedy: "take fairness constraints out: only justice properties need them",
    },
    Explanation {
        number: 212,
        name: "NoProperty",
        when: "it has neither a bad property nor an output",
        remedy: "check that the file is a whole witness circuit",
    },
    Explanation {
        number: 213,
        name: "SeveralProperties",
        when: "it has several bad properties, or none and several outputs",
        remedy: "write it with one bad property, the disjunction of them",
    },
    Explanation {
        number: 214,
        name: "NoSuchLiteral",
        when: "a name `= N` of an input or latch says no literal of the circuit",
        remedy: "take this circuit's witness circuit, with its literals' numbers",
    },
    Explanation {
        number: 215,
        name: "NoSuchBad",
        when: "the circuit has no bad property of this number",
        remedy: "as 142",
    },
    Explanation {
        number: 216,
        name: "TooBig",
        when: "the test's inputs and bound on gates sum to more than 2^30",
        remedy: "as 80, for both circuits",
    },
    Explanation {
        number: 217,
        name: "NoMemory",
        when: "out of memory for a test",
        remedy: "add memory",
    },
];
