//! The table of the commands: the word of each, and the words that it has.

ghost use Rattle.std.specs.Prelude.{◌≡◌, map};
ghost use Rattle.std.specs.List.{find};
ghost use Rattle.std.specs.Str.{bytes_eq};
ghost use Rattle.wordings.specs.Table.{verbs, word_of, words_of};

/// The commands.
#[derive(Clone, Copy, PartialEq, Eq)]
pub enum Verb {
    /// `lower`
    Lower,
    /// `check-btor`
    CheckBtor,
    /// `show`
    Show,
    /// `cost`
    Cost,
    /// `fit`
    Fit,
    /// `unfit`
    Unfit,
    /// `aig-convert`
    AigConvert,
    /// `check-aig`
    CheckAig,
    /// `lift`
    Lift,
    /// `restore`
    Restore,
    /// `wave`
    Wave,
    /// `obligation`
    Obligation,
    /// `check-proof`
    CheckProof,
    /// `tidy-witness`
    TidyWitness,
    /// `vectors`
    Vectors,
    /// `judge`
    Judge,
}

/// What a word of a command is.
#[derive(Clone, Copy, PartialEq, Eq)]
pub enum Kind {
    /// It stands for a file.
    File,
    /// A flag.
    Flag,
    /// A flag that goes without `--names`.
    FlagWithoutNames,
    /// A flag that goes with a model, and so without `--aiger`.
    FlagOnModel,
    /// A flag that goes with `--circuit`.
    FlagWithCircuit,
    /// A flag that goes with `--engine`.
    FlagWithEngine,
    /// An option whose value is any text.
    Text,
    /// An option whose value is a position, from 0.
    Position,
    /// An option whose value is a position, from 0, and that goes with `--engine`.
    PositionWithEngine,
    /// An option whose value is a number, from 1.
    Number,
}

/// A word of a command: its name, and what it is.
#[derive(Clone, Copy)]
pub struct Word {
    /// The name; that of a file stands in help alone.
    pub name: &'static str,
    /// What it is.
    pub kind: Kind,
}

const MODEL_FILE: Word = Word {
    name: "MODEL",
    kind: Kind::File,
};

const QUIET: Word = Word {
    name: "quiet",
    kind: Kind::Flag,
};

const OUTPUT: Word = Word {
    name: "output",
    kind: Kind::Text,
};

const ASCII: Word = Word {
    name: "ascii",
    kind: Kind::Flag,
};

const BINARY: Word = Word {
    name: "binary",
    kind: Kind::Flag,
};

const ENGINE: Word = Word {
    name: "engine",
    kind: Kind::Flag,
};

const ENGINE_BAD: Word = Word {
    name: "bad",
    kind: Kind::PositionWithEngine,
};

const WITNESS_FILE: Word = Word {
    name: "WITNESS",
    kind: Kind::File,
};

const NAMES: Word = Word {
    name: "names",
    kind: Kind::Flag,
};

const ASKED_BAD: Word = Word {
    name: "bad",
    kind: Kind::Text,
};

const FIT: Word = Word {
    name: "fit",
    kind: Kind::FlagOnModel,
};

const BACK: Word = Word {
    name: "back",
    kind: Kind::FlagWithoutNames,
};

const JSON: Word = Word {
    name: "json",
    kind: Kind::Flag,
};

const CIRCUIT_FILE: Word = Word {
    name: "CIRCUIT",
    kind: Kind::File,
};

const OUTPUTS: Word = Word {
    name: "outputs",
    kind: Kind::Flag,
};

const ENGINE_ABC: Word = Word {
    name: "abc",
    kind: Kind::FlagWithEngine,
};

const ABC: Word = Word {
    name: "abc",
    kind: Kind::Flag,
};

const BAD: Word = Word {
    name: "bad",
    kind: Kind::Position,
};

const ALL: Word = Word {
    name: "all",
    kind: Kind::Flag,
};

const CERTIFICATE_FILE: Word = Word {
    name: "CERTIFICATE",
    kind: Kind::File,
};

const AIGER: Word = Word {
    name: "aiger",
    kind: Kind::Flag,
};

const CIRCUIT: Word = Word {
    name: "circuit",
    kind: Kind::Flag,
};

const CERTIFIED_ENGINE: Word = Word {
    name: "engine",
    kind: Kind::FlagWithCircuit,
};

const PROOF_FILE: Word = Word {
    name: "PROOF",
    kind: Kind::File,
};

const LRAT: Word = Word {
    name: "lrat",
    kind: Kind::Flag,
};

const PICK: Word = Word {
    name: "pick",
    kind: Kind::Number,
};

const FILE_FILE: Word = Word {
    name: "FILE",
    kind: Kind::File,
};

const LIST_FILE: Word = Word {
    name: "LIST",
    kind: Kind::File,
};

/// The commands, in the order in which help lists them.
const VERBS: [Verb; 16] = [
    Verb::Lower,
    Verb::CheckBtor,
    Verb::Show,
    Verb::Cost,
    Verb::Fit,
    Verb::Unfit,
    Verb::AigConvert,
    Verb::CheckAig,
    Verb::Lift,
    Verb::Restore,
    Verb::Wave,
    Verb::Obligation,
    Verb::CheckProof,
    Verb::TidyWitness,
    Verb::Vectors,
    Verb::Judge,
];

/// The commands, in the order in which help lists them.
pub fn verbs() -> &'static [Verb]
    ensures { result.now ≡ verbs }
{
    &VERBS
}

/// The word of a command.
pub fn word_of(verb: Verb) -> &'static str
    ensures { result.now ≡ word_of verb }
{
    match verb {
        Verb::Lower => "lower",
        Verb::CheckBtor => "check-btor",
        Verb::Show => "show",
        Verb::Cost => "cost",
        Verb::Fit => "fit",
        Verb::Unfit => "unfit",
        Verb::AigConvert => "aig-convert",
        Verb::CheckAig => "check-aig",
        Verb::Lift => "lift",
        Verb::Restore => "restore",
        Verb::Wave => "wave",
        Verb::Obligation => "obligation",
        Verb::CheckProof => "check-proof",
        Verb::TidyWitness => "tidy-witness",
        Verb::Vectors => "vectors",
        Verb::Judge => "judge",
    }
}

/// The words that a command has, in the order in which help lists them; those that stand for files are in the order of its
/// files.
pub fn words_of(verb: Verb) -> &'static [Word]
    ensures { map (λ word. (word.name.now, word.kind)) result.now ≡ words_of verb }
{
    match verb {
        Verb::Lower => &[
            MODEL_FILE, QUIET, OUTPUT, ASCII, BINARY, ENGINE, ENGINE_BAD, FIT,
        ],
        Verb::CheckBtor => &[MODEL_FILE, QUIET, WITNESS_FILE, NAMES, ASKED_BAD, JSON, FIT],
        Verb::Show => &[MODEL_FILE, QUIET, OUTPUT, FIT],
        Verb::Cost => &[MODEL_FILE, QUIET, FIT],
        Verb::Fit => &[MODEL_FILE, QUIET, OUTPUT],
        Verb::Unfit => &[MODEL_FILE, QUIET, WITNESS_FILE, OUTPUT, NAMES, BACK],
        Verb::AigConvert => &[
            CIRCUIT_FILE,
            QUIET,
            OUTPUT,
            ASCII,
            BINARY,
            OUTPUTS,
            ENGINE,
            ENGINE_BAD,
        ],
        Verb::CheckAig => &[CIRCUIT_FILE, QUIET, WITNESS_FILE, NAMES, ASKED_BAD, JSON],
        Verb::Lift => &[
            MODEL_FILE,
            QUIET,
            WITNESS_FILE,
            OUTPUT,
            NAMES,
            ENGINE,
            ENGINE_ABC,
            ENGINE_BAD,
            FIT,
        ],
        Verb::Restore => &[CIRCUIT_FILE, QUIET, WITNESS_FILE, OUTPUT, ABC, BAD],
        Verb::Wave => &[MODEL_FILE, QUIET, WITNESS_FILE, OUTPUT, ALL],
        Verb::Obligation => &[
            MODEL_FILE,
            QUIET,
            OUTPUT,
            CERTIFICATE_FILE,
            AIGER,
            CIRCUIT,
            CERTIFIED_ENGINE,
            BAD,
            FIT,
        ],
        Verb::CheckProof => &[
            MODEL_FILE,
            QUIET,
            NAMES,
            CERTIFICATE_FILE,
            AIGER,
            CIRCUIT,
            CERTIFIED_ENGINE,
            BAD,
            PROOF_FILE,
            LRAT,
            JSON,
            FIT,
        ],
        Verb::TidyWitness => &[WITNESS_FILE, QUIET, OUTPUT, PICK],
        Verb::Vectors => &[FILE_FILE, QUIET],
        Verb::Judge => &[LIST_FILE, JSON],
    }
}

/// The first of some commands that has this word.
fn first_of(word: &str, among: &[Verb]) -> Option<Verb>
    ensures { result ≡ find (λ v. bytes_eq (word_of v) word.now) among.now }
{
    match among.split_first() {
        Some((verb, behind)) => {
            if word_of(*verb) == word {
                Some(*verb)
            } else {
                first_of(word, behind)
            }
        }
        None => None,
    }
}

/// The command of a word.
pub fn verb_of(word: &str) -> Option<Verb>
    ensures { result ≡ find (λ v. bytes_eq (word_of v) word.now) verbs }
{
    first_of(word, &VERBS)
}
