//! What help says of the commands and their words.

use wordings::{Kind, Verb, Word, verbs, word_of, words_of};

/// The word of a command, and how many files it has.
#[derive(Clone, Copy)]
pub struct CommandFiles {
    /// The word.
    pub word: &'static str,
    /// How many files there are.
    pub files: usize,
}

/// The command at a place of the table, from 0; none behind the last.
pub fn command_at(place: usize) -> Option<CommandFiles> {
    let verb = *verbs().get(place)?;
    let is_file = |word: &&Word| word.kind == Kind::File;
    Some(CommandFiles {
        word: word_of(verb),
        files: words_of(verb).iter().filter(is_file).count(),
    })
}

/// What help says of a command.
pub(crate) fn about(verb: Verb) -> &'static str {
    match verb {
        Verb::Lower => "Lower a BTOR2 model to an AIGER circuit on standard output",
        Verb::CheckBtor => "Judge a BTOR2 witness over a model",
        Verb::Show => "Write a BTOR2 model in the one spelling that this program gives",
        Verb::Cost => "Tell how many gates and variables the circuit of a BTOR2 model has at most",
        Verb::Fit =>
            "Write a BTOR2 model of the whole language as one of words of at most 64 bits, whose bad properties can rise in as many frames",
        Verb::Unfit =>
            "Write the BTOR2 witness of a model that says what one of the model that fit writes of it says, or with --back the other way round",
        Verb::AigConvert =>
            "Write an AIGER circuit of either form in one, its variables numbered as in the binary form",
        Verb::CheckAig => "Judge an AIGER witness over a circuit",
        Verb::Lift =>
            "Lift an AIGER witness of a model's circuit to a BTOR2 witness on standard output",
        Verb::Restore =>
            "Restore a witness of the engine form of a circuit to an AIGER witness of the circuit on standard output",
        Verb::Wave =>
            "Judge a BTOR2 witness over a model, and write its frames as a value change dump (VCD) to standard output",
        Verb::Obligation =>
            "Write the formula that nothing satisfies where an invariant or a witness circuit shows that a bad property never rises, in DIMACS on standard output",
        Verb::CheckProof =>
            "Judge an invariant or a witness circuit, and a proof of its obligation: whether a bad property never rises",
        Verb::TidyWitness =>
            "Write the strict text of a witness as tools write it, for check-btor, check-aig and the others: blanks at a line's end, stray lines, comments and what stands behind the witness go, and x becomes 0, one of the runs that it stands for",
        Verb::Vectors =>
            "Compare what operators give, in the evaluator and in a circuit, with lines of vectors",
        Verb::Judge =>
            "Make many judgements, one behind the other: a line of a list has the words of check-btor, check-aig or check-proof",
    }
}

/// The name that help gives to the value of an option.
pub(crate) fn value_name(name: &str) -> &'static str {
    match name {
        "output" => "FILE",
        "pick" => "N",
        _ => "K",
    }
}

/// What help says of a word of some commands, or of all others that have it.
#[derive(Clone, Copy)]
struct HelpLine {
    name: &'static str,
    verbs: &'static [Verb],
    text: &'static str,
}

/// What help says of words; of those of a name the first that is of the command.
static HELPS: [HelpLine; 44] = [
    HelpLine {
        name: "MODEL",
        verbs: &[],
        text: "The file of a BTOR2 model, or - for standard input",
    },
    HelpLine {
        name: "quiet",
        verbs: &[],
        text: "Do not tell on a terminal how far work is that takes more than two seconds",
    },
    HelpLine {
        name: "output",
        verbs: &[],
        text: "Write to this file, or to what it leads to as a link, which is made or replaced only when all is written; a run that is killed may leave FILE.PROCESS.part beside it, which may be removed; - is standard output",
    },
    HelpLine {
        name: "ascii",
        verbs: &[],
        text: "Write the ascii form (the default)",
    },
    HelpLine {
        name: "binary",
        verbs: &[],
        text: "Write the binary form",
    },
    HelpLine {
        name: "engine",
        verbs: &[Verb::Lift],
        text: "The witness is one of the engine form of the model's circuit",
    },
    HelpLine {
        name: "engine",
        verbs: &[Verb::Lower, Verb::AigConvert],
        text: "Write a circuit that every engine reads alike: latches begin with 0, and there are bad properties alone",
    },
    HelpLine {
        name: "engine",
        verbs: &[],
        text: "The witness circuit is one of the engine form of the circuit with the bad property",
    },
    HelpLine {
        name: "bad",
        verbs: &[Verb::CheckBtor],
        text: "Accept only a witness that claims the bad property at this position, from 0, or of this symbol",
    },
    HelpLine {
        name: "bad",
        verbs: &[Verb::CheckAig],
        text: "Accept only a witness that claims the bad property at this position, from 0, or of this name",
    },
    HelpLine {
        name: "bad",
        verbs: &[Verb::Lift],
        text: "With --engine, the position of the bad property that the form was made for, from 0; with --abc it says which is claimed, and is needed where the model has more than one",
    },
    HelpLine {
        name: "bad",
        verbs: &[Verb::Restore],
        text: "The position of the bad property that the form was made for, from 0; with --abc it says which is claimed, and is needed where the circuit has more than one",
    },
    HelpLine {
        name: "bad",
        verbs: &[Verb::Lower, Verb::AigConvert],
        text: "With --engine, keep the bad property at this position alone, from 0",
    },
    HelpLine {
        name: "bad",
        verbs: &[],
        text: "The position of the bad property that is claimed, from 0; needed where there is more than one",
    },
    HelpLine {
        name: "WITNESS",
        verbs: &[Verb::Restore],
        text: "The file of an AIGER witness of the engine form, or with --abc of what ABC writes, or - for standard input",
    },
    HelpLine {
        name: "WITNESS",
        verbs: &[Verb::TidyWitness],
        text: "The file of a witness of a model or a circuit, as tools write it, or - for standard input",
    },
    HelpLine {
        name: "WITNESS",
        verbs: &[Verb::CheckBtor, Verb::Wave],
        text: "The file of a BTOR2 witness, or - for standard input",
    },
    HelpLine {
        name: "WITNESS",
        verbs: &[Verb::Unfit],
        text: "The file of a BTOR2 witness of the model that fit writes, or with --back of the model, or - for standard input",
    },
    HelpLine {
        name: "WITNESS",
        verbs: &[],
        text: "The file of an AIGER witness, or - for standard input",
    },
    HelpLine {
        name: "names",
        verbs: &[Verb::CheckBtor],
        text: "Say on standard error which line of the model the judgement is about, by its symbol and its id; of an accepted witness, in which frame each claim is reached first",
    },
    HelpLine {
        name: "names",
        verbs: &[Verb::CheckAig],
        text: "Say on standard error which name the judgement is about; of an accepted witness, in which frame each claim is reached first",
    },
    HelpLine {
        name: "names",
        verbs: &[Verb::Lift],
        text: "Write symbols behind words, and say on standard error which line of the model the judgement is about; of an accepted witness, in which frame the claim is reached first",
    },
    HelpLine {
        name: "names",
        verbs: &[Verb::Unfit],
        text: "Write symbols behind words",
    },
    HelpLine {
        name: "names",
        verbs: &[],
        text: "Say on standard error which line of the model, or name of the circuit, the bad property is that holds",
    },
    HelpLine {
        name: "fit",
        verbs: &[Verb::CheckBtor],
        text: "Take what fit takes, a model of the whole language; the witness is one of it",
    },
    HelpLine {
        name: "fit",
        verbs: &[Verb::Show],
        text: "Take a model of the whole language, with words of any width and arrays",
    },
    HelpLine {
        name: "fit",
        verbs: &[Verb::Lift],
        text: "Take what fit takes, a model of the whole language, which is fitted first; the witness that is written is one of it",
    },
    HelpLine {
        name: "fit",
        verbs: &[],
        text: "Take what fit takes: a model of the whole language, which is fitted first",
    },
    HelpLine {
        name: "back",
        verbs: &[],
        text: "Write the witness of the model that fit writes that says what one of the model says",
    },
    HelpLine {
        name: "CIRCUIT",
        verbs: &[],
        text: "The file of an AIGER circuit of either form, or - for standard input",
    },
    HelpLine {
        name: "outputs",
        verbs: &[],
        text: "Make each output a bad property, behind those that there are and under its name, as for circuits of before AIGER 1.9",
    },
    HelpLine {
        name: "abc",
        verbs: &[Verb::Lift],
        text: "With --engine, the counterexample is in the form that ABC writes",
    },
    HelpLine {
        name: "abc",
        verbs: &[],
        text: "The witness is a counterexample in the form that ABC writes by write_cex -a",
    },
    HelpLine {
        name: "all",
        verbs: &[],
        text: "Show every node that has a value, not only those with a symbol",
    },
    HelpLine {
        name: "CERTIFICATE",
        verbs: &[],
        text: "The file of an invariant over the engine form of the bad property, as ABC writes it by pdr -d -I, or with --circuit of a witness circuit, or - for standard input",
    },
    HelpLine {
        name: "aiger",
        verbs: &[],
        text: "The first file is an AIGER circuit of either form",
    },
    HelpLine {
        name: "circuit",
        verbs: &[],
        text: "The certificate is a witness circuit, in AIGER of either form, whose inputs and latches named = N stand for literal N of the circuit",
    },
    HelpLine {
        name: "PROOF",
        verbs: &[],
        text: "The file of a proof of the obligation, in DRAT or with --lrat in LRAT, as text or binary, or - for standard input",
    },
    HelpLine {
        name: "lrat",
        verbs: &[],
        text: "The proof has hints: each step is judged by its hints alone, in time linear in them",
    },
    HelpLine {
        name: "pick",
        verbs: &[],
        text: "Of several witnesses in the file take this one, from 1; without it the first",
    },
    HelpLine {
        name: "FILE",
        verbs: &[],
        text: "The file of vector lines, or - for standard input",
    },
    HelpLine {
        name: "json",
        verbs: &[Verb::Judge],
        text: "Tell each judgement as an object of JSON, and last the counts",
    },
    HelpLine {
        name: "json",
        verbs: &[],
        text: "Write an object of JSON in place of the line, also of what is refused",
    },
    HelpLine {
        name: "LIST",
        verbs: &[],
        text: "The file of the list, or - for standard input",
    },
];

/// What help says of a word of a command.
pub(crate) fn help(verb: Verb, name: &str) -> &'static str {
    let is_of = |line: &&HelpLine| {
        line.name == name && (line.verbs.is_empty() || line.verbs.contains(&verb))
    };
    match HELPS.iter().find(is_of) {
        Some(line) => line.text,
        None => "",
    }
}
