//! Commands, and what stands in their place.

ghost use Rattle.std.specs.Prelude.{◌≡◌, []};
ghost use Rattle.std.specs.String.{string_bytes};

use crate::statuses::{DEVICE, DONE, WORDS_REFUSED};
use aigertext::Form;
use certificates::ProofForm;
use std::alloc::Global;
use vcd::Shown;

/// The file name that stands for standard input.
pub const STANDARD_INPUT: &str = "-";

/// The name of a result's file that stands for standard output.
pub const STANDARD_OUTPUT: &str = "-";

/// What the first file of a command on certificates gives.
#[derive(Clone, Copy, PartialEq, Eq)]
pub enum Given {
    /// A model, which is lowered.
    Model,
    /// A model of the whole language, which is fitted and lowered.
    Fitted,
    /// A circuit.
    Circuit,
}

/// Which models the first file of a command may be of.
#[derive(Clone, Copy, PartialEq, Eq)]
pub enum Language {
    /// Those of the profile.
    Profile,
    /// Those of the whole language, which are fitted.
    Whole,
}

/// What the second file of a command on certificates is.
#[derive(Clone, Copy, PartialEq, Eq)]
pub enum Certificate {
    /// An invariant of the engine form with the bad property.
    Invariant,
    /// A witness circuit of the circuit.
    Circuit,
    /// A witness circuit of its engine form with the bad property.
    CircuitOfForm,
}

/// The commands on a text that is read as it comes.
#[derive(Clone, Copy, PartialEq, Eq)]
pub enum TextTask {
    /// Lowers a model to a circuit.
    Lower,
    /// Writes the model of the profile that a model with words of any width is fitted into.
    Fit,
    /// Writes the strict text of a witness as tools write it: of the one with this number in the file, from 1.
    TidyWitness(u64),
    /// Judges vectors of operators.
    Vectors,
}

/// The commands on a model.
#[derive(Clone, Copy, PartialEq, Eq)]
pub enum ModelTask {
    /// Lowers it, and writes the engine form of its circuit: with all bad properties, or with the one at a position.
    LowerForEngines(Option<usize>),
    /// Fits it, where it is one of the whole language, and lowers that to a circuit.
    LowerFitted,
    /// The same, and writes the engine form of the circuit: with all bad properties, or with the one at a position.
    LowerFittedForEngines(Option<usize>),
    /// Judges a witness over it.
    CheckBtor,
    /// Writes its text in the writer's form.
    Show,
    /// The same, where it may be one of the whole language.
    ShowWhole,
    /// Tells how many gates and variables its lowering has at most.
    Cost,
    /// Fits it, where it is one of the whole language, and tells the same of that.
    CostFitted,
    /// Lifts a witness of its circuit, or of the circuit of what it is fitted into, to one of the model.
    Lift(Language),
    /// Lifts a counterexample in the form that ABC writes over the engine form of that circuit to a witness of the model; it
    /// claims the bad property at a position of the circuit, or the only one.
    LiftFound(Language, Option<usize>),
    /// Lifts a witness of the engine form of that circuit, with all bad properties or with the one at a position, to a witness
    /// of the model.
    LiftForm(Language, Option<usize>),
    /// Judges a witness over it, and dumps its frames.
    Wave(Shown),
    /// Judges a witness over it, where it may be one of the whole language.
    CheckFitted,
    /// Writes the witness of it, where it may have words of any width, that says what one of the fitted model says.
    Unfit,
    /// Writes the witness of the fitted model that says what one of it says, where it may have words of any width.
    Spread,
}

/// The commands on a circuit.
#[derive(Clone, Copy, PartialEq, Eq)]
pub enum CircuitTask {
    /// Writes it in a form.
    AigConvert,
    /// Writes its engine form, with all bad properties or with the one at a position.
    ConvertForEngines(Option<usize>),
    /// Writes it with its outputs as bad properties, in a form.
    ConvertOutputs,
    /// Writes the engine form of it with its outputs as bad properties, with all bad properties or with the one at a position.
    ConvertOutputsForEngines(Option<usize>),
    /// Judges a witness over it.
    CheckAig,
    /// Restores a counterexample over its engine form, in the form that ABC writes, to a witness of the circuit; it claims the
    /// bad property at a position of the circuit, or the only one.
    Restore(Option<usize>),
    /// Restores a witness of its engine form, with all bad properties or with the one at a position, to a witness of the
    /// circuit.
    RestoreForm(Option<usize>),
}

/// What a certificate is about: a bad property of what is given.
#[derive(Clone, Copy, PartialEq, Eq)]
pub struct Certified {
    /// What the first file gives.
    pub given: Given,
    /// What the second file is.
    pub by: Certificate,
    /// The position of the bad property; without one it is the only one.
    pub choice: Option<usize>,
}

/// The commands on a certificate.
#[derive(Clone, Copy, PartialEq, Eq)]
pub enum CertificateTask {
    /// Writes the formula that it owes.
    Obligation(Certified),
    /// Judges it, and a proof in this form of the formula that it owes.
    CheckProof(Certified, ProofForm),
}

/// The commands, by what they are on.
#[derive(Clone, Copy, PartialEq, Eq)]
pub enum Task {
    /// On a text that is read as it comes.
    Text(TextTask),
    /// On a model.
    Model(ModelTask),
    /// On a circuit.
    Circuit(CircuitTask),
    /// On a certificate of a bad property of a model or a circuit.
    Certificate(CertificateTask),
}

/// A command, the form of the circuits that it writes, and the names of its files.
#[derive(Clone, Copy)]
pub struct Order<'a> {
    /// The command.
    pub task: Task,
    /// Whether a command that judges says by name what the judgement is about, or one that lifts writes names behind words too.
    pub named: bool,
    /// Whether a command that judges writes an object of JSON in place of its line, also of what it refuses.
    pub as_json: bool,
    /// The bad property that a witness is to claim, for a command that judges one: its position, or its name.
    pub asked: Option<&'a str>,
    /// The form of a circuit that is written.
    pub form: Form,
    /// The name of the first file; `-` is standard input.
    pub first: &'a str,
    /// The name of the second file, for a command that has one; `-` is standard input.
    pub second: Option<&'a str>,
    /// The name of the third file, for a command that has one; `-` is standard input.
    pub third: Option<&'a str>,
    /// The name of the file that the result goes to; without one it goes to standard output.
    pub output: Option<&'a str>,
    /// Whether it is told how far work is that takes long.
    pub tells_progress: bool,
}

/// A list of judgements, which are made one behind the other.
#[derive(Clone, Copy)]
pub struct ListOrder<'a> {
    /// The name of the file that has a command that judges on each line; `-` is standard input.
    pub list: &'a str,
    /// Whether each judgement is told as an object of JSON.
    pub as_json: bool,
}

/// What the words of a command line ask for.
#[derive(Clone, Copy)]
pub enum Request<'a> {
    /// One command on its files.
    One(Order<'a>),
    /// The judgements of a list.
    Many(ListOrder<'a>),
}

/// What stands in place of a command: help or the version, refused words, or want of memory while the words are read.
#[derive(Drop)]
pub struct Stop {
    /// The exit status, where the text can be written: 0 for help and the version, 4 for refused words, 3 where there was
    /// no memory.
    pub status: u8,
    /// The text, whole lines; none where there was no memory.
    pub text: String,
}

impl Stop {
    /// Help or the version: the text goes to standard output.
    pub fn shown(text: String) -> Stop
        ensures status { result.status ≡ 0 }
        ensures text { result.text ≡ text }
    {
        Stop { status: DONE, text }
    }

    /// Refused words: the text goes to standard error.
    pub fn refused(text: String) -> Stop
        ensures status { result.status ≡ 4 }
        ensures text { result.text ≡ text }
    {
        Stop {
            status: WORDS_REFUSED,
            text,
        }
    }

    /// There was no memory to read the words, and none for a text.
    pub fn no_memory(alloc: Global) -> Stop
        ensures status { result.status ≡ 3 }
        ensures text { string_bytes result.text ≡ [] }
    {
        Stop {
            status: DEVICE,
            text: String::new(alloc),
        }
    }
}
