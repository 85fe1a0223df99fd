//! Judging vectors of operators.

ghost use Rattle.std.specs.Prelude.{◌≡◌, ◌≢◌, ◌≤◌, ◌⊎◌, ◌++◌, ◌∷◌, List, [], length, flat_map, IfOk, IfErr, OnOk, All};
ghost use Rattle.std.specs.String.{string_bytes};
ghost use Rattle.blast.specs.Lowering.{Lowers};
ghost use Rattle.vectors.specs.declared.lines.Vector.{Vector};
ghost use Rattle.vectors.specs.Vectors.{IsVector, IfBad, IsFirstBad, IsReportOf, TellsVectors, vector_value, word_expected, report, differs_line, numbered, lines_that_differ};
ghost use Rattle.vectors.specs.OperatorModels.{items_of};
ghost use Rattle.vectors.specs.CircuitRuns.{IsRunOf};

use crate::circuits::{circuit_word, operator_circuit, operator_run};
use crate::lines::{LinesFault, Numbered, Vector, read_vectors};
use aiger::Circuit;
use base::{Tally, binary, unary};
use runs::BitRun;
use std::alloc::{AllocError, Global};

/// What is told of the vectors of a text.
#[derive(Drop)]
pub struct Report {
    /// A line for each vector that differs, and one that says how many agree.
    pub text: String,
    /// Whether each operator gives the word that its vector says.
    pub all_agree: bool,
}

/// The word that the evaluator gives for a vector's operands.
fn evaluated(alloc: Global, vector: Vector) -> u64
    requires { IsVector vector }
    ensures { result ≡ vector_value vector }
{
    let mut tally = Tally::new(alloc);
    match vector {
        Vector::Unary {
            operator,
            width,
            operand,
            ..
        } => unary(operator, width, operand, &mut tally),
        Vector::Binary {
            operator,
            width,
            left,
            right,
            ..
        } => binary(operator, width, left, right, &mut tally),
    }
}

/// The word that a vector says to come.
fn said(vector: Vector) -> u64
    ensures { result ≡ word_expected vector }
{
    match vector {
        Vector::Unary { result, .. } | Vector::Binary { result, .. } => result,
    }
}

/// Notes the line of a vector where the evaluator or the circuit gives another word than it says.
fn note(
    alloc: Global,
    vector: &Numbered,
    run: &mut BitRun<'_>,
    circuit: &Circuit,
    lines: &mut Vec<u64>,
) -> Result<(), AllocError>
    requires lowers { Lowers (items_of vector.now.vector) circuit.now }
    requires run { IsRunOf circuit.now run.old }
    ensures same { IsRunOf circuit.now run.new }
    ensures noted { OnOk result (lines.new.items ≡ lines.old.items
        ++ lines_that_differ (vector.now ∷ [])) }
{
    let said = said(vector.vector());
    let word = evaluated(alloc, vector.vector());
    if word == said && circuit_word(run, circuit, vector.vector()) == said {
        return Ok(());
    }
    match lines.push(vector.line()) {
        Ok(()) => Ok(()),
        Err(_) => Err(AllocError),
    }
}

/// Notes the lines that differ of the vectors at the front that are of the operator and width of one, by a run of the
/// circuit of these, and answers the vectors behind.
#[tactic(auto, using(crate::proofs::DifferingLemmas::noted_more))]
fn note_alike<'a>(
    alloc: Global,
    kind: &Numbered,
    vectors: &'a [Numbered],
    run: &mut BitRun<'_>,
    circuit: &Circuit,
    lines: &mut Vec<u64>,
) -> Result<&'a [Numbered], AllocError>
    requires lowers { Lowers (items_of kind.now.vector) circuit.now }
    requires run { IsRunOf circuit.now run.old }
    ensures noted { IfOk result (λ rest. lines.new.items ++ lines_that_differ rest.now
        ≡ lines.old.items ++ lines_that_differ vectors.now) }
    ensures behind { IfOk result (λ rest. length rest.now ≤ length vectors.now) }
{
    let mut rest = vectors;
    while let [vector, behind @ ..] = rest {
        if !kind.is_alike(vector) {
            return Ok(rest);
        }
        note(alloc, vector, run, circuit, lines)?;
        rest = behind;
    }
    Ok(rest)
}

/// The same of a vector and of those behind it, by the circuit of its operator and width.
fn note_by<'a>(
    alloc: Global,
    first: &Numbered,
    vectors: &'a [Numbered],
    circuit: &Circuit,
    lines: &mut Vec<u64>,
) -> Result<&'a [Numbered], AllocError>
    requires { Lowers (items_of first.now.vector) circuit.now }
    ensures noted { IfOk result (λ rest. lines.new.items ++ lines_that_differ rest.now
        ≡ lines.old.items ++ lines_that_differ (first.now ∷ vectors.now)) }
    ensures behind { IfOk result (λ rest. length rest.now ≤ length vectors.now) }
{
    let mut run = operator_run(alloc, circuit, first.vector())?;
    note(alloc, first, &mut run, circuit, lines)?;
    note_alike(alloc, first, vectors, &mut run, circuit, lines)
}

/// Notes the lines that differ of a vector and of those behind it that are of its operator and width, by one circuit, and
/// answers the vectors behind.
fn note_kind<'a>(
    alloc: Global,
    first: &Numbered,
    vectors: &'a [Numbered],
    lines: &mut Vec<u64>,
) -> Result<&'a [Numbered], AllocError>
    ensures noted { IfOk result (λ rest. lines.new.items ++ lines_that_differ rest.now
        ≡ lines.old.items ++ lines_that_differ (first.now ∷ vectors.now)) }
    ensures behind { IfOk result (λ rest. length rest.now ≤ length vectors.now) }
{
    let circuit = operator_circuit(alloc, first.vector())?;
    note_by(alloc, first, vectors, &circuit, lines)
}

/// Notes the lines that differ of vectors, kind by kind where they stand together.
fn note_all(alloc: Global, vectors: &[Numbered], lines: &mut Vec<u64>) -> Result<(), AllocError>
    ensures { OnOk result (lines.new.items ≡ lines.old.items ++ lines_that_differ vectors.now) }
{
    let mut rest = vectors;
    while let [first, behind @ ..] = rest {
        rest = note_kind(alloc, first, behind, lines)?;
    }
    Ok(())
}

/// The lines, in order, of the vectors for which the evaluator or the circuit gives another word than they say.
fn differing(alloc: Global, vectors: &mut Vec<Numbered>) -> Result<Vec<u64>, AllocError>
    ensures lines { IfOk result (λ lines. (all : List Vector) → vectors.old.items ≡ numbered 1 all
        → lines.items ≡ lines_that_differ (numbered 1 all)) }
    ensures kept { length vectors.new.items ≡ length vectors.old.items }
{
    vectors.sort_unstable_by_key(|vector| vector.kind());
    let mut lines = Vec::new(alloc);
    note_all(alloc, vectors.as_slice(), &mut lines)?;
    lines.sort_unstable();
    Ok(lines)
}

/// A line for each vector that differs, by the number of its line.
#[tactic(auto, using(crate::proofs::VectorLemmas::none_behind))]
fn differing_lines(alloc: Global, differing: &[u64]) -> Result<String, AllocError>
    ensures { IfOk result (λ text. string_bytes text ≡ flat_map differs_line differing.now) }
{
    let mut text = String::new(alloc);
    let mut rest = differing;
    while let [line, behind @ ..] = rest {
        text.push_str(format!(in alloc; "line {line}: differs\n")?.as_str())?;
        rest = behind;
    }
    Ok(text)
}

/// What is told of vectors: a line for each that differs, and how many agree.
fn report_text(alloc: Global, differing: &[u64], count: usize) -> Result<String, AllocError>
    ensures { IfOk result (λ text. string_bytes text ≡ report differing.now count) }
{
    let mut text = differing_lines(alloc, differing)?;
    let agree = count.saturating_sub(differing.len());
    text.push_str(format!(in alloc; "{agree} of {count} vectors agree\n")?.as_str())?;
    Ok(text)
}

/// What is told of vectors, and whether all of them agree.
fn judged(alloc: Global, vectors: &mut Vec<Numbered>) -> Result<Report, AllocError>
    ensures { IfOk result (λ told. (all : List Vector) → vectors.old.items ≡ numbered 1 all
        → TellsVectors (string_bytes told.text) told.all_agree all) }
{
    let differing = differing(alloc, vectors)?;
    let text = report_text(alloc, differing.as_slice(), vectors.len())?;
    Ok(Report {
        text,
        all_agree: differing.is_empty(),
    })
}

/// Judges the vectors that the lines of a text write, each by the evaluator and by a run of the circuit that its operator
/// is lowered to.
///
/// Errors: `Bad` with the first line that writes no vector or has no byte 10, from 1; `NoMemory`. Nothing is evaluated
/// before all lines have been read.
pub fn judge_vectors(alloc: Global, text: &[u8]) -> Result<Report, LinesFault>
    ensures report { IfOk result
        (λ told. IsReportOf text.now (string_bytes told.text) told.all_agree) }
    ensures bad { IfErr result (IfBad (IsFirstBad text.now)) }
{
    let mut vectors = read_vectors(alloc, text)?;
    match judged(alloc, &mut vectors) {
        Ok(told) => Ok(told),
        Err(_) => Err(LinesFault::NoMemory),
    }
}
