//! What judges answer of texts that are fed to them in pieces, and what they have counted then.
use aiger::Circuit;
use btor2::Model;
use runs::NewFault;
use std::alloc::Global;
use witness::{BitJudge, Judgement, Why, WordJudge, judge_words};

/// What witnesses are of.
#[derive(Clone, Copy)]
pub enum Over<'a> {
    Model(&'a Model),
    Circuit(&'a Circuit),
}

/// What a judge has counted: the words or bits that it holds, its steps, the closed frames and the admitted lines.
pub type Counts = (u64, u128, u64, u64);

/// What is judged of a text: a judgement, or its faulty line and why.
pub type Wanted = Result<Judgement, (u64, Why)>;

/// The judgement that is wanted.
pub fn judgement_of(wanted: &Wanted) -> Judgement {
    match *wanted {
        Ok(judgement) => judgement,
        Err((line, why)) => Judgement::Malformed { line, why },
    }
}

/// What a judge of models' witnesses that is fed so many bytes, and the rest in pieces of so many, has counted and judged.
fn words_judged(
    alloc: Global,
    model: &Model,
    text: &[u8],
    first: usize,
    size: usize,
) -> Result<(Counts, Judgement), NewFault> {
    let mut judge = WordJudge::new(alloc, model)?;
    let (front, rest) = text.split_at(first.min(text.len()));
    judge.feed(front);
    for piece in rest.chunks(size.max(1)) {
        judge.feed(piece);
    }
    Ok((counts_of_words(&judge), judge.finish()))
}

/// What a judge of models' witnesses has counted.
fn counts_of_words(judge: &WordJudge<'_>) -> Counts {
    (
        judge.held(),
        judge.steps(),
        judge.closed_frames(),
        judge.admitted_lines(),
    )
}

/// What a judge of circuits' witnesses has counted.
fn counts_of_bits(judge: &BitJudge<'_>) -> Counts {
    (
        judge.held(),
        judge.steps(),
        judge.closed_frames(),
        judge.admitted_lines(),
    )
}

/// What a judge of circuits' witnesses that is fed so many bytes, and the rest in pieces of so many, has counted and judged.
fn bits_judged(
    alloc: Global,
    circuit: &Circuit,
    text: &[u8],
    first: usize,
    size: usize,
) -> Result<(Counts, Judgement), NewFault> {
    let mut judge = BitJudge::new(alloc, circuit)?;
    let (front, rest) = text.split_at(first.min(text.len()));
    judge.feed(front);
    for piece in rest.chunks(size.max(1)) {
        judge.feed(piece);
    }
    Ok((counts_of_bits(&judge), judge.finish()))
}

/// What a judge that is fed so many bytes of a text, and the rest in pieces of so many, has counted, and its judgement.
pub fn judged(
    alloc: Global,
    over: Over<'_>,
    text: &[u8],
    first: usize,
    size: usize,
) -> Result<(Counts, Judgement), NewFault> {
    match over {
        Over::Model(model) => words_judged(alloc, model, text, first, size),
        Over::Circuit(circuit) => bits_judged(alloc, circuit, text, first, size),
    }
}

/// Whether a text that is fed so is judged so.
pub fn is_judged(
    alloc: Global,
    over: Over<'_>,
    text: &[u8],
    first: usize,
    size: usize,
    wanted: &Judgement,
) -> bool {
    match judged(alloc, over, text, first, size) {
        Ok((_, judgement)) => judgement == *wanted,
        Err(_) => false,
    }
}

/// Whether a text that comes from a source is judged so over a model.
pub fn is_answered(alloc: Global, model: &Model, mut witness: &[u8], wanted: &Judgement) -> bool {
    match judge_words(alloc, model, &mut witness) {
        Ok(judgement) => judgement == *wanted,
        Err(_) => false,
    }
}
