//! The pieces of words.
ghost use Rattle.std.specs.Prelude.{◌≡◌, ◌+◌, ◌/◌, ◌<◌, length, take, drop, slice_index, [], IfOk};
ghost use Rattle.btor2.specs.Items.{is_state};
ghost use Rattle.btor2.specs.Lists.{places};
ghost use Rattle.rejoin.specs.Pieces.{piece_count};
ghost use Rattle.unfit.specs.Joined.{any_told, pieces_from, state_words, input_words};
ghost use Rattle.unfit.specs.Steps.{told_at, untold, piece_word_at};

use btor2::Model;
use std::alloc::{AllocError, Global};

/// A piece of a word.
#[derive(Clone, Copy)]
pub(crate) struct Piece {
    // the word that is told of it in the part that is open
    pub(crate) told: Option<u64>,
    // the word that it has where none is told
    pub(crate) otherwise: u64,
}

/// The word of the state `k` of a model where it is not assigned.
fn state_word(model: &Model, k: usize) -> u64
    requires { k < length (places is_state 0 model.now) }
    ensures { result ≡ slice_index (state_words model.now) k }
{
    match model.init_of(k) {
        Some(place) => model.constant(place).unwrap_or(0),
        None => 0,
    }
}

/// The pieces of the states of a model, of which nothing is told.
pub(crate) fn state_pieces(alloc: Global, model: &Model) -> Result<Vec<Piece>, AllocError>
    ensures { IfOk result (λ v. v.items ≡ pieces_from [] 0 (state_words model.now)) }
{
    let mut pieces = Vec::new(alloc);
    for k in 0..model.states().len() {
        pieces.push(Piece {
            told: None,
            otherwise: state_word(model, k),
        })?;
    }
    Ok(pieces)
}

/// The pieces of the inputs of a model, of which nothing is told.
pub(crate) fn input_pieces(alloc: Global, model: &Model) -> Result<Vec<Piece>, AllocError>
    ensures { IfOk result (λ v. v.items ≡ pieces_from [] 0 (input_words model.now)) }
{
    let mut pieces = Vec::new(alloc);
    for _input in model.inputs() {
        pieces.push(Piece {
            told: None,
            otherwise: 0,
        })?;
    }
    Ok(pieces)
}

/// Tells the word of a piece, where there is one with this index.
pub(crate) fn tell(pieces: &mut [Piece], index: usize, word: u64)
    ensures { pieces.new ≡ told_at pieces.old index word }
{
    if index < pieces.len() {
        pieces[index].told = Some(word);
    }
}

/// Makes that nothing is told of any piece.
pub(crate) fn forget(pieces: &mut [Piece])
    ensures { pieces.new ≡ untold pieces.old }
{
    for piece in pieces.iter_mut() {
        piece.told = None;
    }
}

/// Whether one of some pieces is told.
pub(crate) fn any_told(pieces: &[Piece]) -> bool
    ensures { result ≡ any_told pieces.now }
{
    pieces.iter().any(|piece| piece.told.is_some())
}

/// How many pieces a word of so many bits has.
pub(crate) fn piece_count(width: u64) -> usize
    ensures { result ≡ piece_count width }
{
    let mut count = width / 64;
    if width % 64 != 0 {
        count += 1;
    }
    count as usize
}

/// The first of some pieces, and those behind them.
pub(crate) fn cut(pieces: &[Piece], count: usize) -> (&[Piece], &[Piece])
    ensures front { result.0.now ≡ take count pieces.now }
    ensures behind { result.1.now ≡ drop count pieces.now }
{
    pieces.split_at(count.min(pieces.len()))
}

/// The word of the piece at a place, and 0 behind the last.
pub(crate) fn word_at(pieces: &[Piece], place: usize) -> u64
    ensures { result ≡ piece_word_at pieces.now place }
{
    match pieces.get(place) {
        Some(piece) => piece.told.unwrap_or(piece.otherwise),
        None => 0,
    }
}
