//! What stands in the line of a word beside its digits.
ghost use Rattle.std.specs.Prelude.{◌≡◌, ℕ, true, ◌≤◌, ◌++◌, List, Option, length};
ghost use Rattle.witness.specs.Texts.{symbol_part};
ghost use Rattle.unfit.specs.Joined.{Fronts, by_index, front_at, is_told, name_at};

use base::Line;
use btor2::Symbol;
use lift::add_name_in_frame;

/// What stands in the lines of some words beside their digits: before them what says which word it is, and behind them its name.
pub trait Titles {
    /// What stands before the digits of each word and the space in front of them, frame by frame; of a word before which nothing
    /// does no line is put.
    ghost fronts: { Self → Fronts };

    /// The symbol of each word, in order: none where it has none.
    ghost symbols: { Self → List (Option (List ℕ)) };

    /// Whether a line is put of the word with an index in a frame.
    fn tells(&self, frame: u64, index: usize) -> bool
        ensures { result ≡ is_told (fronts self.now) frame index };

    /// Puts what stands before the digits of the word with an index in a frame in front of a line.
    ///
    /// Condition: the line has at most one byte.
    fn add_front(&self, line: &mut Line, frame: u64, index: usize)
        requires { length line.old ≤ 1 }
        ensures { line.new ≡ front_at (fronts self.now) frame index ++ line.old };

    /// Puts a space and the name of the word with an index in a frame in front of a line: its symbol, `@` and the frame. Nothing
    /// is put where it has no symbol, or where the name is longer than a symbol may be.
    ///
    /// Condition: the line has at most one byte.
    fn add_name(&self, line: &mut Line, frame: u64, index: usize)
        requires { length line.old ≤ 1 }
        ensures { line.new ≡ symbol_part (name_at true (symbols self.now) frame index) ++ line.old };
}

/// Puts a space and the name in a frame of what has an index among these in front of a line, where it has a symbol and the name
/// is no longer than a symbol may be.
///
/// Condition: the line has at most one byte.
pub fn add_name(line: &mut Line, symbols: &[Option<Symbol>], frame: u64, index: usize)
    requires { length line.old ≤ 1 }
    ensures { line.new ≡ symbol_part (name_at true symbols.now frame index) ++ line.old }
{
    if let Some(Some(symbol)) = symbols.get(index) {
        add_name_in_frame(line, symbol.bytes(), frame);
    }
}

/// Words of which each is told by its index.
#[derive(Drop)]
pub(crate) struct ByIndex<'n> {
    symbols: &'n [Option<Symbol>],
}

impl<'n> ByIndex<'n> {
    /// Those with these symbols.
    pub(crate) fn new(symbols: &'n [Option<Symbol>]) -> ByIndex<'n>
        ensures { result.symbols.now ≡ symbols.now }
    {
        ByIndex { symbols }
    }
}

impl<'n> Titles for ByIndex<'n> {
    ghost fronts = { λ t. by_index };

    ghost symbols = { λ t. t.symbols.now };

    fn tells(&self, _frame: u64, _index: usize) -> bool {
        true
    }

    fn add_front(&self, line: &mut Line, _frame: u64, index: usize) {
        line.number(index as u64);
    }

    fn add_name(&self, line: &mut Line, frame: u64, index: usize) {
        add_name(line, self.symbols, frame, index);
    }
}
