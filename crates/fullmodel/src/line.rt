//! Lines of models of the whole safety language.
use btor2::{Body, Symbol};
use wide::Spelling;

/// An operand: the id of a node, and whether it stands with a minus, which inverts each bit.
#[derive(Clone, Copy)]
pub struct Operand {
    /// The id of the node.
    pub id: u32,
    /// Whether it stands with a minus.
    pub minus: bool,
}

/// What a line says ("Btor2, BtorMC and Boolector 3.0", syntax).
#[derive(Drop)]
pub enum Says {
    /// A form of words that is no constant in digits, or of arrays where it is one that takes them.
    Form {
        /// The form, by the ids of its sort and its operands.
        body: Body,
        /// Which of its operands stand with a minus, from left to right, the others without.
        minuses: Vec<bool>,
    },
    /// A constant in digits.
    Constant {
        /// Its sort.
        sort: u32,
        /// How it is spelled.
        spelling: Spelling,
        /// With how many binary or hexadecimal digits.
        count: usize,
        /// The number that its digits write, without a sign, by digits of 64 bits, the lowest first.
        number: Vec<u64>,
    },
    /// `sort array`: arrays of words.
    ArraySort {
        /// The sort of an index.
        index: u32,
        /// The sort of an element.
        element: u32,
    },
    /// `read`: the word of a cell of an array.
    Read {
        /// The sort of the word.
        sort: u32,
        /// The array.
        array: u32,
        /// The index of the cell.
        index: Operand,
    },
    /// `write`: an array with another word in a cell.
    Write {
        /// The sort of the array.
        sort: u32,
        /// The array.
        array: u32,
        /// The index of the cell.
        index: Operand,
        /// The word.
        word: Operand,
    },
}

/// A line of a model: its id, what it says, and its name, if it has one.
#[derive(Drop)]
pub struct Line {
    /// Its number in the file.
    pub id: u64,
    /// Its name.
    pub symbol: Option<Symbol>,
    /// What it says.
    pub says: Says,
}
