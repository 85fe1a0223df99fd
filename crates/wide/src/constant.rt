//! Lines of models with words of any width: what `btor2` holds an item of, and constants of any number of digits.
use btor2::{Item, Symbol};

/// How the number of a constant is spelled: in binary digits, as a decimal, as `-` and a decimal, or in hexadecimal digits.
#[derive(Clone, Copy)]
pub enum Spelling {
    Binary,
    Decimal,
    Negative,
    Hexadecimal,
}

/// A constant of any number of digits.
#[derive(Drop)]
pub struct Constant {
    /// Its number in the file.
    pub id: u64,
    /// Its name.
    pub symbol: Option<Symbol>,
    /// Its sort.
    pub sort: u32,
    /// How it is spelled.
    pub spelling: Spelling,
    /// With how many binary or hexadecimal digits.
    pub count: usize,
    /// The number that its digits write, without a sign, by digits of 64 bits, the lowest first.
    pub number: Vec<u64>,
}

/// A line of a model with words of any width.
#[derive(Drop)]
pub enum Line {
    /// One that is no constant in digits.
    Item(Item),
    /// A constant in digits.
    Constant(Constant),
}
