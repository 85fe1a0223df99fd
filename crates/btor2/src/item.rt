//! The items of a model: their ids, names and bodies.
ghost use Rattle.std.specs.Prelude.{◌≡◌, ◌≤◌, ◌-◌, ◌^◌, true, IfSome};
ghost use Rattle.base.specs.Signed.{wrapped};
ghost use Rattle.btor2.specs.Symbols.{is_symbol};
ghost use Rattle.btor2.specs.Parts.{HasFewOperands, HasSoundParts};
ghost use Rattle.btor2.specs.Items.{named_sort, node_sort, sort_bits, constant_word, is_state};

use crate::decimal::Decimal;
use crate::operands::Operands;
use crate::symbol::Symbol;
use base::{Binary, Unary, Width, ones};
use std::mem::size_of;

/// A line of a model: its id, what it says, and its name, if it has one.
#[derive(Drop)]
pub struct Item {
    /// Its number in the file.
    pub id: u64,
    /// Its name.
    pub symbol: Option<Symbol>,
    /// What it says.
    pub body: Body,
}

/// What an item says ("Btor2, BtorMC and Boolector 3.0", syntax). Sorts and operands are ids of earlier items, and so
/// of 32 bits. A constant keeps its spelling, so that a model is written as it was read.
#[derive(Drop)]
pub enum Body {
    /// `sort bitvec n`: words of `width` bits.
    Sort {
        width: u64,
    },
    /// `input S`: given anew in each frame.
    Input {
        sort: u32,
    },
    /// `state S`: carried from frame to frame.
    State {
        sort: u32,
    },
    /// `zero S`: the word 0.
    Zero {
        sort: u32,
    },
    /// `one S`: the word 1.
    One {
        sort: u32,
    },
    /// `ones S`: the word of all ones.
    Ones {
        sort: u32,
    },
    /// `const S` and binary digits: how many they are, and their value. More than 64 digits count as 65 with
    /// value 0, which is refused.
    Const {
        sort: u32,
        digits: u32,
        value: u64,
    },
    /// `constd S` and a decimal, which may be negative and then stands for its word modulo 2 to the width.
    /// A number beyond 2^64 on either side counts as 2^64 on that side, which is refused.
    Constd {
        sort: u32,
        value: Decimal,
    },
    /// `consth S` and hexadecimal digits: how many they are, and their value. More than 16 digits count as 17
    /// with value 0, which is refused.
    Consth {
        sort: u32,
        digits: u32,
        value: u64,
    },
    /// `uext S a w`: a before which stand `by` zeros.
    Uext {
        sort: u32,
        operand: u32,
        by: u64,
    },
    /// `sext S a w`: a before which its sign stands `by` times.
    Sext {
        sort: u32,
        operand: u32,
        by: u64,
    },
    /// `slice S a u l`: the bits `upper` down to `lower` of a, both included. No node has a bit 64, so they have 32 bits.
    Slice {
        sort: u32,
        operand: u32,
        upper: u32,
        lower: u32,
    },
    /// `op S a`.
    Unary {
        operator: Unary,
        sort: u32,
        operand: u32,
    },
    /// `op S a b`.
    Binary {
        operator: Binary,
        sort: u32,
        left: u32,
        right: u32,
    },
    /// `concat S a b`: `high` before `low`.
    Concat {
        sort: u32,
        high: u32,
        low: u32,
    },
    /// `ite S c t e`: `first` where the condition is 1, else `second`.
    Ite {
        sort: u32,
        condition: u32,
        first: u32,
        second: u32,
    },
    /// `init S s v`: in the first frame state s has the word of v.
    Init {
        sort: u32,
        state: u32,
        value: u32,
    },
    /// `next S s v`: in the next frame state s has the word that v has in this one.
    Next {
        sort: u32,
        state: u32,
        value: u32,
    },
    /// `bad a`: a bad property, which rises where a is 1.
    Bad {
        operand: u32,
    },
    /// `constraint a`: a constraint, which holds where a is 1.
    Constraint {
        operand: u32,
    },
    /// `fair a`: kept and written, without a meaning here.
    Fair {
        operand: u32,
    },
    /// `output a`: a node that is shown.
    Output {
        operand: u32,
    },
    /// `justice k a1 .. ak`: kept and written, without a meaning here.
    Justice {
        operands: Operands,
    },
}

// a large model is mostly its items
const _: () = prove!(size_of::<Body>() == 24);

const _: () = prove!(size_of::<Item>() == 48);

/// The greatest number of `width` bits.
///
/// Condition: `width` is at most 64.
pub(crate) fn all_ones(width: u64) -> u64
    requires { width ≤ 64 }
    ensures { result ≡ 2 ^ width - 1 }
{
    match Width::new(width) {
        Some(width) => ones(width),
        None => 0,
    }
}

/// The word of a number modulo 2 to the width.
fn wrapped(width: u64, value: i128) -> u64
    requires { width ≤ 64 }
    ensures { result ≡ wrapped width value }
{
    let modulus = i128::from(all_ones(width)) + 1;
    value.rem_euclid(modulus) as u64
}

/// What a name keeps is known of it.
fn know_name(symbol: &Option<Symbol>)
    ensures { IfSome symbol.now (λ bytes. is_symbol bytes ≡ true) }
{
    if let Some(symbol) = symbol {
        let _bytes = symbol.bytes();
    }
}

impl Item {
    /// What the types of its parts keep is known of it.
    pub(crate) fn know_parts(&self)
        ensures { HasSoundParts self.now }
    {
        know_name(&self.symbol);
        self.body.know_operands();
    }
}

impl Body {
    /// What the operands of a justice line keep is known of them.
    fn know_operands(&self)
        ensures { HasFewOperands self.now }
    {
        if let Body::Justice { operands } = self {
            let _count = operands.count();
        }
    }

    /// The sort of a node with a value: of a leaf, a constant or an operator.
    pub(crate) fn node_sort(&self) -> Option<u32>
        ensures { result ≡ node_sort self.now }
    {
        match self {
            Body::Input { sort }
            | Body::State { sort }
            | Body::Zero { sort }
            | Body::One { sort }
            | Body::Ones { sort }
            | Body::Const { sort, .. }
            | Body::Constd { sort, .. }
            | Body::Consth { sort, .. }
            | Body::Uext { sort, .. }
            | Body::Sext { sort, .. }
            | Body::Slice { sort, .. }
            | Body::Unary { sort, .. }
            | Body::Binary { sort, .. }
            | Body::Concat { sort, .. }
            | Body::Ite { sort, .. } => Some(*sort),
            Body::Sort { .. }
            | Body::Init { .. }
            | Body::Next { .. }
            | Body::Bad { .. }
            | Body::Constraint { .. }
            | Body::Fair { .. }
            | Body::Output { .. }
            | Body::Justice { .. } => None,
        }
    }

    /// The sort that it names.
    pub(crate) fn sort(&self) -> Option<u32>
        ensures { result ≡ named_sort self.now }
    {
        match self {
            Body::Init { sort, .. } | Body::Next { sort, .. } => Some(*sort),
            _ => self.node_sort(),
        }
    }

    /// The width that a sort's line gives.
    pub(crate) fn sort_bits(&self) -> Option<u64>
        ensures { result ≡ sort_bits self.now }
    {
        match self {
            Body::Sort { width } => Some(*width),
            _ => None,
        }
    }

    /// The word of a constant node of `width` bits.
    ///
    /// Condition: `width` is at most 64.
    pub(crate) fn constant_word(&self, width: u64) -> Option<u64>
        requires { width ≤ 64 }
        ensures { result ≡ constant_word width self.now }
    {
        match self {
            Body::Zero { .. } => Some(0),
            Body::One { .. } => Some(1),
            Body::Ones { .. } => Some(all_ones(width)),
            Body::Const { value, .. } | Body::Consth { value, .. } => Some(*value),
            Body::Constd { value, .. } => Some(wrapped(width, value.value())),
            _ => None,
        }
    }

    /// Whether it is a state.
    pub(crate) fn is_state(&self) -> bool
        ensures { result ≡ is_state self.now }
    {
        matches!(self, Body::State { .. })
    }
}
