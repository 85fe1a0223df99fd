//! The operators that BTOR2 names, and the widths of what they give.
ghost use Rattle.std.specs.Prelude.{◌≡◌};
ghost use Rattle.base.specs.Widths.{is_reduction, is_of_bits, is_test, unary_width, binary_width};

/// The operators of one operand that BTOR2 names.
#[derive(Clone, Copy, Debug, PartialEq, Eq)]
pub enum Unary {
    /// `not`: each bit negated.
    Not,
    /// `inc`: one more.
    Inc,
    /// `dec`: one less.
    Dec,
    /// `neg`: the word of the negated number.
    Neg,
    /// `redand`: whether all bits are 1.
    Redand,
    /// `redor`: whether a bit is 1.
    Redor,
    /// `redxor`: whether an odd number of bits is 1.
    Redxor,
}

impl Unary {
    /// Whether it is a reduction, which gives one bit.
    pub fn is_reduction(self) -> bool
        ensures { result ≡ is_reduction self }
    {
        matches!(self, Unary::Redand | Unary::Redor | Unary::Redxor)
    }

    /// The width in bits of what it gives for an operand of a width.
    pub fn width(self, operand: u64) -> u64
        ensures { result ≡ unary_width self operand }
    {
        if self.is_reduction() { 1 } else { operand }
    }
}

/// The operators of two operands that BTOR2 names.
#[derive(Clone, Copy, Debug, PartialEq, Eq)]
pub enum Binary {
    /// `iff`, of single bits: whether both are equal.
    Iff,
    /// `implies`, of single bits: whether the first is 0 or the second 1.
    Implies,
    /// `eq`: whether both are equal.
    Eq,
    /// `neq`: whether they differ.
    Neq,
    /// `ugt`: whether the first is greater.
    Ugt,
    /// `ugte`: whether the first is greater or equal.
    Ugte,
    /// `ult`: whether the first is less.
    Ult,
    /// `ulte`: whether the first is less or equal.
    Ulte,
    /// `sgt`: whether the first is greater, as signed numbers.
    Sgt,
    /// `sgte`: whether the first is greater or equal, as signed numbers.
    Sgte,
    /// `slt`: whether the first is less, as signed numbers.
    Slt,
    /// `slte`: whether the first is less or equal, as signed numbers.
    Slte,
    /// `and`, bit by bit.
    And,
    /// `nand`, bit by bit.
    Nand,
    /// `or`, bit by bit.
    Or,
    /// `nor`, bit by bit.
    Nor,
    /// `xor`, bit by bit.
    Xor,
    /// `xnor`, bit by bit.
    Xnor,
    /// `rol`: rotated to the left, by an amount modulo the width.
    Rol,
    /// `ror`: rotated to the right, by an amount modulo the width.
    Ror,
    /// `sll`: shifted to the left, zeros moving in.
    Sll,
    /// `srl`: shifted to the right, zeros moving in.
    Srl,
    /// `sra`: shifted to the right, the sign moving in.
    Sra,
    /// `add`, modulo 2 to the width.
    Add,
    /// `sub`, modulo 2 to the width.
    Sub,
    /// `mul`, modulo 2 to the width.
    Mul,
    /// `udiv`: the quotient; all ones where the divisor is 0.
    Udiv,
    /// `sdiv`: the quotient of signed numbers, rounded towards zero; where the divisor is 0, 1 for a negative dividend and else all ones.
    Sdiv,
    /// `urem`: the remainder; the dividend where the divisor is 0.
    Urem,
    /// `srem`: the remainder of `sdiv`, with the dividend's sign; the dividend where the divisor is 0.
    Srem,
    /// `smod`: the remainder of the quotient rounded down, with the divisor's sign; the dividend where the divisor is 0.
    Smod,
    /// `uaddo`: whether the sum is no word of the width.
    Uaddo,
    /// `saddo`: whether the sum of signed numbers is none of the width.
    Saddo,
    /// `usubo`: whether the difference is below 0.
    Usubo,
    /// `ssubo`: whether the difference of signed numbers is none of the width.
    Ssubo,
    /// `umulo`: whether the product is no word of the width.
    Umulo,
    /// `smulo`: whether the product of signed numbers is none of the width.
    Smulo,
    /// `sdivo`: whether the quotient of signed numbers is none of the width: the least number by -1.
    Sdivo,
}

impl Binary {
    /// Whether it only takes single bits.
    pub fn is_of_bits(self) -> bool
        ensures { result ≡ is_of_bits self }
    {
        matches!(self, Binary::Iff | Binary::Implies)
    }

    /// Whether it is a test, which gives one bit.
    pub fn is_test(self) -> bool
        ensures { result ≡ is_test self }
    {
        match self {
            Binary::Iff
            | Binary::Implies
            | Binary::Eq
            | Binary::Neq
            | Binary::Ugt
            | Binary::Ugte
            | Binary::Ult
            | Binary::Ulte
            | Binary::Sgt
            | Binary::Sgte
            | Binary::Slt
            | Binary::Slte
            | Binary::Uaddo
            | Binary::Saddo
            | Binary::Usubo
            | Binary::Ssubo
            | Binary::Umulo
            | Binary::Smulo
            | Binary::Sdivo => true,
            Binary::And
            | Binary::Nand
            | Binary::Or
            | Binary::Nor
            | Binary::Xor
            | Binary::Xnor
            | Binary::Rol
            | Binary::Ror
            | Binary::Sll
            | Binary::Srl
            | Binary::Sra
            | Binary::Add
            | Binary::Sub
            | Binary::Mul
            | Binary::Udiv
            | Binary::Sdiv
            | Binary::Urem
            | Binary::Srem
            | Binary::Smod => false,
        }
    }

    /// The width in bits of what it gives for two operands of a width.
    pub fn width(self, operands: u64) -> u64
        ensures { result ≡ binary_width self operands }
    {
        if self.is_test() { 1 } else { operands }
    }
}
