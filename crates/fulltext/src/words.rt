//! The words of the operators, as a line has them ("Btor2, BtorMC and Boolector 3.0", table of operators).
ghost use Rattle.std.specs.Prelude.{◌≡◌, ◌≤◌, length};
ghost use Rattle.btor2text.specs.Words.{unary_name, binary_name};

use base::{Binary, Unary};

/// The word of an operator of one operand.
pub(crate) fn unary_name(operator: Unary) -> &'static [u8]
    ensures name { result.now ≡ unary_name operator }
    ensures short { length result.now ≤ 11 }
{
    match operator {
        Unary::Not => b"not",
        Unary::Inc => b"inc",
        Unary::Dec => b"dec",
        Unary::Neg => b"neg",
        Unary::Redand => b"redand",
        Unary::Redor => b"redor",
        Unary::Redxor => b"redxor",
    }
}

/// The word of an operator of two operands.
pub(crate) fn binary_name(operator: Binary) -> &'static [u8]
    ensures name { result.now ≡ binary_name operator }
    ensures short { length result.now ≤ 11 }
{
    match operator {
        Binary::Iff => b"iff",
        Binary::Implies => b"implies",
        Binary::Eq => b"eq",
        Binary::Neq => b"neq",
        Binary::Ugt => b"ugt",
        Binary::Ugte => b"ugte",
        Binary::Ult => b"ult",
        Binary::Ulte => b"ulte",
        Binary::Sgt => b"sgt",
        Binary::Sgte => b"sgte",
        Binary::Slt => b"slt",
        Binary::Slte => b"slte",
        Binary::And => b"and",
        Binary::Nand => b"nand",
        Binary::Or => b"or",
        Binary::Nor => b"nor",
        Binary::Xor => b"xor",
        Binary::Xnor => b"xnor",
        Binary::Rol => b"rol",
        Binary::Ror => b"ror",
        Binary::Sll => b"sll",
        Binary::Srl => b"srl",
        Binary::Sra => b"sra",
        Binary::Add => b"add",
        Binary::Sub => b"sub",
        Binary::Mul => b"mul",
        Binary::Udiv => b"udiv",
        Binary::Sdiv => b"sdiv",
        Binary::Urem => b"urem",
        Binary::Srem => b"srem",
        Binary::Smod => b"smod",
        Binary::Uaddo => b"uaddo",
        Binary::Saddo => b"saddo",
        Binary::Usubo => b"usubo",
        Binary::Ssubo => b"ssubo",
        Binary::Umulo => b"umulo",
        Binary::Smulo => b"smulo",
        Binary::Sdivo => b"sdivo",
    }
}
