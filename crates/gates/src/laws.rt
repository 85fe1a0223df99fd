//! Laws and worked rows of the definitions of this crate.
ghost use Rattle.std.specs.Prelude.{◌≡◌, Some, None, [], ◌∷◌, not, true, false};
ghost use Rattle.base.specs.Operator.{unary_value};
ghost use Rattle.base.specs.declared.operators.Unary.TheVariants as unary;
ghost use Rattle.base.specs.declared.operators.Binary.TheVariants as binary;
ghost use Rattle.aiger.specs.Circuit.{net};
ghost use Rattle.base.specs.Literal.{literal_value};
ghost use Rattle.aiger.specs.Worked.{one_gate_net};
ghost use Rattle.gates.specs.declared.bitwise.Connective.TheVariants as by;
ghost use Rattle.gates.specs.declared.bound.Op.TheVariants as op;
ghost use Rattle.gates.specs.declared.fault.GateFault.TheVariants as fault;
ghost use Rattle.gates.specs.Bound.{operator_bound};
ghost use Rattle.gates.specs.Division.{reduced, MakesQuotientRow, MakesDivision};
ghost use Rattle.gates.specs.Connect.{connected, connected_words, connected_bits, words_bound};
ghost use Rattle.gates.specs.Made.{Grows, MakesAnd, MakesLiteral, MakesWord, RefusesGate, word_value};
ghost use Rattle.gates.specs.Operands.{AreOperands};
ghost use Rattle.gates.specs.Sums.{literal_number, MakesColumn, MakesSum};
ghost use Rattle.gates.specs.Shared.{folded_and, gate_of, standing_and, AreShared, HasValuation, HasValuations};
ghost use Rattle.gates.specs.Tests.{is_shift, is_rotation, is_move, is_comparison, is_overflow, with_top_negated};
ghost use Rattle.gates.specs.Worked.{no_gate};

use aiger::Circuit;
use aiger::laws::exactly_one_trace;

/// Any bits of a circuit's inputs and latches have a valuation that satisfies its gates. So the circuit of a maker is no
/// list of gates that nothing satisfies. Its contract is the law.
pub fn gates_have_valuations(circuit: &Circuit)
    ensures { HasValuations (net circuit.now) }
{
    exactly_one_trace();
    let _variables = circuit.variables();
}

/// Worked rows: the gates that an operator takes at most.
pub fn worked_bounds()
    ensures not_64 { operator_bound (op.Unary unary.Not) 64 ≡ 0 }
    ensures not_1 { operator_bound (op.Unary unary.Not) 1 ≡ 0 }
    ensures and_64 { operator_bound (op.Binary binary.And) 64 ≡ 64 }
    ensures and_1 { operator_bound (op.Binary binary.And) 1 ≡ 1 }
    ensures sll_64 { operator_bound (op.Binary binary.Sll) 64 ≡ 1408 }
    ensures sra_1 { operator_bound (op.Binary binary.Sra) 1 ≡ 4 }
    ensures rol_64 { operator_bound (op.Binary binary.Rol) 64 ≡ 12288 }
    ensures ror_3 { operator_bound (op.Binary binary.Ror) 3 ≡ 27 }
    ensures eq_8 { operator_bound (op.Binary binary.Eq) 8 ≡ 32 }
    ensures saddo_8 { operator_bound (op.Binary binary.Saddo) 8 ≡ 96 }
    ensures mul_64 { operator_bound (op.Binary binary.Mul) 64 ≡ 40960 }
    ensures udiv_1 { operator_bound (op.Binary binary.Udiv) 1 ≡ 24 }
    ensures sdiv_8 { operator_bound (op.Binary binary.Sdiv) 8 ≡ 1176 }
    ensures srem_8 { operator_bound (op.Binary binary.Srem) 8 ≡ 1152 }
    ensures smod_8 { operator_bound (op.Binary binary.Smod) 8 ≡ 1272 }
    ensures umulo_8 { operator_bound (op.Binary binary.Umulo) 8 ≡ 2568 }
    ensures smulo_64 { operator_bound (op.Binary binary.Smulo) 64 ≡ 164096 }
    ensures ite_64 { operator_bound op.Ite 64 ≡ 192 }
{}

/// Worked rows: a net grows by its gates and loses none, the gate of two inputs is their and, negated literals are
/// the bits of the negated word, and a small net is never refused as too big.
pub fn worked_nets()
    ensures grows { Grows no_gate (one_gate_net 4 2) 1 }
    ensures one_too_many { ¬ Grows no_gate (one_gate_net 4 2) 0 }
    ensures gate_lost { ¬ Grows (one_gate_net 4 2) no_gate 1 }
    ensures is_and { MakesAnd no_gate (one_gate_net 4 2) 2 4 6 }
    ensures is_no_and { ¬ MakesAnd no_gate (one_gate_net 4 2) 2 4 2 }
    ensures constant { MakesAnd no_gate no_gate 2 0 0 }
    ensures is_literal { MakesLiteral no_gate no_gate 0 (λ v. not (literal_value v 2)) 3 }
    ensures is_no_literal { ¬ MakesLiteral no_gate no_gate 0 (λ v. literal_value v 2) 4 }
    ensures is_not { MakesWord no_gate no_gate 0 2
        (λ v. unary_value unary.Not 2 (word_value v (2 ∷ 4 ∷ []))) (3 ∷ 5 ∷ []) }
    ensures no_memory { RefusesGate no_gate no_gate 1 fault.NoMemory }
    ensures too_big { ¬ RefusesGate no_gate no_gate 1 fault.TooBig }
{}

/// Worked rows: an input and the negation of another are operands; no literals are none, nor are lists of two lengths,
/// nor a literal of a gate that does not stand.
pub fn worked_operands()
    ensures inputs { AreOperands no_gate 64 (2 ∷ []) (5 ∷ []) }
    ensures no_literals { ¬ AreOperands no_gate 64 [] [] }
    ensures two_lengths { ¬ AreOperands no_gate 64 (2 ∷ []) (2 ∷ 4 ∷ []) }
    ensures too_long { ¬ AreOperands no_gate 1 (2 ∷ 4 ∷ []) (2 ∷ 4 ∷ []) }
    ensures undefined { ¬ AreOperands no_gate 64 (6 ∷ []) (2 ∷ []) }
{}

/// Worked rows: bits and words connected, and the operators that move bits.
pub fn worked_connections()
    ensures differ_1_1 { connected by.Xor true true ≡ false }
    ensures differ_1_0 { connected by.Xor true false ≡ true }
    ensures or_1_1 { connected by.Or true true ≡ true }
    ensures and_12_10 { connected_words by.And 12 10 ≡ 8 }
    ensures or_12_10 { connected_words by.Or 12 10 ≡ 14 }
    ensures xor_12_10 { connected_words by.Xor 12 10 ≡ 6 }
    ensures all_of_3 { connected_bits by.And 2 3 ≡ true }
    ensures all_of_2 { connected_bits by.And 2 2 ≡ false }
    ensures some_of_0 { connected_bits by.Or 2 0 ≡ false }
    ensures odd_of_7 { connected_bits by.Xor 3 7 ≡ true }
    ensures and_8 { words_bound by.And 8 ≡ 8 }
    ensures xor_8 { words_bound by.Xor 8 ≡ 24 }
    ensures sra { is_shift binary.Sra ≡ true }
    ensures ror { is_rotation binary.Ror ≡ true }
    ensures ror_no_shift { is_shift binary.Ror ≡ false }
    ensures add_no_move { is_move binary.Add ≡ false }
{}

/// Worked rows: what literals count, the sums of two bits and of two words of one bit, a literal's negation, the
/// comparisons and the overflow tests, and literals with the highest one negated.
pub fn worked_sums()
    ensures number { literal_number (λ k. true) 4 ≡ 1 }
    ensures negated_number { literal_number (λ k. true) 5 ≡ 0 }
    ensures column { MakesColumn no_gate no_gate 0 (λ v. 3) 1 1 }
    ensures no_column { ¬ MakesColumn no_gate no_gate 0 (λ v. 2) 1 1 }
    ensures sum { MakesSum no_gate no_gate 0 (1 ∷ []) (1 ∷ []) 1 (1 ∷ []) 1 1 }
    ensures carry_lost { ¬ MakesSum no_gate no_gate 0 (1 ∷ []) (1 ∷ []) 1 (0 ∷ []) 1 1 }
    ensures no_carry_into { ¬ MakesSum no_gate no_gate 0 (1 ∷ []) (1 ∷ []) 1 (1 ∷ []) 0 1 }
    ensures is_literal { MakesLiteral no_gate no_gate 0 (λ v. not (v 1)) 3 }
    ensures is_no_literal { ¬ MakesLiteral no_gate no_gate 0 (λ v. v 1) 3 }
    ensures ult { is_comparison binary.Ult ≡ true }
    ensures eq { is_comparison binary.Eq ≡ false }
    ensures sdivo { is_overflow binary.Sdivo ≡ true }
    ensures sub { is_overflow binary.Sub ≡ false }
    ensures top { with_top_negated (2 ∷ 4 ∷ []) ≡ 2 ∷ 5 ∷ [] }
    ensures only { with_top_negated (7 ∷ []) ≡ 6 ∷ [] }
{}

/// Worked rows: what is left of a number where another is taken from it once, a row by the divisors 1 and 0, and the
/// division of a word of one bit by 1 and by 0.
pub fn worked_divisions()
    ensures taken { reduced 7 5 ≡ 2 }
    ensures kept { reduced 3 5 ≡ 3 }
    ensures row { MakesQuotientRow no_gate no_gate 0 (1 ∷ []) (1 ∷ 0 ∷ []) 1 (0 ∷ []) }
    ensures row_by_zero { MakesQuotientRow no_gate no_gate 0 (1 ∷ []) (0 ∷ []) 1 (1 ∷ []) }
    ensures row_by_more { MakesQuotientRow no_gate no_gate 0 (1 ∷ []) (1 ∷ 1 ∷ []) 0 (1 ∷ []) }
    ensures row_that_takes_nothing { ¬ MakesQuotientRow no_gate no_gate 0 (1 ∷ []) (1 ∷ []) 0
        (1 ∷ []) }
    ensures row_not_reduced { ¬ MakesQuotientRow no_gate no_gate 0 (1 ∷ []) (1 ∷ []) 1 (1 ∷ []) }
    ensures narrow { MakesDivision no_gate no_gate 0 (1 ∷ []) (1 ∷ 1 ∷ []) (0 ∷ []) (1 ∷ []) }
    ensures remainder_too_wide { ¬ MakesDivision no_gate no_gate 0 (1 ∷ []) (1 ∷ 1 ∷ []) (0 ∷ [])
        (1 ∷ 0 ∷ []) }
    ensures one_by_one { MakesDivision no_gate no_gate 0 (1 ∷ []) (1 ∷ []) (1 ∷ []) (0 ∷ []) }
    ensures one_by_zero { MakesDivision no_gate no_gate 0 (1 ∷ []) (0 ∷ []) (1 ∷ []) (1 ∷ []) }
    ensures no_quotient_by_zero { ¬ MakesDivision no_gate no_gate 0 (1 ∷ []) (0 ∷ []) (0 ∷ [])
        (1 ∷ []) }
    ensures no_remainder_by_zero { ¬ MakesDivision no_gate no_gate 0 (1 ∷ []) (0 ∷ []) (1 ∷ [])
        (0 ∷ []) }
{}

/// Worked rows: an and that is folded, one that stands and one that needs a gate; gates that are shared, and gates with a
/// constant, with two literals of one variable and with the same operands in both orders; a net that no bits have a
/// valuation of, since its gate is true where it is not.
pub fn worked_sharing()
    ensures with_true { folded_and 6 1 ≡ Some 6 }
    ensures with_false { folded_and 0 4 ≡ Some 0 }
    ensures with_negation { folded_and 6 7 ≡ Some 0 }
    ensures with_itself { folded_and 8 8 ≡ Some 8 }
    ensures not_folded { folded_and 2 4 ≡ None }
    ensures stands { standing_and (one_gate_net 4 2) 2 4 ≡ Some 6 }
    ensures stands_not { standing_and (one_gate_net 4 2) 3 4 ≡ None }
    ensures shared { AreShared (one_gate_net 4 2).gates }
    ensures with_constant { ¬ AreShared (one_gate_net 4 1).gates }
    ensures of_one_variable { ¬ AreShared (one_gate_net 3 2).gates }
    ensures twice { ¬ AreShared (gate_of 2 4 ∷ gate_of 4 2 ∷ []) }
    ensures valuation { HasValuation (one_gate_net 4 2) (true ∷ false ∷ []) [] }
    ensures no_valuation { ¬ HasValuations
        (record { inputs = 0; latches = 0; gates = gate_of 3 3 ∷ [] }) }
{}
