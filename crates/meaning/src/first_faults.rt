//! Laws of first faults, and worked rows, as functions with no code.
ghost use Rattle.std.specs.Prelude.{◌≡◌, ◌≢◌, ℕ, ◌<◌, List, [], ◌∷◌, ◌++◌, All, Some, codes};
ghost use Rattle.base.specs.Lines.{IsLine};
ghost use Rattle.aigertext.specs.AsciiReading.{IsAsciiFaultOf};
ghost use Rattle.aigertext.specs.declared.fault.ReadFault.{ReadFault};
ghost use Rattle.aigertext.specs.declared.fault.Why.TheVariants as why;
ghost use Rattle.drup.specs.declared.why.Why.TheVariants as proof_why;
ghost use Rattle.drup.specs.Proofs.{ProofFault, read_text_proof};
ghost use Rattle.drup.specs.BinaryProofs.{read_binary_proof};
ghost use Rattle.meaning.specs.BinaryProofs.{IsWholeNumber, BeginsBinaryProof, IsFirstFaultyStep, EndsWithinBinaryStep};
ghost use Rattle.meaning.specs.Proofs.{BeginsProof, IsFirstFaultyLine, EndsWithinStep};
ghost use Rattle.meaning.specs.Pieces.{IsWholeLine, IsWholeDelta, IsPartOfDelta, IsFirstFault};
ghost use Rattle.meaning.specs.Circuits.{SaysAscii, BeginsCircuit, BeginsLists, TakesDelta, IsFirstInBinary};

use aigertext::laws::{
    ascii_text_that_is_read, binary_text_that_is_read, one_answer, one_ascii_circuit,
    one_binary_circuit,
};

/// A law: where reading a text that is not of the ascii form stops is where the text stops to be the beginning of a text of a
/// circuit. What stands before the place is whole lines and deltas and begins one; with the line or delta at the place it
/// begins none, whatever follows, or the text ends within that line or delta, and the fault says so.
///
/// A line stands at the place before the gates, where no delta may, and behind them, where a text of a circuit stands before
/// it; else a delta does, and the bytes 0 and 1 show that.
#[tactic(auto, using(crate::proofs::FaultLemmas::binary_fault, crate::proofs::FaultLemmas::either_read))]
pub fn first_fault_of_binary_text()
    ensures { (text : List ℕ) (e : ReadFault) → All (λ b. b < 256) text → ¬ SaysAscii text
        → IsAsciiFaultOf text e
        → IsFirstInBinary (e.why ≡ why.Truncated) text e.place }
{
    one_answer();
    one_ascii_circuit();
    one_binary_circuit();
    binary_text_that_is_read();
}

/// A law: where reading a text of the ascii form stops before its lists are whole, or in its names, is where the text stops to
/// be the beginning of one that has lists. What stands before the place is whole lines and begins one; with the line at the
/// place it begins none, whatever follows, or the text ends within that line, and the fault says so.
///
/// `Undefined` and `Cycle` are no faults of a line: they are told of lists that are whole, and `first_undefined` and
/// `IsFirstCyclic` say of which line, without any reading.
#[tactic(auto, using(crate::proofs::AsciiFaultLemmas::ascii_fault, crate::proofs::FaultLemmas::either_read, crate::proofs::FaultLemmas::begins_empty))]
pub fn first_fault_of_ascii_text()
    ensures { (text : List ℕ) (e : ReadFault) → SaysAscii text → IsAsciiFaultOf text e
        → e.why ≢ why.Undefined → e.why ≢ why.Cycle
        → IsFirstFault IsWholeLine IsWholeLine IsLine BeginsLists (e.why ≡ why.Truncated) text e.place }
{
    one_answer();
    one_ascii_circuit();
    one_binary_circuit();
    ascii_text_that_is_read();
    binary_text_that_is_read();
}

/// A law: over a formula of so many variables, the line of the first fault of a proof in the text form is the first with which
/// nothing that follows makes a text without a fault. With it the text reads as the same steps with the same fault, whatever
/// follows. The lines before it begin a text without a fault, where one line more may follow.
///
/// A text that is `CutOff` ends within a step, and begins one without a fault.
#[tactic(auto, using(crate::proofs::ProofLineLemmas::first_faulty_line))]
pub fn first_fault_of_text_proof()
    ensures line { (variables : ℕ) (text : List ℕ) (e : ProofFault)
        → (read_text_proof variables text).fault ≡ Some e → e.why ≢ proof_why.CutOff
        → IsFirstFaultyLine variables text e.line }
    ensures cut_off { (variables : ℕ) (text : List ℕ) (e : ProofFault)
        → (read_text_proof variables text).fault ≡ Some e → e.why ≡ proof_why.CutOff
        → EndsWithinStep variables text e.line }
{}

/// A law: over a formula of so many variables, the step of the first fault of a proof in the binary form is the first with
/// which nothing that follows makes a proof without a fault. The numbers before the faulty one begin one. With that one, or
/// with its first byte, the bytes read as the same steps with the same fault, whatever follows.
///
/// A proof that is `CutOff` ends within a step: its whole numbers begin a proof without a fault, and none ends behind them.
#[tactic(auto, using(crate::proofs::BinaryProofLemmas::first_faulty_step))]
pub fn first_fault_of_binary_proof()
    ensures step { (variables : ℕ) (bytes : List ℕ) (e : ProofFault)
        → (read_binary_proof variables bytes).fault ≡ Some e → e.why ≢ proof_why.CutOff
        → IsFirstFaultyStep variables bytes e.line }
    ensures cut_off { (variables : ℕ) (bytes : List ℕ) (e : ProofFault)
        → (read_binary_proof variables bytes).fault ≡ Some e → e.why ≡ proof_why.CutOff
        → EndsWithinBinaryStep variables bytes e.line }
{}

/// Worked rows: a line with its byte 10 and two lines; a delta, five bytes with the top bit, and two deltas; the first byte of
/// a delta, and a whole one; a text that says that it is of the ascii form, and one that does not.
pub fn worked_pieces()
    ensures line { IsWholeLine (codes "2 3\n") }
    ensures two_lines { ¬ IsWholeLine (codes "2\n3\n") }
    ensures delta { IsWholeDelta (130 ∷ 1 ∷ []) }
    ensures fifth { IsWholeDelta (255 ∷ 255 ∷ 255 ∷ 255 ∷ 255 ∷ []) }
    ensures two_deltas { ¬ IsWholeDelta (2 ∷ 1 ∷ []) }
    ensures part { IsPartOfDelta (130 ∷ []) }
    ensures no_part { ¬ IsPartOfDelta (130 ∷ 1 ∷ []) }
    ensures ascii { SaysAscii (codes "aag 0 0 0 0 0\n") }
    ensures binary { ¬ SaysAscii (codes "aig 0 0 0 0 0\n") }
{}

/// Worked rows: a header begins a text of a circuit, and one whose counts disagree begins none; an output of a variable that
/// no line defines begins a text that has lists, and none of a circuit; an output above the greatest literal begins neither. A
/// delta may stand behind the lines before a gate, and none at the front of a text.
pub fn worked_beginnings()
    ensures header { BeginsCircuit (codes "aig 1 0 1 0 0\n") }
    ensures counts { ¬ BeginsCircuit (codes "aig 2 1 0 0 0\n") }
    ensures undefined { BeginsLists (codes "aag 1 0 0 1 0\n2\n") }
    ensures no_circuit { ¬ BeginsCircuit (codes "aag 1 0 0 1 0\n2\n") }
    ensures too_great { ¬ BeginsLists (codes "aag 1 0 0 1 0\n4\n") }
    ensures gate { TakesDelta (codes "aig 3 2 0 1 1\n6\n") }
    ensures no_gate { ¬ TakesDelta [] }
{
    one_answer();
    one_ascii_circuit();
    one_binary_circuit();
    binary_text_that_is_read();
}

/// Worked rows: the first fault of a binary text in a delta, of one that ends within its header, and of an ascii text in its
/// output's line; a text without a fault has none in its first line.
pub fn worked_first_faults()
    ensures delta { IsFirstInBinary (why.DeltaNotShortest ≡ why.Truncated)
        (codes "aig 3 2 0 1 1\n6\n" ++ 130 ∷ 0 ∷ 2 ∷ []) 16 }
    ensures header { IsFirstInBinary (why.Truncated ≡ why.Truncated) (codes "aig 3 2 0 1 1") 0 }
    ensures line { IsFirstFault IsWholeLine IsWholeLine IsLine BeginsLists
        (why.BadNumber ≡ why.Truncated) (codes "aag 1 0 0 1 0\n4\n") 14 }
    ensures none { ¬ IsFirstInBinary (why.BadHeader ≡ why.Truncated) (codes "aig 0 0 0 0 0\n") 0 }
{
    first_fault_of_binary_text();
    first_fault_of_ascii_text();
    one_answer();
    one_ascii_circuit();
    one_binary_circuit();
    binary_text_that_is_read();
}

/// Worked rows: two literals begin a text of a proof, and a plus begins none; the line of that plus is the first with which
/// none begins, and the line before it is not; a text that ends behind a `d` ends within a step, in the line behind.
pub fn worked_proof_lines()
    ensures literals { BeginsProof 3 (codes "1 2\n") }
    ensures plus { ¬ BeginsProof 3 (codes "1 +2 0\n") }
    ensures line { IsFirstFaultyLine 3 (codes "1 0\n1 +2 0\n2 0\n") 2 }
    ensures line_before { ¬ IsFirstFaultyLine 3 (codes "1 0\n1 +2 0\n2 0\n") 1 }
    ensures within { EndsWithinStep 3 (codes "1 0\nd\n") 3 }
    ensures not_within { ¬ EndsWithinStep 3 (codes "1 0\nd\n") 2 }
{
    first_fault_of_text_proof();
}

/// Worked rows: a number of two bytes, and one that does not end; an `a` and a literal begin a binary proof, and another
/// letter begins none; the step of a variable too many is the first with which none begins, and the one before it is not; a
/// proof that ends within a number ends within that step, and not within the one before it.
pub fn worked_proof_steps()
    ensures number { IsWholeNumber (130 ∷ 1 ∷ []) }
    ensures no_number { ¬ IsWholeNumber (1 ∷ 130 ∷ []) }
    ensures literal { BeginsBinaryProof 3 (97 ∷ 2 ∷ []) }
    ensures letter { ¬ BeginsBinaryProof 3 (98 ∷ []) }
    ensures step { IsFirstFaultyStep 3 (97 ∷ 2 ∷ 0 ∷ 97 ∷ 8 ∷ 0 ∷ []) 2 }
    ensures step_before { ¬ IsFirstFaultyStep 3 (97 ∷ 2 ∷ 0 ∷ 97 ∷ 8 ∷ 0 ∷ []) 1 }
    ensures within { EndsWithinBinaryStep 3 (97 ∷ 2 ∷ 0 ∷ 97 ∷ 130 ∷ []) 2 }
    ensures not_within { ¬ EndsWithinBinaryStep 3 (97 ∷ 2 ∷ 0 ∷ 97 ∷ 130 ∷ []) 1 }
{
    first_fault_of_binary_proof();
}
