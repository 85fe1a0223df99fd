//! Worked rows of the texts: functions that do nothing, whose contracts are the rows.
ghost use Rattle.std.specs.Prelude.{◌≡◌, ℕ, ◌<◌, All, List, [], ◌∷◌, ◌++◌, Result, Ok, Err, codes};
ghost use Rattle.aiger.specs.Circuit.{Circuit, IsCircuit};
ghost use Rattle.aigertext.specs.Ascii.{numbers_line, without_zero_tail, name_line};
ghost use Rattle.aigertext.specs.Binary.{ascii_text, binary_text, circuit_text};
ghost use Rattle.aigertext.specs.Reading.{stop, line_at, header_of};
ghost use Rattle.aigertext.specs.declared.forms.Form.{Form};
ghost use Rattle.aigertext.specs.declared.forms.Form.TheVariants as form;
ghost use Rattle.aigertext.specs.Spelling.{IsAsciiText, IsBinaryText};
ghost use Rattle.aigerlists.specs.Loose.{empty_loose};
ghost use Rattle.aigerlists.specs.Renumbering.{numbered_literal};
ghost use Rattle.aiger.specs.declared.circuit.Reset.TheVariants as reset;
ghost use Rattle.aigertext.specs.AsciiReading.{lists_of_file, behind_lines, lines_before, AnswersText};
ghost use Rattle.aigertext.specs.declared.reading.counts.Counts.{Counts};
ghost use Rattle.aigertext.specs.declared.fault.Stop.{Stop};
ghost use Rattle.aigertext.specs.declared.fault.Why.TheVariants as why;
ghost use Rattle.aigertext.specs.Numbering.{IsNumberingOfText};
ghost use Rattle.aigertext.specs.Worked.{text_toggler, free_state, one_gate, one_output, all_kinds, nothing, negated_input, in_turn};

use aiger::laws::circuit_with_a_name;
use aigerlists::laws::{one_renumbering, own_numbers};

/// Worked rows: the texts of a latch that toggles, of a latch with no initial value, of a gate, and of
/// properties of each kind.
pub fn worked_texts()
    ensures toggler { ascii_text text_toggler ≡ codes "aag 1 0 1 0 0 1\n2 3\n2\nl0 t[0]\n" }
    ensures free_state { ascii_text free_state ≡ codes "aag 1 0 1 0 0 1\n2 2 2\n2\nl0 t[0]\n" }
    ensures one_gate { ascii_text one_gate
        ≡ codes "aag 3 2 0 0 1 0 1\n2\n4\n6\n6 4 2\ni0 a\nc0 both\n" }
    ensures all_kinds { ascii_text all_kinds
        ≡ codes "aag 1 1 0 2 0 0 0 2 1\n2\n2\n3\n2\n0\n2\n3\n1\no1 y\nj1 j\nf0 f\n" }
{}

/// Worked rows: lines of numbers, counts without their zeros at the end, and the line of a name.
pub fn worked_lines()
    ensures numbers { numbers_line (10 ∷ 0 ∷ 1073741824 ∷ []) ≡ codes "10 0 1073741824\n" }
    ensures none_kept { without_zero_tail (0 ∷ 0 ∷ []) ≡ [] }
    ensures first_kept { without_zero_tail (1 ∷ 0 ∷ []) ≡ 1 ∷ [] }
    ensures both_kept { without_zero_tail (0 ∷ 1 ∷ []) ≡ 0 ∷ 1 ∷ [] }
    ensures name { name_line 98 12 (Some (codes "q")) ≡ codes "b12 q\n" }
    ensures no_name { name_line 98 12 None ≡ [] }
{}

/// Worked rows: binary texts of the same circuits, and of a gate that is an output.
pub fn worked_binary_texts()
    ensures toggler { binary_text text_toggler ≡ codes "aig 1 0 1 0 0 1\n3\n2\nl0 t[0]\n" }
    ensures free_state { binary_text free_state ≡ codes "aig 1 0 1 0 0 1\n2 2\n2\nl0 t[0]\n" }
    ensures one_gate { binary_text one_gate ≡ codes "aig 3 2 0 0 1 0 1\n6\n" ++ 2 ∷ 2
        ∷ codes "i0 a\nc0 both\n" }
    ensures one_output { binary_text one_output ≡ codes "aig 3 2 0 1 1\n6\n" ++ 2 ∷ 2 ∷ [] }
    ensures all_kinds { binary_text all_kinds
        ≡ codes "aig 1 1 0 2 0 0 0 2 1\n2\n3\n2\n0\n2\n3\n1\no1 y\nj1 j\nf0 f\n" }
{}

/// Worked rows: binary texts that are read, in the writer's spelling and in others.
#[tactic(auto, unfolding(crate::specs::AsciiReading::AnswersText, crate::specs::Reading::binary_at, crate::specs::Reading::properties_at, crate::specs::Reading::name_on, crate::specs::Reading::section_with_letter, crate::specs::Reading::gate_at, crate::specs::Reading::delta_at, deltas::specs::Deltas::number_at, crate::specs::Reading::size_of, crate::specs::Reading::next_fields, crate::specs::Reading::literal_on, crate::specs::Reading::header_fields, crate::specs::Reading::header_form, crate::specs::Reading::fitting, crate::specs::Reading::counts_of, base::specs::Decimals::number_of, base::specs::Decimals::capped_value, base::specs::Decimals::is_decimal))]
pub fn worked_binary_readings()
    ensures toggler { AnswersText ((codes "aig 1 0 1 0 0 1\n3\n2\nl0 t[0]\n")) (Ok text_toggler) }
    ensures spelled_out { AnswersText ((codes "aig 1 0 1 0 0 1 0 0 0\n3 0\n2\nl0 t[0]\nc\nany"))
        (Ok text_toggler) }
    ensures free_state { AnswersText ((codes "aig 1 0 1 0 0 1\n2 2\n2\nl0 t[0]\n"))
        (Ok free_state) }
    ensures one_output { AnswersText ((codes "aig 3 2 0 1 1\n6\n" ++ 2 ∷ 2 ∷ [])) (Ok one_output) }
    ensures any_order { AnswersText
        ((codes "aig 3 2 0 0 1 0 1\n6\n" ++ 2 ∷ 2 ∷ codes "c0 both\ni0 a\n")) (Ok one_gate) }
    ensures all_kinds { AnswersText
        ((codes "aig 1 1 0 2 0 0 0 2 1\n2\n3\n2\n0\n2\n3\n1\no1 y\nj1 j\nf0 f\n")) (Ok all_kinds) }
{}

/// Worked rows: where reading a binary text stops, in bytes before the end, and why.
#[tactic(auto, unfolding(crate::specs::AsciiReading::AnswersText, crate::specs::Reading::binary_at, crate::specs::Reading::properties_at, crate::specs::Reading::name_on, crate::specs::Reading::section_with_letter, crate::specs::Reading::gate_at, crate::specs::Reading::delta_at, deltas::specs::Deltas::number_at, crate::specs::Reading::size_of, crate::specs::Reading::next_fields, crate::specs::Reading::literal_on, crate::specs::Reading::header_fields, crate::specs::Reading::header_form, crate::specs::Reading::fitting, crate::specs::Reading::counts_of, base::specs::Decimals::number_of, base::specs::Decimals::capped_value, base::specs::Decimals::is_decimal))]
pub fn worked_binary_faults()
    ensures header { AnswersText ((codes "aig 1 1 0 0\n"))
        (Err (record { left = 12; why = why.BadHeader })) }
    ensures two_spaces { AnswersText ((codes "aig 0  0 0 0 0\n"))
        (Err (record { left = 15; why = why.BadHeader })) }
    ensures ten_numbers { AnswersText ((codes "aig 0 0 0 0 0 0 0 0 0 0\n"))
        (Err (record { left = 24; why = why.BadHeader })) }
    ensures too_big { AnswersText ((codes "aig 1073741825 0 0 0 0\n"))
        (Err (record { left = 23; why = why.TooBig })) }
    ensures counts { AnswersText ((codes "aig 2 1 0 0 0\n"))
        (Err (record { left = 14; why = why.CountsDisagree })) }
    ensures cut_header { AnswersText ((codes "aig 3 2 0 1 1"))
        (Err (record { left = 13; why = why.Truncated })) }
    ensures no_latch { AnswersText ((codes "aig 1073741824 0 1073741824 0 0\n"))
        (Err (record { left = 0; why = why.Truncated })) }
    ensures literal { AnswersText ((codes "aig 1 1 0 1 0\n4\n"))
        (Err (record { left = 2; why = why.BadNumber })) }
    ensures reset { AnswersText ((codes "aig 1 0 1 0 0\n2 3\n"))
        (Err (record { left = 4; why = why.BadLatch })) }
    ensures own_literal { AnswersText ((codes "aig 1 0 1 0 0\n2 3 0\n"))
        (Err (record { left = 6; why = why.BadLatch })) }
    ensures sizes { AnswersText ((codes "aig 0 0 0 0 0 0 0 2\n1073741824\n1\n"))
        (Err (record { left = 2; why = why.TooBig })) }
    ensures not_shortest { AnswersText ((codes "aig 3 2 0 1 1\n6\n" ++ 130 ∷ 0 ∷ 2 ∷ []))
        (Err (record { left = 3; why = why.DeltaNotShortest })) }
    ensures zero_in_two { AnswersText ((codes "aig 3 2 0 1 1\n6\n" ++ 2 ∷ 128 ∷ 0 ∷ []))
        (Err (record { left = 2; why = why.DeltaNotShortest })) }
    ensures no_delta { AnswersText ((codes "aig 3 2 0 1 1\n6\n" ++ 2 ∷ []))
        (Err (record { left = 0; why = why.Truncated })) }
    ensures of_itself { AnswersText ((codes "aig 3 2 0 1 1\n6\n" ++ 0 ∷ 2 ∷ []))
        (Err (record { left = 2; why = why.GateOrder })) }
    ensures too_long { AnswersText
        ((codes "aig 3 2 0 1 1\n6\n" ++ 255 ∷ 255 ∷ 255 ∷ 255 ∷ 255 ∷ []))
        (Err (record { left = 5; why = why.DeltaTooLong })) }
    ensures second_name { AnswersText ((codes "aig 1 1 0 0 0\ni0 x\ni0 y\n"))
        (Err (record { left = 5; why = why.BadSymbol })) }
    ensures cut_comment { AnswersText ((codes "aig 0 0 0 0 0\nc"))
        (Err (record { left = 1; why = why.Truncated })) }
{}

/// What is written in a form stands in that form for the circuit that was written, and is read again as it.
pub fn read_back()
    ensures ascii { (c : Circuit) → IsCircuit c → IsAsciiText (ascii_text c) c }
    ensures binary { (c : Circuit) → IsCircuit c → IsBinaryText (binary_text c) c }
    ensures read { (form : Form) (c : Circuit) → IsCircuit c
        → AnswersText (circuit_text form c) (Ok c) }
{
    own_numbers();
    one_renumbering();
}

/// A text has exactly one answer: it is read as one circuit alone, or reading it stops at one fault alone.
pub fn one_answer()
    ensures exists { (text : List ℕ) → (a : Result Circuit Stop) × AnswersText text a }
    ensures unique { (text : List ℕ) (a b : Result Circuit Stop) → AnswersText text a
        → AnswersText text b → a ≡ b }
{
    one_renumbering();
}

/// A binary text stands for at most one circuit: each that it stands for is the one that reading it gives.
pub fn one_binary_circuit()
    ensures read { (text : List ℕ) (c : Circuit) → IsBinaryText text c → AnswersText text (Ok c) }
    ensures same { (text : List ℕ) (c d : Circuit) → IsBinaryText text c → IsBinaryText text d
        → c ≡ d }
{
    one_answer();
}

/// A circuit that a text with a header of the binary form is read as is one that it stands for in that form.
pub fn binary_text_that_is_read()
    ensures { (text : List ℕ) (c : Circuit) (h : Counts) (rest : List ℕ) → All (λ b. b < 256) text
        → line_at header_of text ≡ Ok ((form.Binary, h), rest) → AnswersText text (Ok c)
        → IsBinaryText text c }
{
    circuit_with_a_name();
}

/// An ascii text stands for at most one circuit: each that it stands for is the one that reading it gives.
pub fn one_ascii_circuit()
    ensures read { (text : List ℕ) (c : Circuit) → IsAsciiText text c → AnswersText text (Ok c) }
    ensures same { (text : List ℕ) (c d : Circuit) → IsAsciiText text c → IsAsciiText text d
        → c ≡ d }
    ensures valid { (text : List ℕ) (c : Circuit) → IsAsciiText text c → IsCircuit c }
{
    one_answer();
    one_renumbering();
    circuit_with_a_name();
}

/// A circuit that a text with a header of the ascii form is read as is one that it stands for in that form.
pub fn ascii_text_that_is_read()
    ensures { (text : List ℕ) (c : Circuit) (h : Counts) (rest : List ℕ)
        → line_at header_of text ≡ Ok ((form.Ascii, h), rest) → AnswersText text (Ok c)
        → IsAsciiText text c }
{
    one_renumbering();
}

/// Worked rows: a binary text with its whole header and a comment stands for a circuit; without its byte 10, with
/// a delta of too many bytes or with the ascii form's word it does not.
pub fn worked_binary_spellings()
    ensures spelled_out { IsBinaryText (codes "aig 3 2 0 1 1 0 0\n6\n" ++ 2 ∷ 2 ∷ codes "c\nany")
        one_output }
    ensures unended { ¬ IsBinaryText (codes "aig 3 2 0 1 1\n6\n" ++ 2 ∷ 2 ∷ codes "c") one_output }
    ensures too_long { ¬ IsBinaryText (codes "aig 3 2 0 1 1\n6\n" ++ 130 ∷ 0 ∷ 2 ∷ []) one_output }
    ensures ascii { ¬ IsBinaryText (codes "aag 3 2 0 1 1\n2\n4\n6\n6 4 2\n") one_output }
{}

/// Worked rows: an ascii text in numbers of its own, with a greatest variable that is above all of them, stands for a
/// circuit; with a greatest variable that is below the number of variables it does not.
pub fn worked_ascii_spellings()
    ensures any_number { IsAsciiText (codes "aag 9 1 0 1 0\n8\n9\n") negated_input }
    ensures too_many { ¬ IsAsciiText (codes "aag 0 1 0 1 0\n2\n3\n") negated_input }
{
    one_ascii_circuit();
}

/// Worked rows: the lists of an ascii file in any numbering and order, where reading them stops, and at which line a
/// variable that no line defines is used.
#[tactic(auto, unfolding(crate::specs::AsciiReading::lists_of_file, crate::specs::AsciiReading::input_of, crate::specs::AsciiReading::latch_fields, crate::specs::AsciiReading::gate_fields, crate::specs::Reading::next_fields, crate::specs::Reading::properties_at, crate::specs::Reading::literal_on, crate::specs::Reading::size_of, base::specs::Decimals::number_of, base::specs::Decimals::capped_value, base::specs::Decimals::is_decimal))]
pub fn worked_ascii_lists()
    ensures any_order { lists_of_file
        (record { variables = 9; inputs = 1; latches = 0; outputs = 1; gates = 2; bads = 0; constraints = 0; justice = 0; fair = 0 })
        (codes "8\n5\n4 6 8\n6 9 8\n")
        ≡ Ok (
          record
              empty_loose {
                inputs = 8 ∷ [];
                outputs = 5
                    ∷ [];
                gates = record { lhs = 4; rhs0 = 6; rhs1 = 8 }
                    ∷ record { lhs = 6; rhs0 = 9; rhs1 = 8 } ∷ [];
              },
          [],
        ) }
    ensures free_latch { lists_of_file
        (record { variables = 2; inputs = 0; latches = 1; outputs = 0; gates = 0; bads = 0; constraints = 0; justice = 0; fair = 0 })
        (codes "4 4 4\n")
        ≡ Ok (
          record empty_loose { latches = record { current = 4; next = 4; reset = reset.Free } ∷ [] },
          [],
        ) }
    ensures operand { lists_of_file
        (record { variables = 3; inputs = 1; latches = 0; outputs = 1; gates = 1; bads = 0; constraints = 0; justice = 0; fair = 0 })
        (codes "2\n6\n4 2 9\n")
        ≡ Err (record { left = 6; why = why.BadNumber }) }
    ensures defined_twice { lists_of_file
        (record { variables = 2; inputs = 1; latches = 0; outputs = 0; gates = 1; bads = 0; constraints = 0; justice = 0; fair = 0 })
        (codes "2\n2 1 1\n")
        ≡ Err (record { left = 6; why = why.GateOrder }) }
    ensures undefined { stop
        (behind_lines (lines_before
        (record { variables = 4; inputs = 1; latches = 0; outputs = 0; gates = 2; bads = 0; constraints = 0; justice = 0; fair = 0 })
        1) (codes "2\n4 4 2\n6 8 2\n")) why.Undefined
        ≡ record { left = 6; why = why.Undefined } }
{}

/// Worked rows: an ascii text whose input, latch and gate have the variables 5, 3 and 2, as 1, 2 and 3 of the circuit; the
/// literals of both, and none of a variable that it does not define. Its variables have not their own numbers, nor other
/// ones, and those of a binary text have.
pub fn worked_numberings()
    ensures numbers { IsNumberingOfText (codes "aag 5 1 1 0 1\n10\n6 4\n4 10 7\n") in_turn
        (Some (5 ∷ 3 ∷ 2 ∷ [])) }
    ensures literals { (numbered_literal (Some (5 ∷ 3 ∷ 2 ∷ [])) 11 ≡ Some 3)
        × (numbered_literal (Some (5 ∷ 3 ∷ 2 ∷ [])) 4 ≡ Some 6) }
    ensures undefined { numbered_literal (Some (5 ∷ 3 ∷ 2 ∷ [])) 8 ≡ None }
    ensures own { ¬ IsNumberingOfText (codes "aag 5 1 1 0 1\n10\n6 4\n4 10 7\n") in_turn None }
    ensures exchanged { ¬ IsNumberingOfText (codes "aag 5 1 1 0 1\n10\n6 4\n4 10 7\n") in_turn
        (Some (3 ∷ 5 ∷ 2 ∷ [])) }
    ensures binary { IsNumberingOfText (codes "aig 3 2 0 1 1\n6\n" ++ 2 ∷ 2 ∷ []) one_output None }
{}

/// Worked rows: a text of the ascii form that is read, and where reading others stops and why.
#[tactic(auto, unfolding(crate::specs::AsciiReading::AnswersText, crate::specs::AsciiReading::lists_of_file, crate::specs::AsciiReading::input_of, crate::specs::AsciiReading::latch_fields, crate::specs::AsciiReading::gate_fields, crate::specs::Reading::next_fields, crate::specs::Reading::properties_at, crate::specs::Reading::literal_on, crate::specs::Reading::size_of, crate::specs::Reading::header_fields, crate::specs::Reading::header_form, crate::specs::Reading::fitting, crate::specs::Reading::counts_of, base::specs::Decimals::number_of, base::specs::Decimals::capped_value, base::specs::Decimals::is_decimal))]
pub fn worked_ascii_readings()
    ensures nothing { AnswersText (codes "aag 0 0 0 0 0\nc\nany") (Ok nothing) }
    ensures no_fault { ¬ AnswersText (codes "aag 0 0 0 0 0\nc\nany")
        (Err (record { left = 0; why = why.Truncated })) }
    ensures header { AnswersText (codes "aag 1 1 0 0\n")
        (Err (record { left = 12; why = why.BadHeader })) }
    ensures counts { AnswersText (codes "aag 0 1 0 0 0\n2\n")
        (Err (record { left = 16; why = why.CountsDisagree })) }
    ensures no_input { AnswersText (codes "aag 1 1 0 0 0\n")
        (Err (record { left = 0; why = why.Truncated })) }
    ensures gate { AnswersText (codes "aag 2 1 0 0 1\n2\n2 1 1\n")
        (Err (record { left = 6; why = why.GateOrder })) }
{
    one_answer();
}
