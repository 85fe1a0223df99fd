//! Laws of witnesses of circuits, and worked rows, as functions with no code.
ghost use Rattle.std.specs.Prelude.{◌≡◌, ◌↔◌, ℕ, ◌+◌, ◌<◌, ◌≤◌, true, Bool, List, [], ◌∷◌, ◌++◌, length, None, Ok, Err, codes};
ghost use Rattle.base.specs.Lines.{text_of_lines, whole_lines, unfinished};
ghost use Rattle.aiger.specs.declared.circuit.Latch.{Latch};
ghost use Rattle.aiger.specs.Circuit.{Circuit, IsCircuit};
ghost use Rattle.aiger.specs.Trace.{AreInitial};
ghost use Rattle.aiger.specs.Worked.{toggler};
ghost use Rattle.witness.specs.declared.why.Why.TheVariants as why;
ghost use Rattle.witness.specs.declared.judgement.Judgement.{Judgement};
ghost use Rattle.witness.specs.declared.judgement.Judgement.TheVariants as judgement;
ghost use Rattle.witness.specs.Texts.{most_lines};
ghost use Rattle.witness.specs.Beginnings.{IsBitBeginning};
ghost use Rattle.witness.specs.BitTexts.{BitWitness, BitSays};
ghost use Rattle.witness.specs.BitAdmits.{BitRead, read_bit_text, bit_witness_of, admitted_lines, closed_frames};
ghost use Rattle.witness.specs.Accepted.{BitAcceptsExactly};
ghost use Rattle.witness.specs.BitJudgements.{first_reset_differing, makes_no_bit_claim, BitJudges};
ghost use Rattle.witness.specs.Worked.{constrained_circuit, kept_latches, one_input, toggles_once};

/// A law: over a circuit, a text that says a witness is read as it, and a text that is read says what it is read as.
pub fn bit_texts_read()
    ensures read { (c : Circuit) (text : List ℕ) (w : BitWitness) → IsCircuit c → BitSays c text w
        → (r : BitRead) × ((read_bit_text c text ≡ Ok r) × (bit_witness_of r ≡ w)) }
    ensures said { (c : Circuit) (text : List ℕ) (r : BitRead) → IsCircuit c
        → read_bit_text c text ≡ Ok r
        → BitSays c text (bit_witness_of r) }
{}

/// A law: over a circuit a text says at most one witness.
pub fn one_bit_reading()
    ensures { (c : Circuit) (text : List ℕ) (w v : BitWitness) → IsCircuit c → BitSays c text w
        → BitSays c text v → w ≡ v }
{}

/// A law: over a circuit with a bad property, whole lines, five fewer than may be there at most, are all admitted exactly
/// where further lines make them the text of a witness, five at most. And whatever makes a text that of a witness, all its
/// whole lines are admitted.
pub fn admitted_lines_begin_bit_witnesses()
    ensures exactly { (c : Circuit) (text : List ℕ) → IsCircuit c → 0 < length c.bads
        → unfinished text ≡ []
        → length (whole_lines text) + 5 ≤ most_lines
        → (admitted_lines c text ≡ length (whole_lines text)) ↔ IsBitBeginning c text }
    ensures whatever_follows { (c : Circuit) (text further : List ℕ) (w : BitWitness) → IsCircuit c
        → BitSays c (text ++ further) w
        → admitted_lines c text ≡ length (whole_lines text) }
{}

/// A law: over a circuit, the first whole line that is not admitted is the first with which nothing that follows makes a text
/// that of a witness: with it nothing does, and before it, where the circuit has a bad property, five lines do.
pub fn first_faulty_bit_line()
    ensures before { (c : Circuit) (text : List ℕ) (lines : List (List ℕ)) (line : List ℕ)
        (behind : List (List ℕ)) → IsCircuit c → 0 < length c.bads
        → whole_lines text ≡ lines ++ line ∷ behind → admitted_lines c text ≡ length lines
        → length lines + 5 ≤ most_lines
        → IsBitBeginning c (text_of_lines lines) }
    ensures with_it { (c : Circuit) (text : List ℕ) (lines : List (List ℕ)) (line : List ℕ)
        (behind : List (List ℕ)) (further : List ℕ) (w : BitWitness)
        → IsCircuit c → whole_lines text ≡ lines ++ line ∷ behind
        → admitted_lines c text ≡ length lines
        → ¬ BitSays c (text_of_lines (lines ++ line ∷ []) ++ further) w }
{}

/// A law: over a circuit a text has exactly one judgement.
pub fn exactly_one_bit_judgement()
    ensures exists { (c : Circuit) (text : List ℕ) → IsCircuit c → (j : Judgement)
        × BitJudges c text j }
    ensures unique { (c : Circuit) (text : List ℕ) (j k : Judgement) → IsCircuit c
        → BitJudges c text j → BitJudges c text k → j ≡ k }
{}

/// A law: what is judged of a text over a circuit is that it is accepted, with so many frames, exactly where it says a witness
/// of which this is judged.
pub fn accepted_exactly()
    ensures { (c : Circuit) (text : List ℕ) (j : Judgement) → IsCircuit c → BitJudges c text j
        → BitAcceptsExactly c text j }
{}

/// A law: a text that makes no claim has no admitted line and closes no frame.
pub fn no_claim_closes_no_frame()
    ensures lines { (c : Circuit) (text : List ℕ) → makes_no_bit_claim (whole_lines text) ≡ true
        → admitted_lines c text ≡ 0 }
    ensures frames { (c : Circuit) (text : List ℕ) → makes_no_bit_claim (whole_lines text) ≡ true
        → closed_frames c text ≡ 0 }
{}

/// A law: of as many bits as there are latches, none differs from its reset exactly where they are initial bits.
pub fn initial_bits_differ_from_no_reset()
    ensures { (latches : List Latch) (bits : List Bool) → length bits ≡ length latches
        → (first_reset_differing 0 latches bits ≡ None) ↔ AreInitial latches bits }
{}

/// Worked rows: the faults of texts over a circuit of one latch that toggles, over one of two latches, and over one of one
/// input.
pub fn worked_bit_faults()
    ensures nothing { read_bit_text toggler [] ≡ Err (record { line = 1; why = why.Truncated }) }
    ensures unended { read_bit_text toggler (codes "1\nb0\n0\n\n\n.")
        ≡ Err (record { line = 6; why = why.Truncated }) }
    ensures byte_behind { read_bit_text toggler (codes "1\nb0\n0\n\n\n.\nx")
        ≡ Err (record { line = 7; why = why.Trailing }) }
    ensures line_behind { read_bit_text toggler (codes "1\nb0\n0\n\n\n.\n\n")
        ≡ Err (record { line = 7; why = why.Trailing }) }
    ensures other_status { read_bit_text toggler (codes "11\n")
        ≡ Err (record { line = 1; why = why.BadHeader }) }
    ensures undetermined { read_bit_text toggler (codes "1\nb0\nx\n")
        ≡ Err (record { line = 3; why = why.Undetermined }) }
    ensures justice { read_bit_text toggler (codes "1\nj0\n")
        ≡ Err (record { line = 2; why = why.JusticeClaim }) }
    ensures two_claims { read_bit_text toggler (codes "1\nb0 j0\n")
        ≡ Err (record { line = 2; why = why.BadClaim }) }
    ensures no_decimal { read_bit_text toggler (codes "1\nj01\n")
        ≡ Err (record { line = 2; why = why.BadClaim }) }
    ensures no_such_bad { read_bit_text toggler (codes "1\nb1\n")
        ≡ Err (record { line = 2; why = why.BadClaim }) }
    ensures end_for_initial { read_bit_text toggler (codes "1\nb0\n.\n")
        ≡ Err (record { line = 3; why = why.BadValue }) }
    ensures end_for_frame { read_bit_text one_input (codes "1\nb0\n\n.\n")
        ≡ Err (record { line = 4; why = why.FrameOrder }) }
    ensures end_at_once { read_bit_text toggler (codes "1\nb0\n0\n.\n")
        ≡ Err (record { line = 4; why = why.FrameOrder }) }
    ensures length_first { read_bit_text toggler (codes "1\nb0\nxx\n")
        ≡ Err (record { line = 3; why = why.BadValue }) }
    ensures other_byte { read_bit_text kept_latches (codes "1\nb0\n01\nz\n")
        ≡ Err (record { line = 4; why = why.BadValue }) }
    ensures too_few { read_bit_text one_input (codes "1\nb0\n\n1\n\n.\n")
        ≡ Err (record { line = 5; why = why.BadValue }) }
{}

/// Worked rows: what a text says over the circuit that toggles, and how many lines of texts are admitted and frames closed.
pub fn worked_bit_readings()
    ensures read { (r : BitRead) × ((read_bit_text toggler (codes "1\nb0\n0\n\n\n.\n") ≡ Ok r)
        × (bit_witness_of r ≡ toggles_once)) }
    ensures said { BitSays toggler (codes "1\nb0\n0\n\n\n.\n") toggles_once }
    ensures whole { (admitted_lines toggler (codes "1\nb0\n0\n\n\n.\n") ≡ 6)
        × (closed_frames toggler (codes "1\nb0\n0\n\n\n.\n") ≡ 2) }
    ensures unended { (admitted_lines toggler (codes "1\nb0\n0\n\n\n.") ≡ 5)
        × (closed_frames toggler (codes "1\nb0\n0\n\n\n.") ≡ 2) }
    ensures behind_fault { (admitted_lines toggler (codes "1\nb0\n0\n\nx\n\n.\n") ≡ 4)
        × (closed_frames toggler (codes "1\nb0\n0\n\nx\n\n.\n") ≡ 1) }
    ensures half_a_frame { (admitted_lines one_input (codes "1\nb0\n\n1\n0") ≡ 4)
        × (closed_frames one_input (codes "1\nb0\n\n1\n0") ≡ 1) }
{}

/// Worked rows: a text that is the beginning of a witness of the circuit that toggles, and one that is none.
pub fn worked_bit_beginnings()
    ensures frame { IsBitBeginning toggler (codes "1\nb0\n0\n\n") }
    ensures no_such_bad { ¬ IsBitBeginning toggler (codes "1\nb1\n") }
{}

/// Worked rows: judgements of texts over the circuit that toggles, over it with a constraint, over two latches with no
/// initial value, and over one input.
pub fn worked_bit_judgements()
    ensures accepted { BitJudges toggler (codes "1\nb0\n0\n\n\n.\n") (judgement.Accepted 2) }
    ensures other_initial { BitJudges toggler (codes "1\nb0\n1\n\n.\n") (judgement.InitDiffers 0) }
    ensures not_reached { BitJudges toggler (codes "1\nb0\n0\n\n.\n") (judgement.NotReached 0) }
    ensures violated { BitJudges constrained_circuit (codes "1\nb0\n0\n\n\n.\n")
        (judgement.Violated 1 0) }
    ensures free { BitJudges kept_latches (codes "1\nb0\n01\n\n.\n") (judgement.Accepted 1) }
    ensures no_claim { BitJudges toggler (codes "2\n") judgement.NoClaim }
    ensures no_claim_whatever_follows { BitJudges toggler (codes "0\nx") judgement.NoClaim }
    ensures unended_status { BitJudges toggler (codes "2") (judgement.Malformed 1 why.Truncated) }
    ensures malformed { BitJudges kept_latches (codes "1\nb0\n01\nz\n")
        (judgement.Malformed 4 why.BadValue) }
    ensures last_frame { BitJudges one_input (codes "1\nb0\n\n0\n1\n.\n") (judgement.Accepted 2) }
{}
