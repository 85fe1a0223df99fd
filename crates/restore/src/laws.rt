//! Laws of the texts of counterexamples over an engine form, and worked rows: functions that do nothing, whose contracts are
//! the laws.
ghost use Rattle.std.specs.Prelude.{◌≡◌, ◌≢◌, ◌<◌, ◌≤◌, ◌+◌, min, ℕ, ◌==◌, Option, List, [], ◌∷◌, Bool, true, false, Some, All, codes, length, replicate};
ghost use Rattle.base.specs.Lines.{whole_lines};
ghost use Rattle.base.specs.Literal.{Valuation};
ghost use Rattle.aiger.specs.Circuit.{Circuit, IsCircuit};
ghost use Rattle.aiger.specs.Trace.{IsCircuitTrace};
ghost use Rattle.engine_form.specs.EngineForm.{input_count, IsEngineFormOf};
ghost use Rattle.engine_form.specs.Worked.{keeper, keeper_form, negated_toggler, either};
ghost use Rattle.witness.specs.declared.judgement.Judgement.TheVariants as judgement;
ghost use Rattle.witness.specs.Texts.{most_lines};
ghost use Rattle.witness.specs.BitAdmits.{admitted_lines};
ghost use Rattle.witness.specs.BitTexts.{IsBitWitness, BitSays};
ghost use Rattle.witness.specs.BitJudgements.{JudgesBits, BitJudges};
ghost use Rattle.restore.specs.Frames.{frame_of};
ghost use Rattle.restore.specs.Restored.{rises_in, up_to_rise, restored_witness, restored_lines, restored_text};
ghost use Rattle.restore.specs.Worked.{watched, both_inputs, always_bad};
ghost use Rattle.restore.specs.Counterexample.{SaysFrames, restored, ends_bad, HasProperty, place_in, first_bad};
ghost use Rattle.restore.specs.Reading.{whole, faulty, read_found};
ghost use Rattle.restore.specs.Steps.{FramesReader, frames_to_come};
ghost use Rattle.restore.specs.declared.fault.RestoreWhy.TheVariants as why;
ghost use Rattle.restore.specs.declared.place.Place.TheVariants.{Start};

/// A law: a text is read as some frames exactly where it says them.
pub fn read_where_said()
    ensures said { (width : ℕ) (text : List ℕ) (given : List (List Bool)) → 0 < width
        → SaysFrames width text given → read_found width text ≡ whole given }
    ensures read { (width : ℕ) (text : List ℕ) (given : List (List Bool)) → 0 < width
        → read_found width text ≡ whole given → SaysFrames width text given }
{}

/// A law: a reader at the begin of a text gives what the text reads as.
pub fn reader_gives_the_text()
    ensures { (reader : FramesReader) (text : List ℕ) → reader.place ≡ Start
        → frames_to_come reader text ≡ read_found (length reader.frame) text }
{}

/// A law: what is restored of input frames of a circuit's engine form is a witness of the circuit.
pub fn restored_is_a_witness()
    ensures { (c : Circuit) (k : ℕ) (d : Circuit) (given : List (List Bool))
        → IsEngineFormOf c (Some k) d → given ≢ [] → All (λ bits. length bits ≡ d.inputs) given
        → IsBitWitness c (restored c k given) }
{}

/// A law: where the bad property of a circuit's engine form is 1 in the last of the frames that its inputs give, what is
/// restored of these is judged accepted.
pub fn restored_is_accepted()
    ensures { (c : Circuit) (k : ℕ) (d : Circuit) (given : List (List Bool)) (ws : List Valuation)
        → IsEngineFormOf c (Some k) d
        → IsCircuitTrace d (replicate (length d.latches) false) given ws → ends_bad d ws ≡ true
        → JudgesBits c (restored c k given) (judgement.Accepted (length given)) }
{}

/// A law: what a text is restored to, with which nothing is wrong, says the witness of the circuit that its frames are.
pub fn restored_text_says_a_witness()
    ensures { (c : Circuit) (k : ℕ) (text : List ℕ) (given : List (List Bool)) → k < length c.bads
        → read_found (input_count c) text ≡ whole given
        → length given + 4 ≤ most_lines
        → BitSays c (restored_text c k text) (restored_witness c k given) }
{}

/// A law: where a bad property of a circuit's engine form is 1 in some frame of those that the form has under the input frames
/// of a text, what the text is restored to is judged accepted over the circuit, and ends with the first such frame.
pub fn restored_text_is_accepted()
    ensures { (c : Circuit) (choice : Option ℕ) (k : ℕ) (d : Circuit) (text : List ℕ)
        (given : List (List Bool)) (ws : List Valuation) (n : ℕ)
        → IsEngineFormOf c choice d → HasProperty choice k → k < length c.bads
        → read_found (input_count c) text ≡ whole given → length given + 4 ≤ most_lines
        → IsCircuitTrace d (replicate (length d.latches) false) given ws
        → first_bad d (place_in choice k) ws ≡ Some n
        → BitJudges c (restored_text c k text) (judgement.Accepted (n + 1)) }
{}

/// A law: how what a text is restored to is read over the circuit. Its lines are those of the frames that are written, and all
/// are admitted, or as many as a witness may have.
pub fn restored_lines_are_admitted()
    ensures lines { (c : Circuit) (k : ℕ) (text : List ℕ) → IsCircuit c → k < length c.bads
        → whole_lines (restored_text c k text)
        ≡ restored_lines c k (read_found (input_count c) text) }
    ensures admitted { (c : Circuit) (k : ℕ) (text : List ℕ) → IsCircuit c → k < length c.bads
        → admitted_lines c (restored_text c k text)
        ≡ min (length (restored_lines c k (read_found (input_count c) text))) most_lines }
{}

/// Worked rows: texts over forms of one, two and four inputs, and what they read as.
pub fn worked_texts()
    // One frame and the mark behind it.
    ensures marked { read_found 4 (codes "00\n0110# DONE\n")
        ≡ whole ((false ∷ true ∷ true ∷ false ∷ []) ∷ []) }
    // Two frames, of which the last has no end, and the mark in a line of its own.
    ensures open { read_found 1 (codes "\n0\n1") ≡ whole ((false ∷ []) ∷ (true ∷ []) ∷ []) }
    ensures own_line { read_found 1 (codes "0\n1\n# DONE") ≡ whole ((true ∷ []) ∷ []) }
    // What is wrong, and where.
    ensures nothing { read_found 1 [] ≡ faulty [] (record { line = 1; why = why.NoFrame }) }
    ensures no_frame { read_found 1 (codes "00\n# DONE\n")
        ≡ faulty [] (record { line = 2; why = why.NoFrame }) }
    ensures one { read_found 1 (codes "01\n1\n")
        ≡ faulty [] (record { line = 1; why = why.InitialOne }) }
    ensures no_bit { read_found 1 (codes "0x1\n1\n")
        ≡ faulty [] (record { line = 1; why = why.NoBit }) }
    ensures no_frame_bit { read_found 2 (codes "0\n01\nx1\n")
        ≡ faulty ((false ∷ true ∷ []) ∷ []) (record { line = 3; why = why.NoBit }) }
    ensures short { read_found 2 (codes "0\n01\n1\n")
        ≡ faulty ((false ∷ true ∷ []) ∷ []) (record { line = 3; why = why.WrongLength }) }
    ensures empty_line { read_found 2 (codes "0\n01\n\n")
        ≡ faulty ((false ∷ true ∷ []) ∷ []) (record { line = 3; why = why.WrongLength }) }
{}

/// Worked rows: a latch that begins with the bit that the first frame gives and has no input of its own, and which frames
/// of its form end with the bad property.
pub fn worked_restorings()
    ensures begins_with_1 { restored keeper 0 ((true ∷ []) ∷ (false ∷ []) ∷ [])
        ≡ record { claim = 0; initial = true ∷ []; frames = [] ∷ [] ∷ [] } }
    ensures begins_with_0 { restored keeper 0 ((false ∷ []) ∷ [])
        ≡ record { claim = 0; initial = false ∷ []; frames = [] ∷ [] } }
    ensures bad { ends_bad keeper_form ((λ k. true) ∷ (λ k. false) ∷ []) ≡ true }
    ensures bad_before { ends_bad keeper_form ((λ k. false) ∷ (λ k. true) ∷ []) ≡ false }
    ensures no_frame { ends_bad keeper_form [] ≡ false }
{}

/// Worked rows: what texts are restored to. The frames end with the one in which the claimed property rises, and all are
/// there where it does not; of a text with a faulty line what the lines before it give is written, and no last line.
pub fn worked_restored_texts()
    // A latch without an initial value begins with the bit of the first frame, and is bad where it is 1.
    ensures free { restored_text keeper 0 (codes "\n1\n0\n") ≡ codes "1\nb0\n1\n\n.\n" }
    ensures never { restored_text keeper 0 (codes "0\n0\n1\n") ≡ codes "1\nb0\n0\n\n\n.\n" }
    // A latch begins with 1, and the input is one that nothing reads.
    ensures reset { restored_text negated_toggler 0 (codes "0\n0\n0\n# DONE\n")
        ≡ codes "1\nb0\n1\n\n.\n" }
    // A constraint fails before the property is 1, so that it does not rise; in that frame; behind it.
    ensures before { restored_text watched 0 (codes "\n10\n00\n11\n10\n")
        ≡ codes "1\nb0\n\n10\n00\n11\n10\n.\n" }
    ensures within { restored_text watched 0 (codes "\n01\n10\n") ≡ codes "1\nb0\n\n01\n10\n.\n" }
    ensures behind { restored_text watched 0 (codes "\n10\n11\n01") ≡ codes "1\nb0\n\n10\n11\n.\n" }
    // Both inputs are 1 in the third frame.
    ensures gate { restored_text both_inputs 0 (codes "\n01\n10\n11\n00\n")
        ≡ codes "1\nb0\n\n01\n10\n11\n.\n" }
    // The second of two properties.
    ensures second { restored_text either 1 (codes "\n1\n0\n1\n") ≡ codes "1\nb1\n\n1\n0\n.\n" }
    // A property that is always 1, where there is no input and no latch.
    ensures always { restored_text always_bad 0 (codes "0\n0\n0\n") ≡ codes "1\nb0\n\n\n.\n" }
    // A faulty line: the first one, a frame's, and one behind the rise.
    ensures no_frame { restored_text keeper 0 (codes "1\n0\n") ≡ [] }
    ensures faulty { restored_text keeper 0 (codes "\n0\nx\n1\n") ≡ codes "1\nb0\n0\n\n" }
    ensures faulty_behind { restored_text keeper 0 (codes "\n1\n0\n2\n") ≡ codes "1\nb0\n1\n\n" }
{}

/// Worked rows: frames that are computed, and where a property rises in them.
pub fn worked_rises()
    ensures input { frame_of both_inputs [] (true ∷ false ∷ []) 1 ≡ true }
    ensures gate { frame_of both_inputs [] (true ∷ true ∷ []) 3 ≡ true }
    ensures no_gate { frame_of both_inputs [] (true ∷ false ∷ []) 3 ≡ false }
    ensures latch { frame_of keeper (true ∷ []) [] 1 ≡ true }
    ensures rises { rises_in watched 0 true (frame_of watched [] (true ∷ true ∷ [])) ≡ true }
    ensures broken { rises_in watched 0 true (frame_of watched [] (false ∷ true ∷ [])) ≡ false }
    ensures broken_before { rises_in watched 0 false (frame_of watched [] (true ∷ true ∷ []))
        ≡ false }
    ensures cut { up_to_rise watched 0 true ((λ k. k == 1) ∷ (λ k. true) ∷ (λ k. true) ∷ [])
        (false ∷ true ∷ false ∷ []) ≡ false ∷ true ∷ [] }
{}
