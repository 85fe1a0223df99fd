//! Laws of witnesses, and worked rows, as functions with no code.
ghost use Rattle.std.specs.Prelude.{◌≡◌, ◌↔◌, ℕ, ◌+◌, ◌<◌, ◌≤◌, true, false, List, [], ◌∷◌, ◌++◌, length, All, None, Some, Ok, Err, codes, map};
ghost use Rattle.base.specs.Lines.{text_of_lines, whole_lines, unfinished, IsLine};
ghost use Rattle.btor2.specs.declared.item.Item.{Item};
ghost use Rattle.btor2.specs.Check.{IsWellFormed};
ghost use Rattle.btor2.specs.Lists.{HaveNexts};
ghost use Rattle.btor2.specs.Trace.{Frame};
ghost use Rattle.btor2.specs.Worked.{toggler_model, follower};
ghost use Rattle.witness.specs.declared.why.Why.TheVariants as why;
ghost use Rattle.witness.specs.declared.judgement.Judgement.{Judgement};
ghost use Rattle.witness.specs.declared.judgement.Judgement.TheVariants as judgement;
ghost use Rattle.witness.specs.Texts.{Shape, shape_of, has_free, Parts, Witness, AreFrames, Says, most_lines};
ghost use Rattle.witness.specs.Beginnings.{IsBeginning};
ghost use Rattle.witness.specs.Admits.{Read, read_text, witness_of};
ghost use Rattle.witness.specs.Judgements.{words_of, given_frames, makes_no_claim, Judges};
ghost use Rattle.witness.specs.Accepted.{AcceptsExactly};
ghost use Rattle.witness.specs.ClosedWords.{word_reading, read_with, admitted_word_lines, closed_word_frames, said_in, IsClosedTrace, last_word, ClosesAtMostOne};
ghost use Rattle.witness.specs.Worked.{constrained, wide, given_zero, rises, follows};

/// A law: over a well-formed model, a text that says a witness is read as it, and a text that is read says what it is
/// read as.
pub fn texts_read()
    ensures read { (items : List Item) (text : List ℕ) (w : Witness) → IsWellFormed items
        → Says (shape_of items) text w
        → (r : Read) × ((read_text (shape_of items) text ≡ Ok r) × (witness_of r ≡ w)) }
    ensures said { (items : List Item) (text : List ℕ) (r : Read) → IsWellFormed items
        → read_text (shape_of items) text ≡ Ok r
        → Says (shape_of items) text (witness_of r) }
{}

/// A law: over a well-formed model a text says at most one witness.
pub fn one_reading()
    ensures { (items : List Item) (text : List ℕ) (w v : Witness) → IsWellFormed items
        → Says (shape_of items) text w
        → Says (shape_of items) text v → w ≡ v }
{}

/// A law: how far the whole lines of a text are admitted, on which the closed frames and the admitted lines rest, and what
/// the text reads as, on which its judgement rests, are one reading.
pub fn one_way_of_reading()
    ensures { (shape : Shape) (text : List ℕ) → read_text shape text
        ≡ read_with (word_reading shape text) (unfinished text) }
{}

/// A law: over a well-formed model with a bad property, whole lines, four fewer than may be there at most, are all admitted
/// exactly where further lines make them the text of a witness, four at most. And whatever makes a text that of a witness,
/// all its whole lines are admitted.
pub fn admitted_lines_begin_witnesses()
    ensures exactly { (items : List Item) (text : List ℕ) → IsWellFormed items
        → 0 < (shape_of items).bads → unfinished text ≡ []
        → length (whole_lines text) + 4 ≤ most_lines
        → (admitted_word_lines (shape_of items) text ≡ length (whole_lines text))
        ↔ IsBeginning (shape_of items) text }
    ensures whatever_follows { (items : List Item) (text further : List ℕ) (w : Witness)
        → IsWellFormed items
        → Says (shape_of items) (text ++ further) w → admitted_word_lines (shape_of items) text
        ≡ length (whole_lines text) }
{}

/// A law: over a well-formed model, the first whole line that is not admitted is the first with which nothing that follows
/// makes a text that of a witness: with it nothing does, and before it, where the model has a bad property, four lines do.
pub fn first_faulty_line()
    ensures before { (items : List Item) (text : List ℕ) (lines : List (List ℕ)) (line : List ℕ)
        (behind : List (List ℕ)) → IsWellFormed items
        → 0 < (shape_of items).bads → whole_lines text ≡ lines ++ line ∷ behind
        → admitted_word_lines (shape_of items) text ≡ length lines
        → length lines + 4 ≤ most_lines → IsBeginning (shape_of items) (text_of_lines lines) }
    ensures with_it { (items : List Item) (text : List ℕ) (lines : List (List ℕ)) (line : List ℕ)
        (behind : List (List ℕ)) (further : List ℕ) (w : Witness)
        → IsWellFormed items → whole_lines text ≡ lines ++ line ∷ behind
        → admitted_word_lines (shape_of items) text ≡ length lines
        → ¬ Says (shape_of items) (text_of_lines (lines ++ line ∷ []) ++ further) w }
{}

/// A law: where each state of a model has a next none is free, and where none is, a witness has no part of states
/// behind the first frame.
pub fn no_later_states()
    ensures none_free { (items : List Item) → HaveNexts items → has_free (shape_of items) ≡ false }
    ensures no_part { (shape : Shape) (first : Parts) (later : List Parts) → has_free shape ≡ false
        → AreFrames shape (first ∷ later)
        → All (λ parts. parts.states ≡ None) later }
{}

/// A law: over a well-formed model a text has exactly one judgement.
pub fn exactly_one_judgement()
    ensures exists { (items : List Item) (text : List ℕ) → IsWellFormed items → (j : Judgement)
        × Judges items text j }
    ensures unique { (items : List Item) (text : List ℕ) (j k : Judgement) → IsWellFormed items
        → Judges items text j
        → Judges items text k → j ≡ k }
{}

/// A law: what is judged of a text over a well-formed model is that it is accepted, with so many frames, exactly where it says
/// a witness of which this is judged.
pub fn accepted_exactly()
    ensures { (items : List Item) (text : List ℕ) (j : Judgement) → IsWellFormed items
        → Judges items text j → AcceptsExactly items text j }
{}

/// A law: a text that says that there is no claim closes no frame.
pub fn no_claim_closes_no_frame()
    ensures { (shape : Shape) (text : List ℕ) → makes_no_claim 0 (whole_lines text) ≡ true
        → closed_word_frames shape text ≡ 0 }
{}

/// Worked rows: the faults of texts over a model of one bit that toggles.
pub fn worked_faults()
    ensures shape { shape_of toggler_model
        ≡ record { bads = 1; states = 1 ∷ []; free = false ∷ []; inputs = [] } }
    ensures nothing { read_text (shape_of toggler_model) []
        ≡ Err (record { line = 1; why = why.Truncated }) }
    ensures state_twice { read_text (shape_of toggler_model)
        (codes "sat\nb0\n#0\n0 0\n0 0\n@0\n.\n") ≡ Err (record { line = 5; why = why.IndexTwice }) }
    ensures later_states { read_text (shape_of toggler_model) (codes "sat\nb0\n@0\n#1\n@1\n.\n")
        ≡ Err (record { line = 4; why = why.FrameOrder }) }
    ensures no_frame { read_text (shape_of toggler_model) (codes "sat\nb0\n.\n")
        ≡ Err (record { line = 3; why = why.FrameOrder }) }
    ensures no_such_bad { read_text (shape_of toggler_model) (codes "sat\nb1\n@0\n.\n")
        ≡ Err (record { line = 2; why = why.BadClaim }) }
    ensures comment_behind_status { read_text (shape_of toggler_model) (codes "sat\n; x\n")
        ≡ Err (record { line = 2; why = why.BadClaim }) }
    ensures claim_twice { read_text (shape_of toggler_model) (codes "sat\nb0 b0\n")
        ≡ Err (record { line = 2; why = why.BadClaim }) }
    ensures justice { read_text (shape_of toggler_model) (codes "sat\nj0\n")
        ≡ Err (record { line = 2; why = why.JusticeClaim }) }
    ensures too_many_digits { read_text (shape_of toggler_model) (codes "sat\nb0\n#0\n0 01\n")
        ≡ Err (record { line = 4; why = why.BadValue }) }
    ensures no_value { read_text (shape_of toggler_model) (codes "sat\nb0\n#0\n0\n")
        ≡ Err (record { line = 4; why = why.BadValue }) }
    ensures undetermined { read_text (shape_of toggler_model) (codes "sat\nb0\n#0\n0 x\n")
        ≡ Err (record { line = 4; why = why.Undetermined }) }
    ensures no_symbol { read_text (shape_of toggler_model) (codes "sat\nb0\n#0\n0 1 ;\n")
        ≡ Err (record { line = 4; why = why.BadSymbol }) }
    ensures first_of_three { read_text (shape_of toggler_model) (codes "sat\nb0\n#0\n1 x ;\n")
        ≡ Err (record { line = 4; why = why.BadIndex }) }
    ensures no_input { read_text (shape_of toggler_model) (codes "sat\nb0\n@0\n0 1\n")
        ≡ Err (record { line = 4; why = why.BadIndex }) }
    ensures space_behind { read_text (shape_of toggler_model) (codes "sat\nb0\n@0 \n")
        ≡ Err (record { line = 3; why = why.FrameOrder }) }
    ensures unended { read_text (shape_of toggler_model) (codes "sat\nb0\n@0\n.")
        ≡ Err (record { line = 4; why = why.Truncated }) }
    ensures byte_behind { read_text (shape_of toggler_model) (codes "sat\nb0\n@0\n.\nx")
        ≡ Err (record { line = 5; why = why.Trailing }) }
    ensures line_behind { read_text (shape_of toggler_model) (codes "sat\nb0\n@0\n.\n\n")
        ≡ Err (record { line = 5; why = why.Trailing }) }
    ensures other_status { read_text (shape_of toggler_model) (codes "satt\n")
        ≡ Err (record { line = 1; why = why.BadHeader }) }
{}

/// Worked rows: the faults of texts over a model of a free state, the first, and one that follows it.
pub fn worked_free_faults()
    ensures shape { shape_of follower
        ≡ record { bads = 1; states = 1 ∷ 1 ∷ []; free = true ∷ false ∷ []; inputs = 1 ∷ [] } }
    ensures other_state { read_text (shape_of follower) (codes "sat\nb0\n@0\n#1\n1 0\n")
        ≡ Err (record { line = 5; why = why.BadIndex }) }
    ensures end_behind_states { read_text (shape_of follower) (codes "sat\nb0\n@0\n#1\n.\n")
        ≡ Err (record { line = 5; why = why.FrameOrder }) }
    ensures states_twice { read_text (shape_of follower) (codes "sat\nb0\n@0\n#1\n#1\n@1\n.\n")
        ≡ Err (record { line = 5; why = why.FrameOrder }) }
    ensures states_behind_inputs { read_text (shape_of follower) (codes "sat\nb0\n@0\n@1\n#1\n.\n")
        ≡ Err (record { line = 5; why = why.FrameOrder }) }
    ensures free_twice { read_text (shape_of follower) (codes "sat\nb0\n@0\n#1\n0 1\n0 0\n")
        ≡ Err (record { line = 6; why = why.IndexTwice }) }
    ensures free_undetermined { read_text (shape_of follower) (codes "sat\nb0\n@0\n#1\n0 x\n")
        ≡ Err (record { line = 5; why = why.Undetermined }) }
    ensures later_states_first { read_text (shape_of follower) (codes "sat\nb0\n#1\n")
        ≡ Err (record { line = 3; why = why.FrameOrder }) }
    ensures other_number { read_text (shape_of follower) (codes "sat\nb0\n@0\n#2\n")
        ≡ Err (record { line = 4; why = why.FrameOrder }) }
{}

/// Worked rows: what texts over that model say: a free state's word in each of two frames, a part of states with no word,
/// and a free state that has the word 0 where it is given none, whatever it had in the frame before.
pub fn worked_free_witnesses()
    ensures read { (r : Read)
        × ((read_text (shape_of follower)
        (codes "sat\nb0\n#0\n0 1\n1 0\n@0\n0 0\n#1\n0 0\n@1\n0 0\n.\n") ≡ Ok r) × (witness_of r
        ≡ follows)) }
    ensures said { Says (shape_of follower)
        (codes "sat\nb0\n#0\n0 1\n1 0\n@0\n0 0\n#1\n0 0\n@1\n0 0\n.\n") follows }
    ensures empty_part { (r : Read)
        × ((read_text (shape_of follower) (codes "sat\nb0\n@0\n#1\n@1\n.\n") ≡ Ok r)
        × (witness_of
        r
        ≡ record { claims = 0 ∷ []; frames = given_zero ∷ record { states = Some []; inputs = [] } ∷ [] })) }
    ensures not_kept { (r : Read)
        × ((read_text (shape_of follower) (codes "sat\nb0\n#0\n0 1\n@0\n@1\n#2\n0 1\n@2\n.\n")
        ≡ Ok r)
        × (map (λ f. f 2) (given_frames follower (words_of (witness_of r))) ≡ 1 ∷ 0 ∷ 1 ∷ [])) }
{}

/// Worked rows: what two texts say, a comment, a name and an initial part among it, and the words of an input that is given one in the first of two frames.
pub fn worked_witnesses()
    ensures read { (r : Read)
        × ((read_text (shape_of toggler_model) (codes "; note\nsat\nb0\n#0\n0 0 t\n@0\n@1\n.\n")
        ≡ Ok r) × (witness_of r ≡ rises)) }
    ensures said { Says (shape_of toggler_model) (codes "; note\nsat\nb0\n#0\n0 0 t\n@0\n@1\n.\n")
        rises }
    ensures wide_is_model { IsWellFormed wide }
    ensures words { (r : Read)
        × ((read_text (shape_of wide) (codes "sat\nb0\n@0\n0 100\n@1\n.\n") ≡ Ok r)
        × (map (λ f. f 2) (given_frames wide (words_of (witness_of r))) ≡ 4 ∷ 0 ∷ [])) }
{}

/// A law: a line more closes no frame of a text or one, behind which no word is given yet; the bytes of a line that has not
/// ended close none; and the closed frames of a text are the first of those of a longer one.
pub fn lines_close_frames()
    ensures line { (items : List Item) (text bytes : List ℕ) → IsLine bytes
        → ClosesAtMostOne (said_in items text) (said_in items (text ++ (bytes ++ 10 ∷ []))) }
    ensures part { (items : List Item) (text bytes : List ℕ) → IsLine bytes
        → said_in items (text ++ bytes) ≡ said_in items text }
    ensures front { (items : List Item) (text more : List ℕ) → (behind : List Parts)
        × ((said_in items (text ++ more)).closed ≡ (said_in items text).closed ++ behind) }
{}

/// Worked rows: how many lines of texts are admitted, and how many frames they close.
pub fn worked_readings()
    ensures whole { (admitted_word_lines (shape_of toggler_model)
        (codes "sat\nb0\n#0\n0 0\n@0\n@1\n.\n") ≡ 7) × (closed_word_frames (shape_of toggler_model)
        (codes "sat\nb0\n#0\n0 0\n@0\n@1\n.\n") ≡ 2) }
    ensures unended { (admitted_word_lines (shape_of toggler_model) (codes "sat\nb0\n@0\n@1\n.")
        ≡ 4) × (closed_word_frames (shape_of toggler_model) (codes "sat\nb0\n@0\n@1\n.") ≡ 1) }
    ensures behind_fault { (admitted_word_lines (shape_of toggler_model)
        (codes "sat\nb0\n@0\n@2\n.\n") ≡ 3) × (closed_word_frames (shape_of toggler_model)
        (codes "sat\nb0\n@0\n@2\n.\n") ≡ 0) }
    ensures states_behind { (admitted_word_lines (shape_of follower)
        (codes "sat\nb0\n@0\n#1\n0 1\n") ≡ 5) × (closed_word_frames (shape_of follower)
        (codes "sat\nb0\n@0\n#1\n0 1\n") ≡ 1) }
{}

/// Worked rows: the word of the bit that toggles in the last closed frame, which is there until a word is given in the next
/// one; a position with no node has none.
pub fn worked_last_words()
    ensures none { (fs : List Frame) → IsClosedTrace toggler_model (codes "sat\nb0\n@0\n") fs
        → last_word toggler_model (codes "sat\nb0\n@0\n") fs 2 ≡ None }
    ensures first { (fs : List Frame) → IsClosedTrace toggler_model (codes "sat\nb0\n@0\n@1\n") fs
        → last_word toggler_model (codes "sat\nb0\n@0\n@1\n") fs 2 ≡ Some 0 }
    ensures last { (fs : List Frame) → IsClosedTrace toggler_model (codes "sat\nb0\n@0\n@1\n.\n") fs
        → last_word toggler_model (codes "sat\nb0\n@0\n@1\n.\n") fs 2 ≡ Some 1 }
    ensures no_node { (fs : List Frame)
        → last_word toggler_model (codes "sat\nb0\n@0\n@1\n.\n") fs 0 ≡ None }
    ensures given { (fs : List Frame) → last_word follower (codes "sat\nb0\n@0\n#1\n0 1\n") fs 1
        ≡ None }
{}

/// Worked rows: a text that is the beginning of a witness over the model of one bit that toggles, and one that is none.
pub fn worked_beginnings()
    ensures frame { IsBeginning (shape_of toggler_model) (codes "sat\nb0\n@0\n") }
    ensures no_such_bad { ¬ IsBeginning (shape_of toggler_model) (codes "sat\nb1\n") }
{}

/// Worked rows: judgements of texts over the model of one bit that toggles, over it with a constraint, and over the model
/// in which one state follows a free one.
pub fn worked_judgements()
    ensures accepted { Judges toggler_model (codes "sat\nb0\n#0\n0 0\n@0\n@1\n.\n")
        (judgement.Accepted 2) }
    ensures other_init { Judges toggler_model (codes "sat\nb0\n#0\n0 1\n@0\n.\n")
        (judgement.InitDiffers 0) }
    ensures not_reached { Judges toggler_model (codes "sat\nb0\n@0\n.\n") (judgement.NotReached 0) }
    ensures unsat { Judges toggler_model (codes "; x\nunsat\n") judgement.NoClaim }
    ensures unknown { Judges toggler_model (codes "unknown\nx") judgement.NoClaim }
    ensures malformed { Judges toggler_model (codes "sat\nb0\n.\n")
        (judgement.Malformed 3 why.FrameOrder) }
    ensures follows { Judges follower
        (codes "sat\nb0\n#0\n0 1\n1 0\n@0\n0 0\n#1\n0 0\n@1\n0 0\n.\n") (judgement.Accepted 2) }
    ensures does_not_follow { Judges follower (codes "sat\nb0\n@0\n#1\n0 1\n@1\n.\n")
        (judgement.NotReached 0) }
    ensures constrained_is_model { IsWellFormed constrained }
    ensures violated { Judges constrained (codes "sat\nb0\n#0\n0 0\n@0\n@1\n.\n")
        (judgement.Violated 1 0) }
{}
