//! Laws of lifted texts, and worked rows, as functions with no code.
ghost use Rattle.std.specs.Prelude.{◌≡◌, ◌↔◌, ◌≤◌, ℕ, true, List, [], ◌∷◌, ◌++◌, Some, None, codes, length, replicate};
ghost use Rattle.base.specs.Device.{BeginsWith};
ghost use Rattle.base.specs.Lines.{whole_lines};
ghost use Rattle.btor2.specs.declared.item.Item.{Item};
ghost use Rattle.btor2.specs.Worked.{toggler_model};
ghost use Rattle.aiger.specs.Circuit.{Circuit};
ghost use Rattle.aiger.specs.Worked.{toggler as toggling_circuit};
ghost use Rattle.blast.specs.Lowering.{Lowers};
ghost use Rattle.blast.specs.Worked.{named_keeper, keeper_circuit, named_follower, follower_circuit};
ghost use Rattle.witness.specs.declared.judgement.Judgement.{Judgement};
ghost use Rattle.witness.specs.declared.judgement.Judgement.TheVariants as judgement;
ghost use Rattle.witness.specs.Texts.{most_lines};
ghost use Rattle.witness.specs.Judgements.{Judges};
ghost use Rattle.witness.specs.BitTexts.{BitWitness, BitSays};
ghost use Rattle.witness.specs.BitJudgements.{makes_no_bit_claim, BitJudges};
ghost use Rattle.lift.specs.Lifted.{name_in_frame, lifted_text, named_text};
ghost use Rattle.lift.specs.Verdicts.{latch_states, IsSameVerdict, KeepsVerdict, KeepsVerdictIn};
ghost use Rattle.lift.specs.Worked.{high_bit, high_bit_circuit};

/// A law: the lifted text of a beginning of a source is a beginning of the source's lifted text.
pub fn beginnings_are_lifted_to_beginnings()
    ensures { (items : List Item) (c : Circuit) (front rest : List ℕ)
        → BeginsWith (lifted_text items c (front ++ rest)) (lifted_text items c front) }
{}

/// A law: of a source that makes no claim nothing is lifted.
pub fn no_claim_is_lifted_to_nothing()
    ensures { (items : List Item) (c : Circuit) (text : List ℕ)
        → makes_no_bit_claim (whole_lines text) ≡ true → lifted_text items c text ≡ [] }
{}

/// A law: lifting keeps the verdict. Where a circuit lowers a model, what is judged of a witness of the circuit is judged of
/// its lifted text over the model, if that has no more lines than a witness may have: it makes the same claim, and has as
/// many frames, or breaks the same constraint first in the same frame, or does not reach the claim; where an initial bit
/// differs from its latch's reset, the word of the state that the latch belongs to differs from its init line.
pub fn lifting_keeps_the_verdict()
    ensures { (items : List Item) (c : Circuit) (text : List ℕ) (j : Judgement)
        → Lowers items c → BitJudges c text j → KeepsVerdict items c text j }
{
    aiger::laws::exactly_one_trace();
    btor2::laws::exactly_one_trace();
    witness::bit_laws::bit_texts_read();
    witness::laws::texts_read();
}

/// A law: with names too lifting keeps the verdict.
pub fn names_keep_the_verdict()
    ensures { (items : List Item) (c : Circuit) (text : List ℕ) (j : Judgement)
        → Lowers items c → BitJudges c text j
        → KeepsVerdictIn items c text (named_text items c text) j }
{
    aiger::laws::exactly_one_trace();
    btor2::laws::exactly_one_trace();
    witness::bit_laws::bit_texts_read();
    witness::laws::texts_read();
}

/// A law: names mean nothing. Where a circuit lowers a model and a text says a witness of the circuit, and its lifted text
/// has no more lines than a witness may have, what is judged of the lifted text with names over the model is what is judged
/// of that without.
pub fn names_mean_nothing()
    ensures { (items : List Item) (c : Circuit) (text : List ℕ) (w : BitWitness) (j : Judgement)
        → Lowers items c → BitSays c text w
        → length (whole_lines (lifted_text items c text)) ≤ most_lines
        → Judges items (named_text items c text) j ↔ Judges items (lifted_text items c text) j }
{
    witness::bit_laws::bit_texts_read();
    witness::laws::texts_read();
}

/// Worked rows: of a state of one bit, of a state of two bits whose word is written the highest first, of a faulty line, of
/// which no piece is lifted, of an input of three bits, and of a free state, which has a part of its own in each frame.
pub fn worked_liftings()
    ensures toggles { lifted_text toggler_model toggling_circuit (codes "1\nb0\n0\n\n\n.\n")
        ≡ codes "sat\nb0\n#0\n0 0\n@0\n@1\n.\n" }
    ensures highest_first { lifted_text named_keeper keeper_circuit (codes "1\nb0\n01\n\n.\n")
        ≡ codes "sat\nb0\n#0\n0 10\n@0\n.\n" }
    ensures faulty { lifted_text named_keeper keeper_circuit (codes "1\nb0\n01\nz\n")
        ≡ codes "sat\nb0\n#0\n0 10\n" }
    ensures inputs { lifted_text high_bit high_bit_circuit (codes "1\nb0\n0\n001\n000\n.\n")
        ≡ codes "sat\nb0\n#0\n0 0\n@0\n0 100\n@1\n0 000\n.\n" }
    ensures free { lifted_text named_follower follower_circuit (codes "1\nb0\n0\n01\n00\n.\n")
        ≡ codes "sat\nb0\n#0\n1 0\n0 1\n@0\n0 0\n#1\n0 0\n@1\n0 0\n.\n" }
    ensures no_claim { lifted_text high_bit high_bit_circuit (codes "2\njunk\n") ≡ [] }
    ensures unended { lifted_text named_keeper keeper_circuit (codes "1\nb0\n01")
        ≡ codes "sat\nb0\n" }
{}

/// Worked rows: with names, which stand behind the words of inputs and states that have symbols, `@` and the frame's number
/// behind each, behind `#0` too; a state without a symbol has none; and a symbol of 253 bytes has a name in the frames up to
/// 9, and none in the tenth frame behind the first.
pub fn worked_names()
    ensures inputs { named_text high_bit high_bit_circuit (codes "1\nb0\n0\n001\n000\n.\n")
        ≡ codes "sat\nb0\n#0\n0 0 s@0\n@0\n0 100 x@0\n@1\n0 000 x@1\n.\n" }
    ensures free { named_text named_follower follower_circuit (codes "1\nb0\n0\n01\n00\n.\n")
        ≡ codes "sat\nb0\n#0\n1 0 s@0\n0 1 f@0\n@0\n0 0 x@0\n#1\n0 0 f@1\n@1\n0 0 x@1\n.\n" }
    ensures none { named_text toggler_model toggling_circuit (codes "1\nb0\n0\n\n.\n")
        ≡ codes "sat\nb0\n#0\n0 0\n@0\n.\n" }
    ensures fits { name_in_frame 9 (replicate 253 65) ≡ Some (replicate 253 65 ++ codes "@9") }
    ensures too_long { name_in_frame 10 (replicate 253 65) ≡ None }
{}

/// Worked rows: which state a latch belongs to, in a model whose first state is free and has none, and in one of a state of
/// two bits, which has two; and which judgements are the same verdict.
pub fn worked_verdicts()
    ensures behind_free { latch_states named_follower ≡ 1 ∷ [] }
    ensures two_bits { latch_states named_keeper ≡ 0 ∷ 0 ∷ [] }
    ensures state { IsSameVerdict named_follower (judgement.InitDiffers 0)
        (judgement.InitDiffers 1) }
    ensures not_its_number { ¬ IsSameVerdict named_follower (judgement.InitDiffers 0)
        (judgement.InitDiffers 0) }
    ensures no_latch { ¬ IsSameVerdict named_follower (judgement.InitDiffers 1)
        (judgement.InitDiffers 1) }
    ensures accepted { IsSameVerdict named_keeper (judgement.Accepted 2) (judgement.Accepted 2) }
    ensures fewer_frames { ¬ IsSameVerdict named_keeper (judgement.Accepted 2)
        (judgement.Accepted 1) }
    ensures not_violated { ¬ IsSameVerdict named_keeper (judgement.NotReached 0)
        (judgement.Violated 0 0) }
{}
