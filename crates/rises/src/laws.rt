//! Laws of first rises, and worked rows, as functions with no code.
ghost use Rattle.std.specs.Prelude.{◌≡◌, ℕ, ◌<◌, true, false, List, [], ◌∷◌, Some, None, codes, length, slice_get};
ghost use Rattle.btor2.specs.declared.item.Item.{Item};
ghost use Rattle.btor2.specs.Items.{is_bad};
ghost use Rattle.btor2.specs.Check.{IsWellFormed};
ghost use Rattle.btor2.specs.Trace.{Frame};
ghost use Rattle.btor2.specs.Worked.{counter, toggler_model};
ghost use Rattle.base.specs.Literal.{Valuation};
ghost use Rattle.aiger.specs.Circuit.{Circuit, IsCircuit};
ghost use Rattle.witness.specs.declared.judgement.Judgement.TheVariants as judgement;
ghost use Rattle.btor2.specs.Reachability.{nodes_of};
ghost use Rattle.witness.specs.Judgements.{Judges};
ghost use Rattle.witness.specs.ClosedWords.{IsClosedTrace};
ghost use Rattle.witness.specs.BitJudgements.{BitJudges};
ghost use Rattle.witness.specs.Reached.{word_claimed, IsClosedBitTrace, bit_claimed};
ghost use Rattle.rises.specs.FirstRises.{word_first_rises, bit_first_rises};
ghost use Rattle.rises.specs.Worked.{input_and_negation, either_input};

/// A law: where a text over a well-formed model is accepted, each bad property that it claims is there and rises first in one
/// of its frames; whatever is judged, none is told to rise that is not claimed.
pub fn accepted_claims_rise()
    ensures claimed { (items : List Item) (text : List ℕ) (fs : List Frame) (frames k : ℕ)
        → IsWellFormed items → Judges items text (judgement.Accepted frames)
        → IsClosedTrace items text fs → word_claimed items text k ≡ true
        → (first : ℕ) × ((slice_get (word_first_rises items text fs) k ≡ Some (Some first))
        × (first < frames)) }
    ensures others { (items : List Item) (text : List ℕ) (fs : List Frame) (k : ℕ)
        → word_claimed items text k ≡ false → k < length (nodes_of is_bad items)
        → slice_get (word_first_rises items text fs) k ≡ Some None }
    ensures many { (items : List Item) (text : List ℕ) (fs : List Frame)
        → length (word_first_rises items text fs) ≡ length (nodes_of is_bad items) }
{}

/// A law: the same over a circuit.
pub fn accepted_bit_claims_rise()
    ensures claimed { (c : Circuit) (text : List ℕ) (vs : List Valuation) (frames k : ℕ)
        → IsCircuit c → BitJudges c text (judgement.Accepted frames)
        → IsClosedBitTrace c text vs → bit_claimed c text k ≡ true
        → (first : ℕ) × ((slice_get (bit_first_rises c text vs) k ≡ Some (Some first))
        × (first < frames)) }
    ensures others { (c : Circuit) (text : List ℕ) (vs : List Valuation) (k : ℕ)
        → bit_claimed c text k ≡ false → k < length c.bads
        → slice_get (bit_first_rises c text vs) k ≡ Some None }
    ensures many { (c : Circuit) (text : List ℕ) (vs : List Valuation)
        → length (bit_first_rises c text vs) ≡ length c.bads }
{}

/// A law: over a well-formed model the closed frames of a text have a trace, and any two have the same first rises.
pub fn exactly_one_list()
    ensures exists { (items : List Item) (text : List ℕ) → IsWellFormed items → (fs : List Frame)
        × IsClosedTrace items text fs }
    ensures unique { (items : List Item) (text : List ℕ) (fs gs : List Frame) → IsWellFormed items
        → IsClosedTrace items text fs → IsClosedTrace items text gs
        → word_first_rises items text fs ≡ word_first_rises items text gs }
{}

/// A law: the same over a circuit.
pub fn exactly_one_bit_list()
    ensures exists { (c : Circuit) (text : List ℕ) → IsCircuit c → (vs : List Valuation)
        × IsClosedBitTrace c text vs }
    ensures unique { (c : Circuit) (text : List ℕ) (vs us : List Valuation) → IsCircuit c
        → IsClosedBitTrace c text vs → IsClosedBitTrace c text us
        → bit_first_rises c text vs ≡ bit_first_rises c text us }
{}

/// Worked rows: a counter of two bits is 3 first in frame 3, and again in frame 7; a bit that toggles is 1 first in frame 1,
/// and in no frame where only the first is closed, or where there is no claim.
pub fn worked_counters()
    ensures counts { (fs : List Frame)
        → IsClosedTrace counter (codes "sat\nb0\n@0\n@1\n@2\n@3\n@4\n@5\n@6\n@7\n.\n") fs
        → word_first_rises counter (codes "sat\nb0\n@0\n@1\n@2\n@3\n@4\n@5\n@6\n@7\n.\n") fs
        ≡ Some 3 ∷ [] }
    ensures toggles { (fs : List Frame)
        → IsClosedTrace toggler_model (codes "sat\nb0\n@0\n@1\n.\n") fs
        → word_first_rises toggler_model (codes "sat\nb0\n@0\n@1\n.\n") fs ≡ Some 1 ∷ [] }
    ensures cut { (fs : List Frame) → IsClosedTrace toggler_model (codes "sat\nb0\n@0\n@1\n@3\n") fs
        → word_first_rises toggler_model (codes "sat\nb0\n@0\n@1\n@3\n") fs ≡ None ∷ [] }
    ensures no_claim { (fs : List Frame) → IsClosedTrace toggler_model (codes "unsat\n") fs
        → word_first_rises toggler_model (codes "unsat\n") fs ≡ None ∷ [] }
{}

/// Worked rows: over a model where the first bad property is an input, the second its negation, and the third is never 1,
/// claims that rise in different frames, one that never does, and bad properties that are not claimed.
pub fn worked_claims()
    ensures all { (fs : List Frame)
        → IsClosedTrace input_and_negation (codes "sat\nb0 b1 b2\n@0\n0 0\n@1\n0 1\n.\n") fs
        → word_first_rises input_and_negation (codes "sat\nb0 b1 b2\n@0\n0 0\n@1\n0 1\n.\n") fs
        ≡ Some 1 ∷ Some 0 ∷ None ∷ [] }
    ensures first { (fs : List Frame)
        → IsClosedTrace input_and_negation (codes "sat\nb0\n@0\n0 0\n@1\n0 1\n.\n") fs
        → word_first_rises input_and_negation (codes "sat\nb0\n@0\n0 0\n@1\n0 1\n.\n") fs
        ≡ Some 1 ∷ None ∷ None ∷ [] }
    ensures second { (fs : List Frame)
        → IsClosedTrace input_and_negation (codes "sat\nb2 b1\n@0\n0 0\n@1\n0 1\n.\n") fs
        → word_first_rises input_and_negation (codes "sat\nb2 b1\n@0\n0 0\n@1\n0 1\n.\n") fs
        ≡ None ∷ Some 0 ∷ None ∷ [] }
{}

/// Worked rows: over a circuit where the first bad property is an input, and the second its negation, the claim that rises
/// in the second frame, and one that never does.
pub fn worked_bit_claims()
    ensures rises { (vs : List Valuation)
        → IsClosedBitTrace either_input (codes "1\nb1\n\n1\n0\n0\n.\n") vs
        → bit_first_rises either_input (codes "1\nb1\n\n1\n0\n0\n.\n") vs ≡ None ∷ Some 1 ∷ [] }
    ensures never { (vs : List Valuation)
        → IsClosedBitTrace either_input (codes "1\nb0\n\n0\n0\n.\n") vs
        → bit_first_rises either_input (codes "1\nb0\n\n0\n0\n.\n") vs ≡ None ∷ None ∷ [] }
{}
