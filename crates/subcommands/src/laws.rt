//! Worked rows, as functions with no code.

ghost use Rattle.std.specs.Prelude.{◌≡◌, ℕ, true, false, ◌==◌, None, Some, [], ◌∷◌, codes};
ghost use Rattle.base.specs.Decimals.{number_of};
ghost use Rattle.witness.specs.declared.judgement.Judgement.TheVariants as judgement;
ghost use Rattle.subcommands.specs.Asked.{outcome_line};
ghost use Rattle.verbs.specs.Asked.{AreCalledAlike, IsAskedBy, IsUnknown, is_name, outcome};
ghost use Rattle.subcommands.specs.Objects.{line_names, outcome_object, text_member};
ghost use Rattle.verbs.specs.Subjects.{model_told};
ghost use Rattle.subcommands.specs.Assumed.{assumed_said};

/// Worked rows: of two bad properties of which the second is called by a word, the word asks for that, and `1`, too; neither
/// `2` nor a word that calls none asks for one; and one that calls both asks for neither.
pub fn worked_words()
    ensures position { IsAskedBy (number_of (codes "1")) 2 (λ k. false) 1 }
    ensures name { IsAskedBy (number_of (codes "low")) 2 (λ k. k == 1) 1 }
    ensures beyond { IsUnknown (number_of (codes "2")) 2 (λ k. true) }
    ensures nowhere { IsUnknown (number_of (codes "low")) 2 (λ k. false) }
    ensures alike { AreCalledAlike (number_of (codes "low")) 2 (λ k. true) 0 1 }
    ensures same { is_name (codes "low") (Some (codes "low")) ≡ true }
    ensures other { is_name (codes "low") (Some (codes "lower")) ≡ false }
{}

/// Worked rows: an accepted witness that claims what is asked for or does not, and one that is not accepted; and the objects that
/// tell them.
pub fn worked_outcomes()
    ensures claimed { outcome_line (outcome (Some 1) true (judgement.Accepted 2))
        ≡ codes "accepted 2 frames\n" }
    ensures unclaimed { outcome_line (outcome (Some 1) false (judgement.Accepted 2))
        ≡ codes "not claimed: b1\n" }
    ensures unreached { outcome_line (outcome (Some 1) false (judgement.NotReached 0))
        ≡ codes "not reached: b0\n" }
    ensures claims { outcome_object (line_names (model_told [])) (Some 1 ∷ None ∷ Some 0 ∷ [])
        (outcome None true (judgement.Accepted 2)) ≡ codes
        "{\"verdict\": \"accepted\", \"frames\": 2, \"claims\": [{\"bad\": 0, \"frame\": 1}, {\"bad\": 2, \"frame\": 0}]}\n" }
    ensures none { outcome_object (line_names (model_told [])) [] (outcome (Some 1) false (judgement.Accepted 2))
        ≡ codes "{\"verdict\": \"not claimed\", \"bad\": 1}\n" }
    ensures escaped { text_member (codes "symbol") (34 ∷ 10 ∷ 195 ∷ 97 ∷ [])
        ≡ codes ", \"symbol\": \"\\u0022\\u000a\\u00c3a\"" }
{}

/// Worked rows: a form of two bad properties, of one, and one that was made for the second.
pub fn worked_forms()
    ensures several { assumed_said None 2 ≡ codes
        "taken as made for all 2 bad properties; --bad K says that it was made for one\n" }
    ensures only { assumed_said None 1 ≡ codes "" }
    ensures chosen { assumed_said (Some 1) 2 ≡ codes "" }
{}
