//! Laws that what can be reached is accepted, as functions with no code.
ghost use Rattle.std.specs.Prelude.{◌+◌, ◌*◌, ◌≤◌, ℕ, List, Option, length};
ghost use Rattle.btor2.specs.declared.item.Item.{Item};
ghost use Rattle.btor2.specs.Check.{IsWellFormed};
ghost use Rattle.aiger.specs.Circuit.{Circuit, IsCircuit};
ghost use Rattle.aiger.specs.Reachability.{CanRiseInCircuit};
ghost use Rattle.btor2.specs.Reachability.{CanRise};
ghost use Rattle.blast.specs.Lowering.{Lowers};
ghost use Rattle.fit.specs.Fitting.{Layout, IsFittingOf};
ghost use Rattle.engine_form.specs.EngineForm.{IsEngineFormOf};
ghost use Rattle.restore.specs.Counterexample.{HasProperty};
ghost use Rattle.witness.specs.Texts.{most_lines};
ghost use Rattle.reached.specs.Accepted.{IsAcceptedFor, IsAcceptedForCircuit};
ghost use Rattle.meaning.specs.Bound.{frame_bound};
ghost use Rattle.meaning.specs.Meaning.{IsOneMeaning, IsOneMeaningOfFitted};

/// A law: what can be reached in a circuit is accepted. Where a bad property can rise, in a trace of fewer frames by four than
/// a witness may have lines, a text that claims it is judged accepted, with no more frames.
pub fn reached_in_circuit_is_accepted()
    ensures { (c : Circuit) (k : ℕ) (h : CanRiseInCircuit c k) → IsCircuit c
        → length h.frames + 4 ≤ most_lines
        → (text : List ℕ) × (a : IsAcceptedForCircuit c text k) × (a.frames ≤ length h.frames) }
{}

/// A law: what can be reached in a model is accepted. Where a bad property can rise, in a trace whose frames times the lines
/// that a frame has at most leave three lines more, a text that claims it is judged accepted, with no more frames.
pub fn reached_is_accepted()
    ensures { (items : List Item) (k : ℕ) (h : CanRise items k) → IsWellFormed items
        → length h.frames * frame_bound items + 3 ≤ most_lines
        → (text : List ℕ) × (a : IsAcceptedFor items text k) × (a.frames ≤ length h.frames) }
{}

/// A law, one meaning of "reached" for all: a bad property can rise in a model, by so many frames, exactly where it can in the
/// circuit that the model is lowered to, and in the engine form of that; exactly where some text is accepted over each of these;
/// and nowhere, if a certificate of it is derived. The frames are so few that a witness may have their lines.
///
/// That a text is told as violated says nothing against it: its frames may reach the claim, and break a constraint in a later
/// one, since all frames of a witness count.
pub fn one_meaning()
    ensures { (items : List Item) (c : Circuit) (choice : Option ℕ) (d : Circuit) (k most : ℕ)
        → Lowers items c → IsEngineFormOf c choice d → HasProperty choice k
        → most * frame_bound items + 3 ≤ most_lines → IsOneMeaning items c choice d k most }
{
    blast::laws::rises_in_as_many_frames();
    engine_form::laws::rises_in_as_many_frames();
    certificates::laws::certified_property_never_rises();
    reached::laws::accepted_is_reached();
    reached::laws::accepted_is_reached_in_circuit();
    reached_in_circuit_is_accepted();
    reached_is_accepted();
}

/// A law, the same of a model with words of any width that is fitted into a model: a bad property can rise in it, by so many
/// frames, exactly where it can in that model, for which there is one meaning; and nowhere, if a certificate of it is derived.
pub fn one_meaning_of_fitted()
    ensures { (wide items : List Item) (layout : Layout) (c : Circuit) (choice : Option ℕ)
        (d : Circuit) (k most : ℕ) → IsFittingOf wide layout items → Lowers items c
        → IsEngineFormOf c choice d → HasProperty choice k
        → most * frame_bound items + 3 ≤ most_lines
        → IsOneMeaningOfFitted wide items c choice d k most }
{
    fit::laws::bad_properties_rise_alike();
    one_meaning();
}
