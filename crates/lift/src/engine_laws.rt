//! Laws of what counterexamples over engine forms are lifted to, as functions with no code.
ghost use Rattle.std.specs.Prelude.{ℕ, ◌<◌, Bool, List, Option, length};
ghost use Rattle.btor2.specs.declared.item.Item.{Item};
ghost use Rattle.aiger.specs.Circuit.{Circuit};
ghost use Rattle.blast.specs.Lowering.{Lowers};
ghost use Rattle.engine_form.specs.EngineForm.{IsEngineFormOf};
ghost use Rattle.lift.specs.EngineLifting.{FindsInModel, FindsWitnessInModel};

use crate::laws::{lifting_keeps_the_verdict, names_keep_the_verdict};

/// A law: a counterexample over an engine form is found over the model. Where a circuit lowers a model, and a bad property of
/// an engine form of the circuit is 1 in some frame of those that the form has under the input frames of a text, what the
/// text is lifted to, with names or without, is judged accepted over the model, with the frames up to and with the first such
/// one.
pub fn found_over_the_form_is_found_in_the_model()
    ensures { (named : Bool) (items : List Item) (c : Circuit) (k : ℕ) (text : List ℕ)
        → Lowers items c → k < length c.bads → FindsInModel named items c k text }
{
    restore::laws::restored_text_says_a_witness();
    restore::laws::restored_text_is_accepted();
    lifting_keeps_the_verdict();
    names_keep_the_verdict();
    witness::laws::exactly_one_judgement();
}

/// A law: where a circuit lowers a model, what is accepted over an engine form of the circuit is found over the model. What the
/// text is lifted to, with names or without, is judged accepted there, with the frames up to and with the first one in which
/// the property of the form is 1.
pub fn accepted_over_the_form_is_found_in_the_model()
    ensures { (named : Bool) (items : List Item) (c : Circuit) (choice : Option ℕ) (d : Circuit)
        (text : List ℕ) → Lowers items c → IsEngineFormOf c choice d
        → FindsWitnessInModel named items c choice d text }
{
    restore::form_laws::accepted_over_the_form_is_found_again();
    lifting_keeps_the_verdict();
    names_keep_the_verdict();
    witness::laws::exactly_one_judgement();
}
