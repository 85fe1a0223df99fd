//! Laws of witnesses of engine forms, and worked rows, as functions with no code.
ghost use Rattle.std.specs.Prelude.{◌≡◌, min, ℕ, Option, None, Some, List, [], codes, length};
ghost use Rattle.base.specs.Lines.{whole_lines};
ghost use Rattle.aiger.specs.Circuit.{Circuit};
ghost use Rattle.engine_form.specs.EngineForm.{IsEngineFormOf};
ghost use Rattle.engine_form.specs.Worked.{keeper, keeper_form};
ghost use Rattle.witness.specs.declared.judgement.Judgement.TheVariants as judgement;
ghost use Rattle.witness.specs.BitJudgements.{BitJudges};
ghost use Rattle.witness.specs.BitAdmits.{admitted_lines};
ghost use Rattle.witness.specs.Reached.{bits_said_in};
ghost use Rattle.witness.specs.Texts.{most_lines};
ghost use Rattle.restore.specs.FormWitness.{form_restored_text, read_restored_lines, IsFoundAgain};

/// A law: where a text is accepted as a witness of an engine form of a circuit, what it is restored to is accepted as one of
/// the circuit, with the property that it claims, and ends with the first frame in which this is 1.
pub fn accepted_over_the_form_is_found_again()
    ensures { (c : Circuit) (choice : Option ℕ) (d : Circuit) (text : List ℕ) (frames : ℕ)
        → IsEngineFormOf c choice d
        → BitJudges d text (judgement.Accepted frames) → IsFoundAgain c choice d text }
{
    aiger::laws::exactly_one_trace();
    witness::bit_laws::bit_texts_read();
}

/// A law: how what a text over an engine form is restored to is read over the circuit. Its lines are those of the frames that
/// are written, and all are admitted, or as many as a witness may have.
pub fn restored_lines_are_admitted()
    ensures lines { (c : Circuit) (choice : Option ℕ) (d : Circuit) (text : List ℕ)
        → IsEngineFormOf c choice d → whole_lines (form_restored_text c choice d text)
        ≡ read_restored_lines c choice (bits_said_in d text) }
    ensures admitted { (c : Circuit) (choice : Option ℕ) (d : Circuit) (text : List ℕ)
        → IsEngineFormOf c choice d → admitted_lines c (form_restored_text c choice d text)
        ≡ min (length (read_restored_lines c choice (bits_said_in d text))) most_lines }
{
    aiger::laws::exactly_one_trace();
}

/// Worked rows: what texts over the form of a latch without an initial value are restored to; behind the rise nothing is,
/// and of a faulty text what the lines before the faulty one are; the claim over a form that was made for one property.
pub fn worked_form_texts()
    ensures free { form_restored_text keeper None keeper_form (codes "1\nb0\n00\n1\n0\n.\n")
        ≡ codes "1\nb0\n1\n\n.\n" }
    ensures never { form_restored_text keeper (Some 0) keeper_form (codes "1\nb0\n00\n0\n1\n.\n")
        ≡ codes "1\nb0\n0\n\n\n.\n" }
    ensures faulty { form_restored_text keeper None keeper_form (codes "1\nb0\n00\n0\nx\n.\n")
        ≡ codes "1\nb0\n0\n\n" }
    ensures unended { form_restored_text keeper None keeper_form (codes "1\nb0\n00\n0") ≡ [] }
    ensures no_claim { form_restored_text keeper None keeper_form (codes "2\n") ≡ [] }
{}
