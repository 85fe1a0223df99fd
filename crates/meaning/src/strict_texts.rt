//! Laws of tidied texts, as functions with no code.
ghost use Rattle.std.specs.Prelude.{◌≡◌, ℕ, List};
ghost use Rattle.aiger.specs.Circuit.{Circuit, IsCircuit};
ghost use Rattle.btor2.specs.declared.item.Item.{Item};
ghost use Rattle.btor2.specs.Check.{IsWellFormed};
ghost use Rattle.witness.specs.Texts.{Witness, Says, shape_of};
ghost use Rattle.witness.specs.BitTexts.{BitWitness, BitSays};
ghost use Rattle.tidy.specs.Tidied.{tidied};

/// A law: a text that says a witness, of words over a well-formed model or of bits over a circuit, is tidied already.
pub fn strict_texts()
    ensures words { (items : List Item) (text : List ℕ) (w : Witness) → IsWellFormed items
        → Says (shape_of items) text w → tidied 1 text ≡ text }
    ensures bits { (c : Circuit) (text : List ℕ) (w : BitWitness) → IsCircuit c → BitSays c text w
        → tidied 1 text ≡ text }
{}
