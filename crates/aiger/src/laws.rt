//! Laws of circuits and their traces, and worked rows: functions that do nothing, whose contracts are the laws.
ghost use Rattle.std.specs.Prelude.{◌≡◌, ℕ, ◌+◌, ◌*◌, ◌<◌, ◌↔◌, List, [], ◌∷◌, Bool, true, false, not, ◌&&◌, All, length, map, None, codes};
ghost use Rattle.base.specs.Literal.{Valuation, literal_value, negation};
ghost use Rattle.aiger.specs.Net.{Satisfies, AreOrdered};
ghost use Rattle.aiger.specs.Circuit.{Circuit, IsCircuit, NameMap, rank, letter, all_sections, name_in, name_of, with_name, name_refusal};
ghost use Rattle.aiger.specs.declared.circuit.Section.{Section};
ghost use Rattle.aiger.specs.declared.circuit.TheConstants.Section.{ALL};
ghost use Rattle.aiger.specs.Trace.{IsCircuitTrace, SameCircuitTrace, AreInitial};
ghost use Rattle.aiger.specs.Worked.{toggler, off, on, one_gate_net};

use crate::literal::Lit;

/// From initial latch bits, under any input frames, a circuit has exactly one trace
/// ("AIGER 1.9 and Beyond", semantics). It does nothing: its contract is the law.
pub fn exactly_one_trace()
    // There is one.
    ensures exists { (c : Circuit) (state : List Bool) (inputs : List (List Bool))
        → IsCircuit c → length state ≡ length c.latches
        → All (λ input. length input ≡ c.inputs) inputs
        → (vs : List Valuation) × IsCircuitTrace c state inputs vs }
    // Any two say the same of each variable in each frame.
    ensures unique { (c : Circuit) (state : List Bool) (inputs : List (List Bool))
        (vs ws : List Valuation)
        → IsCircuit c → IsCircuitTrace c state inputs vs → IsCircuitTrace c state inputs ws
        → SameCircuitTrace c vs ws }
{}

/// The names of a circuit are a map from section and position: in whatever order they were given,
/// circuits with the same lists and the same names are the same. It does nothing: its contract is
/// the law.
pub fn names_in_any_order()
    ensures { (c : Circuit) (names : NameMap) → IsCircuit c → IsCircuit (record c { names = names })
        → ((s : Section) (k : ℕ) → name_in names s k ≡ name_of c s k)
        → record c { names = names } ≡ c }
{}

/// A circuit with a name more that it takes is one. It does nothing: its contract is the law.
pub fn circuit_with_a_name()
    ensures { (c : Circuit) (s : Section) (k : ℕ) (name : List ℕ) → IsCircuit c
        → name_refusal c s k name ≡ None → IsCircuit (with_name c s k name) }
{}

/// Worked rows of literals, gates and traces. It does nothing: its contract and what it
/// proves of the two named literals are the rows.
pub fn worked_traces()
    // 0 is false and 1 is true, 2k is variable k and 2k + 1 its negation.
    ensures constants { (v : Valuation)
        → (literal_value v 0 ≡ false) × (literal_value v 1 ≡ true) }
    ensures even { (v : Valuation) (k : ℕ) → 0 < k → literal_value v (2 * k) ≡ v k }
    ensures odd { (v : Valuation) (k : ℕ) → 0 < k → literal_value v (2 * k + 1) ≡ not (v k) }
    ensures negations { (negation 0 ≡ 1) × (negation 1 ≡ 0) × (negation 6 ≡ 7) × (negation 7 ≡ 6) }
    // A gate of two inputs is true exactly when both are.
    ensures gate { (v : Valuation) → Satisfies (one_gate_net 4 2) v ↔ (v 3 ≡ (v 1 && v 2)) }
    // Its operands are below it, the greater one first.
    ensures ordered { AreOrdered (one_gate_net 4 2) × AreOrdered (one_gate_net 5 5) }
    ensures exchanged { ¬ AreOrdered (one_gate_net 2 4) }
    ensures of_itself { ¬ AreOrdered (one_gate_net 6 2) }
    // The latch that toggles begins with 0, and is 1 in the frame after.
    ensures valid { IsCircuit toggler }
    ensures begins { AreInitial toggler.latches (false ∷ []) }
    ensures begins_otherwise { ¬ AreInitial toggler.latches (true ∷ []) }
    ensures toggles { IsCircuitTrace toggler (false ∷ []) ([] ∷ [] ∷ []) (off ∷ on ∷ []) }
    ensures stays { ¬ IsCircuitTrace toggler (false ∷ []) ([] ∷ [] ∷ []) (off ∷ off ∷ []) }
    ensures ends_early { ¬ IsCircuitTrace toggler (false ∷ []) ([] ∷ [] ∷ []) (off ∷ []) }
    ensures rises { (literal_value off 2 ≡ false) × (literal_value on 2 ≡ true) }
{
    prove!(Lit::FALSE.number() == 0);
    prove!(Lit::TRUE.number() == 1);
}

/// The sections in order, each with its letter. It does nothing: its contract is the rows.
pub fn worked_sections()
    ensures all { ALL ≡ all_sections }
    ensures ranks { map rank all_sections ≡ 0 ∷ 1 ∷ 2 ∷ 3 ∷ 4 ∷ 5 ∷ 6 ∷ [] }
    ensures letters { map letter all_sections ≡ codes "ilobcjf" }
{}
