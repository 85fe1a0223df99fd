//! Laws of engine forms and of circuits whose outputs are bad properties, and worked rows: functions that do nothing, whose contracts are the laws.
ghost use Rattle.std.specs.Prelude.{◌≡◌, ◌↔◌, ◌+◌, ◌<◌, ℕ, None, Some, Option, List, [], ◌∷◌, Bool, true, false, length, map, take, replicate, slice_get, codes};
ghost use Rattle.aiger.specs.declared.circuit.Reset.TheVariants.{Zero};
ghost use Rattle.aiger.specs.declared.fault.CircuitFault.TheVariants.{TooBig};
ghost use Rattle.base.specs.Literal.{Valuation, literal_value};
ghost use Rattle.aiger.specs.Circuit.{Circuit, IsCircuit};
ghost use Rattle.aiger.specs.Trace.{IsCircuitTrace, AreInitial};
ghost use Rattle.aiger.specs.Reachability.{circuit_shows, CanRiseInCircuit};
ghost use Rattle.engine_form.specs.EngineForm.{IsEngineFormOf, GoTogether, begins, chosen};
ghost use Rattle.engine_form.specs.Outputs.{HasOutputsAsBads, OutputCanBeOne, outputs_refusal};
ghost use Rattle.engine_form.specs.Refusal.{engine_bound, engine_refusal};
ghost use Rattle.engine_form.specs.Worked.{negated_toggler, toggler_form, stays_negated, keeper, keeper_form, begins_with_0, guarded, guarded_form, guarded_alone, either, second_form, outputs_alone, conjunction, conjunction_bad, named_circuit, named_bad};
ghost use Rattle.engine_form.specs.declared.fault.EngineFault.TheVariants as fault;

/// A law: a bad property of a circuit can rise, in a frame up to which all constraints hold, exactly where that of its
/// engine form can.
pub fn bad_properties_rise_alike()
    // With all bad properties.
    ensures all { (c d : Circuit) (b : ℕ) → IsEngineFormOf c None d
        → CanRiseInCircuit c b ↔ CanRiseInCircuit d b }
    // With a chosen one.
    ensures one { (c d : Circuit) (b : ℕ) → IsEngineFormOf c (Some b) d
        → CanRiseInCircuit c b ↔ CanRiseInCircuit d 0 }
{
    aiger::laws::exactly_one_trace();
}

/// A law: and where it can, it does so in a trace of as many frames; `j` is the place of the property among those of the form.
pub fn rises_in_as_many_frames()
    ensures form { (c : Circuit) (choice : Option ℕ) (d : Circuit) (k j : ℕ)
        → IsEngineFormOf c choice d → slice_get (chosen choice c.bads) j ≡ slice_get c.bads k
        → (h : CanRiseInCircuit c k)
        → (g : CanRiseInCircuit d j) × (length g.frames ≡ length h.frames) }
    ensures circuit { (c : Circuit) (choice : Option ℕ) (d : Circuit) (k j : ℕ)
        → IsEngineFormOf c choice d → slice_get (chosen choice c.bads) j ≡ slice_get c.bads k
        → (h : CanRiseInCircuit d j) → (g : CanRiseInCircuit c k)
        × (length g.frames ≡ length h.frames) }
{
    aiger::laws::exactly_one_trace();
}

/// A law: with each trace of a circuit from initial bits and a first frame goes one of its engine form, and with each trace
/// of the form one of the circuit from initial bits.
pub fn traces_go_together()
    ensures of_circuit { (c : Circuit) (choice : Option ℕ) (d : Circuit) → IsEngineFormOf c choice d
        → (state input : List Bool) (inputs : List (List Bool)) (vs : List Valuation)
        → AreInitial c.latches state → IsCircuitTrace c state (input ∷ inputs) vs
        → (given : List (List Bool)) × (ws : List Valuation) × (begins c given ≡ state)
        × (map (take c.inputs) given ≡ input ∷ inputs)
        × IsCircuitTrace d (replicate (length d.latches) false) given ws
        × GoTogether c choice d true true vs ws }
    ensures of_form { (c : Circuit) (choice : Option ℕ) (d : Circuit) → IsEngineFormOf c choice d
        → (given : List (List Bool)) (ws : List Valuation)
        → IsCircuitTrace d (replicate (length d.latches) false) given ws
        → AreInitial c.latches (begins c given) × (vs : List Valuation)
        × IsCircuitTrace c (begins c given) (map (take c.inputs) given) vs
        × GoTogether c choice d true true vs ws }
{
    aiger::laws::exactly_one_trace();
}

/// Worked rows: the circuits of the rows on engine forms are circuits.
pub fn worked_circuits()
    ensures toggler { IsCircuit negated_toggler × IsCircuit toggler_form }
    ensures keeper { IsCircuit keeper × IsCircuit keeper_form }
    ensures guarded { IsCircuit guarded × IsCircuit guarded_form }
    ensures either { IsCircuit either × IsCircuit second_form }
{}

/// Worked rows: engine forms of a latch that begins with 1, of one without an initial value, of a constraint, and of a
/// chosen property; and circuits that are none: one that forgets the negation of the latch in what it takes, one whose
/// latch begins with 0 whatever the input, one in which a constraint counts in its own frame alone, and the form of the
/// other property.
pub fn worked_forms()
    ensures toggler { IsEngineFormOf negated_toggler None toggler_form }
    ensures stays_negated { ¬ IsEngineFormOf negated_toggler None stays_negated }
    ensures keeper { IsEngineFormOf keeper None keeper_form }
    ensures begins_with_0 { ¬ IsEngineFormOf keeper None begins_with_0 }
    ensures guarded { IsEngineFormOf guarded None guarded_form }
    ensures guarded_alone { ¬ IsEngineFormOf guarded None guarded_alone }
    ensures second { IsEngineFormOf either (Some 1) second_form }
    ensures not_the_first { ¬ IsEngineFormOf either (Some 0) second_form }
    ensures not_there { (d : Circuit) → ¬ IsEngineFormOf either (Some 2) d }
{
    worked_circuits();
}

/// A law: a circuit without a bad property has no form, whether one is chosen or not.
pub fn nothing_without_a_bad_property()
    ensures accepted { (c : Circuit) (choice : Option ℕ) → engine_refusal c choice ≡ None
        → 0 < length c.bads }
    ensures refused { (c : Circuit) (choice : Option ℕ) → c.justice ≡ [] → c.fair ≡ [] → c.bads ≡ []
        → engine_refusal c choice ≡ Some fault.NoBad }
{}

/// Worked rows: the variables at most, and what is refused.
pub fn worked_refusals()
    ensures toggler_bound { engine_bound negated_toggler ≡ 3 }
    ensures keeper_bound { engine_bound keeper ≡ 7 }
    ensures guarded_bound { engine_bound guarded ≡ 4 }
    ensures accepted { engine_refusal keeper None ≡ None }
    ensures second { engine_refusal either (Some 1) ≡ None }
    ensures no_bad { engine_refusal outputs_alone None ≡ Some fault.NoBad }
    ensures no_bad_chosen { engine_refusal outputs_alone (Some 0) ≡ Some fault.NoBad }
    ensures no_such_bad { engine_refusal either (Some 2) ≡ Some fault.NoSuchBad }
    ensures justice_first { engine_refusal (record either { justice = [] ∷ []; fair = 2 ∷ [] })
        (Some 2) ≡ Some fault.Justice }
    ensures fair_first { engine_refusal (record either { fair = 2 ∷ [] }) (Some 2)
        ≡ Some fault.Fair }
    ensures justice_before_no_bad { engine_refusal
        (record outputs_alone { justice = [] ∷ []; fair = 2 ∷ [] }) None ≡ Some fault.Justice }
    ensures fair_before_no_bad { engine_refusal (record outputs_alone { fair = 2 ∷ [] }) None
        ≡ Some fault.Fair }
{}

/// A law: a circuit and one that has its outputs as bad properties begin alike and have the same traces; in each frame the
/// bad property behind the older ones is 1 where the output is, and each older one and each constraint as it was. So an older
/// one can rise exactly where it could, and the one of an output exactly where the output can be 1.
pub fn outputs_rise_as_bads()
    ensures initial { (c d : Circuit) → HasOutputsAsBads c d → (state : List Bool)
        → AreInitial c.latches state ↔ AreInitial d.latches state }
    ensures traces { (c d : Circuit) → HasOutputsAsBads c d
        → (state : List Bool) (inputs : List (List Bool)) (vs : List Valuation)
        → IsCircuitTrace c state inputs vs ↔ IsCircuitTrace d state inputs vs }
    // In each frame, and so in those of the traces.
    ensures outputs_shown { (c d : Circuit) → HasOutputsAsBads c d
        → (v : Valuation) (k : ℕ) → slice_get (circuit_shows d v).bads (length c.bads + k)
        ≡ slice_get (map (literal_value v) c.outputs) k }
    ensures bads_shown { (c d : Circuit) → HasOutputsAsBads c d
        → (v : Valuation) (b : ℕ) → b < length c.bads → slice_get (circuit_shows d v).bads b
        ≡ slice_get (circuit_shows c v).bads b }
    ensures constraints_shown { (c d : Circuit) → HasOutputsAsBads c d → (v : Valuation)
        → (circuit_shows d v).constraints ≡ (circuit_shows c v).constraints }
    ensures bads_rise { (c d : Circuit) → HasOutputsAsBads c d → (b : ℕ) → b < length c.bads
        → CanRiseInCircuit c b ↔ CanRiseInCircuit d b }
    ensures outputs_rise { (c d : Circuit) → HasOutputsAsBads c d → (k : ℕ)
        → OutputCanBeOne c k ↔ CanRiseInCircuit d (length c.bads + k) }
{}

/// A law: no circuit has its outputs as bad properties in two ways.
pub fn one_circuit_has_outputs_as_bads()
    ensures { (c d e : Circuit) → HasOutputsAsBads c d → HasOutputsAsBads c e → d ≡ e }
{}

/// Worked rows: the circuits of the rows on outputs are circuits.
pub fn worked_output_circuits()
    ensures conjunction { IsCircuit conjunction × IsCircuit conjunction_bad }
    ensures named { IsCircuit named_circuit × IsCircuit named_bad }
{
    aiger::laws::circuit_with_a_name();
}

/// Worked rows: circuits that have the outputs of others as bad properties; and circuits that are none: one that keeps the
/// output too, one in which it is forgotten, one in which it is before the older bad property, one in which its name is lost,
/// one that gives its name to the older bad property, one whose latch begins otherwise, and one without the constraint.
pub fn worked_outputs()
    ensures conjunction { HasOutputsAsBads conjunction conjunction_bad }
    ensures named { HasOutputsAsBads named_circuit named_bad }
    ensures is_kept { ¬ HasOutputsAsBads conjunction (record conjunction_bad { outputs = 6 ∷ [] }) }
    ensures is_forgotten { ¬ HasOutputsAsBads named_circuit (record named_bad { bads = 2 ∷ [] }) }
    ensures is_first { ¬ HasOutputsAsBads named_circuit (record named_bad { bads = 6 ∷ 2 ∷ [] }) }
    ensures loses_its_name { ¬ HasOutputsAsBads named_circuit
        (record named_bad { names = ((3, 0), codes "low") ∷ [] }) }
    ensures takes_a_name { ¬ HasOutputsAsBads named_circuit
        (record named_bad { names = ((3, 0), codes "out") ∷ ((3, 1), codes "low") ∷ [] }) }
    ensures begins_otherwise { ¬ HasOutputsAsBads named_circuit
        (record named_bad { latches = record { next = 2; reset = Zero } ∷ [] }) }
    ensures drops_the_constraint { ¬ HasOutputsAsBads named_circuit
        (record named_bad { constraints = [] }) }
{
    worked_output_circuits();
}

/// Worked rows: what is refused.
pub fn worked_output_refusals()
    ensures accepted { outputs_refusal named_circuit ≡ None }
    ensures too_big { (c : Circuit) → length c.bads + length c.outputs ≡ 1073741825
        → outputs_refusal c ≡ Some TooBig }
    ensures greatest { (c : Circuit) → length c.bads + length c.outputs ≡ 1073741824
        → outputs_refusal c ≡ None }
{}
