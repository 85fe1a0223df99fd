//! Theorems on the definitions of lowerings, costs, leaves and refusals, as functions with no code.
ghost use Rattle.std.specs.Prelude.{◌≡◌, ◌↔◌, ℕ, ◌+◌, ◌==◌, if◌then◌else◌, List, [], ◌∷◌, true, false, map, None, Some, codes, length};
ghost use Rattle.std.specs.List.{AllByRecursion};
ghost use Rattle.btor2.specs.Leaves.{kind_width};
ghost use Rattle.base.specs.Literal.{Valuation};
ghost use Rattle.aiger.specs.Circuit.{Circuit, IsCircuit};
ghost use Rattle.aiger.specs.Trace.{AreInitial, IsCircuitTrace};
ghost use Rattle.aiger.specs.Worked.{toggler as toggler_circuit};
ghost use Rattle.aiger.specs.declared.circuit.Reset.TheVariants as reset;
ghost use Rattle.base.specs.declared.operators.Unary.TheVariants as unary;
ghost use Rattle.base.specs.declared.operators.Binary.TheVariants as binary;
ghost use Rattle.btor2.specs.declared.item.Item.{Item};
ghost use Rattle.btor2.specs.declared.item.Body.TheVariants as body;
ghost use Rattle.btor2.specs.Check.{IsWellFormed};
ghost use Rattle.btor2.specs.Trace.{Frame, IsInitial, IsInput};
ghost use Rattle.btor2.specs.Worked.{toggler_model, open_ends};
ghost use Rattle.blast.specs.declared.fault.LowerFault.TheVariants as fault;
ghost use Rattle.blast.specs.Cost.{line_cost, cost, input_width, state_width, given_width, carried_width, bound};
ghost use Rattle.btor2.specs.Items.{is_input, is_state, is_free_state};
ghost use Rattle.btor2.specs.Lists.{HaveNexts};
ghost use Rattle.blast.specs.Leaves.{by_body, given_by_kind, leaf_bits, leaf_names, leaf_resets, bit_name, input_bits, state_bits, input_names, state_names, output_names, bad_names, constraint_names, resets_of_word, state_resets, output_bits};
ghost use Rattle.blast.specs.Lowering.{Lowers};
ghost use Rattle.base.specs.Shown.{rises_within};
ghost use Rattle.aiger.specs.Reachability.{CanRiseInCircuit};
ghost use Rattle.btor2.specs.Reachability.{CanRise, model_shows};
ghost use Rattle.blast.specs.Refusal.{form_refusal, lowering_refusal};
ghost use Rattle.blast.specs.Worked.{masked, named_toggler, named_follower, follower_circuit, free_alone, input_circuit, latch_circuit, init_alone, both_bits, unsatisfied, named_inverter, inverter_circuit, without_outputs, named_keeper, keeper_circuit, fair_first, justice_first};

/// A law: from the bits of all initial words that agree with a model's init lines, and under the bits of all words of its
/// inputs, a circuit that lowers the model has a trace, and these are initial bits of the circuit.
pub fn a_lowered_circuit_runs()
    ensures initial { (items : List Item) (c : Circuit) → Lowers items c
        → (state : Frame) → IsInitial items state → AreInitial c.latches (state_bits items state) }
    ensures exists { (items : List Item) (c : Circuit) → Lowers items c
        → (state : Frame) (inputs : List Frame) → IsInitial items state
        → AllByRecursion (IsInput items) inputs
        → (vs : List Valuation) × IsCircuitTrace c (state_bits items state)
        (map (input_bits items) inputs) vs }
{
    aiger::laws::exactly_one_trace();
}

/// A law: a bad property can rise in a circuit that lowers a model, while all constraints hold so far, exactly where it can
/// in the model; from the initial words that the init lines allow, and the initial bits that the resets allow.
pub fn bad_properties_rise_alike()
    ensures { (items : List Item) (c : Circuit) (b : ℕ) → Lowers items c
        → CanRise items b ↔ CanRiseInCircuit c b }
{
    aiger::laws::exactly_one_trace();
    btor2::laws::exactly_one_trace();
}

/// A law: and where it can, it does so in a trace of as many frames.
pub fn rises_in_as_many_frames()
    ensures circuit { (items : List Item) (c : Circuit) (b : ℕ) → Lowers items c
        → (h : CanRise items b) → (g : CanRiseInCircuit c b) × (length g.frames ≡ length h.frames) }
    ensures model { (items : List Item) (c : Circuit) (b : ℕ) → Lowers items c
        → (g : CanRiseInCircuit c b) → (h : CanRise items b) × (length h.frames ≡ length g.frames) }
{
    aiger::laws::exactly_one_trace();
    btor2::laws::exactly_one_trace();
}

/// A law: the bits that are given in each frame and those that are carried are the bits of the inputs and of the states.
pub fn bits_are_given_or_carried()
    ensures { (items : List Item) → given_width items + carried_width items
        ≡ input_width items + state_width items }
{}

/// A law: in a model in which each state has a next line no state is free, so the bits that are given are those of the
/// inputs, and the bits that are carried those of the states; and so are how many they are, their names, and how the latches begin.
pub fn no_state_is_free()
    ensures input_bits { (items : List Item) → HaveNexts items → (f : Frame)
        → input_bits items f ≡ given_by_kind (by_body is_input) (leaf_bits items f) items }
    ensures state_bits { (items : List Item) → HaveNexts items → (f : Frame)
        → state_bits items f ≡ given_by_kind (by_body is_state) (leaf_bits items f) items }
    ensures input_names { (items : List Item) → HaveNexts items
        → input_names items ≡ given_by_kind (by_body is_input) (leaf_names items) items }
    ensures state_names { (items : List Item) → HaveNexts items
        → state_names items ≡ given_by_kind (by_body is_state) (leaf_names items) items }
    ensures given_width { (items : List Item) → HaveNexts items
        → given_width items ≡ input_width items }
    ensures carried_width { (items : List Item) → HaveNexts items
        → carried_width items ≡ state_width items }
    ensures resets { (items : List Item) → HaveNexts items
        → state_resets items ≡ given_by_kind (by_body is_state) (leaf_resets items) items }
{}

/// Worked rows: models with free states, and their circuits.
pub fn worked_free_states()
    ensures follower_is_model { IsWellFormed named_follower }
    ensures alone_is_model { IsWellFormed free_alone }
    ensures follower_is_circuit { IsCircuit follower_circuit }
    ensures input_is_circuit { IsCircuit input_circuit }
{}

/// Worked rows: circuits that lower a model, of which one has a free state, which is an input behind the inputs, and one
/// has free states alone, so that there is no latch; a circuit that lowers none, since a gate has an operand above it and
/// no valuation satisfies it; one that takes a free state for a latch; and a model that no circuit lowers, since a state
/// has an init line and no next line.
pub fn worked_lowerings()
    ensures lowers { Lowers toggler_model toggler_circuit }
    ensures follower { Lowers named_follower follower_circuit }
    ensures free_alone { Lowers free_alone input_circuit }
    ensures free_as_latch { ¬ Lowers free_alone latch_circuit }
    ensures is_no_circuit { ¬ Lowers both_bits unsatisfied }
    ensures is_not_of_profile { (c : Circuit) → ¬ Lowers open_ends c }
{
    aiger::laws::worked_traces();
    btor2::laws::worked_traces();
    worked_free_states();
}

/// Worked rows: a model with an output of two bits, and one that is bad where a bit of a slice is 1, with their circuits;
/// and a circuit that has no outputs, which does not lower the first.
pub fn worked_outputs()
    ensures inverter_is_model { IsWellFormed named_inverter }
    ensures inverter_is_circuit { IsCircuit inverter_circuit }
    ensures inverter { Lowers named_inverter inverter_circuit }
    ensures without { ¬ Lowers named_inverter without_outputs }
    ensures keeper_is_model { IsWellFormed named_keeper }
    ensures keeper_is_circuit { IsCircuit keeper_circuit }
    ensures keeper { Lowers named_keeper keeper_circuit }
    ensures shown { output_bits named_inverter (λ id. 2) ≡ false ∷ true ∷ [] }
    ensures nothing_shown { output_bits named_keeper (λ id. 2) ≡ [] }
    ensures names { output_names named_inverter ≡ Some (codes "y[0]") ∷ Some (codes "y[1]") ∷ [] }
{}

/// Worked rows: where a bad property rises among frames. Constraints count up to the frame in which it rises, and in it;
/// what fails behind that frame does not count.
pub fn worked_rises()
    ensures first { rises_within 0 (record { bads = true ∷ []; constraints = [] } ∷ []) ≡ true }
    ensures second { rises_within 1 (record { bads = true ∷ false ∷ []; constraints = true ∷ [] }
        ∷ record { bads = false ∷ true ∷ []; constraints = true ∷ [] } ∷ []) ≡ true }
    ensures never { rises_within 0 (record { bads = false ∷ []; constraints = [] }
        ∷ record { bads = false ∷ []; constraints = [] } ∷ []) ≡ false }
    ensures no_frame { rises_within 0 [] ≡ false }
    ensures no_such_property { rises_within 1 (record { bads = true ∷ []; constraints = [] } ∷ [])
        ≡ false }
    ensures violated_in_it { rises_within 0
        (record { bads = true ∷ []; constraints = true ∷ false ∷ [] } ∷ []) ≡ false }
    ensures violated_before { rises_within 0 (record { bads = false ∷ []; constraints = false ∷ [] }
        ∷ record { bads = true ∷ []; constraints = true ∷ [] } ∷ []) ≡ false }
    ensures violated_behind { rises_within 0 (record { bads = true ∷ []; constraints = true ∷ [] }
        ∷ record { bads = false ∷ []; constraints = false ∷ [] } ∷ []) ≡ true }
{}

/// Worked rows: the gates and the variables at most of a bit that toggles, and of two bits that are masked.
pub fn worked_costs()
    ensures not { line_cost toggler_model (body.Unary unary.Not 1 3) ≡ 0 }
    ensures and { line_cost masked (body.Binary binary.And 1 2 3) ≡ 2 }
    ensures toggler_cost { cost toggler_model ≡ 0 }
    ensures toggler_inputs { input_width toggler_model ≡ 0 }
    ensures toggler_states { state_width toggler_model ≡ 1 }
    ensures toggler_bound { bound toggler_model ≡ 1 }
    ensures masked_cost { cost masked ≡ 2 }
    ensures masked_inputs { input_width masked ≡ 2 }
    ensures masked_states { state_width masked ≡ 2 }
    ensures masked_bound { bound masked ≡ 6 }
    ensures follower_inputs { input_width named_follower ≡ 1 }
    ensures follower_states { state_width named_follower ≡ 2 }
    ensures follower_free { kind_width named_follower (is_free_state named_follower) named_follower
        ≡ 1 }
    ensures follower_given { given_width named_follower ≡ 2 }
    ensures follower_carried { carried_width named_follower ≡ 1 }
    ensures follower_bound { bound named_follower ≡ 3 }
    ensures alone_carried { carried_width free_alone ≡ 0 }
{}

/// Worked rows: the bits of inputs and states, how latches begin, and what bad properties and constraints show.
pub fn worked_leaves()
    ensures no_input_bits { input_bits toggler_model (λ id. 1) ≡ [] }
    ensures input_bits { input_bits masked (λ id. 2) ≡ false ∷ true ∷ [] }
    ensures state_bit { state_bits toggler_model (λ id. 1) ≡ true ∷ [] }
    ensures state_bits { state_bits masked (λ id. 1) ≡ true ∷ false ∷ [] }
    ensures free_behind_input { input_bits named_follower (λ id. if id == 2 then 1 else 0)
        ≡ false ∷ true ∷ [] }
    ensures carried_alone { state_bits named_follower (λ id. if id == 3 then 1 else 0) ≡ true ∷ [] }
    ensures none_carried { state_bits free_alone (λ id. 1) ≡ [] }
    ensures free_word { resets_of_word 2 None ≡ reset.Free ∷ reset.Free ∷ [] }
    ensures given_word { resets_of_word 2 (Some 1) ≡ reset.One ∷ reset.Zero ∷ [] }
    ensures begins_with_0 { state_resets toggler_model ≡ reset.Zero ∷ [] }
    ensures begins_freely { state_resets masked ≡ reset.Free ∷ reset.Free ∷ [] }
    ensures of_carried { state_resets named_follower ≡ reset.Free ∷ [] }
    ensures is_shown { model_shows named_toggler (λ id. 1)
        ≡ record { bads = true ∷ []; constraints = true ∷ [] } }
    ensures is_not_shown { model_shows named_toggler (λ id. 0)
        ≡ record { bads = false ∷ []; constraints = false ∷ [] } }
{}

/// Worked rows: the names of a circuit's inputs, latches, bad properties and constraints.
pub fn worked_names()
    ensures first_bit { bit_name (codes "t") 0 ≡ codes "t[0]" }
    ensures eleventh_bit { bit_name (codes "x") 10 ≡ codes "x[10]" }
    ensures latch { state_names named_toggler ≡ Some (codes "t[0]") ∷ [] }
    ensures input { input_names named_toggler ≡ Some (codes "x[0]") ∷ [] }
    ensures bad { bad_names named_toggler ≡ Some (codes "p") ∷ [] }
    ensures constraint { constraint_names named_toggler ≡ None ∷ [] }
    ensures no_constraint { constraint_names toggler_model ≡ [] }
    ensures latch_without { state_names toggler_model ≡ None ∷ [] }
    ensures inputs_without { input_names masked ≡ None ∷ None ∷ [] }
    ensures bad_without { bad_names toggler_model ≡ None ∷ [] }
    ensures free_behind_input { input_names named_follower
        ≡ Some (codes "x[0]") ∷ Some (codes "f[0]") ∷ [] }
    ensures carried_alone { state_names named_follower ≡ Some (codes "s[0]") ∷ [] }
    ensures free_without { input_names free_alone ≡ None ∷ [] }
{}

/// Worked rows: a model whose states each have a next line or are free is not refused; a state with an init line and no next
/// line is told, a justice line and a fairness line, of several the first in file order.
pub fn worked_refusals()
    ensures accepted { lowering_refusal masked ≡ None }
    ensures free_accepted { lowering_refusal named_follower ≡ None }
    ensures alone_accepted { lowering_refusal free_alone ≡ None }
    ensures init_alone { lowering_refusal init_alone ≡ Some (fault.NoNext 3) }
    ensures no_next { lowering_refusal open_ends ≡ Some (fault.NoNext 5) }
    ensures fair_first { lowering_refusal fair_first ≡ Some (fault.Fair 3) }
    ensures justice_first { lowering_refusal justice_first ≡ Some (fault.Justice 3) }
    ensures by_form { form_refusal open_ends ≡ Some (fault.NoNext 5) }
{}
