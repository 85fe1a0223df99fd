//! Theorems on the definitions of runs, as functions with no code.
ghost use Rattle.std.specs.Prelude.{◌≡◌, ℕ, ◌+◌, ◌-◌, ◌<◌, ◌^◌, ◌==◌, true, false, min, List, [], ◌∷◌, Bool, map, length, slice_index, slice_set, if◌then◌else◌};
ghost use Rattle.base.specs.Steps.{more_steps};
ghost use Rattle.btor2.specs.declared.item.Item.{Item};
ghost use Rattle.btor2.specs.Items.{find_item, is_state, is_input};
ghost use Rattle.btor2.specs.Check.{IsWellFormed};
ghost use Rattle.btor2.specs.Trace.{Frame, IsFrame, state_word, next_state as next_words};
ghost use Rattle.btor2.specs.Worked.{counter, follower};
ghost use Rattle.runs.specs.Frames.{ids_of, given_at, given_leaves};
ghost use Rattle.runs.specs.Run.{IsNow, node_count, state_count, start};
ghost use Rattle.base.specs.Literal.{Valuation, literal_value};
ghost use Rattle.aiger.specs.Circuit.{IsCircuit};
ghost use Rattle.aiger.specs.Trace.{SameCircuitFrame, next_latch_bits};
ghost use Rattle.aiger.specs.Worked.{toggler};
ghost use Rattle.runs.specs.CircuitRun.{CircuitRun, IsFrameNow, circuit_start, settle_steps, circuit_held};
ghost use Rattle.runs.specs.Worked.{and_gate, exchange, all_true};

/// A law: steps are counted one by one, up to the greatest number of 128 bits.
pub fn steps_count()
    ensures { (n count : ℕ) → count < 2 ^ 128 → more_steps n count ≡ min (count + n) (2 ^ 128 - 1) }
{}

/// A law: the frame of words that a frame gives for the states, or for the inputs, is that frame at their ids, and the
/// model has the same frames from carried and given words as from the lists of its states' and its inputs' words.
pub fn given_words()
    ensures states { (items : List Item) (g : Frame) (id : ℕ) (x : Item)
        → find_item items id ≡ Some x → is_state x.body ≡ true
        → given_at is_state items (map g (ids_of is_state items)) id ≡ g id }
    ensures inputs { (items : List Item) (g : Frame) (id : ℕ) (x : Item)
        → find_item items id ≡ Some x → is_input x.body ≡ true
        → given_at is_input items (map g (ids_of is_input items)) id ≡ g id }
    ensures frames { (items : List Item) (state input f : Frame) → IsWellFormed items
        → IsFrame items state input f
        → IsFrame items (given_at is_state items
        (map (state_word items state input) (ids_of is_state items)))
        (given_leaves items (map (state_word items state input) (ids_of is_state items))
        (map input (ids_of is_input items))) f }
    ensures no_others { (items : List Item) (state input f : Frame) → IsWellFormed items
        → IsFrame items (given_at is_state items
        (map (state_word items state input) (ids_of is_state items)))
        (given_leaves items (map (state_word items state input) (ids_of is_state items))
        (map input (ids_of is_input items))) f → IsFrame items state input f }
{}

/// A law: a word that is set for the k-th state, or the k-th input, is the frame's word at its id.
pub fn set_words()
    ensures states { (items : List Item) (g : Frame) (k word : ℕ) → IsWellFormed items
        → k < length (ids_of is_state items)
        → slice_set (map g (ids_of is_state items)) k word
        ≡ map (λ id. if id == slice_index (ids_of is_state items) k then word else g id)
        (ids_of is_state items) }
    ensures inputs { (items : List Item) (g : Frame) (k word : ℕ) → IsWellFormed items
        → k < length (ids_of is_input items)
        → slice_set (map g (ids_of is_input items)) k word
        ≡ map (λ id. if id == slice_index (ids_of is_input items) k then word else g id)
        (ids_of is_input items) }
{}

/// Worked rows: a counter of two bits begins at 0 and has five nodes and a state; its frame then.
pub fn worked_starts()
    ensures words { start counter
        ≡ record { items = counter; states = 0 ∷ []; inputs = []; settled = false; steps = 0 } }
    ensures held { node_count counter + state_count counter ≡ 6 }
    ensures steps { more_steps 5 (more_steps 1 (more_steps 5 0)) ≡ 11 }
    ensures counts { (f : Frame) → IsNow (start counter) f → (f 4 ≡ 0) × (f 6 ≡ 1) × (f 9 ≡ 0) }
    ensures ends { (f : Frame) → IsNow (record (start counter) { states = 3 ∷ [] }) f → (f 4 ≡ 3)
        × (f 6 ≡ 0) × (f 9 ≡ 1) }
{}

/// Worked rows: a model of a free state and one that follows it begins at 0 with both, and holds three nodes and two
/// states; where the free state is set to 1, its frame, and the words that the next frame begins with.
pub fn worked_free_states()
    ensures words { start follower
        ≡ record { items = follower; states = 0 ∷ 0 ∷ []; inputs = 0 ∷ []; settled = false; steps = 0 } }
    ensures held { node_count follower + state_count follower ≡ 5 }
    ensures frame { (f : Frame) → IsNow (record (start follower) { states = 1 ∷ 0 ∷ [] }) f
        → (f 2 ≡ 1) × (f 3 ≡ 0) }
    ensures advances { (f : Frame) → IsNow (record (start follower) { states = 1 ∷ 0 ∷ [] }) f
        → map (next_words follower f) (ids_of is_state follower) ≡ 0 ∷ 1 ∷ [] }
{}

/// A law: a run of a circuit is in exactly one frame, whatever bits its latches and inputs have.
pub fn exactly_one_frame()
    ensures exists { (r : CircuitRun) → IsCircuit r.circuit
        → length r.latches ≡ length r.circuit.latches → length r.inputs ≡ r.circuit.inputs
        → (v : Valuation) × IsFrameNow r v }
    ensures unique { (r : CircuitRun) (v w : Valuation) → IsCircuit r.circuit → IsFrameNow r v
        → IsFrameNow r w → SameCircuitFrame r.circuit v w }
{}

/// Worked rows: a latch that toggles begins at 0 and is 1 in the next frame; an AND gate of two inputs is 1 where both
/// are; of two latches that exchange their bits, the one with no initial value begins at 0.
pub fn worked_circuits()
    ensures begins { circuit_start toggler
        ≡ record { circuit = toggler; latches = false ∷ []; inputs = []; settled = false; steps = 0 } }
    ensures toggles { (v : Valuation) → IsFrameNow (circuit_start toggler) v
        → next_latch_bits toggler v ≡ true ∷ [] }
    ensures toggler_held { circuit_held toggler ≡ 3 }
    ensures toggler_steps { settle_steps toggler ≡ 0 }
    ensures toggler_moves { more_steps (length toggler.latches) 0 ≡ 1 }
    ensures both { (v : Valuation)
        → IsFrameNow (record (circuit_start and_gate) { inputs = true ∷ true ∷ [] }) v
        → literal_value v 6 ≡ true }
    ensures one { (v : Valuation)
        → IsFrameNow (record (circuit_start and_gate) { inputs = true ∷ false ∷ [] }) v
        → literal_value v 6 ≡ false }
    ensures others { ¬ IsFrameNow (record (circuit_start and_gate) { inputs = true ∷ false ∷ [] })
        all_true }
    ensures gate_held { circuit_held and_gate ≡ 4 }
    ensures gate_steps { settle_steps and_gate ≡ 3 }
    ensures resets { (circuit_start exchange).latches ≡ true ∷ false ∷ [] }
    ensures exchanges { (v : Valuation) → IsFrameNow (circuit_start exchange) v
        → next_latch_bits exchange v ≡ false ∷ true ∷ [] }
{}
