//! Laws of the lists of a file and of the circuits that they are, and worked rows: functions that do nothing, whose contracts
//! are the laws.
ghost use Rattle.std.specs.Prelude.{◌≡◌, ℕ, ◌<◌, ◌⊎◌, List, [], ◌∷◌, Bool, false, All, length, map, None, Some};
ghost use Rattle.base.specs.Literal.{Valuation};
ghost use Rattle.aiger.specs.declared.fault.CircuitFault.TheVariants.{LiteralOutOfRange, TooBig};
ghost use Rattle.aiger.specs.Circuit.{Circuit, IsCircuit};
ghost use Rattle.aiger.specs.Trace.{IsCircuitTrace};
ghost use Rattle.aigerlists.specs.Loose.{Loose, IsLoose, HasDefinitions, empty_loose, with_input_line, loose_line_refusal, use_refusal};
ghost use Rattle.aigerlists.specs.LooseTrace.{IsLooseTrace, AllShowSame};
ghost use Rattle.aigerlists.specs.Renumbering.{IsRenumbered, IsNumberingOf, IsOrder, LeadsToCycle, DependsOn, IsFirstCyclic, first_undefined, variables_numbered, numbered_literal, renumbered};
ghost use Rattle.aigerlists.specs.OwnLists.{own_lists};
ghost use Rattle.aigerlists.specs.Worked.{crossed, backwards, straight, looped, led, far, of_each, of_each_numbered, toggler_of_any, unknown, loose_toggler, named_off, named_on};

/// A file and the circuit that it is as numbered: from the same inputs and first bits both have the
/// same latches, outputs, bad properties and constraints in each frame ("AIGER 1.9 and Beyond",
/// ascii format and semantics). It does nothing: its contract is the law.
pub fn renumbered_traces()
    // The file has a trace.
    ensures exists { (l : Loose) (c : Circuit) (state : List Bool) (inputs : List (List Bool))
        → IsLoose l → IsRenumbered l c → length state ≡ length l.latches
        → All (λ input. length input ≡ length l.inputs) inputs
        → (vs : List Valuation) × IsLooseTrace l state inputs vs }
    // Each of its traces shows what a trace of the circuit shows.
    ensures same { (l : Loose) (c : Circuit) (state : List Bool) (inputs : List (List Bool))
        (vs ws : List Valuation)
        → IsLoose l → IsRenumbered l c → IsLooseTrace l state inputs vs
        → IsCircuitTrace c state inputs ws
        → AllShowSame l c vs ws }
    // The latches begin alike.
    ensures resets { (l : Loose) (c : Circuit) → IsRenumbered l c
        → map (λ latch. latch.reset) c.latches ≡ map (λ line. line.reset) l.latches }
{}

/// The lists that an ascii file of a circuit has in the circuit's own numbers are lists of a file with
/// as many inputs, latches and gates, and the circuit is these lists as numbered, where each variable has
/// its own number. It does nothing: its contract is the law.
pub fn own_numbers()
    ensures many { (c : Circuit) → (length (own_lists c).inputs ≡ c.inputs)
        × (length (own_lists c).latches ≡ length c.latches)
        × (length (own_lists c).gates ≡ length c.gates) }
    ensures valid { (c : Circuit) → IsCircuit c → IsLoose (own_lists c) }
    ensures numbered { (c : Circuit) → IsCircuit c → IsRenumbered (own_lists c) c }
    ensures numbering { (c : Circuit) → IsCircuit c → IsNumberingOf (own_lists c) c None }
{}

/// A file is a circuit as numbered exactly where each variable that it uses is defined and none of
/// its gates leads to a cycle, and then it is one alone. It does nothing: its contract is the law.
pub fn one_renumbering()
    ensures exists { (l : Loose) → first_undefined l ≡ None
        → ((j : ℕ) → j < length l.gates → ¬ LeadsToCycle l j) → (c : Circuit) × IsRenumbered l c }
    ensures either { (l : Loose) → IsLoose l → first_undefined l ≡ None
        → ((c : Circuit) × IsRenumbered l c) ⊎ ((j : ℕ) × IsFirstCyclic l j) }
    ensures circuit { (l : Loose) (c : Circuit) → IsLoose l → IsRenumbered l c → IsCircuit c }
    ensures unique { (l : Loose) (c d : Circuit) → IsRenumbered l c → IsRenumbered l d → c ≡ d }
    ensures no_cycle { (l : Loose) (c : Circuit) (j : ℕ) → IsLoose l → IsRenumbered l c
        → j < length l.gates → ¬ LeadsToCycle l j }
{}

/// Worked rows of the lists of a file and their renumbering. It does nothing: its contract is the
/// rows.
pub fn worked_renumbering()
    // Gates in either order are the same circuit, the greater operand first.
    ensures in_order { IsOrder crossed (0 ∷ 1 ∷ []) }
    ensures before_its_line { IsOrder backwards (1 ∷ 0 ∷ []) }
    ensures by_file_order { ¬ IsOrder backwards (0 ∷ 1 ∷ []) }
    ensures same { (renumbered crossed (0 ∷ 1 ∷ []) ≡ straight)
        × (renumbered backwards (1 ∷ 0 ∷ []) ≡ straight) }
    ensures valid { IsCircuit straight }
    // Each variable that they use is defined; an undefined one is told at its line, from 0.
    ensures known { (first_undefined crossed ≡ None) × (first_undefined looped ≡ None) }
    ensures undefined { first_undefined unknown ≡ Some 3 }
    // Each of two gates that use each other depends on itself.
    ensures cycle { IsFirstCyclic looped 0 }
    // A gate that leads to the cycle of another one and is on none itself.
    ensures led { IsFirstCyclic led 0 × (¬ DependsOn led 0 0) × DependsOn led 1 1 }
    // The number of a variable comes from its line alone.
    ensures far { (renumbered far []).outputs ≡ 2 ∷ [] }
    ensures alone { renumbered loose_toggler [] ≡ toggler_of_any }
    // The literals of gates in either order, of a negation, and of a variable that no line defines.
    ensures variables { (variables_numbered crossed (0 ∷ 1 ∷ []) ≡ 1 ∷ 2 ∷ 7 ∷ 6 ∷ [])
        × (variables_numbered backwards (1 ∷ 0 ∷ []) ≡ 1 ∷ 2 ∷ 7 ∷ 6 ∷ []) }
    ensures literals { (numbered_literal (Some (1 ∷ 2 ∷ 7 ∷ 6 ∷ [])) 12 ≡ Some 8)
        × (numbered_literal (Some (1 ∷ 2 ∷ 7 ∷ 6 ∷ [])) 15 ≡ Some 7)
        × (numbered_literal (Some (1 ∷ 2 ∷ 7 ∷ 6 ∷ [])) 1 ≡ Some 1) }
    ensures no_literal { numbered_literal (Some (1 ∷ 2 ∷ 7 ∷ 6 ∷ [])) 8 ≡ None }
    ensures own_literal { numbered_literal None 9 ≡ Some 9 }
    ensures of_each { IsRenumbered of_each of_each_numbered }
    // The lists of a circuit in its own numbers.
    ensures own { ((own_lists straight).inputs ≡ 2 ∷ 4 ∷ [])
        × ((own_lists straight).gates ≡ record { lhs = 6; rhs0 = 5; rhs1 = 2 }
        ∷ record { lhs = 8; rhs0 = 6; rhs1 = 3 } ∷ []) }
    // A variable that is defined twice, and a defining literal that is odd.
    ensures twice { ¬ HasDefinitions (with_input_line (with_input_line empty_loose 4) 4) }
    ensures odd { loose_line_refusal empty_loose 5 [] ≡ Some LiteralOutOfRange }
    ensures again { loose_line_refusal crossed 12 (2147483650 ∷ []) ≡ Some LiteralOutOfRange }
    ensures too_big { (loose_line_refusal crossed 10 (2147483650 ∷ []) ≡ Some TooBig)
        × (use_refusal 0 2147483650 ≡ Some TooBig) }
    ensures at_the_limit { use_refusal 0 2147483649 ≡ None }
    // The toggler under another name, from 0 and from 1.
    ensures toggles { IsLooseTrace loose_toggler (false ∷ []) ([] ∷ [] ∷ [])
        (named_off ∷ named_on ∷ []) }
    ensures stays { ¬ IsLooseTrace loose_toggler (false ∷ []) ([] ∷ [] ∷ [])
        (named_off ∷ named_off ∷ []) }
{}
