//! The gate maker that makes no gate twice.
ghost use Rattle.std.specs.Prelude.{◌≡◌, ℕ, ◌+◌, ◌*◌, ◌<◌, ◌≤◌, ◌↔◌, [], ◌∷◌, ◌++◌, true, None, Some, Ok, position, length, vec_len, vec_capacity, if◌then◌else◌, IfOk, IfErr, OnErr, IsErrOf};
ghost use Rattle.std.specs.HashMap.{get, spare};
ghost use Rattle.aiger.specs.Limits.{greatest_count};
ghost use Rattle.aiger.specs.Net.{variables, IsDefined};
ghost use Rattle.aiger.specs.declared.circuit.Gate.{Gate};
ghost use Rattle.aiger.specs.Circuit.{net};
ghost use Rattle.gates.specs.Chains.{longest, AreFound, finds, is_pair};
ghost use Rattle.gates.specs.Made.{MakesAnd, RefusesGate, gates_only};
ghost use Rattle.gates.specs.Shared.{folded_and, gate_of, is_gate_of, gate_literal, standing_and, AreShared, HasValuations};

use crate::chains::{Chains, Look};
use crate::fault::GateFault;
use crate::folding::folded;
use crate::laws::gates_have_valuations;
use crate::maker::Gates;
use crate::pair::{Pair, pair_of};
use crate::plain::push;
use aiger::{Circuit, CircuitFault, GREATEST_COUNT, Lit};
use std::alloc::Global;
use std::marker::Model;

/// A gate maker that makes a gate of two operands once, and none where the and is one of them or a constant.
#[derive(Drop)]
pub struct HashGates {
    circuit: Circuit,
    chains: Chains,
}

impl Model for HashGates {
    ghost use Rattle.std.specs.Prelude.{◌≡◌};
    ghost use Rattle.aiger.specs.Net.{Net};
    ghost use Rattle.aiger.specs.Circuit.{net};
    ghost use Rattle.gates.specs.Made.{gates_only};
    ghost use Rattle.gates.specs.Shared.{AreShared};
    ghost use Rattle.std.specs.HashMap.{get};
    ghost use Rattle.gates.specs.Chains.{longest, is_pair, AreFound};

    ghost Value = { Net };

    ghost view = { λ p. net p.circuit };

    ghost invariant = { λ p. (p.circuit ≡ gates_only (net p.circuit)) × AreFound longest (net p.circuit) p.chains.last.items p.chains.before.items (get is_pair p.chains.beyond) × AreShared p.circuit.gates };
}

/// The literal of a circuit's gate at a place.
fn gate_at(circuit: &Circuit, place: usize) -> Lit
    requires { place < length circuit.now.gates }
    ensures { result ≡ gate_literal (net circuit.now) place }
{
    let before = circuit.inputs() + circuit.latches().len() as u32;
    Lit::new(2 * (before + place as u32 + 1))
}

/// Adds the gate of a pair, and notes it where it stands, for which there is room. Where it is refused, nothing is noted.
fn add_gate(
    circuit: &mut Circuit,
    chains: &mut Chains,
    pair: Pair,
    chain: Option<u32>,
) -> Result<Lit, GateFault>
    requires found { AreFound longest (net circuit.old) chains.old.last.items
        chains.old.before.items (get is_pair chains.old.beyond) }
    requires absent { finds longest circuit.old.gates chains.old.last.items chains.old.before.items
        (get is_pair chains.old.beyond) pair ≡ Look.Absent chain }
    requires order { pair.rhs1 ≤ pair.rhs0 }
    requires greater { IsDefined (net circuit.old) pair.rhs0 }
    requires smaller { IsDefined (net circuit.old) pair.rhs1 }
    requires room { variables (net circuit.old) < greatest_count }
    requires room_last { vec_len chains.old.last < vec_capacity chains.old.last }
    requires room_before { vec_len chains.old.before < vec_capacity chains.old.before }
    requires room_beyond { chain ≡ None → 0 < spare chains.old.beyond }
    ensures ok { IfOk result
        (λ l. (circuit.new ≡ record circuit.old { gates = circuit.old.gates ++ pair ∷ [] })
        × (l ≡ 2 * (variables (net circuit.old) + 1))) }
    ensures err { IfErr result (λ e. (e ≡ GateFault.NoMemory) × (circuit.new ≡ circuit.old)) }
    ensures found { AreFound longest (net circuit.new) chains.new.last.items chains.new.before.items
        (get is_pair chains.new.beyond) }
{
    let lit = push(circuit, pair)?;
    chains.note(pair, chain);
    Ok(lit)
}

/// Makes the gate of a pair that does not stand, and notes where it stands: on the chain that takes it, or in the map.
fn make(
    circuit: &mut Circuit,
    chains: &mut Chains,
    pair: Pair,
    chain: Option<u32>,
) -> Result<Lit, GateFault>
    requires found { AreFound longest (net circuit.old) chains.old.last.items
        chains.old.before.items (get is_pair chains.old.beyond) }
    requires absent { finds longest circuit.old.gates chains.old.last.items chains.old.before.items
        (get is_pair chains.old.beyond) pair ≡ Look.Absent chain }
    requires order { pair.rhs1 ≤ pair.rhs0 }
    requires greater { IsDefined (net circuit.old) pair.rhs0 }
    requires smaller { IsDefined (net circuit.old) pair.rhs1 }
    ensures ok { IfOk result
        (λ l. (circuit.new ≡ record circuit.old { gates = circuit.old.gates ++ pair ∷ [] })
        × (l ≡ 2 * (variables (net circuit.old) + 1))) }
    ensures err { OnErr result (circuit.new ≡ circuit.old) }
    ensures too_big { IsErrOf result GateFault.TooBig
        ↔ (greatest_count < variables (net circuit.old) + 1) }
    ensures found { AreFound longest (net circuit.new) chains.new.last.items chains.new.before.items
        (get is_pair chains.new.beyond) }
{
    if circuit.variables() >= GREATEST_COUNT {
        return Err(GateFault::TooBig);
    }
    chains.make_room(chain)?;
    add_gate(circuit, chains, pair, chain)
}

/// The maker of a circuit that has no gate yet.
fn over(alloc: Global, circuit: Circuit) -> Result<HashGates, GateFault>
    requires only { circuit ≡ gates_only (net circuit) }
    requires fresh { circuit.gates ≡ [] }
    ensures ok { IfOk result (λ made. made ≡ net circuit) }
    ensures memory { IfErr result (λ e. e ≡ GateFault.NoMemory) }
{
    let chains = Chains::new(alloc, circuit.variables() as usize + 1)?;
    Ok(HashGates { circuit, chains })
}

impl HashGates {
    /// A maker over so many inputs and latches, with no gate.
    ///
    /// Errors: `TooBig` where their sum is above 2^30, `NoMemory`.
    pub fn new(alloc: Global, inputs: u32, latches: u32) -> Result<HashGates, GateFault>
        ensures ok { IfOk result (λ made. made
            ≡ record { inputs = inputs; latches = latches; gates = [] }) }
        ensures too_big { IsErrOf result GateFault.TooBig ↔ (greatest_count < inputs + latches) }
    {
        match Circuit::new(alloc, inputs, latches) {
            Ok(circuit) => over(alloc, circuit),
            Err(CircuitFault::TooBig) => Err(GateFault::TooBig),
            Err(_) => Err(GateFault::NoMemory),
        }
    }

    /// How many gates it has made.
    pub fn gate_count(&self) -> usize
        ensures { result ≡ length self.now.gates }
    {
        let gates = self.circuit.gates();
        gates.len()
    }

    /// The circuit of these inputs, latches and gates, and nothing else. It takes no memory.
    ///
    /// No gate has a constant operand or two literals of one variable, and no two gates have the same operands. Any bits
    /// of the inputs and the latches have a valuation that satisfies the gates.
    pub fn finish(self) -> Circuit
        ensures circuit { result ≡ gates_only self }
        ensures shared { AreShared self.gates }
        ensures valuations { HasValuations self }
    {
        gates_have_valuations(&self.circuit);
        self.circuit
    }

    /// The gate of two operands, which is made where it does not stand.
    fn gate_or_make(&mut self, a: Lit, b: Lit) -> Result<Lit, GateFault>
        requires left { IsDefined self.old a }
        requires right { IsDefined self.old b }
        requires needed { folded_and a b ≡ None }
        ensures standing { (k : ℕ) → position (is_gate_of a b) self.old.gates ≡ Some k
            → (result ≡ Ok (gate_literal self.old k)) × (self.new ≡ self.old) }
        ensures fresh { position (is_gate_of a b) self.old.gates ≡ None
            → IfOk result (λ l. (self.new
            ≡ record self.old { gates = self.old.gates ++ gate_of a b ∷ [] }) × (l
            ≡ 2 * (variables self.old + 1))) }
        ensures err { OnErr result (self.new ≡ self.old) }
        ensures too_big { IsErrOf result GateFault.TooBig
            ↔ ((position (is_gate_of a b) self.old.gates ≡ None)
            × (greatest_count < variables self.old + 1)) }
        ensures shared { AreShared self.new.gates }
    {
        let pair = pair_of(a, b);
        match self.chains.find(&self.circuit, pair) {
            Look::Found(place) => Ok(gate_at(&self.circuit, place)),
            Look::Absent(chain) => make(&mut self.circuit, &mut self.chains, pair, chain),
        }
    }
}

impl Gates for HashGates {
    ghost made = { λ p. p };

    /// One of the operands or a constant where the and is that, else the gate of the two operands, in either order,
    /// which is made where it does not stand.
    fn and(&mut self, a: Lit, b: Lit) -> Result<Lit, GateFault>
        requires left { IsDefined self.old a }
        requires right { IsDefined self.old b }
        ensures ok { IfOk result (MakesAnd self.old self.new a b) }
        ensures err { OnErr result (self.new ≡ self.old) }
        ensures refused { IfErr result (RefusesGate self.old self.new 1) }
        ensures standing { (l : ℕ) → standing_and self.old a b ≡ Some l → (result ≡ Ok l)
            × (self.new ≡ self.old) }
        ensures fresh { standing_and self.old a b ≡ None
            → IfOk result (λ l. (self.new
            ≡ record self.old { gates = self.old.gates ++ gate_of a b ∷ [] }) × (l
            ≡ 2 * (variables self.old + 1))) }
        ensures too_big { IsErrOf result GateFault.TooBig
            ↔ ((standing_and self.old a b ≡ None) × (greatest_count < variables self.old + 1)) }
        ensures shared { AreShared self.new.gates }
    {
        let _ = &self.circuit;
        match folded(a, b) {
            Some(lit) => Ok(lit),
            None => self.gate_or_make(a, b),
        }
    }
}
