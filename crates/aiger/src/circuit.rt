//! Circuits: inputs, latches, gates, properties and names, and what every circuit keeps.
ghost use Rattle.std.specs.Prelude.{◌≡◌, ℕ, ◌+◌, ◌*◌, ◌<◌, ◌≤◌, [], ◌∷◌, ◌++◌, length, Some, IfOk, OnOk, OnErr, option_copied, slice_get, nat_le};
ghost use Rattle.aiger.specs.Refusal.{RefusesBy};
ghost use Rattle.aiger.specs.Circuit.{count_refusal};

use crate::fault::CircuitFault;
use crate::justice::push_justice;
use crate::lists::{CircuitLists, Properties};
use crate::literal::Lit;
use crate::names::{NameKeeper, is_good_name};
use std::alloc::Global;
use std::marker::Model;

/// With which bit a latch begins.
#[derive(Clone, Copy, PartialEq, Eq)]
pub enum Reset {
    /// 0.
    Zero,
    /// 1.
    One,
    /// Any: it has no initial value.
    Free,
}

/// A latch: the literal whose bit it takes in the next frame, and how it begins.
#[derive(Clone, Copy, PartialEq, Eq)]
pub struct Latch {
    /// The literal whose bit it takes in the next frame.
    pub next: Lit,
    /// How it begins.
    pub reset: Reset,
}

/// The operands of an AND gate, the greater one first.
#[derive(Clone, Copy, PartialEq, Eq)]
pub struct Gate {
    /// The greater operand.
    pub rhs0: Lit,
    /// The smaller operand.
    pub rhs1: Lit,
}

/// The sections of a circuit whose positions may have names.
#[derive(Clone, Copy, PartialEq, Eq)]
pub enum Section {
    /// Letter `i`.
    Input,
    /// Letter `l`.
    Latch,
    /// Letter `o`.
    Output,
    /// Letter `b`.
    Bad,
    /// Letter `c`.
    Constraint,
    /// Letter `j`.
    Justice,
    /// Letter `f`.
    Fair,
}

impl Section {
    ghost use Rattle.aiger.specs.Names.{letter};

    /// All sections, in the order in which their names stand in a file.
    pub const ALL: [Section; 7] = [
        Section::Input,
        Section::Latch,
        Section::Output,
        Section::Bad,
        Section::Constraint,
        Section::Justice,
        Section::Fair,
    ];

    /// The letter that its names begin with in a file.
    pub fn letter(self) -> u8
        ensures { result ≡ letter self }
    {
        match self {
            Section::Input => b'i',
            Section::Latch => b'l',
            Section::Output => b'o',
            Section::Bad => b'b',
            Section::Constraint => b'c',
            Section::Justice => b'j',
            Section::Fair => b'f',
        }
    }
}

/// An and-inverter circuit: inputs, latches, gates, outputs, bad properties, constraints, justice
/// properties, fairness constraints and names.
///
/// Variables are numbered inputs first, then latches, then gates. Each gate's literal is above its
/// operands, the greater of which comes first, and every literal is of a variable that is there.
/// Names are a map from section and position: in whatever order they were given, the circuits are
/// the same, and a position without a name takes no memory.
///
/// Of the errors that a call names, the first that applies is answered, and the circuit is then unchanged.
#[derive(Drop)]
pub struct Circuit {
    lists: CircuitLists,
}

/// The greatest variable, the greatest count of a section, and of the literals of all justice
/// properties.
pub const GREATEST_COUNT: u32 = 1 << 30;

impl Model for Circuit {
    ghost use Rattle.aiger.specs.Circuit.{Circuit as CircuitValue, IsCircuit};

    ghost Value = { CircuitValue };

    ghost use Rattle.aiger.specs.View.{circuit_of};

    ghost view = { circuit_of };

    ghost invariant = { λ c. IsCircuit (circuit_of c) };
}

impl Circuit {
    ghost use Rattle.base.specs.Literal.{variable};
    ghost use Rattle.aiger.specs.Net.{variables};
    ghost use Rattle.aiger.specs.View.{circuit_from, with_latches_and_properties};
    ghost use Rattle.aiger.specs.Circuit.{IsCircuit, net, fresh_circuit, with_gate, with_latch, with_output, with_bad, with_constraint, with_justice, with_fair, with_name, name_of, section_count, are_defined, circuit_refusal, gate_refusal, literal_refusal, property_refusal, justice_refusal, name_refusal, RefusesBy, RefusesOnlyBy};

    /// A circuit of so many inputs and latches, which begin with next 0 and reset `Zero`.
    ///
    /// Errors: `TooBig` where their sum is above 2^30, and `NoMemory`.
    pub fn new(alloc: Global, inputs: u32, latches: u32) -> Result<Circuit, CircuitFault>
        ensures ok { IfOk result (λ c. c ≡ fresh_circuit inputs latches) }
        ensures refused { RefusesBy result (circuit_refusal inputs latches) }
    {
        if u64::from(inputs) + u64::from(latches) > u64::from(GREATEST_COUNT) {
            return Err(CircuitFault::TooBig);
        }
        let fresh = Latch {
            next: Lit::FALSE,
            reset: Reset::Zero,
        };
        let fresh_latches = vec![in alloc; fresh; latches as usize]?;
        let lists = CircuitLists {
            inputs,
            latches: fresh_latches,
            gates: Vec::new(alloc),
            properties: Properties::new(alloc),
            names: NameKeeper::new(alloc),
        };
        Ok(Circuit { lists })
    }

    /// The circuit that has these lists and names, which are those of a circuit. It takes no memory.
    pub fn from_lists(lists: CircuitLists) -> Circuit
        requires { IsCircuit (circuit_from lists) }
        ensures { result ≡ circuit_from lists }
    {
        Circuit { lists }
    }

    /// Gives a circuit these latches and properties in place of its own. It takes no memory.
    pub fn set_latches_and_properties(&mut self, latches: Vec<Latch>, properties: Properties)
        requires { IsCircuit (with_latches_and_properties self.old latches.items properties) }
        ensures { self.new ≡ with_latches_and_properties self.old latches.items properties }
    {
        self.lists.latches = latches;
        self.lists.properties = properties;
    }

    /// Adds an AND gate of two literals, the greater one first, and answers its literal.
    ///
    /// Errors: `LiteralOutOfRange` where an operand's variable is above the greatest so far, `OrderBroken` where `rhs0`
    /// is below `rhs1`, `TooBig` where there are 2^30 variables already, `NoMemory`.
    pub fn push_gate(&mut self, rhs0: Lit, rhs1: Lit) -> Result<Lit, CircuitFault>
        ensures ok { OnOk result (self.new ≡ with_gate self.old rhs0 rhs1) }
        ensures literal { IfOk result (λ l. l ≡ 2 * (variables (net self.old) + 1)) }
        ensures refused { RefusesBy result (gate_refusal self.old rhs0 rhs1) }
        ensures err { OnErr result (self.new ≡ self.old) }
    {
        if !self.is_defined(rhs0) || !self.is_defined(rhs1) {
            return Err(CircuitFault::LiteralOutOfRange);
        }
        if rhs0.number() < rhs1.number() {
            return Err(CircuitFault::OrderBroken);
        }
        let greatest = self.variables();
        if greatest >= GREATEST_COUNT {
            return Err(CircuitFault::TooBig);
        }
        match self.lists.gates.push(Gate { rhs0, rhs1 }) {
            Ok(()) => Ok(Lit::new(2 * (greatest + 1))),
            Err(_) => Err(CircuitFault::NoMemory),
        }
    }

    /// Sets the literal that a latch takes in the next frame, and how it begins.
    ///
    /// Error: `LiteralOutOfRange` where the literal's variable is above the greatest so far. It takes no memory.
    pub fn set_latch(&mut self, k: usize, next: Lit, reset: Reset) -> Result<(), CircuitFault>
        requires { k < length self.old.latches }
        ensures ok { OnOk result (self.new
            ≡ with_latch self.old k (record { next = next; reset = reset })) }
        ensures refused { RefusesOnlyBy result (literal_refusal self.old next) }
        ensures err { OnErr result (self.new ≡ self.old) }
    {
        if !self.is_defined(next) {
            return Err(CircuitFault::LiteralOutOfRange);
        }
        self.lists.latches[k] = Latch { next, reset };
        Ok(())
    }

    /// Adds an output.
    ///
    /// Errors: `LiteralOutOfRange` where the literal's variable is above the greatest so far, `TooBig` where there are
    /// 2^30 outputs already, `NoMemory`.
    pub fn push_output(&mut self, lit: Lit) -> Result<(), CircuitFault>
        ensures ok { OnOk result (self.new ≡ with_output self.old lit) }
        ensures refused { RefusesBy result
            (property_refusal self.old (length self.old.outputs) lit) }
        ensures err { OnErr result (self.new ≡ self.old) }
    {
        if !self.is_defined(lit) {
            return Err(CircuitFault::LiteralOutOfRange);
        }
        push_counted(&mut self.lists.properties.outputs, lit)
    }

    /// Adds a bad property, the literal that is true where it holds.
    ///
    /// Errors: `LiteralOutOfRange` where the literal's variable is above the greatest so far, `TooBig` where there are
    /// 2^30 bad properties already, `NoMemory`.
    pub fn push_bad(&mut self, lit: Lit) -> Result<(), CircuitFault>
        ensures ok { OnOk result (self.new ≡ with_bad self.old lit) }
        ensures refused { RefusesBy result (property_refusal self.old (length self.old.bads) lit) }
        ensures err { OnErr result (self.new ≡ self.old) }
    {
        if !self.is_defined(lit) {
            return Err(CircuitFault::LiteralOutOfRange);
        }
        push_counted(&mut self.lists.properties.bads, lit)
    }

    /// Adds a constraint, a literal that is to be true in every frame.
    ///
    /// Errors: `LiteralOutOfRange` where the literal's variable is above the greatest so far, `TooBig` where there are
    /// 2^30 constraints already, `NoMemory`.
    pub fn push_constraint(&mut self, lit: Lit) -> Result<(), CircuitFault>
        ensures ok { OnOk result (self.new ≡ with_constraint self.old lit) }
        ensures refused { RefusesBy result
            (property_refusal self.old (length self.old.constraints) lit) }
        ensures err { OnErr result (self.new ≡ self.old) }
    {
        if !self.is_defined(lit) {
            return Err(CircuitFault::LiteralOutOfRange);
        }
        push_counted(&mut self.lists.properties.constraints, lit)
    }

    /// Adds a justice property: literals each of which is to be true again and again. There may be none.
    ///
    /// Errors: `LiteralOutOfRange` where a literal's variable is above the greatest so far, `TooBig` where there are 2^30
    /// justice properties already, or all together would have more than 2^30 literals, `NoMemory`.
    pub fn push_justice(&mut self, lits: &[Lit]) -> Result<(), CircuitFault>
        ensures ok { OnOk result (self.new ≡ with_justice self.old lits.now) }
        ensures refused { RefusesBy result (justice_refusal self.old lits.now) }
        ensures err { OnErr result (self.new ≡ self.old) }
    {
        if !self.are_defined(lits) {
            return Err(CircuitFault::LiteralOutOfRange);
        }
        push_justice(&mut self.lists.properties.justice, lits)
    }

    /// Adds a fairness constraint, a literal that is to be true again and again.
    ///
    /// Errors: `LiteralOutOfRange` where the literal's variable is above the greatest so far, `TooBig` where there are
    /// 2^30 fairness constraints already, `NoMemory`.
    pub fn push_fair(&mut self, lit: Lit) -> Result<(), CircuitFault>
        ensures ok { OnOk result (self.new ≡ with_fair self.old lit) }
        ensures refused { RefusesBy result (property_refusal self.old (length self.old.fair) lit) }
        ensures err { OnErr result (self.new ≡ self.old) }
    {
        if !self.is_defined(lit) {
            return Err(CircuitFault::LiteralOutOfRange);
        }
        push_counted(&mut self.lists.properties.fair, lit)
    }

    /// Gives a name to a position of a section: 1 to 300 bytes, each from 32 to 126.
    ///
    /// Errors: `NoSuchPosition` where the section has no such position, `NameTaken` where it has a name already,
    /// `BadName` where the bytes are no name, `NoMemory`.
    pub fn set_name(
        &mut self,
        section: Section,
        position: usize,
        name: &[u8],
    ) -> Result<(), CircuitFault>
        ensures ok { OnOk result (self.new ≡ with_name self.old section position name.now) }
        ensures refused { RefusesBy result (name_refusal self.old section position name.now) }
        ensures err { OnErr result (self.new ≡ self.old) }
    {
        if position >= self.count(section) {
            return Err(CircuitFault::NoSuchPosition);
        }
        if self.lists.names.name(section, position).is_some() {
            return Err(CircuitFault::NameTaken);
        }
        if !is_good_name(name) {
            return Err(CircuitFault::BadName);
        }
        self.lists.names.give(section, position, name)
    }

    /// How many variables there are, and so the greatest one: inputs, latches and gates.
    pub fn variables(&self) -> u32
        ensures count { result ≡ variables (net self.now) }
        ensures valid { IsCircuit self.now }
    {
        self.lists.inputs + self.lists.latches.len() as u32 + self.lists.gates.len() as u32
    }

    /// Whether a literal is of a variable that is there, or false or true.
    fn is_defined(&self, lit: Lit) -> bool
        ensures { result ≡ nat_le (variable lit) (variables (net self.now)) }
    {
        lit.var() <= self.variables()
    }

    /// Whether each of these literals is of a variable that is there, or false or true.
    fn are_defined(&self, lits: &[Lit]) -> bool
        ensures { result ≡ are_defined (net self.now) lits.now }
    {
        let greatest = self.variables();
        lits.iter().all(|lit| lit.var() <= greatest)
    }

    /// How many inputs there are.
    pub fn inputs(&self) -> u32
        ensures count { result ≡ self.now.inputs }
        ensures valid { IsCircuit self.now }
    {
        self.lists.inputs
    }

    /// The latches: their next literals, and how they begin.
    pub fn latches(&self) -> &[Latch]
        ensures items { result.now ≡ self.now.latches }
        ensures valid { IsCircuit self.now }
    {
        &self.lists.latches
    }

    /// The gates: their operands.
    pub fn gates(&self) -> &[Gate]
        ensures items { result.now ≡ self.now.gates }
        ensures valid { IsCircuit self.now }
    {
        &self.lists.gates
    }

    /// The outputs.
    pub fn outputs(&self) -> &[Lit]
        ensures items { result.now ≡ self.now.outputs }
        ensures valid { IsCircuit self.now }
    {
        &self.lists.properties.outputs
    }

    /// The bad properties.
    pub fn bads(&self) -> &[Lit]
        ensures items { result.now ≡ self.now.bads }
        ensures valid { IsCircuit self.now }
    {
        &self.lists.properties.bads
    }

    /// The constraints.
    pub fn constraints(&self) -> &[Lit]
        ensures items { result.now ≡ self.now.constraints }
        ensures valid { IsCircuit self.now }
    {
        &self.lists.properties.constraints
    }

    /// How many justice properties there are.
    pub fn justice_count(&self) -> usize
        ensures count { result ≡ length self.now.justice }
        ensures valid { IsCircuit self.now }
    {
        self.lists.properties.justice.len()
    }

    /// The literals of a justice property.
    pub fn justice(&self, i: usize) -> &[Lit]
        requires { i < length self.now.justice }
        ensures items { slice_get self.now.justice i ≡ Some result.now }
        ensures valid { IsCircuit self.now }
    {
        self.lists.properties.justice.row(i)
    }

    /// The fairness constraints.
    pub fn fair(&self) -> &[Lit]
        ensures items { result.now ≡ self.now.fair }
        ensures valid { IsCircuit self.now }
    {
        &self.lists.properties.fair
    }

    /// How many positions a section has.
    pub fn count(&self, section: Section) -> usize
        ensures count { result ≡ section_count section self.now }
        ensures valid { IsCircuit self.now }
    {
        match section {
            Section::Input => self.lists.inputs as usize,
            Section::Latch => self.lists.latches.len(),
            Section::Output => self.lists.properties.outputs.len(),
            Section::Bad => self.lists.properties.bads.len(),
            Section::Constraint => self.lists.properties.constraints.len(),
            Section::Justice => self.lists.properties.justice.len(),
            Section::Fair => self.lists.properties.fair.len(),
        }
    }

    /// The name of a position of a section, if there is such a position and it has a name.
    pub fn name(&self, section: Section, position: usize) -> Option<&[u8]>
        ensures name { option_copied result ≡ name_of self.now section position }
        ensures valid { IsCircuit self.now }
    {
        self.lists.names.name(section, position)
    }
}

/// Adds a literal to a list of at most 2^30; after an error it is unchanged.
pub fn push_counted(list: &mut Vec<Lit>, lit: Lit) -> Result<(), CircuitFault>
    ensures list { OnOk result (list.new.items ≡ list.old.items ++ lit ∷ []) }
    ensures refused { RefusesBy result (count_refusal (length list.old.items)) }
    ensures err { OnErr result (list.new.items ≡ list.old.items) }
{
    if list.len() >= GREATEST_COUNT as usize {
        return Err(CircuitFault::TooBig);
    }
    match list.push(lit) {
        Ok(()) => Ok(()),
        Err(_) => Err(CircuitFault::NoMemory),
    }
}
