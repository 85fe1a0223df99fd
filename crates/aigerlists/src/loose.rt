//! The lists of an ascii file as it names them: variables in any numbering, gates in any order.
ghost use Rattle.std.specs.Prelude.{◌≡◌, ℕ, ◌<◌, true, [], ◌∷◌, ◌++◌, length, None, Some, OnOk, OnErr, option_copied, slice_get, nat_le, nat_eq, cond, ◌&&◌, not};
ghost use Rattle.std.specs.List.{list_all, concat};
ghost use Rattle.aigerlists.specs.Definitions.{has_variable};
ghost use Rattle.aiger.specs.Circuit.{section_count};
ghost use Rattle.base.specs.Literal.{variable};
ghost use Rattle.aiger.specs.Refusal.{RefusesBy};
ghost use Rattle.aiger.specs.Limits.{greatest_count};
ghost use Rattle.aigerlists.specs.Loose.{is_defining, is_small};

use crate::definitions::Definitions;
use aiger::{
    CircuitFault, GREATEST_COUNT, Lit, NameKeeper, Properties, Reset, Section, is_good_name,
    push_counted, push_justice,
};
use base::Rows;
use std::alloc::Global;
use std::marker::Model;

/// A latch line: the literal that it defines, the literal whose bit it takes in the next frame,
/// and how it begins.
#[derive(Clone, Copy, PartialEq, Eq)]
pub struct LatchLine {
    /// The literal that the line defines.
    pub current: Lit,
    /// The literal whose bit it takes in the next frame.
    pub next: Lit,
    /// How it begins; the own literal as a reset is `Free`.
    pub reset: Reset,
}

/// A gate line: the literal that it defines, and its operands in any order.
#[derive(Clone, Copy, PartialEq, Eq)]
pub struct GateLine {
    /// The literal that the line defines.
    pub lhs: Lit,
    /// The operand that stands first.
    pub rhs0: Lit,
    /// The operand that stands second.
    pub rhs1: Lit,
}

/// The lists of an ascii file as it names them: a variable may have any number, and gates may stand
/// in any order.
///
/// A defining literal is even and at least 2, and no variable is defined twice; what the other
/// literals name need not be defined. Variables, the number of definitions, the length of each list
/// and the literals of all justice properties are at most 2^30.
///
/// Of the errors that a call names, the first that applies is answered, and the lists are then unchanged.
#[derive(Drop)]
pub struct Loose {
    inputs: Vec<Lit>,
    latches: Vec<LatchLine>,
    gates: Vec<GateLine>,
    properties: Properties,
    names: NameKeeper,
    // the variables that the inputs, latches and gates define
    defined: Definitions,
}

impl Model for Loose {
    ghost use Rattle.aigerlists.specs.Loose.{Loose as LooseValue, IsLoose};

    ghost Value = { LooseValue };

    ghost use Rattle.aigerlists.specs.LooseView.{loose_of, HasDefinedSet};

    ghost view = { loose_of };

    ghost invariant = { λ l. IsLoose (loose_of l) × HasDefinedSet l };
}

impl Loose {
    ghost use Rattle.aigerlists.specs.Loose.{IsLoose, empty_loose, is_defined, defined_count, sections_of, loose_name, with_input_line, with_latch_line, with_gate_line, with_output_line, with_bad_line, with_constraint_line, with_justice_lines, with_fair_line, with_property_lines, with_loose_name, loose_line_refusal, use_refusal, loose_justice_refusal, loose_name_refusal};

    /// Empty lists. It takes no memory.
    pub fn new(alloc: Global) -> Loose
        ensures { result ≡ empty_loose }
    {
        Loose {
            inputs: Vec::new(alloc),
            latches: Vec::new(alloc),
            gates: Vec::new(alloc),
            properties: Properties::new(alloc),
            names: NameKeeper::new(alloc),
            defined: Definitions::new(alloc),
        }
    }

    /// Adds an input line.
    ///
    /// Errors: `LiteralOutOfRange` where the literal is odd, below 2 or defined already, `TooBig` where its variable is
    /// above 2^30 or there are 2^30 definitions already, `NoMemory`.
    pub fn push_input(&mut self, lit: Lit) -> Result<(), CircuitFault>
        ensures ok { OnOk result (self.new ≡ with_input_line self.old lit) }
        ensures refused { RefusesBy result (loose_line_refusal self.old lit []) }
        ensures err { OnErr result (self.new ≡ self.old) }
    {
        if !self.may_define(lit) {
            return Err(CircuitFault::LiteralOutOfRange);
        }
        if !is_within(lit) || !self.has_room() {
            return Err(CircuitFault::TooBig);
        }
        define(&mut self.defined, &mut self.inputs, lit.var(), lit)
    }

    /// Adds a latch line. A reset that is the own literal is `Free`.
    ///
    /// Errors: `LiteralOutOfRange` where `current` is odd, below 2 or defined already, `TooBig` where a variable is above
    /// 2^30 or there are 2^30 definitions already, `NoMemory`.
    pub fn push_latch(&mut self, current: Lit, next: Lit, reset: Reset) -> Result<(), CircuitFault>
        ensures ok { OnOk result (self.new ≡ with_latch_line self.old
            (record { current = current; next = next; reset = reset })) }
        ensures refused { RefusesBy result (loose_line_refusal self.old current (next ∷ [])) }
        ensures err { OnErr result (self.new ≡ self.old) }
    {
        if !self.may_define(current) {
            return Err(CircuitFault::LiteralOutOfRange);
        }
        if !is_within(current) || !is_within(next) || !self.has_room() {
            return Err(CircuitFault::TooBig);
        }
        let line = LatchLine {
            current,
            next,
            reset,
        };
        define(&mut self.defined, &mut self.latches, current.var(), line)
    }

    /// Adds a gate line. Its operands may be in any order, and need not be defined yet.
    ///
    /// Errors: `LiteralOutOfRange` where `lhs` is odd, below 2 or defined already, `TooBig` where a variable is above
    /// 2^30 or there are 2^30 definitions already, `NoMemory`.
    pub fn push_gate(&mut self, lhs: Lit, rhs0: Lit, rhs1: Lit) -> Result<(), CircuitFault>
        ensures ok { OnOk result (self.new ≡ with_gate_line self.old
            (record { lhs = lhs; rhs0 = rhs0; rhs1 = rhs1 })) }
        ensures refused { RefusesBy result (loose_line_refusal self.old lhs (rhs0 ∷ rhs1 ∷ [])) }
        ensures err { OnErr result (self.new ≡ self.old) }
    {
        if !self.may_define(lhs) {
            return Err(CircuitFault::LiteralOutOfRange);
        }
        if !is_within(lhs) || !is_within(rhs0) || !is_within(rhs1) || !self.has_room() {
            return Err(CircuitFault::TooBig);
        }
        let line = GateLine { lhs, rhs0, rhs1 };
        define(&mut self.defined, &mut self.gates, lhs.var(), line)
    }

    /// Gives lists without names these properties in place of their own. It takes no memory.
    pub fn set_properties(&mut self, properties: Properties)
        requires unnamed { self.old.names ≡ [] }
        requires lists { IsLoose (with_property_lines empty_loose properties) }
        ensures { self.new ≡ with_property_lines self.old properties }
    {
        self.properties = properties;
    }

    /// Adds an output. Its variable need not be defined yet.
    ///
    /// Errors: `TooBig` where the literal's variable is above 2^30 or there are 2^30 outputs already, `NoMemory`.
    pub fn push_output(&mut self, lit: Lit) -> Result<(), CircuitFault>
        ensures ok { OnOk result (self.new ≡ with_output_line self.old lit) }
        ensures refused { RefusesBy result (use_refusal (length self.old.outputs) lit) }
        ensures err { OnErr result (self.new ≡ self.old) }
    {
        if !is_within(lit) {
            return Err(CircuitFault::TooBig);
        }
        push_counted(&mut self.properties.outputs, lit)
    }

    /// Adds a bad property. Its variable need not be defined yet.
    ///
    /// Errors: `TooBig` where the literal's variable is above 2^30 or there are 2^30 bad properties already, and
    /// `NoMemory`.
    pub fn push_bad(&mut self, lit: Lit) -> Result<(), CircuitFault>
        ensures ok { OnOk result (self.new ≡ with_bad_line self.old lit) }
        ensures refused { RefusesBy result (use_refusal (length self.old.bads) lit) }
        ensures err { OnErr result (self.new ≡ self.old) }
    {
        if !is_within(lit) {
            return Err(CircuitFault::TooBig);
        }
        push_counted(&mut self.properties.bads, lit)
    }

    /// Adds a constraint, a literal that is to be true in every frame. Its variable need not be defined yet.
    ///
    /// Errors: `TooBig` where the literal's variable is above 2^30 or there are 2^30 constraints already, `NoMemory`.
    pub fn push_constraint(&mut self, lit: Lit) -> Result<(), CircuitFault>
        ensures ok { OnOk result (self.new ≡ with_constraint_line self.old lit) }
        ensures refused { RefusesBy result (use_refusal (length self.old.constraints) lit) }
        ensures err { OnErr result (self.new ≡ self.old) }
    {
        if !is_within(lit) {
            return Err(CircuitFault::TooBig);
        }
        push_counted(&mut self.properties.constraints, lit)
    }

    /// Adds a justice property: literals each of which is to be true again and again. There may be
    /// none, and their variables need not be defined yet.
    ///
    /// Errors: `TooBig` where a literal's variable is above 2^30, there are 2^30 justice properties already, or all
    /// together would have more than 2^30 literals, `NoMemory`.
    pub fn push_justice(&mut self, lits: &[Lit]) -> Result<(), CircuitFault>
        ensures ok { OnOk result (self.new ≡ with_justice_lines self.old lits.now) }
        ensures refused { RefusesBy result (loose_justice_refusal self.old.justice lits.now) }
        ensures err { OnErr result (self.new ≡ self.old) }
    {
        if !are_within(lits) {
            return Err(CircuitFault::TooBig);
        }
        push_justice(&mut self.properties.justice, lits)
    }

    /// Adds a fairness constraint, a literal that is to be true again and again. Its variable need not be defined yet.
    ///
    /// Errors: `TooBig` where the literal's variable is above 2^30 or there are 2^30 fairness constraints already, and
    /// `NoMemory`.
    pub fn push_fair(&mut self, lit: Lit) -> Result<(), CircuitFault>
        ensures ok { OnOk result (self.new ≡ with_fair_line self.old lit) }
        ensures refused { RefusesBy result (use_refusal (length self.old.fair) lit) }
        ensures err { OnErr result (self.new ≡ self.old) }
    {
        if !is_within(lit) {
            return Err(CircuitFault::TooBig);
        }
        push_counted(&mut self.properties.fair, lit)
    }

    /// Gives a name to a position of a section: 1 to 300 bytes, each from 32 to 126.
    ///
    /// Errors: `NoSuchPosition` where the section has no such position, `NameTaken` where it has a name already,
    /// `BadName` where the bytes are no name, `NoMemory`.
    pub fn set_name(
        &mut self,
        section: Section,
        position: usize,
        name: &[u8],
    ) -> Result<(), CircuitFault>
        ensures ok { OnOk result (self.new ≡ with_loose_name self.old section position name.now) }
        ensures refused { RefusesBy result (loose_name_refusal self.old section position name.now) }
        ensures err { OnErr result (self.new ≡ self.old) }
    {
        if position >= self.count(section) {
            return Err(CircuitFault::NoSuchPosition);
        }
        if self.names.name(section, position).is_some() {
            return Err(CircuitFault::NameTaken);
        }
        if !is_good_name(name) {
            return Err(CircuitFault::BadName);
        }
        self.names.give(section, position, name)
    }

    /// Whether a literal may define a variable: it is even and at least 2, and no line defines its
    /// variable.
    #[inline(always)]
    fn may_define(&self, lit: Lit) -> bool
        ensures { result ≡ (is_defining lit && not (is_defined self.now (variable lit))) }
    {
        is_definer(lit) && !self.defines(lit.var())
    }

    /// Whether an input, a latch or a gate line defines a variable. It takes no memory.
    #[inline(always)]
    pub fn defines(&self, variable: u32) -> bool
        ensures defined { result ≡ is_defined self.now variable }
        ensures valid { IsLoose self.now }
    {
        self.defined.has(variable)
    }

    /// Whether the lines define the variables from 1 to a greatest one, each in its turn.
    pub(crate) fn define_in_turn(&self) -> bool
        ensures { result ≡ true → (greatest : ℕ)
            × ((v : ℕ) → is_defined self.now v ≡ (nat_le 1 v && nat_le v greatest)) }
    {
        self.defined.are_in_turn()
    }

    /// The greatest variable that a line defines, or 0.
    pub(crate) fn greatest_defined(&self) -> u32 {
        self.defined.greatest()
    }

    /// Whether there are fewer than 2^30 definitions.
    fn has_room(&self) -> bool
        ensures { result ≡ not (nat_le greatest_count (defined_count self.now)) }
    {
        let count = self.inputs.len() + self.latches.len() + self.gates.len();
        count < GREATEST_COUNT as usize
    }

    /// How many positions a section has.
    fn count(&self, section: Section) -> usize
        ensures { result ≡ section_count section (sections_of self.now) }
    {
        match section {
            Section::Input => self.inputs.len(),
            Section::Latch => self.latches.len(),
            Section::Output => self.properties.outputs.len(),
            Section::Bad => self.properties.bads.len(),
            Section::Constraint => self.properties.constraints.len(),
            Section::Justice => self.properties.justice.len(),
            Section::Fair => self.properties.fair.len(),
        }
    }

    /// The literals of the input lines.
    pub fn inputs(&self) -> &[Lit]
        ensures items { result.now ≡ self.now.inputs }
        ensures valid { IsLoose self.now }
    {
        &self.inputs
    }

    /// The latch lines.
    pub fn latches(&self) -> &[LatchLine]
        ensures items { result.now ≡ self.now.latches }
        ensures valid { IsLoose self.now }
    {
        &self.latches
    }

    /// The gate lines.
    pub fn gates(&self) -> &[GateLine]
        ensures items { result.now ≡ self.now.gates }
        ensures valid { IsLoose self.now }
    {
        &self.gates
    }

    /// The outputs.
    pub fn outputs(&self) -> &[Lit]
        ensures items { result.now ≡ self.now.outputs }
        ensures valid { IsLoose self.now }
    {
        &self.properties.outputs
    }

    /// The bad properties.
    pub fn bads(&self) -> &[Lit]
        ensures items { result.now ≡ self.now.bads }
        ensures valid { IsLoose self.now }
    {
        &self.properties.bads
    }

    /// The constraints.
    pub fn constraints(&self) -> &[Lit]
        ensures items { result.now ≡ self.now.constraints }
        ensures valid { IsLoose self.now }
    {
        &self.properties.constraints
    }

    /// How many justice properties there are.
    pub fn justice_count(&self) -> usize
        ensures count { result ≡ length self.now.justice }
        ensures valid { IsLoose self.now }
    {
        self.properties.justice.len()
    }

    /// The literals of a justice property.
    pub fn justice(&self, i: usize) -> &[Lit]
        requires { i < length self.now.justice }
        ensures items { slice_get self.now.justice i ≡ Some result.now }
        ensures valid { IsLoose self.now }
    {
        self.properties.justice.row(i)
    }

    /// The literals of all justice properties, one after another.
    pub(crate) fn justice_literals(&self) -> &[Lit]
        ensures items { result.now ≡ concat self.now.justice }
        ensures valid { IsLoose self.now }
    {
        self.properties.justice.values()
    }

    /// The justice properties as they are kept.
    pub(crate) fn justice_list(&self) -> &Rows<Lit>
        ensures { result.now ≡ self.now.justice }
    {
        &self.properties.justice
    }

    /// The names as they are kept.
    pub(crate) fn name_keeper(&self) -> &NameKeeper
        ensures { result.now ≡ self.now.names }
    {
        &self.names
    }

    /// The fairness constraints.
    pub fn fair(&self) -> &[Lit]
        ensures items { result.now ≡ self.now.fair }
        ensures valid { IsLoose self.now }
    {
        &self.properties.fair
    }

    /// The name of a position of a section, if there is such a position and it has a name.
    pub fn name(&self, section: Section, position: usize) -> Option<&[u8]>
        ensures name { option_copied result ≡ loose_name self.now section position }
        ensures valid { IsLoose self.now }
    {
        self.names.name(section, position)
    }
}

/// Whether a literal is even and at least 2.
fn is_definer(lit: Lit) -> bool
    ensures { result ≡ is_defining lit }
{
    lit.number() >= 2 && lit.number() % 2 == 0
}

/// Whether a literal's variable is at most 2^30.
fn is_within(lit: Lit) -> bool
    ensures { result ≡ is_small lit }
{
    lit.var() <= GREATEST_COUNT
}

/// Whether each literal's variable is at most 2^30.
fn are_within(lits: &[Lit]) -> bool
    ensures { result ≡ list_all is_small lits.now }
{
    lits.iter().all(|lit| lit.var() <= GREATEST_COUNT)
}

/// Adds a line that defines a variable, which no line defines yet. The error is want of memory, and
/// nothing has changed then.
#[inline(always)]
fn define<T: Copy>(
    defined: &mut Definitions,
    lines: &mut Vec<T>,
    variable: u32,
    line: T,
) -> Result<(), CircuitFault>
    ensures lines { OnOk result (lines.new.items ≡ lines.old.items ++ line ∷ []) }
    ensures defined { OnOk result ((v : ℕ) → has_variable defined.new v
        ≡ cond (nat_eq variable v) true (has_variable defined.old v)) }
    ensures refused { RefusesBy result None }
    ensures lines_kept { OnErr result (lines.new.items ≡ lines.old.items) }
    ensures defined_kept { OnErr result ((v : ℕ) → has_variable defined.new v
        ≡ has_variable defined.old v) }
{
    lines.reserve(1)?;
    defined.add(variable)?;
    match lines.push(line) {
        Ok(()) => Ok(()),
        Err(_) => unreachable!(),
    }
}
