//! Where the gates of a sharing maker stand: a chain for each variable, and a map of the gates that no chain took.
ghost use Rattle.std.specs.Prelude.{◌≡◌, ◌+◌, ◌<◌, ◌≤◌, [], ◌∷◌, ◌++◌, None, Some, All, length, replicate, vec_len, vec_capacity, get_or, if◌then◌else◌, IfOk, IfErr, IfSome, OnOk};
ghost use Rattle.std.specs.HashMap.{get, spare};
ghost use Rattle.aiger.specs.declared.circuit.Gate.{Gate as Operands};
ghost use Rattle.aiger.specs.Limits.{greatest_count};
ghost use Rattle.aiger.specs.Net.{IsDefined};
ghost use Rattle.aiger.specs.Circuit.{net};
ghost use Rattle.gates.specs.Chains.{longest, AreFound, chained, finds, is_beyond, is_pair, link, looked_up, walked};

use crate::fault::GateFault;
use crate::pair::Pair;
use aiger::{Circuit, Gate};
use indexmap::IndexMap;
use std::alloc::Global;

/// How many gates a chain has at most.
const LONGEST: usize = 16;

/// How a walk along a chain ended.
pub(crate) enum Walk {
    /// At the gate, which stands at this place.
    Met(usize),
    /// At the chain's end, without it.
    End,
    /// Behind as many gates as a chain has at most, without it.
    Full,
}

/// How a look for the gate of a pair ended.
pub(crate) enum Look {
    /// At the gate, which stands at this place.
    Found(usize),
    /// Nowhere: the chain of this variable takes it, or without one the map.
    Absent(Option<u32>),
}

/// Where the gates of a circuit stand.
///
/// Most gates are on the chain of their greater operand's variable, where a look-up meets lists alone that were just in
/// use. Where that one is full they are on the chain of the smaller operand's variable, so a literal that is the greater
/// operand of many gates costs no more; what neither takes stands in the map. An entry of a chain is 1 more than the
/// place of a gate, or 0 at its end.
#[derive(Drop)]
pub(crate) struct Chains {
    /// For each variable the gate that its chain begins with, which is the last that it took.
    last: Vec<u32>,
    /// For each gate the one behind it in its chain, which was made before it.
    before: Vec<u32>,
    /// The places of the gates that no chain took.
    beyond: IndexMap<Pair, u32>,
}

/// Whether a gate has these operands.
fn is_of(gate: Gate, pair: Pair) -> bool
    ensures { result ≡ is_pair pair gate }
{
    gate.rhs0.number() == pair.greater && gate.rhs1.number() == pair.smaller
}

/// Walks along a chain from an entry on, until it is at the gate of a pair, at the end, or has looked at so many gates.
fn walk_along(gates: &[Gate], before: &[u32], pair: Pair, first: u32, turns: usize) -> Walk
    requires first { first ≤ length gates.now }
    requires places { length before.now ≡ length gates.now }
    requires links { All (λ entry. entry ≤ length gates.now) before.now }
    ensures { result ≡ walked gates.now before.now pair turns first }
{
    let mut entry = first;
    for _ in 0..turns {
        if entry == 0 {
            return Walk::End;
        }
        let place = (entry - 1) as usize;
        if is_of(gates[place], pair) {
            return Walk::Met(place);
        }
        entry = before[place];
    }
    Walk::Full
}

/// Adds an entry to a list that has room for it.
fn add(list: &mut Vec<u32>, entry: u32)
    requires { vec_len list.old < vec_capacity list.old }
    ensures items { list.new.items ≡ list.old.items ++ entry ∷ [] }
    ensures len { vec_len list.new ≡ vec_len list.old + 1 }
    ensures capacity { vec_capacity list.old ≤ vec_capacity list.new }
{
    match list.push(entry) {
        Ok(()) => {}
        Err(_) => unreachable!(),
    }
}

/// Adds the place of a pair to a map that has room for it.
fn add_beyond(beyond: &mut IndexMap<Pair, u32>, pair: Pair, place: u32)
    requires { 0 < spare beyond.old }
    ensures { (other : Operands) → get is_pair beyond.new other
        ≡ (if is_pair pair other then Some place else get is_pair beyond.old other) }
{
    match beyond.insert(pair, place) {
        Ok(_) => {}
        Err(_) => unreachable!(),
    }
}

impl Chains {
    /// Empty chains of so many variables.
    pub(crate) fn new(alloc: Global, variables: usize) -> Result<Chains, GateFault>
        ensures last { IfOk result (λ chains. chains.last.items ≡ replicate variables 0) }
        ensures before { IfOk result (λ chains. chains.before.items ≡ []) }
        ensures beyond { IfOk result (λ chains. (pair : Operands)
            → get is_pair chains.beyond pair ≡ None) }
        ensures memory { IfErr result (λ e. e ≡ GateFault.NoMemory) }
    {
        match vec![in alloc; 0u32; variables] {
            Ok(last) => Ok(Chains {
                last,
                before: Vec::new(alloc),
                beyond: IndexMap::new(alloc),
            }),
            Err(_) => Err(GateFault::NoMemory),
        }
    }

    /// Walks along the chain of a variable.
    fn walk(&self, circuit: &Circuit, pair: Pair, variable: u32) -> Walk
        requires found { AreFound longest (net circuit.now) self.now.last.items
            self.now.before.items (get is_pair self.now.beyond) }
        requires inside { variable < length self.now.last.items }
        ensures { result ≡ walked circuit.now.gates self.now.before.items pair longest
            (get_or self.now.last.items variable 0) }
    {
        let first = self.last[variable as usize];
        walk_along(circuit.gates(), &self.before, pair, first, LONGEST)
    }

    /// What the map says of the gate of a pair.
    fn look_up(&self, pair: Pair) -> Look
        ensures { result ≡ looked_up (get is_pair self.now.beyond pair) }
    {
        match self.beyond.get(&pair) {
            Some(place) => Look::Found(*place as usize),
            None => Look::Absent(None),
        }
    }

    /// Where the gate of a pair stands, or what takes it. It takes no memory.
    pub(crate) fn find(&self, circuit: &Circuit, pair: Pair) -> Look
        requires found { AreFound longest (net circuit.now) self.now.last.items
            self.now.before.items (get is_pair self.now.beyond) }
        requires greater { IsDefined (net circuit.now) pair.rhs0 }
        requires smaller { IsDefined (net circuit.now) pair.rhs1 }
        ensures { result ≡ finds longest circuit.now.gates self.now.last.items self.now.before.items
            (get is_pair self.now.beyond) pair }
    {
        let first = pair.greater / 2;
        let second = pair.smaller / 2;
        match self.walk(circuit, pair, first) {
            Walk::Met(place) => Look::Found(place),
            Walk::End => Look::Absent(Some(first)),
            Walk::Full => match self.walk(circuit, pair, second) {
                Walk::Met(place) => Look::Found(place),
                Walk::End => Look::Absent(Some(second)),
                Walk::Full => self.look_up(pair),
            },
        }
    }

    /// Makes room for a gate more, which a chain takes, or without one the map.
    pub(crate) fn make_room(&mut self, chain: Option<u32>) -> Result<(), GateFault>
        ensures last { self.new.last.items ≡ self.old.last.items }
        ensures before { self.new.before.items ≡ self.old.before.items }
        ensures beyond { (pair : Operands) → get is_pair self.new.beyond pair
            ≡ get is_pair self.old.beyond pair }
        ensures room_last { OnOk result (vec_len self.new.last < vec_capacity self.new.last) }
        ensures room_before { OnOk result (vec_len self.new.before < vec_capacity self.new.before) }
        ensures room_beyond { OnOk result (chain ≡ None → 0 < spare self.new.beyond) }
        ensures memory { IfErr result (λ e. e ≡ GateFault.NoMemory) }
    {
        if self.last.reserve(1).is_err() || self.before.reserve(1).is_err() {
            return Err(GateFault::NoMemory);
        }
        if chain.is_none() && self.beyond.reserve(1).is_err() {
            return Err(GateFault::NoMemory);
        }
        Ok(())
    }

    /// Notes the gate of a pair that was made last, for which there is room, on the chain that takes it, or without one
    /// in the map.
    pub(crate) fn note(&mut self, pair: Pair, chain: Option<u32>)
        requires inside { IfSome chain (λ v. v < length self.old.last.items) }
        requires few { length self.old.before.items < greatest_count }
        requires room_last { vec_len self.old.last < vec_capacity self.old.last }
        requires room_before { vec_len self.old.before < vec_capacity self.old.before }
        requires room_beyond { chain ≡ None → 0 < spare self.old.beyond }
        ensures last { self.new.last.items ≡ chained self.old.last.items chain
            (length self.old.before.items + 1) ++ 0 ∷ [] }
        ensures before { self.new.before.items ≡ self.old.before.items
            ++ link self.old.last.items chain ∷ [] }
        ensures beyond { (other : Operands) → get is_pair self.new.beyond other
            ≡ (if is_beyond chain pair other then Some (length self.old.before.items) else get
            is_pair self.old.beyond other) }
    {
        let place = self.before.len() as u32;
        match chain {
            Some(variable) => {
                let at = variable as usize;
                add(&mut self.before, self.last[at]);
                self.last[at] = place + 1;
            }
            None => {
                add(&mut self.before, 0);
                add_beyond(&mut self.beyond, pair, place);
            }
        }
        add(&mut self.last, 0);
    }
}
