//! The order of readiness: each time the first gate of those that wait for no other.
//!
//! What gates wait for is kept in two lists. Each gate has two slots; a slot is 0 where its operand waits for no gate,
//! or the position of the gate that it waits for and 1. A gate waits for one operand at a time, the first of the two that
//! has no place in the order yet. Those that wait for a gate are its chain: its head is the position of one of them and 2,
//! the link of that one is the position of the next one and 2, and 1 is the end; the head is 0 where the gate has its
//! place. A gate's link stands in the place of its first slot, which is read no more once the gate waits.
ghost use Rattle.std.specs.Prelude.{◌≡◌, ℕ, None, true, false, ◌+◌, ◌*◌, ◌<◌, ◌≤◌, ◌++◌, [], ◌∷◌, length, nat_eq, IfOk, OnOk};
ghost use Rattle.std.proofs.Props.{props};
ghost use Rattle.std.specs.BinaryHeap.{IsHeap, heap_items};
ghost use Rattle.aigerlists.specs.Readiness.{Passed, slot_at, turns, one_if, times_ready, IsFirstReady, is_open, AreSlots, IsPut, IsUnderway, IsTaken, IsWholeOrder};

use std::alloc::{AllocError, Global};
use std::cmp::Reverse;
use std::collections::BinaryHeap;

/// The gates in the order of readiness, until none is ready, and a number for each, which is 0 for those that
/// have their place in the order and for no other. The error is want of memory.
pub fn order_of_readiness(
    alloc: Global,
    slots: Vec<u32>,
    gates: usize,
) -> Result<(Vec<u32>, Vec<u32>), AllocError>
    requires { AreSlots slots.items gates }
    ensures { IfOk result (λ r. IsWholeOrder slots.items gates r.0.items r.1.items) }
{
    let mut heads = vec![in alloc; 1u32; gates]?;
    let mut links = slots;
    let mut order = Vec::with_capacity(alloc, gates)?;
    take_in_turn(alloc, &mut links, &mut heads, &mut order)?;
    Ok((order, heads))
}

/// Puts the gates into their order: each in file order once it is ready, and behind it those before it that have become
/// ready, each time the first one.
fn take_in_turn(
    alloc: Global,
    links: &mut Vec<u32>,
    heads: &mut Vec<u32>,
    order: &mut Vec<u32>,
) -> Result<(), AllocError>
    ghost passed: { Passed }
    requires { IsUnderway passed.slots passed.gates 0 order.old.items [] heads.old.items
        links.old.items (λ i. 0) }
    ensures { OnOk result (IsWholeOrder passed.slots passed.gates order.new.items heads.new.items) }
{
    let mut ready = ReadyGates {
        first: None,
        others: BinaryHeap::new(alloc),
    };
    for gate in 0..heads.len() {
        pass(gate, links, heads, &mut ready, order)?;
    }
    Ok(())
}

/// The next gate in file order waits for the first of its operands that has no place in the order, or else takes its own,
/// and those before it that have become ready take theirs.
fn pass(
    gate: usize,
    links: &mut Vec<u32>,
    heads: &mut Vec<u32>,
    ready: &mut ReadyGates,
    order: &mut Vec<u32>,
) -> Result<(), AllocError>
    ghost passed: { Passed }
    requires bound { passed.bound ≡ gate + 1 }
    requires low { gate < passed.gates }
    requires underway { IsUnderway passed.slots passed.gates gate order.old.items [] heads.old.items
        links.old.items (times_ready ready.old.first (heap_items ready.old.others)) }
    requires none { (i : ℕ) → times_ready ready.old.first (heap_items ready.old.others) i ≡ 0 }
    ensures underway { OnOk result
        (IsUnderway passed.slots passed.gates passed.bound order.new.items [] heads.new.items
        links.new.items (times_ready ready.new.first (heap_items ready.new.others))) }
    ensures none { OnOk result ((i : ℕ)
        → times_ready ready.new.first (heap_items ready.new.others) i ≡ 0) }
{
    if wait(gate, 2 * gate, links, heads) {
        return Ok(());
    }
    if wait(gate, 2 * gate + 1, links, heads) {
        return Ok(());
    }
    take(gate as u32, links, heads, ready, order)?;
    take_ready(links, heads, ready, order)
}

/// Puts the gates that are ready into their order, each time the first one, until none is ready.
fn take_ready(
    links: &mut Vec<u32>,
    heads: &mut Vec<u32>,
    ready: &mut ReadyGates,
    order: &mut Vec<u32>,
) -> Result<(), AllocError>
    ghost passed: { Passed }
    requires { IsUnderway passed.slots passed.gates passed.bound order.old.items [] heads.old.items
        links.old.items (times_ready ready.old.first (heap_items ready.old.others)) }
    ensures underway { OnOk result
        (IsUnderway passed.slots passed.gates passed.bound order.new.items [] heads.new.items
        links.new.items (times_ready ready.new.first (heap_items ready.new.others))) }
    ensures none { OnOk result ((i : ℕ)
        → times_ready ready.new.first (heap_items ready.new.others) i ≡ 0) }
{
    while let Some(gate) = ready.take_first()? {
        take(gate, links, heads, ready, order)?;
    }
    Ok(())
}

/// A ready gate takes its place in the order, and those that wait for it wait for it no longer.
fn take(
    gate: u32,
    links: &mut Vec<u32>,
    heads: &mut Vec<u32>,
    ready: &mut ReadyGates,
    order: &mut Vec<u32>,
) -> Result<(), AllocError>
    ghost passed: { Passed }
    requires { IsTaken passed.slots passed.gates passed.bound order.old.items gate heads.old.items
        links.old.items (times_ready ready.old.first (heap_items ready.old.others)) }
    ensures order { OnOk result (order.new.items ≡ order.old.items ++ gate ∷ []) }
    ensures underway { OnOk result
        (IsUnderway passed.slots passed.gates passed.bound order.new.items [] heads.new.items
        links.new.items (times_ready ready.new.first (heap_items ready.new.others))) }
{
    order.push(gate)?;
    let mut at = heads[gate as usize];
    heads[gate as usize] = 0;
    while at > 1 {
        let user = at as usize - 2;
        at = links[2 * user];
        look_again(user, links, heads, ready)?;
    }
    Ok(())
}

/// A gate whose first operand has its place in the order waits for the second one, or is ready.
fn look_again(
    user: usize,
    links: &mut Vec<u32>,
    heads: &mut Vec<u32>,
    ready: &mut ReadyGates,
) -> Result<(), AllocError>
    requires place { 2 * user + 1 < length links.old.items }
    requires few { length links.old.items ≤ 2147483648 }
    requires within { slot_at links.old.items (2 * user + 1) ≤ length heads.old.items }
    ensures waits { OnOk result (is_open heads.old.items links.old.items (2 * user + 1) ≡ true
        → IsPut user (2 * user + 1) heads.old.items links.old.items heads.new.items links.new.items
        × ((i : ℕ) → times_ready ready.new.first (heap_items ready.new.others) i
        ≡ times_ready ready.old.first (heap_items ready.old.others) i)) }
    ensures ready { OnOk result (is_open heads.old.items links.old.items (2 * user + 1) ≡ false
        → (heads.new.items ≡ heads.old.items) × (links.new.items ≡ links.old.items)
        × ((i : ℕ) → times_ready ready.new.first (heap_items ready.new.others) i
        ≡ times_ready ready.old.first (heap_items ready.old.others) i + one_if (nat_eq user i))) }
{
    if wait(user, 2 * user + 1, links, heads) {
        return Ok(());
    }
    ready.put(user as u32)
}

/// A gate waits for what one of its slots names, where that has no place in the order: it stands in front of its chain.
fn wait(gate: usize, slot: usize, links: &mut Vec<u32>, heads: &mut Vec<u32>) -> bool
    requires place { 2 * gate < length links.old.items }
    requires slot { slot < length links.old.items }
    requires few { length links.old.items ≤ 2147483648 }
    requires within { slot_at links.old.items slot ≤ length heads.old.items }
    ensures waits { result ≡ is_open heads.old.items links.old.items slot }
    ensures put { result ≡ true
        → IsPut gate slot heads.old.items links.old.items heads.new.items links.new.items }
    ensures kept { result ≡ false → (heads.new.items ≡ heads.old.items)
        × (links.new.items ≡ links.old.items) }
{
    let named = links[slot];
    if named == 0 {
        return false;
    }
    let head = heads[named as usize - 1];
    if head == 0 {
        return false;
    }
    heads[named as usize - 1] = gate as u32 + 2;
    links[2 * gate] = head;
    true
}

/// Gates that are ready. The first of those that came since one was taken stands apart: where it comes before all others,
/// as it does mostly where a file's gates stand in reverse order, it goes through no heap.
#[derive(Drop)]
struct ReadyGates {
    first: Option<u32>,
    others: BinaryHeap<Reverse<u32>>,
    ghost ordered: { IsHeap turns (heap_items others) } by { Prim.hlevel props },
}

impl ReadyGates {
    /// One more is ready. The error is want of memory.
    fn put(&mut self, gate: u32) -> Result<(), AllocError>
        ensures { OnOk result ((i : ℕ) → times_ready self.new.first (heap_items self.new.others) i
            ≡ times_ready self.old.first (heap_items self.old.others) i + one_if (nat_eq gate i)) }
    {
        let Some(first) = self.first else {
            self.first = Some(gate);
            return Ok(());
        };
        self.first = Some(gate.min(first));
        self.others.push(Reverse(gate.max(first)))?;
        Ok(())
    }

    /// Takes the first one, if there is one. The error is want of memory.
    fn take_first(&mut self) -> Result<Option<u32>, AllocError>
        ensures { IfOk result
            (λ g. IsFirstReady g (times_ready self.old.first (heap_items self.old.others))
            (times_ready self.new.first (heap_items self.new.others))) }
    {
        let Some(gate) = self.first else {
            return Ok(pop_first(&mut self.others));
        };
        self.first = None;
        if is_before(gate, &self.others) {
            return Ok(Some(gate));
        }
        self.others.push(Reverse(gate))?;
        Ok(pop_first(&mut self.others))
    }
}

/// Takes the first gate of a heap, if there is one.
fn pop_first(others: &mut BinaryHeap<Reverse<u32>>) -> Option<u32>
    requires { IsHeap turns (heap_items others.old) }
    ensures first { IsFirstReady result (times_ready None (heap_items others.old))
        (times_ready None (heap_items others.new)) }
    ensures heap { IsHeap turns (heap_items others.new) }
{
    match others.pop() {
        Some(Reverse(gate)) => Some(gate),
        None => None,
    }
}

/// Whether a gate comes before all those of a heap.
fn is_before(gate: u32, others: &BinaryHeap<Reverse<u32>>) -> bool
    requires { IsHeap turns (heap_items others.now) }
    ensures { result ≡ true → (i : ℕ) → i < gate → times_ready None (heap_items others.now) i ≡ 0 }
{
    match others.peek() {
        Some(Reverse(other)) => gate < *other,
        None => true,
    }
}
