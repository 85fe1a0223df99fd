//! The run of a model, and its calls.
ghost use Rattle.std.specs.Prelude.{◌≡◌, ℕ, ◌+◌, ◌^◌, ◌<◌, true, false, None, length, map, is_some, IfOk, IfSome, slice_get, slice_index, slice_set};
ghost use Rattle.base.specs.Steps.{more_steps};
ghost use Rattle.btor2.specs.Items.{is_input, is_state, is_bad, is_constraint};
ghost use Rattle.btor2.specs.Check.{IsWellFormed};
ghost use Rattle.btor2.specs.Lists.{places, first_init_without_next, width_at};
ghost use Rattle.btor2.specs.Trace.{Frame, next_state};
ghost use Rattle.runs.specs.Frames.{ids_of};
ghost use Rattle.runs.specs.Run.{IsNow, node_count, state_count, zeros, start, is_one};
ghost use Rattle.runs.specs.Refusal.{AnswersNew};

use crate::fault::NewFault;
use crate::nodes::Node;
use crate::passes::{clear_words, put_words, settle_nodes, take_words};
use crate::resolving::{first_words, node_slots, resolved_nodes, run_slots, standing_words};
use base::{Fixed, Tally};
use btor2::Model;
use std::alloc::{AllocError, Global};

/// A run of a model, which it borrows: the words of the states and of the inputs now, those of all nodes once it is
/// settled, and the steps taken.
#[derive(Drop)]
pub struct WordRun<'a> {
    model: &'a Model,
    // the nodes that are operators, in file order
    nodes: Fixed<Node>,
    // for each item how many nodes with a value stand before it
    slots: Fixed<usize>,
    // the slots of the states, of the inputs, of the states' next nodes where they have one, and of the nodes that
    // the properties name
    states: Fixed<usize>,
    inputs: Fixed<usize>,
    nexts: Fixed<Option<usize>>,
    bads: Fixed<usize>,
    constraints: Fixed<usize>,
    // the words of the nodes with a value now; those of the leaves are given, and those of the constants stay
    values: Fixed<u64>,
    // the words of the states in the next frame, while the run advances
    next_values: Fixed<u64>,
    settled: bool,
    tally: Tally,
}

impl<'a> std::marker::Model for WordRun<'a> {
    ghost use Rattle.runs.specs.Run.{Run};

    ghost Value = { Run };

    ghost use Rattle.runs.specs.Holds.{run_of, IsRun};

    ghost view = { run_of };

    ghost invariant = { IsRun };
}

impl<'a> WordRun<'a> {
    /// The run of a model, which counts its steps by a tally that has none yet.
    fn resolved(alloc: Global, model: &'a Model, tally: Tally) -> Result<WordRun<'a>, AllocError>
        requires well_formed { IsWellFormed model.now }
        requires none { tally ≡ 0 }
        ensures { IfOk result (λ run. run ≡ start model.now) }
    {
        let slots = node_slots(alloc, model)?;
        let nodes = resolved_nodes(alloc, model, &slots)?;
        let next_values = first_words(alloc, model)?;
        let mut values = standing_words(alloc, model)?;
        let named = run_slots(alloc, model, &slots)?;
        put_words(&next_values, &named.states, &mut values);
        Ok(WordRun {
            model,
            nodes: Fixed::new(nodes),
            slots: Fixed::new(slots),
            states: Fixed::new(named.states),
            inputs: Fixed::new(named.inputs),
            nexts: Fixed::new(named.nexts),
            bads: Fixed::new(named.bads),
            constraints: Fixed::new(named.constraints),
            values: Fixed::new(values),
            next_values: Fixed::new(next_values),
            settled: false,
            tally,
        })
    }

    /// The run of a model. Each state begins at the word of its init line, or at 0, and each input at 0.
    /// A free state, which has neither an init nor a next, keeps no word from frame to frame: it has the word that is
    /// set in the frame, or 0.
    ///
    /// Errors: `NoNext` with the id of the first state in file order that has an init and no next; else `NoMemory`.
    pub fn new(alloc: Global, model: &'a Model) -> Result<WordRun<'a>, NewFault>
        ensures ok { IfOk result (λ run. run ≡ start model.now) }
        ensures answer { AnswersNew result (first_init_without_next model.now model.now) }
    {
        // a model's items are well-formed
        let _ = model.items();
        match model.first_init_without_next() {
            Some(id) => Err(NewFault::NoNext(id)),
            None => match WordRun::resolved(alloc, model, Tally::new(alloc)) {
                Ok(run) => Ok(run),
                Err(_) => Err(NewFault::NoMemory),
            },
        }
    }

    /// Gives a state a word; where it is free, its word in this frame. `k` counts the states in file order.
    ///
    /// Conditions: `k` is below the number of states, and `word` is below 2 to the state's width.
    pub fn set_state(&mut self, k: usize, word: u64)
        requires there { k < length (places is_state 0 self.old.items) }
        requires fits { IfSome
            (width_at self.old.items (slice_index (places is_state 0 self.old.items) k))
            (λ n. word < 2 ^ n) }
        ensures { self.new
            ≡ record self.old { states = slice_set self.old.states k word; settled = false } }
    {
        self.values[self.states[k]] = word;
        self.settled = false;
    }

    /// Gives an input a word. `k` counts the inputs in file order.
    ///
    /// Conditions: `k` is below the number of inputs, and `word` is below 2 to the input's width.
    pub fn set_input(&mut self, k: usize, word: u64)
        requires there { k < length (places is_input 0 self.old.items) }
        requires fits { IfSome
            (width_at self.old.items (slice_index (places is_input 0 self.old.items) k))
            (λ n. word < 2 ^ n) }
        ensures { self.new
            ≡ record self.old { inputs = slice_set self.old.inputs k word; settled = false } }
    {
        self.values[self.inputs[k]] = word;
        self.settled = false;
    }

    /// Gives each node its word in the frame of the words that the states and inputs have. One step for each node
    /// with a value.
    pub fn settle(&mut self)
        ensures { self.new
            ≡ record self.old { settled = true; steps = more_steps (node_count self.old.items) self.old.steps } }
    {
        settle_nodes(&self.nodes, &mut self.values, &mut self.tally);
        self.settled = true;
    }

    /// Whether the run was settled since a word was last set, and since it last advanced.
    pub fn is_settled(&self) -> bool
        ensures { result ≡ self.now.settled }
    {
        self.settled
    }

    /// The word of a node, by its position in the model's items.
    ///
    /// Conditions: the item at that position has a value, and the run is settled.
    pub fn value(&self, node: usize) -> u64
        requires there { is_some (width_at self.now.items node) ≡ true }
        requires settled { self.now.settled ≡ true }
        ensures { (f : Frame) → IsNow self.now f
            → IfSome (slice_get self.now.items node) (λ x. result ≡ f x.id) }
    {
        self.values[self.slots[node]]
    }

    /// Whether a constraint holds. `i` counts the constraints in file order.
    ///
    /// Conditions: `i` is below the number of constraints, and the run is settled.
    pub fn constraint(&self, i: usize) -> bool
        requires there { i < length (places is_constraint 0 self.now.items) }
        requires settled { self.now.settled ≡ true }
        ensures { (f : Frame) → IsNow self.now f
            → IfSome (slice_get self.now.items
            (slice_index (places is_constraint 0 self.now.items) i)) (λ x. result
            ≡ is_one f x.body) }
    {
        self.values[self.constraints[i]] == 1
    }

    /// Whether a bad property rises. `i` counts the bad properties in file order.
    ///
    /// Conditions: `i` is below the number of bad properties, and the run is settled.
    pub fn bad(&self, i: usize) -> bool
        requires there { i < length (places is_bad 0 self.now.items) }
        requires settled { self.now.settled ≡ true }
        ensures { (f : Frame) → IsNow self.now f
            → IfSome (slice_get self.now.items (slice_index (places is_bad 0 self.now.items) i))
            (λ x. result ≡ is_one f x.body) }
    {
        self.values[self.bads[i]] == 1
    }

    /// Moves to the next frame: each state gets the word of its next node, and each input and each free state 0. One
    /// step for each state.
    ///
    /// Condition: the run is settled.
    pub fn advance(&mut self)
        requires { self.old.settled ≡ true }
        ensures states { (f : Frame) → IsNow self.old f → self.new.states
            ≡ map (next_state self.old.items f) (ids_of is_state self.old.items) }
        ensures others { self.new
            ≡ record self.old { states = self.new.states; inputs = zeros self.old.items; settled = false; steps = more_steps (state_count self.old.items) self.old.steps } }
    {
        take_words(
            &self.values,
            &self.nexts,
            &mut self.next_values,
            &mut self.tally,
        );
        put_words(&self.next_values, &self.states, &mut self.values);
        clear_words(&self.inputs, &mut self.values);
        self.settled = false;
    }

    /// How many words the run holds: one for each node with a value, and one for each state.
    pub fn held(&self) -> u64
        ensures { result ≡ node_count self.now.items + state_count self.now.items }
    {
        (self.values.as_slice().len() + self.next_values.as_slice().len()) as u64
    }

    /// The steps taken so far; the count stays at its greatest value, 2^128 - 1, once it is there.
    pub fn steps(&self) -> u128
        ensures { result ≡ self.now.steps }
    {
        self.tally.steps()
    }
}
