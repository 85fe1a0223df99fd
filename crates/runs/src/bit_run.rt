//! The run of a circuit, and its calls.
ghost use Rattle.std.specs.Prelude.{◌≡◌, ◌<◌, ℕ, true, false, length, IfOk, OnErr, IfErr, slice_index, slice_set};
ghost use Rattle.base.specs.Steps.{more_steps};
ghost use Rattle.base.specs.Literal.{Valuation, literal_value};
ghost use Rattle.aiger.specs.Net.{IsDefined};
ghost use Rattle.aiger.specs.Circuit.{net};
ghost use Rattle.aiger.specs.Trace.{next_latch_bits};
ghost use Rattle.runs.specs.CircuitRun.{IsFrameNow, circuit_start, no_inputs, settle_steps, circuit_held, written_bits};

use crate::arranging::Arrangement;
use crate::bit_passes::{
    clear_inputs, put_bits, put_digits, put_taken, settle_gates, take_first_bits, take_nexts,
};
use crate::fault::NewFault;
use aiger::{Circuit, Lit};
use base::{Fixed, Tally};
use std::alloc::{AllocError, Global};

/// A run of a circuit, which it borrows: the bits of the latches and of the inputs now, those of all variables once it
/// is settled, and the steps taken.
#[derive(Drop)]
pub struct BitRun<'a> {
    circuit: &'a Circuit,
    // the order in which gates are evaluated, and where the bits of variables stand
    arrangement: Arrangement,
    // the latches' next literals, by places
    nexts: Fixed<Lit>,
    // the bits of 0 and of the variables now, each the lowest of its byte; those of the inputs and latches are given
    bits: Fixed<u8>,
    // the bits of the latches in the next frame, while the run advances
    next_bits: Fixed<u8>,
    settled: bool,
    tally: Tally,
}

impl<'a> std::marker::Model for BitRun<'a> {
    ghost use Rattle.runs.specs.CircuitRun.{CircuitRun};

    ghost Value = { CircuitRun };

    ghost use Rattle.runs.specs.CircuitHolds.{circuit_run_of, IsCircuitRun};

    ghost view = { circuit_run_of };

    ghost invariant = { IsCircuitRun };
}

impl<'a> BitRun<'a> {
    /// The run of a circuit, which counts its steps by a tally that has none yet.
    fn of_circuit(
        alloc: Global,
        circuit: &'a Circuit,
        tally: Tally,
    ) -> Result<BitRun<'a>, AllocError>
        requires { tally ≡ 0 }
        ensures { IfOk result (λ run. run ≡ circuit_start circuit.now) }
    {
        let arrangement = Arrangement::new(alloc, circuit)?;
        let nexts = arrangement.nexts(alloc, circuit.latches())?;
        let mut bits = vec![in alloc; 0; circuit.variables() as usize + 1]?;
        let mut next_bits = vec![in alloc; 0; circuit.latches().len()]?;
        take_first_bits(circuit.latches(), &mut next_bits);
        put_taken(&next_bits, 1 + circuit.inputs() as usize, &mut bits);
        Ok(BitRun {
            circuit,
            arrangement,
            nexts: Fixed::new(nexts),
            bits: Fixed::new(bits),
            next_bits: Fixed::new(next_bits),
            settled: false,
            tally,
        })
    }

    /// The run of a circuit. Each latch begins at the bit of its reset, or at 0 where that is `Free`, and each input
    /// at 0.
    ///
    /// Error: `NoMemory`.
    pub fn new(alloc: Global, circuit: &'a Circuit) -> Result<BitRun<'a>, NewFault>
        ensures ok { IfOk result (λ run. run ≡ circuit_start circuit.now) }
        ensures err { IfErr result (λ fault. fault ≡ NewFault.NoMemory) }
    {
        match BitRun::of_circuit(alloc, circuit, Tally::new(alloc)) {
            Ok(run) => Ok(run),
            Err(_) => Err(NewFault::NoMemory),
        }
    }

    /// Gives a latch a bit. `k` counts the latches.
    ///
    /// Condition: `k` is below the number of latches.
    pub fn set_state(&mut self, k: usize, bit: bool)
        requires { k < length self.old.circuit.latches }
        ensures { self.new
            ≡ record self.old { latches = slice_set self.old.latches k bit; settled = false } }
    {
        self.bits[1 + self.circuit.inputs() as usize + k] = u8::from(bit);
        self.settled = false;
    }

    /// Gives an input a bit. `k` counts the inputs.
    ///
    /// Condition: `k` is below the number of inputs.
    pub fn set_input(&mut self, k: usize, bit: bool)
        requires { k < self.old.circuit.inputs }
        ensures { self.new
            ≡ record self.old { inputs = slice_set self.old.inputs k bit; settled = false } }
    {
        self.bits[1 + k] = u8::from(bit);
        self.settled = false;
    }

    /// Gives each latch its bit.
    ///
    /// Condition: there are as many bits as latches.
    pub fn set_states(&mut self, bits: &[bool])
        requires { length bits.now ≡ length self.old.circuit.latches }
        ensures { self.new ≡ record self.old { latches = bits.now; settled = false } }
    {
        let first = 1 + self.circuit.inputs() as usize;
        put_bits(bits, first, &mut self.bits);
        self.settled = false;
    }

    /// Gives each input its bit.
    ///
    /// Condition: there are as many bits as inputs.
    pub fn set_inputs(&mut self, bits: &[bool])
        requires { length bits.now ≡ self.old.circuit.inputs }
        ensures { self.new ≡ record self.old { inputs = bits.now; settled = false } }
    {
        put_bits(bits, 1, &mut self.bits);
        self.settled = false;
    }

    /// Gives each latch the bit that a digit writes: 1 for the byte of `1`, and 0 for any other.
    ///
    /// Condition: there are as many digits as latches.
    pub fn set_state_digits(&mut self, digits: &[u8])
        requires { length digits.now ≡ length self.old.circuit.latches }
        ensures { self.new
            ≡ record self.old { latches = written_bits digits.now; settled = false } }
    {
        let first = 1 + self.circuit.inputs() as usize;
        put_digits(digits, first, &mut self.bits);
        self.settled = false;
    }

    /// Gives each input the bit that a digit writes: 1 for the byte of `1`, and 0 for any other.
    ///
    /// Condition: there are as many digits as inputs.
    pub fn set_input_digits(&mut self, digits: &[u8])
        requires { length digits.now ≡ self.old.circuit.inputs }
        ensures { self.new
            ≡ record self.old { inputs = written_bits digits.now; settled = false } }
    {
        put_digits(digits, 1, &mut self.bits);
        self.settled = false;
    }

    /// Gives each gate its bit in the frame of the bits that the latches and inputs have. One step for each input and
    /// each gate.
    pub fn settle(&mut self)
        ensures { self.new
            ≡ record self.old { settled = true; steps = more_steps (settle_steps self.old.circuit) self.old.steps } }
    {
        let inputs = self.circuit.inputs() as usize;
        let first = 1 + inputs + self.circuit.latches().len();
        base::take_all(inputs, &mut self.tally);
        settle_gates(
            self.arrangement.gates(self.circuit),
            first,
            &mut self.bits,
            &mut self.tally,
        );
        self.settled = true;
    }

    /// Whether the run was settled since a bit was last set, and since it last advanced.
    pub fn is_settled(&self) -> bool
        ensures { result ≡ self.now.settled }
    {
        self.settled
    }

    /// The bit of a literal.
    ///
    /// Conditions: the literal's variable is 0 or one of the circuit, and the run is settled.
    pub fn value(&self, lit: Lit) -> bool
        requires there { IsDefined (net self.now.circuit) lit }
        requires settled { self.now.settled ≡ true }
        ensures { (v : Valuation) → IsFrameNow self.now v → result ≡ literal_value v lit }
    {
        base::literal_bit(&self.bits, self.arrangement.placed(lit).number()) % 2 == 1
    }

    /// Whether a constraint holds. `i` counts the constraints.
    ///
    /// Conditions: `i` is below the number of constraints, and the run is settled.
    pub fn constraint(&self, i: usize) -> bool
        requires there { i < length self.now.circuit.constraints }
        requires settled { self.now.settled ≡ true }
        ensures { (v : Valuation) → IsFrameNow self.now v → result
            ≡ literal_value v (slice_index self.now.circuit.constraints i) }
    {
        self.value(self.circuit.constraints()[i])
    }

    /// Whether a bad property rises. `i` counts the bad properties.
    ///
    /// Conditions: `i` is below the number of bad properties, and the run is settled.
    pub fn bad(&self, i: usize) -> bool
        requires there { i < length self.now.circuit.bads }
        requires settled { self.now.settled ≡ true }
        ensures { (v : Valuation) → IsFrameNow self.now v → result
            ≡ literal_value v (slice_index self.now.circuit.bads i) }
    {
        self.value(self.circuit.bads()[i])
    }

    /// The bit of an output. `i` counts the outputs.
    ///
    /// Conditions: `i` is below the number of outputs, and the run is settled.
    pub fn output(&self, i: usize) -> bool
        requires there { i < length self.now.circuit.outputs }
        requires settled { self.now.settled ≡ true }
        ensures { (v : Valuation) → IsFrameNow self.now v → result
            ≡ literal_value v (slice_index self.now.circuit.outputs i) }
    {
        self.value(self.circuit.outputs()[i])
    }

    /// Moves to the next frame: each latch gets the bit of its next literal, and each input 0. One step for each latch.
    ///
    /// Condition: the run is settled.
    pub fn advance(&mut self)
        requires { self.old.settled ≡ true }
        ensures latches { (v : Valuation) → IsFrameNow self.old v
            → self.new.latches ≡ next_latch_bits self.old.circuit v }
        ensures others { self.new
            ≡ record self.old { latches = self.new.latches; inputs = no_inputs self.old.circuit; settled = false; steps = more_steps (length self.old.circuit.latches) self.old.steps } }
    {
        let inputs = self.circuit.inputs() as usize;
        take_nexts(
            &self.nexts,
            &self.bits,
            &mut self.next_bits,
            &mut self.tally,
        );
        put_taken(&self.next_bits, 1 + inputs, &mut self.bits);
        clear_inputs(inputs, &mut self.bits);
        self.settled = false;
    }

    /// How many bits the run holds: one for 0 and each variable, and one for each latch.
    pub fn held(&self) -> u64
        ensures { result ≡ circuit_held self.now.circuit }
    {
        (self.bits.len() + self.next_bits.len()) as u64
    }

    /// The steps taken so far; the count stays at its greatest value, 2^128 - 1, once it is there.
    pub fn steps(&self) -> u128
        ensures { result ≡ self.now.steps }
    {
        self.tally.steps()
    }
}
