//! What literals of a circuit the literals of the file are that it was made from.
ghost use Rattle.std.specs.Prelude.{◌≡◌, ◌≤◌, None, length};
ghost use Rattle.aiger.specs.Limits.{greatest_count};
ghost use Rattle.aigerlists.specs.Renumbering.{IsNumberingBy, numbered_literal};

use crate::numbers::Numbers;
use aiger::Circuit;
use std::marker::Model;

/// The numbers that the variables of a file have in a circuit. Where each has its own it takes no memory.
#[derive(Drop)]
pub struct Numbering {
    // the variables in the order of their numbers, where not each has its own
    numbers: Option<Numbers>,
}

impl Model for Numbering {
    ghost use Rattle.std.specs.Prelude.{◌≤◌, ℕ, List, Option, IfSome, length};
    ghost use Rattle.aiger.specs.Limits.{greatest_count};

    ghost Value = { Option (List ℕ) };

    ghost view = { λ n. n.numbers };

    ghost invariant = { λ n. IfSome n.numbers (λ names. length names ≤ greatest_count) };
}

impl Numbering {
    /// Each variable has its own number. It takes no memory.
    pub fn own() -> Numbering
        ensures { result ≡ None }
    {
        Numbering { numbers: None }
    }

    /// These numbers.
    pub(crate) fn of(numbers: Numbers) -> Numbering
        requires { length numbers ≤ greatest_count }
        ensures { IsNumberingBy numbers result }
    {
        if numbers.are_own() {
            return Numbering::own();
        }
        Numbering {
            numbers: Some(numbers),
        }
    }

    /// The literal of the circuit that the file's literal with this number is; none where the file defines no such
    /// variable. Where each variable has its own number it is the number itself, also beyond those that are defined.
    /// It takes no memory.
    pub fn literal(&self, number: u64) -> Option<u64>
        ensures { result ≡ numbered_literal self.now number }
    {
        match &self.numbers {
            None => Some(number),
            Some(numbers) => numbers.known_literal(number),
        }
    }
}

/// A circuit, and the numbers that the variables of its file have there.
#[derive(Drop)]
pub struct Numbered {
    /// The circuit.
    pub circuit: Circuit,
    /// The numbers.
    pub numbering: Numbering,
}

impl Numbered {
    /// A circuit whose file numbers its variables as the circuit does. It takes no memory.
    pub fn own(circuit: Circuit) -> Numbered
        ensures { result ≡ record { circuit = circuit; numbering = None } }
    {
        Numbered {
            circuit,
            numbering: Numbering::own(),
        }
    }
}
