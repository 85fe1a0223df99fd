//! What the exported calls answer.
ghost use Rattle.std.specs.Prelude.{◌≡◌, ◌≤◌};
ghost use Rattle.capi.specs.Answers.{fault_verdict_of, found_verdict_of, outcome_verdict_of, proof_verdict_of, verdict_of};
ghost use Rattle.capi.specs.Stops.{CallTells, fault_place, first_status, second_status, told_fault};

use blast::LowerFault;
use restore::RestoreFault;
use rises::FirstRises;
use verbs::{Fault, Outcome, Refusal as Against};
use witness::{JudgeFault, Judgement};

/// What is said of a witness: `kind` is 0 accepted, 1 not reached, 2 violated, 3 an initial value differs, 4 malformed, 5 no
/// claim, 8 the bad property that is asked for is not claimed. Of a proof: 0 the property holds, 4 malformed, 6 a step is not
/// implied, 7 it ends before anything is shown.
#[repr(C)]
#[derive(Clone, Copy)]
pub struct Verdict {
    /// What it is.
    pub kind: u32,
    /// The number of what is wrong with a line, where it is malformed, else 0.
    pub why: u32,
    /// How many frames it has, the claim that is not reached, the frame that violates a constraint, the state whose initial
    /// value differs, the malformed line, from 1, or the bad property that is not claimed. Of a proof the line with which all is
    /// shown, 0 where nothing was to be shown, or of the step that is not implied.
    pub first: u64,
    /// The constraint that is violated, else 0.
    pub second: u64,
}

impl Verdict {
    /// What a judgement is told as.
    pub(crate) fn of(judgement: &Judgement) -> Verdict
        ensures { result ≡ verdict_of judgement.now }
    {
        let (kind, why, first, second) = match *judgement {
            Judgement::Accepted { frames } => (0, 0, frames, 0),
            Judgement::NotReached { claim } => (1, 0, claim, 0),
            Judgement::Violated { frame, constraint } => (2, 0, frame, constraint),
            Judgement::InitDiffers { index } => (3, 0, index, 0),
            Judgement::Malformed { line, why } => (4, why.number(), line, 0),
            Judgement::NoClaim => (5, 0, 0, 0),
        };
        Verdict {
            kind,
            why,
            first,
            second,
        }
    }
}

impl Verdict {
    /// What is told of a witness.
    pub(crate) fn of_outcome(outcome: &Outcome) -> Verdict
        ensures { result ≡ outcome_verdict_of outcome.now }
    {
        match *outcome {
            Outcome::Judged(judgement) => Verdict::of(&judgement),
            Outcome::Unclaimed(bad) => Verdict {
                kind: 8,
                why: 0,
                first: bad as u64,
                second: 0,
            },
        }
    }
}

impl Verdict {
    /// What a judgement of a proof is told as.
    pub(crate) fn of_proof(judgement: &drup::Judgement) -> Verdict
        ensures { result ≡ proof_verdict_of judgement.now }
    {
        let (kind, why, first) = match *judgement {
            drup::Judgement::Derived { line } => (0, 0, line),
            drup::Judgement::Malformed { line, why } => (4, why.number(), line),
            drup::Judgement::NotImplied { line } => (6, 0, line),
            drup::Judgement::NotDerived => (7, 0, 0),
        };
        Verdict {
            kind,
            why,
            first,
            second: 0,
        }
    }
}

impl Verdict {
    /// What the first faulty line of a counterexample over an engine form is told as.
    fn of_fault(fault: &RestoreFault) -> Verdict
        ensures { result ≡ fault_verdict_of fault.now }
    {
        Verdict {
            kind: 4,
            why: fault.why.number(),
            first: fault.line,
            second: 0,
        }
    }
}

impl Verdict {
    /// What is told of a counterexample that is restored.
    pub(crate) fn of_restored(told: &Result<Judgement, RestoreFault>) -> Verdict
        ensures { result ≡ found_verdict_of (λ judged. judged) told.now }
    {
        match told {
            Ok(judgement) => Verdict::of(judgement),
            Err(fault) => Verdict::of_fault(fault),
        }
    }
}

impl Verdict {
    /// What is told of one that is lifted.
    pub(crate) fn of_lifted(told: &Result<(Judgement, FirstRises), RestoreFault>) -> Verdict
        ensures { result ≡ found_verdict_of (λ judged. judged.0) told.now }
    {
        match told {
            Ok((judgement, _)) => Verdict::of(judgement),
            Err(fault) => Verdict::of_fault(fault),
        }
    }
}

/// A claim of an accepted witness.
#[repr(C)]
#[derive(Clone, Copy)]
pub struct Claim {
    /// The position of the bad property, from 0.
    pub bad: u64,
    /// The first frame in which it is 1, from 0.
    pub frame: u64,
}

/// What speaks against a text or its model.
#[repr(C)]
#[derive(Clone, Copy)]
pub struct Refusal {
    /// The number of the refusal.
    pub number: u32,
    /// Where it is: the line of a model's text, from 1, the byte of a circuit's, from 0, the id of an item of the model, or 0
    /// where it is about the whole.
    pub place: u64,
}

/// The item that a lowering is refused for, by its id, or 0.
fn fault_place(fault: LowerFault) -> u64
    ensures { result ≡ fault_place fault }
{
    match fault {
        LowerFault::Justice(id) | LowerFault::Fair(id) | LowerFault::NoNext(id) => id,
        _ => 0,
    }
}

impl Refusal {
    /// What is told of a fault.
    fn of(fault: Fault) -> Refusal
        ensures { result ≡ told_fault fault }
    {
        let (number, place) = match fault {
            Fault::Model(fault) => (fault.why.printed_number(), fault.line),
            Fault::Circuit(fault) => (fault.why.number(), fault.place),
            Fault::Lowering(fault) => (fault.number(), fault_place(fault)),
            Fault::Fitting(fault) => (fault.number(), fault.item().unwrap_or(0)),
            Fault::Writing(fault) => (fault.number(), fault.item().unwrap_or(0)),
            Fault::Outputs(fault) => (fault.number(), 0),
            Fault::Engine(fault) => (fault.number(), 0),
            Fault::Invariant(fault) => (fault.why.number(), fault.line),
            Fault::Obligation(fault) => (fault.number(), 0),
            Fault::Test(fault) => (fault.number(), 0),
            Fault::NoNext(id) => (JudgeFault::NoNext(id).number(), id),
            // no call asks so
            Fault::Vector(_) | Fault::Unchosen(_) | Fault::SameName(..) => (0, 0),
        };
        Refusal { number, place }
    }
}

/// The status of a call that is done.
pub(crate) const DONE: u32 = 0;

/// The status where the first text is no model or no circuit.
const TEXT_REFUSED: u32 = 2;

/// The status where what it says is not taken.
const MODEL_REFUSED: u32 = 3;

/// The status where memory was wanting.
pub(crate) const NO_MEMORY: u32 = 4;

/// The status where the second text is refused.
const SECOND_REFUSED: u32 = 5;

/// The status where the first text has a fault.
fn first_status(fault: Fault) -> u32
    ensures { result ≡ first_status fault }
{
    match fault {
        Fault::Model(_) | Fault::Circuit(_) => TEXT_REFUSED,
        _ => MODEL_REFUSED,
    }
}

/// The status where the second text has a fault.
fn second_status(fault: Fault) -> u32
    ensures { result ≡ second_status fault }
{
    match fault {
        Fault::Obligation(_) => MODEL_REFUSED,
        _ => SECOND_REFUSED,
    }
}

/// Tells why a call stops, and answers its status.
pub(crate) fn tell(against: Against, refusal: &mut Refusal) -> u32
    ensures tells { CallTells against result refusal.old refusal.new }
    ensures statuses { (2 ≤ result) × (result ≤ 5) }
{
    match against {
        Against::Input(fault) => {
            *refusal = Refusal::of(fault);
            first_status(fault)
        }
        Against::Second(fault) => {
            *refusal = Refusal::of(fault);
            second_status(fault)
        }
        Against::Failed(_) | Against::NoMemory => NO_MEMORY,
    }
}
