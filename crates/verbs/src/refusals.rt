//! Why a verb is not done.

ghost use Rattle.std.specs.Prelude.{◌≡◌};
ghost use Rattle.verbs.specs.declared.refusals.Refusal.TheVariants as refusal;
ghost use Rattle.verbs.specs.Conversions.{of_reading, of_circuit_reading, of_lowering, of_outputs, of_engine_form, of_conversion, of_fitting, of_judging, of_dumping, of_lifting, of_unfitting, of_reading_all, of_lines, of_invariant_for, of_obligation, of_claim, of_certificate, of_witness};

use aiger::CircuitFault;
use base::ReadAllFault;
use blast::{ConvertFault, LowerFault};
use certificates::{CertificateFault, ClaimFault, InvariantFault, InvariantWhy, ObligationFault};
use engine_form::EngineFault;
use fitting::FitFault;
use lift::LiftFault;
use rejoin::UnfitFault;
use std::alloc::AllocError;
use vcd::WaveFault;
use vectors::LinesFault;
use witness::JudgeFault;
use witness_circuits::{TestFault, WitnessFault};
use writeout::WriteFault;

/// What is wrong with a file.
#[derive(Clone, Copy)]
pub enum Fault {
    /// The text is no model.
    Model(btor2text::ReadFault),
    /// The text is no circuit.
    Circuit(aigertext::ReadFault),
    /// The model is not lowered.
    Lowering(LowerFault),
    /// The model with words of any width is not fitted into one of the profile.
    Fitting(FitFault),
    /// The model of the whole language is not written out as one with words of any width.
    Writing(WriteFault),
    /// The circuit has more bad properties and outputs than a circuit may have bad properties.
    Outputs(CircuitFault),
    /// The circuit has no such engine form.
    Engine(EngineFault),
    /// The text is no invariant of the engine form.
    Invariant(InvariantFault),
    /// There is no obligation of the invariant.
    Obligation(ObligationFault),
    /// The witness circuit has no test, or the circuit has no such bad property.
    Test(TestFault),
    /// The state of this id has an init and no next, and nothing is judged over it.
    NoNext(u64),
    /// This line, from 1, writes no vector.
    Vector(u64),
    /// The circuit has several bad properties, and the words do not say which is claimed.
    Unchosen(Claimed),
    /// The words ask for a bad property by a name that these two have.
    SameName(u64, u64),
}

/// What claims a bad property.
#[derive(Clone, Copy, PartialEq, Eq)]
pub enum Claimed {
    /// A counterexample, in which it rises.
    Found,
    /// An invariant, by which it holds.
    Certified,
    /// A witness circuit, by which it holds.
    Guarded,
}

/// The files and streams of a command.
#[derive(Clone, Copy, PartialEq, Eq)]
pub enum Device {
    /// The first file.
    First,
    /// The second file.
    Second,
    /// The third file.
    Third,
    /// Standard output.
    Output,
    /// Standard error.
    Error,
}

/// Why a command is not done.
#[derive(Clone, Copy)]
pub enum Refusal {
    /// The first file has this fault. Nothing was written.
    Input(Fault),
    /// The second file has this fault. Nothing was written.
    Second(Fault),
    /// This file or stream failed.
    Failed(Device),
    /// A growth was refused.
    NoMemory,
}

impl From<Fault> for Refusal {
    ghost from_gives = { λ e r. r ≡ refusal.Input e };

    fn from(fault: Fault) -> Refusal {
        Refusal::Input(fault)
    }
}

impl From<btor2text::ReadFault> for Refusal {
    ghost from_gives = { λ e r. r ≡ of_reading e };

    fn from(fault: btor2text::ReadFault) -> Refusal {
        match fault.why {
            btor2text::Why::Device => Refusal::Failed(Device::First),
            btor2text::Why::NoMemory => Refusal::NoMemory,
            _ => Refusal::Input(Fault::Model(fault)),
        }
    }
}

impl From<aigertext::ReadFault> for Refusal {
    ghost from_gives = { λ e r. r ≡ of_circuit_reading e };

    fn from(fault: aigertext::ReadFault) -> Refusal {
        match fault.why {
            aigertext::Why::Device => Refusal::Failed(Device::First),
            aigertext::Why::NoMemory => Refusal::NoMemory,
            _ => Refusal::Input(Fault::Circuit(fault)),
        }
    }
}

impl From<LowerFault> for Refusal {
    ghost from_gives = { λ e r. r ≡ of_lowering e };

    fn from(fault: LowerFault) -> Refusal {
        match fault {
            LowerFault::NoMemory => Refusal::NoMemory,
            _ => Refusal::Input(Fault::Lowering(fault)),
        }
    }
}

impl From<FitFault> for Refusal {
    ghost from_gives = { λ e r. r ≡ of_fitting e };

    fn from(fault: FitFault) -> Refusal {
        match fault {
            FitFault::NoMemory => Refusal::NoMemory,
            _ => Refusal::Input(Fault::Fitting(fault)),
        }
    }
}

impl From<CircuitFault> for Refusal {
    ghost from_gives = { λ e r. r ≡ of_outputs e };

    fn from(fault: CircuitFault) -> Refusal {
        match fault {
            CircuitFault::NoMemory => Refusal::NoMemory,
            _ => Refusal::Input(Fault::Outputs(fault)),
        }
    }
}

impl From<EngineFault> for Refusal {
    ghost from_gives = { λ e r. r ≡ of_engine_form e };

    fn from(fault: EngineFault) -> Refusal {
        match fault {
            EngineFault::NoMemory => Refusal::NoMemory,
            _ => Refusal::Input(Fault::Engine(fault)),
        }
    }
}

impl From<ConvertFault> for Refusal {
    ghost from_gives = { λ e r. r ≡ of_conversion e };

    fn from(fault: ConvertFault) -> Refusal {
        match fault {
            ConvertFault::Read(fault) => Refusal::from(fault),
            ConvertFault::Lower(fault) => Refusal::from(fault),
            ConvertFault::Write(_) => Refusal::Failed(Device::Output),
        }
    }
}

impl From<JudgeFault> for Refusal {
    ghost from_gives = { λ e r. r ≡ of_judging e };

    fn from(fault: JudgeFault) -> Refusal {
        match fault {
            JudgeFault::NoNext(id) => Refusal::Input(Fault::NoNext(id)),
            JudgeFault::Device => Refusal::Failed(Device::Second),
            JudgeFault::NoMemory => Refusal::NoMemory,
        }
    }
}

impl From<WaveFault> for Refusal {
    ghost from_gives = { λ e r. r ≡ of_dumping e };

    fn from(fault: WaveFault) -> Refusal {
        match fault {
            WaveFault::NoNext(id) => Refusal::Input(Fault::NoNext(id)),
            WaveFault::Read => Refusal::Failed(Device::Second),
            WaveFault::Write => Refusal::Failed(Device::Output),
            WaveFault::NoMemory => Refusal::NoMemory,
        }
    }
}

impl From<LiftFault> for Refusal {
    ghost from_gives = { λ e r. r ≡ of_lifting e };

    fn from(fault: LiftFault) -> Refusal {
        match fault {
            LiftFault::Read => Refusal::Failed(Device::Second),
            LiftFault::Write => Refusal::Failed(Device::Output),
            LiftFault::NoMemory => Refusal::NoMemory,
        }
    }
}

impl From<UnfitFault> for Refusal {
    ghost from_gives = { λ e r. r ≡ of_unfitting e };

    fn from(fault: UnfitFault) -> Refusal {
        match fault {
            UnfitFault::NoNext(id) => Refusal::Input(Fault::NoNext(id)),
            UnfitFault::Read => Refusal::Failed(Device::Second),
            UnfitFault::Write => Refusal::Failed(Device::Output),
            UnfitFault::NoMemory => Refusal::NoMemory,
        }
    }
}

impl From<ReadAllFault> for Refusal {
    ghost from_gives = { λ e r. r ≡ of_reading_all e };

    fn from(fault: ReadAllFault) -> Refusal {
        match fault {
            ReadAllFault::Device => Refusal::Failed(Device::First),
            ReadAllFault::NoMemory => Refusal::NoMemory,
        }
    }
}

impl From<LinesFault> for Refusal {
    ghost from_gives = { λ e r. r ≡ of_lines e };

    fn from(fault: LinesFault) -> Refusal {
        match fault {
            LinesFault::Bad(line) => Refusal::Input(Fault::Vector(line)),
            LinesFault::NoMemory => Refusal::NoMemory,
        }
    }
}

impl From<InvariantFault> for Refusal {
    ghost from_gives = { λ e r. r ≡ of_invariant_for e e.why };

    fn from(fault: InvariantFault) -> Refusal {
        match fault.why {
            InvariantWhy::Device => Refusal::Failed(Device::Second),
            InvariantWhy::NoMemory => Refusal::NoMemory,
            _ => Refusal::Second(Fault::Invariant(fault)),
        }
    }
}

impl From<ObligationFault> for Refusal {
    ghost from_gives = { λ e r. r ≡ of_obligation e };

    fn from(fault: ObligationFault) -> Refusal {
        match fault {
            ObligationFault::NoMemory => Refusal::NoMemory,
            _ => Refusal::Second(Fault::Obligation(fault)),
        }
    }
}

impl From<ClaimFault> for Refusal {
    ghost from_gives = { λ e r. r ≡ of_claim e };

    fn from(fault: ClaimFault) -> Refusal {
        match fault {
            ClaimFault::Form(fault) => Refusal::from(fault),
            ClaimFault::Invariant(fault) => Refusal::from(fault),
            ClaimFault::Obligation(fault) => Refusal::from(fault),
        }
    }
}

impl From<WitnessFault> for Refusal {
    ghost from_gives = { λ e r. r ≡ of_witness e };

    fn from(fault: WitnessFault) -> Refusal {
        match fault {
            WitnessFault::Form(fault) => Refusal::from(fault),
            WitnessFault::Text(fault) => match fault.why {
                aigertext::Why::Device => Refusal::Failed(Device::Second),
                aigertext::Why::NoMemory => Refusal::NoMemory,
                _ => Refusal::Second(Fault::Circuit(fault)),
            },
            WitnessFault::Test(TestFault::NoMemory) => Refusal::NoMemory,
            WitnessFault::Test(fault) => Refusal::Second(Fault::Test(fault)),
        }
    }
}

impl From<CertificateFault> for Refusal {
    ghost from_gives = { λ e r. r ≡ of_certificate e };

    fn from(fault: CertificateFault) -> Refusal {
        match fault {
            CertificateFault::Claim(fault) => Refusal::from(fault),
            CertificateFault::Judge(_) => Refusal::NoMemory,
            CertificateFault::Device => Refusal::Failed(Device::Third),
        }
    }
}

impl From<AllocError> for Refusal {
    ghost from_gives = { λ _ r. r ≡ refusal.NoMemory };

    fn from(_: AllocError) -> Refusal {
        Refusal::NoMemory
    }
}
