//! Why a text owes no formula as a witness circuit.
ghost use Rattle.std.specs.Prelude.{◌≡◌};

use crate::fault::TestFault;
use aigertext::ReadFault;
use engine_form::EngineFault;

/// Why a text owes no formula as a witness circuit.
#[derive(Clone, Copy, Debug, PartialEq, Eq)]
pub enum WitnessFault {
    /// The circuit has no engine form with the bad property.
    Form(EngineFault),
    /// The text spells no circuit, its source failed, or a growth was refused.
    Text(ReadFault),
    /// The witness circuit has no test.
    Test(TestFault),
}

impl From<EngineFault> for WitnessFault {
    ghost use Rattle.witness_circuits.specs.declared.witness_fault.WitnessFault.TheVariants.{Form};

    ghost from_gives = { λ e fault. fault ≡ Form e };

    fn from(fault: EngineFault) -> WitnessFault {
        WitnessFault::Form(fault)
    }
}

impl From<ReadFault> for WitnessFault {
    ghost use Rattle.witness_circuits.specs.declared.witness_fault.WitnessFault.TheVariants.{Text};

    ghost from_gives = { λ e fault. fault ≡ Text e };

    fn from(fault: ReadFault) -> WitnessFault {
        WitnessFault::Text(fault)
    }
}

impl From<TestFault> for WitnessFault {
    ghost use Rattle.witness_circuits.specs.declared.witness_fault.WitnessFault.TheVariants.{Test};

    ghost from_gives = { λ e fault. fault ≡ Test e };

    fn from(fault: TestFault) -> WitnessFault {
        WitnessFault::Test(fault)
    }
}
