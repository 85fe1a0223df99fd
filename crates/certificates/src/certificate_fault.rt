//! Why a certificate is not judged.
ghost use Rattle.std.specs.Prelude.{◌≡◌};
ghost use Rattle.certificates.specs.Faults.{certificate_number, certificate_name, certificate_line};

use crate::claim_fault::ClaimFault;
use drup::ClauseFault;
use std::fmt;
use thiserror::Error;

/// Why a certificate of a bad property of a circuit is not judged.
#[derive(Clone, Copy, Debug, PartialEq, Eq, Error)]
pub enum CertificateFault {
    /// The invariant owes no formula.
    Claim(ClaimFault),
    /// The judge of proofs was refused a growth.
    Judge(ClauseFault),
    /// The source of the proof failed.
    Device,
}

impl CertificateFault {
    /// The number that is printed for the fault.
    pub fn number(self) -> u32
        ensures { result ≡ certificate_number self }
    {
        match self {
            CertificateFault::Claim(fault) => fault.number(),
            CertificateFault::Judge(fault) => fault.number(),
            CertificateFault::Device => 198,
        }
    }

    /// The name that is printed for the fault.
    pub fn name(self) -> &'static str
        ensures { result.now ≡ certificate_name self }
    {
        match self {
            CertificateFault::Claim(fault) => fault.name(),
            CertificateFault::Judge(fault) => fault.name(),
            CertificateFault::Device => "Device",
        }
    }

    /// The line of the invariant's text that is meant, from 1, where a line is; 0 where the source gave none.
    pub fn line(self) -> Option<u64>
        ensures { result ≡ certificate_line self }
    {
        match self {
            CertificateFault::Claim(fault) => fault.line(),
            CertificateFault::Judge(_) => None,
            CertificateFault::Device => None,
        }
    }
}

impl fmt::Display for CertificateFault {
    fn fmt<W: fmt::Write>(&self, f: &mut fmt::Formatter<W>) -> fmt::Result {
        write!(f, "{} {}", self.number(), self.name())
    }
}

impl From<ClaimFault> for CertificateFault {
    ghost use Rattle.certificates.specs.declared.certificate_fault.CertificateFault.TheVariants.{Claim};

    ghost from_gives = { λ e fault. fault ≡ Claim e };

    fn from(fault: ClaimFault) -> CertificateFault {
        CertificateFault::Claim(fault)
    }
}

impl From<ClauseFault> for CertificateFault {
    ghost use Rattle.certificates.specs.declared.certificate_fault.CertificateFault.TheVariants.{Judge};

    ghost from_gives = { λ e fault. fault ≡ Judge e };

    fn from(fault: ClauseFault) -> CertificateFault {
        CertificateFault::Judge(fault)
    }
}
