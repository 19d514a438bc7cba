//! Why a certificate is not accepted.

ghost use Rattle.std.specs.Prelude.{◌≡◌};
ghost use Rattle.cert_check.specs.declared.fault.CheckFault.TheVariants.{NoMemory};
ghost use Rattle.cert_check.specs.declared.fault.Stop.TheVariants.{NoMemory as OutOfMemory};
ghost use Rattle.cert_check.specs.Checkers.{stop_of};

use cert_reader::CertTextKind;
use cert_rules::RejectKind;
use lits_core::LineFault;
use std::alloc::{AllocError, AllocFailed};
use thiserror::Error;

/// Why a certificate is not accepted.
#[derive(Clone, Copy, Debug, PartialEq, Eq, Error)]
pub enum CheckFault {
    /// The first fault is one of the text, in this line, counted from 1.
    #[error("line {line}: {kind}")]
    Text { line: u64, kind: CertTextKind },
    /// The first fault is a line that is rejected.
    #[error("line {line}: {kind}")]
    Rejected { line: u64, kind: RejectKind },
    #[error("ReadFault")]
    ReadFault,
    #[error("NoMemory")]
    NoMemory,
}

impl From<AllocError> for CheckFault {
    ghost from_gives = { λ _ fault. fault ≡ NoMemory };

    fn from(_: AllocError) -> CheckFault {
        CheckFault::NoMemory
    }
}

impl<T: Drop> From<AllocFailed<T>> for CheckFault {
    ghost from_gives = { λ _ fault. fault ≡ NoMemory };

    fn from(_: AllocFailed<T>) -> CheckFault {
        CheckFault::NoMemory
    }
}

/// Why a line is not taken.
#[derive(Clone, Copy, PartialEq, Eq)]
pub(crate) enum Stop {
    Rejected(RejectKind),
    NoMemory,
}

impl From<AllocError> for Stop {
    ghost from_gives = { λ _ stop. stop ≡ OutOfMemory };

    fn from(_: AllocError) -> Stop {
        Stop::NoMemory
    }
}

impl<T: Drop> From<AllocFailed<T>> for Stop {
    ghost from_gives = { λ _ stop. stop ≡ OutOfMemory };

    fn from(_: AllocFailed<T>) -> Stop {
        Stop::NoMemory
    }
}

/// Why a line of the derivation is not taken.
pub(crate) fn stop_at(fault: LineFault) -> Stop
    ensures { result ≡ stop_of fault }
{
    match fault {
        LineFault::UnknownHint => Stop::Rejected(RejectKind::UnknownHint),
        LineFault::HintNotUnit => Stop::Rejected(RejectKind::HintNotUnit),
        LineFault::NoConflict => Stop::Rejected(RejectKind::NoConflict),
        LineFault::IdUsed => Stop::Rejected(RejectKind::IdUsed),
        LineFault::NoMemory => Stop::NoMemory,
    }
}
