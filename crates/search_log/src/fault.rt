//! Why a step of a search is refused.
ghost use Rattle.std.specs.Prelude.{◌≡◌};
ghost use Rattle.search_log.specs.declared.fault.StepFault.TheVariants.{NoMemory};
ghost use Rattle.search_log.specs.Logging.{step_fault, store_fault};

use outer_store::StoreFault;
use std::alloc::AllocError;
use thiserror::Error;

/// Why a step was refused.
#[derive(Clone, Copy, Debug, PartialEq, Eq, Error)]
pub enum StepFault {
    #[error("out of memory")]
    NoMemory,
    #[error("the log failed")]
    LogFailed,
}

impl From<AllocError> for StepFault {
    ghost from_gives = { λ _ fault. fault ≡ NoMemory };

    fn from(_refused: AllocError) -> Self {
        StepFault::NoMemory
    }
}

impl From<StoreFault> for StepFault {
    ghost from_gives = { λ refused fault. fault ≡ step_fault refused };

    fn from(refused: StoreFault) -> Self {
        match refused {
            StoreFault::Failed => StepFault::LogFailed,
            StoreFault::NoMemory => StepFault::NoMemory,
        }
    }
}

/// A fault of a step as one of the store that the log is in.
pub fn store_fault(fault: StepFault) -> StoreFault
    ensures value { result ≡ store_fault fault }
    ensures back { step_fault result ≡ fault }
{
    match fault {
        StepFault::LogFailed => StoreFault::Failed,
        StepFault::NoMemory => StoreFault::NoMemory,
    }
}
