//! Why a line of text is refused.

ghost use Rattle.std.specs.Prelude.{◌≡◌};
ghost use Rattle.proof_text.specs.declared.fault.LineTextFault.TheVariants.{NoMemory};

use std::alloc::{AllocError, AllocFailed};
use thiserror::Error;

/// The first fault of a line, from the left.
#[derive(Debug, Clone, Copy, PartialEq, Eq, Error)]
pub enum LineTextFault {
    /// A word is missing, empty, foreign or one too many.
    #[error("BadLine")]
    BadLine,
    /// A word where a number is to stand is not empty, and no number that may stand there.
    #[error("BadNumber")]
    BadNumber,
    #[error("NoMemory")]
    NoMemory,
}

impl From<AllocError> for LineTextFault {
    ghost from_gives = { λ _ e. e ≡ NoMemory };

    fn from(_e: AllocError) -> LineTextFault {
        LineTextFault::NoMemory
    }
}

impl<T: Drop> From<AllocFailed<T>> for LineTextFault {
    ghost from_gives = { λ _ e. e ≡ NoMemory };

    fn from(_e: AllocFailed<T>) -> LineTextFault {
        LineTextFault::NoMemory
    }
}
