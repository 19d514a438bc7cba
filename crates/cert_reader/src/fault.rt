//! Why a certificate can't be read.

ghost use Rattle.std.specs.Prelude.{◌≡◌};
ghost use Rattle.cert_reader.specs.declared.fault.CertTextFault.TheVariants.{NoMemory};

use std::alloc::{AllocError, AllocFailed};
use thiserror::Error;

/// What is wrong with the text of a certificate.
#[derive(Clone, Copy, Debug, PartialEq, Eq, Error)]
pub enum CertTextKind {
    /// A line outside the forms, or of a kind that may not stand there, or a byte behind the last line.
    #[error("BadLine")]
    BadLine,
    /// A word where a number is to stand is not empty, and no number that may stand there.
    #[error("BadNumber")]
    BadNumber,
    /// The bytes end before the last line does.
    #[error("EndsEarly")]
    EndsEarly,
    /// The line goes on past the greatest length of a certificate.
    #[error("TooLong")]
    TooLong,
}

/// Why a certificate's next line can't be read.
#[derive(Clone, Copy, Debug, PartialEq, Eq, Error)]
pub enum CertTextFault {
    /// The first fault of the text, with the number of its line, counted from 1.
    #[error("line {line}: {kind}")]
    Text { line: u64, kind: CertTextKind },
    #[error("ReadFault")]
    ReadFault,
    #[error("NoMemory")]
    NoMemory,
}

impl From<AllocError> for CertTextFault {
    ghost from_gives = { λ _ fault. fault ≡ NoMemory };

    fn from(_: AllocError) -> CertTextFault {
        CertTextFault::NoMemory
    }
}

impl<T: Drop> From<AllocFailed<T>> for CertTextFault {
    ghost from_gives = { λ _ fault. fault ≡ NoMemory };

    fn from(_: AllocFailed<T>) -> CertTextFault {
        CertTextFault::NoMemory
    }
}
