//! Why parts are not joined.

ghost use Rattle.std.specs.Prelude.{◌≡◌};
ghost use Rattle.part_join.specs.declared.fault.JoinFault.TheVariants.{NoMemory};

use cert_rules::PartKind;
use rcc5_core::Position;
use std::alloc::{AllocError, AllocFailed};
use thiserror::Error;

/// Why parts are not joined.
#[derive(Debug, Drop, Error)]
pub enum JoinFault {
    /// The first file that is no certificate of a part has this number, counted from 1, and is refused at this line.
    #[error("part {part}, line {line}: {kind}")]
    PartRefused {
        part: u64,
        line: u64,
        kind: PartKind,
    },
    /// No part has what is not below one position and below another, or the end of all; this is the first such gap.
    #[error("Gap")]
    Gap {
        from: Position,
        to: Option<Position>,
    },
    #[error("ReadFault")]
    ReadFault,
    #[error("NoMemory")]
    NoMemory,
}

impl From<AllocError> for JoinFault {
    ghost from_gives = { λ _ fault. fault ≡ NoMemory };

    fn from(_: AllocError) -> JoinFault {
        JoinFault::NoMemory
    }
}

impl<T: Drop> From<AllocFailed<T>> for JoinFault {
    ghost from_gives = { λ _ fault. fault ≡ NoMemory };

    fn from(_: AllocFailed<T>) -> JoinFault {
        JoinFault::NoMemory
    }
}
