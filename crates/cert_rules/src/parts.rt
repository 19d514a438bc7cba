//! What the certificate of a part of a listing is, and why one is refused. Nothing here checks one.

mod laws;

use crate::RejectKind;
use cert_reader::CertTextKind;
pub use laws::cert_lines_are_nodes;
use thiserror::Error;

/// Why the certificate of a part is refused: its text has a fault, or one of its lines is rejected.
#[derive(Clone, Copy, Debug, PartialEq, Eq, Error)]
pub enum PartKind {
    #[error("{0}")]
    Text(CertTextKind),
    #[error("{0}")]
    Rejected(RejectKind),
}
