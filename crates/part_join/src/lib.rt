//! Certificates of parts of a listing, each checked by itself, are joined to the whole listing; or it is said what is missing.
#![tactic(auto)]

mod fault;
mod joining;
mod laws;
mod part;
mod reading;
mod sweep;

pub use cert_rules::PartKind;
pub use fault::JoinFault;
pub use joining::{Joined, join};
pub use laws::one_join;
