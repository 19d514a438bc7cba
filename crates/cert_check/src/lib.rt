//! Checks certificates, apart from whoever wrote them.
#![tactic(auto)]

mod accepted;
mod checker;
mod checking;
mod checks;
mod claims;
mod derivation;
mod fault;
mod known;
mod laws;
mod listing;
mod open_tree;

pub use accepted::{Accepted, Claim, ClaimList, Worlds};
pub use cert_rules::RejectKind;
pub use checks::{Checks, check};
pub use fault::CheckFault;
pub use laws::{
    law_accepted_bytes_show_all, law_written_claims_are_accepted, law_written_is_accepted,
};
