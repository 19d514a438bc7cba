//! The least set of articulations that are in conflict.
#![tactic(auto)]

mod conflict;
mod points;
mod shown;
mod shrink;
mod tries;

pub use conflict::{Conflict, ConflictFault, least_conflict};
pub use shown::{refute_kept, show_kept};
