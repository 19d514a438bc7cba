//! The command that tells why the relation of two concepts is one of a set: the least statements from which it follows.

mod laws;
mod naming;
mod putting;
mod reasoning;
mod running;

pub use laws::{converses_turn_pairs, turned_is_asked};
pub use running::run_explain;
