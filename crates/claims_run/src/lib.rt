//! The commands that settle questions about a problem by claims: what remains possible, what is in conflict, what holds together,
//! and from which statements something follows.
#![tactic(auto)]

mod answering;
mod certified;
mod count_line;
mod explain;
mod kept_lines;
mod lattice_lines;
mod putting;
mod question;
mod running;

pub use explain::{converses_turn_pairs, run_explain, turned_is_asked};
pub use question::{Answer, Question};
pub use running::run_claims;
