//! The commands that check a certificate, and join those of parts: what they read, and the lines that they put.
#![tactic(auto)]

mod checking;
mod join;
mod verdict;

pub use checking::run_check;
pub use join::run_join;
