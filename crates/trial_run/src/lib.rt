//! Problems that are made from a seed and a size, and the command that makes one, lists its worlds with a certificate in memory,
//! checks that certificate, and puts a summary.
#![tactic(auto)]

mod blocks;
mod checked;
mod listing;
mod making;
mod running;
mod sayings;
mod summary;
mod taxonomy;

pub use running::run_trial;
