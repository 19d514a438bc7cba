//! The clause that a conflict teaches.
#![tactic(auto)]

mod analysis;
mod analyzer;
mod levels;
mod minimize;

pub use analyzer::{Analyzer, Closing, Learnt};
