//! A solver of clauses that learns from conflicts.
#![tactic(auto)]

mod alike;
mod asking;
mod assumptions;
mod learner;
mod literals;
mod order;
mod reading;
mod search;
mod showing;
mod solver;
mod tidying;

pub use literals::Literals;
pub use solver::{Answer, Solver};
