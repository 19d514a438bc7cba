//! Clauses, marks by levels, and unit propagation with two watched literals.
#![tactic(auto)]

mod chains;
mod column;
mod compaction;
mod engine;
mod new_clauses;
mod places;
mod short_clauses;
mod trail;

pub use places::Place;
pub use trail::Trail;
