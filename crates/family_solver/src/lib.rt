//! Whether a family meets a problem and shows a relation, by a solver over all points of the problem; and whether some of its
//! articulations hold together.
#![tactic(auto)]

mod begun;
mod clauses;
mod family;
mod ground;
pub mod kept;
mod relations;
mod solver;

pub use begun::begin;
pub use clauses::has_concept;
pub use family::met_by;
pub use ground::{Ground, ground_of};
pub use kept::{KeptSolver, Verdict};
pub use relations::{give_place, rel_lit, rule};
pub use solver::{FamilySolver, Grant};
