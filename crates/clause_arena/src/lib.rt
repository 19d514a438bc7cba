//! Clauses of literal codes in two flat lists, with two links a clause.
#![tactic(auto)]

mod arena;
mod moves;
mod pack;
mod place;

pub use arena::Arena;
pub use moves::Moves;
pub use place::{Link, Ref};
