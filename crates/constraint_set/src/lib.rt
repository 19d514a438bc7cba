//! Problems: concepts of two to eight taxonomies, and what experts say of them, as one value whose
//! readers take no memory.
#![tactic(auto)]

mod gather;
mod limits;
mod numbering;
mod problem;
mod shape;
mod statements;

pub use limits::{MAX_ARTICULATIONS, MAX_CONCEPTS, MAX_PAIRS, MAX_TAXONOMIES};
pub use problem::{Problem, one_shape_shares};
pub use world_model::{Articulation, Parts, Switches};
