//! The relations that remain possible at each pair: the maximally informative relations of a problem.
#![tactic(auto)]

mod bare;
mod drafted;
mod found;
mod gather;
mod possible;
mod seen;
mod sight;

pub use possible::{MirSets, has_world, mir};
