//! Hints by rows of bits: what follows from a need, so that it has no point or this one.
#![tactic(auto)]

mod board;
mod drafts;
mod given;
mod row;
mod rules;
mod shown;

pub use drafts::{Draft, Drafts};
pub use shown::{Hint, Step};
