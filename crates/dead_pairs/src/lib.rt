//! Why a problem is dead where one pair is narrowed to a relation.
#![tactic(auto)]

mod closes;
mod hints;
mod literals;
mod lone;
mod show;
mod why;

pub use hints::Hints;
pub use lone::Lone;
pub use why::{Closing, why_dead};
