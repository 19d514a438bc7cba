//! Why a dead node is dead.
#![tactic(auto)]

mod alone;
mod closes;
mod hints;
mod lemmas;
mod near;
mod why;

pub use hints::{Guess, Hints, Reason};
pub use why::{WhyDead, why_dead};
