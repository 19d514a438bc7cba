//! Whether some family of sets meets a problem, by a walk over the pairs that points alone do not decide.
#![tactic(auto)]

mod choice;
mod family;
mod pairs;
mod reason;
mod search;
mod tell;
mod visit;
mod walk;

pub use choice::Choice;
pub use search::choose;
