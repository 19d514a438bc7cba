//! What a search puts in a log: the lines of an asker, a line of its own, the words of a family; and what keeps an asker small.
#![tactic(auto)]

mod copies;
mod families;
mod fault;
mod idle;
mod put;

pub use families::raw_family;
pub use fault::{StepFault, store_fault};
pub use idle::{tidy, tidy_by_turns};
pub use put::{put_one, put_waiting};
