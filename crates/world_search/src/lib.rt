//! The possible worlds of a problem, one after the other.
#![tactic(auto)]

mod behind;
mod budget;
mod first;
mod guide;
mod opens;
mod reasons;
mod search;
mod step;
mod steps;
mod tell;
mod walk;

pub use behind::node_behind;
pub use budget::{is_spent, one_less};
pub use search::Search;
pub use search_log::{StepFault, store_fault};
pub use step::{Nodes, Step, TableStep};
