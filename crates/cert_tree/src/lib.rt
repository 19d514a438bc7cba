//! The tree of a certificate, checked line by line with one path and no walk over all pairs.
#![tactic(auto)]

mod families;
mod levels;
mod lines;
mod needs;
mod path;
mod relations;
mod tree;

pub use families::family_fault;
pub use lines::is_branch;
pub use path::Walk;
pub use tree::Branching;
