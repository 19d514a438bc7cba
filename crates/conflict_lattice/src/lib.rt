//! All minimal conflicts of a problem's articulations, all maximal sets of them that hold together, and why a relation follows.
#![tactic(auto)]

mod claims;
mod decide;
mod grow;
mod insert;
mod lattice;
mod reason;
mod rounds;
mod seeds;
mod shrink;
mod subset;

pub use lattice::{LatticeFault, all_conflicts};
pub use reason::{ExplainFault, Explanation, explain};
pub use subset::{Lattice, Subset};
