//! Whether some of a problem's articulations hold together, by one solver over the points that the problem has without them.

mod clauses;
mod flags;
mod ground;
mod solver;

pub use solver::{KeptSolver, Verdict};
