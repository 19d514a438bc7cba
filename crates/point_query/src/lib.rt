//! Whether a prefix is alive, by asking for single points.
#![tactic(auto)]

mod answers;
mod asker;
mod bearing;
mod closer;
mod closes;
mod closings;
mod drafted;
mod given;
mod leading;
mod probe;
mod question;
mod settle;
mod stuck;

pub use answers::{Alive, Found, Points, Probe};
pub use asker::Asker;
pub use given::solver_of;
pub use question::query;
