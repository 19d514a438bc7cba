//! A prefix of a problem, and the points that were found, kept along it.
#![tactic(auto)]

mod alike;
mod copies;
mod cursor;
mod drafting;
mod losses;
mod pool;
mod selectors;
mod shows;
mod start;
mod strike;
mod waiting;
mod witness;

pub use copies::{copy, front};
pub use cursor::Cursor;
pub use pool::Pool;
pub use shows::Seen;
pub use waiting::Waiting;
