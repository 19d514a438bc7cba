//! Frames: the points that are left of a table, those of them that have to stay, and rows of which one point each has to stay; what
//! words about two sets leave of them, and whether that satisfies the rows.
#![tactic(auto)]

mod base;
mod builder;
mod frame;
mod groups;
mod words;

pub use builder::{Builder, MOST_COMPARED, narrowed};
pub use frame::{Frame, Seen};
