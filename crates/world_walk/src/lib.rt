//! The possible worlds of a problem one after the other, along paths that are alive.
#![tactic(auto)]

mod asked;
mod narrowing;
mod path;
mod retreat;
mod start;
mod tables;
mod walk;
mod way;

pub use tables::Tables;
pub use walk::Walk;
