//! The command that joins parts of a listing that were made apart: what it reads, and the lines that it puts.

mod joining;
mod putting;
mod running;

pub use running::run_join;
