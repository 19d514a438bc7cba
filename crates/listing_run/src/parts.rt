//! The command that cuts the listing of a problem into parts: where each begins, as tokens by which separate runs list them.

mod finding;
mod levels;
mod putting;
mod running;

pub use running::run_parts;
