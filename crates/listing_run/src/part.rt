//! The command that lists the worlds of a part: from one position up to another, with their certificate.

mod laws;
mod putting;
mod reading;
mod running;

pub use laws::parts_join;
pub use running::run_part;
