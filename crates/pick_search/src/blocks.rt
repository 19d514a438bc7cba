//! Claims told to a log as whole blocks: that a family meets the problem of a subject, or that none does.

mod claims;
mod roots;

pub use claims::{settle, show};
pub use roots::refute;
