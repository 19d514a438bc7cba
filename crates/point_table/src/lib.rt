//! All points of a problem, each once, in order, and as rows of bits.
#![tactic(auto)]

mod build;
mod grow;
mod places;
mod points;
mod rules;
mod table;

pub use grow::bits_of;
pub use places::Places;
pub use points::{add_if_empty, allowed_sets, avoids_by, meets_structure};
pub use table::{all_points, rows_of};
