//! The listing of worlds on a sink, with its budget, its token and its certificate: of all worlds, and of a part of them;
//! and where the listing is cut into parts.
#![tactic(auto)]

mod carry;
mod certified;
mod laws;
mod listing;
mod part;
mod parts;
mod plan;
mod reading;
mod running;
mod table_listing;

pub use laws::chains_list_once;
pub use part::{parts_join, run_part};
pub use parts::run_parts;
pub use running::run_listing;
