//! Whether a family meets a problem, by a solver that picks a relation for each split pair; and such claims as whole blocks of a log.
#![tactic(auto)]

mod blame;
pub mod blocks;
mod known;
mod picks;
mod rules;
mod search;

pub use blocks::{refute, settle, show};
pub use known::Known;
pub use search::{are_whole, choose_by_picks, choose_part};
