//! Families that show many wished relations at once, made from one that meets the problem; and the relations of a family by rows of
//! bits.
#![tactic(auto)]

mod draft;
mod rows;
mod sites;
mod table;
mod wishes;

pub use rows::FamilyRows;
pub use table::Table;
pub use wishes::{Wishes, wished};
