//! One taxonomy out of all those of a problem, as a possible world's table merges them, and its texts.
#![tactic(auto)]

mod json;
mod laws;
mod merge;
mod names;
mod order;
mod relation;
mod taxonomy;
mod text;

pub use json::merged_json;
pub use laws::read_names_are_utf8;
pub use merge::merged;
pub use taxonomy::{Classes, MergedTaxonomy, NumberPairs};
pub use text::merged_text;
