//! Rows of bits, 64 a word: what they have, what they have in common, and which of them hold which.
#![tactic(auto)]

mod rows;
mod words;

pub use rows::Rows;
pub use words::{
    Cells, Sides, first_place, has_bit, has_single, have_common, is_inside, meets, with_bit,
};
