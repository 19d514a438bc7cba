//! Points by their places, with rows of bits that say which of them each concept has.

mod places;
mod row;

pub use places::Places;
