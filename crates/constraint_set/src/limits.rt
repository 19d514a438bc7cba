//! How many there may be of what a problem is made of.

/// A problem has no more taxonomies than these.
pub const MAX_TAXONOMIES: usize = 8;

/// A problem has no more concepts than these, in all its taxonomies.
pub const MAX_CONCEPTS: u32 = 1024;

/// A problem has no more pairs of concepts than these: each two of the most concepts.
pub const MAX_PAIRS: u32 = MAX_CONCEPTS * (MAX_CONCEPTS - 1) / 2;

/// A problem has no more articulations than these, kept or not.
pub const MAX_ARTICULATIONS: usize = 4096;
