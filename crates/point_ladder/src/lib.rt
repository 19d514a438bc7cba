//! What is left of a problem's points along a path of relations, by which a search tells at each
//! step which relations lead on.
#![tactic(auto)]

mod alone;
mod behind;
mod bounds;
mod ladder;
mod next;
mod sides;
mod start;
mod stretches;

pub use alone::alive_alone;
pub use ladder::Ladder;

/// A hint for who wants a ladder: a table of more points than these takes too long.
pub const MOST_POINTS: usize = 65_536;

/// A hint too: the search for points ends after so many tries.
pub const MOST_TRIES: usize = 10_000_000;
