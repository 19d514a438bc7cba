//! What a search answers.

use rcc5_core::Position;
use set_family::Family;

/// How many nodes may still be visited. None is no limit.
#[derive(Clone, Copy, PartialEq, Eq)]
pub struct Nodes {
    pub left: Option<u64>,
}

/// A step of a search.
#[derive(Drop)]
pub enum Step {
    /// The next world, and a family that meets the problem and has this table.
    World(Position, Family),
    /// No node may be visited any more, and this one is next.
    Spent(Position),
    /// There is no further node below the end. The least node that is not below it and not below the start, if any.
    End(Option<Position>),
}

/// A step of a search, without a family.
#[derive(Drop)]
pub enum TableStep {
    /// The next world.
    World(Position),
    /// No node may be visited any more, and this one is next.
    Spent(Position),
    /// There is no further node below the end. The least node that is not below it and not below the start, if any.
    End(Option<Position>),
}
