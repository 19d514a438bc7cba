//! What is to be listed, and what was.

use constraint_set::Problem;
use rcc5_core::Position;

/// What is to be listed: the worlds of a problem from a position on and below another, if one is given, until a limit of nodes or
/// of worlds is reached.
#[derive(Drop)]
pub struct ListingPlan {
    pub problem: Problem,
    pub start: Position,
    pub end: Option<Position>,
    pub nodes: Option<u64>,
    pub worlds: Option<u64>,
}

/// Where a listing stopped.
#[derive(Drop)]
pub enum Stop {
    /// Before this node the budget is used up.
    Cut(Position),
    /// All nodes below the end are passed. The least node that is not below it, if there is one.
    End(Option<Position>),
}

/// How many worlds were put, up to the last value of a u64, and where that stopped.
#[derive(Drop)]
pub struct Listed {
    pub count: u64,
    pub stop: Stop,
}
