//! A part of a listing.

ghost use Rattle.std.specs.Prelude.{◌≡◌};
ghost use Rattle.world_model.specs.Listing.{is_below, is_before_end};
ghost use Rattle.part_join.specs.Parts.{covers};

use rcc5_core::Position;
use std::cmp::Ordering;
use std::marker::Model;

/// The possible worlds from one position on and below another, or to the end of all.
#[derive(Drop)]
pub(crate) struct Part {
    pub(crate) from: Position,
    pub(crate) to: Option<Position>,
    pub(crate) worlds: Vec<Position>,
}

impl Model for Part {
    ghost use Rattle.part_join.specs.Parts.{Part};

    ghost Value = { Part };

    ghost view = { λ q. record { from = q.from; to = q.to; worlds = q.worlds.items } };
}

/// Whether one position comes before another.
pub(crate) fn is_below(one: &Position, other: &Position) -> bool
    ensures { result ≡ is_below one.now other.now }
{
    one.compare(other) == Ordering::Less
}

/// Whether a position comes before the end, which may be none.
pub(crate) fn is_before_end(place: &Position, end: &Option<Position>) -> bool
    ensures { result ≡ is_before_end place.now end.now }
{
    match end {
        None => true,
        Some(end) => is_below(place, end),
    }
}

impl Part {
    /// Whether a position is one that the part lists, if it is a world.
    pub(crate) fn covers(&self, place: &Position) -> bool
        ensures { result ≡ covers place.now self.now }
    {
        !is_below(place, &self.from) && is_before_end(place, &self.to)
    }
}
