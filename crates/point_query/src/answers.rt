//! What an asker answers.
ghost use Rattle.std.specs.Prelude.{◌≡◌};

use lits_core::Bits;
use point_encode::Need;
use std::marker::Model;

/// Points, in order.
#[derive(Drop)]
pub struct Points {
    list: Vec<Bits>,
}

impl Model for Points {
    ghost use Rattle.std.specs.Prelude.{Bool, List};

    ghost Value = { List (List Bool) };

    ghost view = { λ points. points.list.items };
}

impl Points {
    pub fn new(list: Vec<Bits>) -> Points
        ensures { result ≡ list.items }
    {
        Points { list }
    }

    pub fn list(&self) -> &[Bits]
        ensures { result.now ≡ self.now }
    {
        self.list.as_slice()
    }
}

/// Of a need: a point in it, or the id of a clause that shows that there is none.
#[derive(Drop)]
pub enum Found {
    Point(Bits),
    Closed(u64),
}

/// Of a prefix: one point for each need, in order; or the first pair that allows nothing; or the first need without a
/// point, and the clause that shows it.
#[derive(Drop)]
pub enum Alive {
    Points(Points),
    EmptyPair(u32),
    Closed(Need, u64),
}

/// What is answered of a prefix without its points.
#[derive(Clone, Copy, PartialEq, Eq)]
pub enum Probe {
    Alive,
    EmptyPair(u32),
    Closed(Need, u64),
}
