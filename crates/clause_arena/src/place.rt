//! What names a clause, and the links between clauses.
ghost use Rattle.std.specs.Prelude.{◌≡◌, ℕ};

use std::marker::Model;

/// Names a clause of an arena: its place in the list of the arena's records, of which there are at most 2^32.
#[derive(Clone, Copy, Debug, PartialEq, Eq, PartialOrd, Ord)]
pub struct Ref {
    place: u32,
}

impl Model for Ref {
    ghost Value = { ℕ };

    ghost view = { λ r. r.place };

    ghost inverse = { λ n. record { place = n } };
}

impl Ref {
    pub(crate) fn new(place: u32) -> Ref
        ensures { result ≡ place }
    {
        Ref { place }
    }

    pub(crate) fn index(self) -> usize
        ensures { result ≡ self }
    {
        self.place as usize
    }
}

/// A step from one clause to another: the clause that it leads to, and the slot there, 0 or 1.
#[derive(Clone, Copy, Debug, PartialEq, Eq)]
pub struct Link {
    pub at: Ref,
    pub slot: u8,
}
