//! The literals of a clause, where they stand.
ghost use Rattle.std.specs.Prelude.{◌≡◌, ◌<◌, length, slice_index_or};

use clause_arena::{Arena, Ref};
use lits_core::Lit;
use std::marker::Model;

/// The literals of a clause of a solver, in its order.
#[derive(Drop)]
pub struct Literals<'a> {
    arena: &'a Arena,
    at: Ref,
}

impl<'a> Model for Literals<'a> {
    ghost use Rattle.std.specs.Prelude.{ℕ, List, length, ◌<◌};
    ghost use Rattle.clause_arena.specs.Records.{record_at};

    ghost Value = { List ℕ };

    ghost view = { λ l. (record_at l.arena.now l.at).lits };

    ghost invariant = { λ l. l.at < length l.arena.now };
}

impl<'a> Literals<'a> {
    ghost use Rattle.clause_arena.specs.Records.{record_at};

    // The literals of a record.
    pub(crate) fn new(arena: &'a Arena, at: Ref) -> Literals<'a>
        requires { at < length arena.now }
        ensures { result ≡ (record_at arena.now at).lits }
    {
        Literals { arena, at }
    }

    /// How many there are.
    pub fn count(&self) -> usize
        ensures { result ≡ length self.now }
    {
        self.arena.len_of(self.at)
    }

    /// The literal at a place.
    pub fn lit(&self, place: usize) -> Lit
        requires { place < length self.now }
        ensures { result ≡ slice_index_or self.now place 0 }
    {
        Lit::from_code(self.arena.lit_at(self.at, place))
    }
}
