//! Clauses that are not live go, the others move up, and their chains are made anew.
ghost use Rattle.std.specs.Prelude.{◌≡◌, ◌+◌, ◌*◌, ◌<◌, ◌≤◌, ℕ, length};

use crate::engine::Engine;
use clause_arena::{Link, Ref};

impl Engine {
    ghost use Rattle.watch_arena.specs.Engines.{IsEngine, RecordsInRange};
    ghost use Rattle.watch_arena.specs.Chains.{AreChains, IsNone};
    ghost use Rattle.watch_arena.specs.Compactions.{IsFrom, Relinks, Compacts};

    // The watches of a clause come to the front of their chains, if its first two literals differ.
    fn watch(&mut self, at: Ref)
        requires at { at < length self.old.arena }
        requires lists { length self.old.chains ≡ 2 * self.old.variables }
        requires in_range { RecordsInRange self.old.arena self.old.variables }
        requires filed { AreChains self.old.arena self.old.chains (IsFrom at) }
        ensures relinks { Relinks self.old self.new }
        ensures filed { AreChains self.new.arena self.new.chains (IsFrom (at + 1)) }
    {
        if self.arena.len_of(at) < 2 {
            return;
        }
        let first = self.lit_at(at, 0);
        let second = self.lit_at(at, 1);
        if first == second {
            return;
        }
        self.attach(first, Link { at, slot: 0 });
        self.attach(second, Link { at, slot: 1 });
    }

    // The chains are made of the clauses that there are, whatever the links were.
    fn relink(&mut self)
        requires lists { length self.old.chains ≡ 2 * self.old.variables }
        requires in_range { RecordsInRange self.old.arena self.old.variables }
        ensures relinks { Relinks self.old self.new }
        ensures filed { AreChains self.new.arena self.new.chains IsNone }
    {
        self.chains.clear();
        for place in 0..self.arena.count() {
            if let Some(at) = self.arena.nth(place) {
                self.watch(at);
            }
        }
    }

    // Clauses that are not live go, and the others move up. Short clauses are met anew by the next propagation.
    pub(crate) fn compact(&mut self)
        requires sound { IsEngine self.old }
        requires room { length self.old.arena ≤ self.old.moves.spare }
        ensures sound { IsEngine self.new }
        ensures compacts { Compacts self.old self.new }
    {
        self.arena.compact(&mut self.moves);
        self.places.mend(&self.moves);
        self.shorts.mend(&self.moves);
        self.moves.clear();
        let count = self.places.len();
        self.first = 0;
        self.firsts.cap(0, count, 0);
        self.relink();
    }
}
