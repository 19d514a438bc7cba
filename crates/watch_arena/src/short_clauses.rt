//! Clauses with no two different literals: they watch none, and propagation meets each of them in turn.
ghost use Rattle.std.specs.Prelude.{◌≡◌, ◌+◌, ◌^◌, ◌<◌, length, true, MatchBool, MatchOption};

use crate::engine::Engine;
use clause_arena::Ref;

impl Engine {
    ghost use Rattle.watch_arena.specs.Engines.{IsEngine, IsFalse, IsShort, IsShortMet, ImpliesMore, Advances};
    ghost use Rattle.clause_arena.specs.Records.{record_at};

    // Whether a clause is live; a Ref past the end of the list is of none.
    fn is_live(&self, at: Ref) -> bool
        ensures { result ≡ (record_at self.now.arena at).live }
    {
        if self.arena.contains(at) {
            self.arena.is_live(at)
        } else {
            false
        }
    }

    // Whether a live clause has no two different literals.
    fn is_short(&self, at: Ref) -> bool
        requires sound { IsEngine self.now }
        requires live { (record_at self.now.arena at).live ≡ true }
        ensures { MatchBool result (IsShort (record_at self.now.arena at).lits) (IsShort (record_at self.now.arena at).lits → ⊥) }
    {
        if self.arena.len_of(at) < 2 {
            return true;
        }
        self.lit_at(at, 0) == self.lit_at(at, 1)
    }

    // Makes a short clause's literal true, unless it is so or is false; answers whether it is true now.
    fn meet_first(&mut self, at: Ref) -> bool
        requires sound { IsEngine self.old }
        requires live { (record_at self.old.arena at).live ≡ true }
        requires short { IsShort (record_at self.old.arena at).lits }
        requires some { 0 < length (record_at self.old.arena at).lits }
        ensures advances { Advances self.old self.new }
        ensures outcome { MatchBool result (IsShortMet self.new at) (IsFalse self.new at) }
    {
        let lit = self.lit_at(at, 0);
        if self.is_true(lit) {
            return true;
        }
        if self.is_false(lit) {
            return false;
        }
        let level = self.level();
        self.assign(lit, level, Some(at));
        true
    }

    // Visits an entry of the list of the short clauses; one that is not live or not short is left alone.
    fn meet(&mut self, at: Ref) -> bool
        requires { IsEngine self.old }
        ensures advances { Advances self.old self.new }
        ensures outcome { MatchBool result (IsShortMet self.new at) (IsFalse self.new at) }
    {
        if !self.is_live(at) {
            return true;
        }
        if !self.is_short(at) {
            return true;
        }
        if self.arena.len_of(at) == 0 {
            return false;
        }
        self.meet_first(at)
    }

    // Visits the next short clause.
    fn visit_short(&mut self) -> Option<Ref>
        requires sound { IsEngine self.old }
        requires first { self.old.first < length self.old.shorts }
        requires small { self.old.first + 1 < 2 ^ 64 }
        ensures sound { IsEngine self.new }
        ensures implies { ImpliesMore self.old self.new }
        ensures outcome { MatchOption result (self.new.first ≡ self.old.first + 1) (λ at. IsFalse self.new at) }
    {
        let at = self.shorts.get(self.first);
        if self.meet(at) {
            self.first += 1;
            None
        } else {
            Some(at)
        }
    }

    // Visits all short clauses that were not visited.
    pub(crate) fn meet_all(&mut self) -> Option<Ref>
        requires { IsEngine self.old }
        ensures sound { IsEngine self.new }
        ensures implies { ImpliesMore self.old self.new }
        ensures outcome { MatchOption result (self.new.first ≡ length self.new.shorts) (λ at. IsFalse self.new at) }
    {
        while self.first < self.shorts.len() {
            if let Some(at) = self.visit_short() {
                return Some(at);
            }
        }
        None
    }
}
