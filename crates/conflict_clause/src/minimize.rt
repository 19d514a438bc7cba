//! Kept literals that one reason implies from others are let go.
ghost use Rattle.std.specs.Prelude.{◌≡◌, ℕ, ◌<◌, ◌⊎◌, ◌↔◌, true, length, OnOk, IsTrue, Contains};
ghost use Rattle.clause_arena.specs.Records.{record_at};
ghost use Rattle.lits_core.specs.Literals.{variable_of};

use crate::analysis::Analysis;
use crate::levels::false_places;
use clause_arena::Ref;
use lits_core::Lit;
use std::alloc::{AllocError, Global};
use watch_arena::Trail;

impl Analysis {
    ghost use Rattle.conflict_clause.specs.Search.{IsSeenList, IsReached, KeepsBelow, Goes, Stays, is_seen};

    // Whether the variables of a clause's literals were all seen.
    fn has_seen_all(&self, trail: &Trail, at: Ref) -> bool
        requires seen_list { IsSeenList self.now trail.now.variables }
        requires live { (record_at trail.now.records at).live ≡ true }
        ensures { IsTrue result ↔ ((lit : ℕ) → Contains (record_at trail.now.records at).lits lit → is_seen self.now (variable_of lit) ≡ true) }
    {
        trail.facts();
        let arena = trail.arena();
        for k in 0..arena.len_of(at) {
            let lit = Lit::from_code(arena.lit_at(at, k));
            if !self.marks.get(lit.variable() as usize) {
                return false;
            }
        }
        true
    }

    // Lets the negation of a place's literal go where literals that were seen implied it; else keeps it.
    fn settle(&mut self, trail: &Trail, place: usize) -> Result<(), AllocError>
        requires seen_list { IsSeenList self.old trail.now.variables }
        requires within { place < length trail.now.places }
        ensures marks { self.new.marks ≡ self.old.marks }
        ensures seen { self.new.seen.items ≡ self.old.seen.items }
        ensures lowest { self.new.lowest ≡ self.old.lowest }
        ensures settled { OnOk result (Goes trail.now place self.old self.new ⊎ Stays trail.now place self.old self.new) }
    {
        trail.facts();
        if let Some(at) = trail.reason_on(place) {
            if self.has_seen_all(trail, at) {
                self.hints.push(trail.arena().id_of(at))?;
                return Ok(());
            }
        }
        self.keep(trail.lit_on(place))?;
        Ok(())
    }

    // Lets the kept literals go that one reason implies from others. It takes their places from the highest down, since
    // the hints are kept last one first, and the hint of a place may use the literals of lower ones.
    pub(crate) fn minimize(&mut self, alloc: Global, trail: &Trail) -> Result<(), AllocError>
        requires seen_list { IsSeenList self.old trail.now.variables }
        requires reached { IsReached trail.now self.old }
        requires below { KeepsBelow trail.now self.old }
        ensures marks { self.new.marks ≡ self.old.marks }
        ensures seen { self.new.seen.items ≡ self.old.seen.items }
        ensures lowest { self.new.lowest ≡ self.old.lowest }
        ensures among { OnOk result ((lit : ℕ) → Contains self.new.lits.items lit → Contains self.old.lits.items lit) }
        ensures reached { OnOk result (IsReached trail.now self.new) }
    {
        trail.facts();
        let mut places = false_places(alloc, trail, &self.lits)?;
        self.lits.clear();
        while let Some(place) = places.pop() {
            self.settle(trail, place)?;
        }
        Ok(())
    }
}
