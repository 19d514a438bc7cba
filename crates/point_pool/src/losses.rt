//! What one more relation would take from the needs, looked at before anything is struck out.
ghost use Rattle.point_encode.specs.Model.Forced.{need_at, need_count};
ghost use Rattle.point_pool.specs.Pools.{AreAtRisk, HasOwn, IsKept, IsPool, served_at};
ghost use Rattle.rcc5_core.specs.RelationSet.{has};
ghost use Rattle.std.specs.Prelude.{Contains, IfOk, IsTrue, OnOk, [], length, true, ℕ, ◌*◌, ◌++◌, ◌+◌, ◌<◌, ◌∷◌, ◌≡◌, ◌≤◌};
ghost use Rattle.world_model.specs.Alive.{HasPoint, allowed, problem_at};
ghost use Rattle.world_model.specs.Node.{pair_at};
ghost use Rattle.world_model.specs.Problem.{pair_count};

use crate::pool::Pool;
use point_draft::Draft;
use point_encode::{Wanted, by_concepts, need_at, word_of};
use rcc5_core::{Occupancy, Rel};
use std::alloc::{AllocError, Global};
use world_model::positions_narrow;

impl Pool {
    /// The numbers of the needs that a relation may leave without their points, and those that it has of its own pair: each
    /// other one keeps its point.
    pub fn at_risk(&self, rel: Rel) -> Result<Vec<u32>, AllocError>
        requires pool { IsPool self.now }
        requires settled { self.now.waiting ≡ [] }
        requires within { length self.now.cursor.path < pair_count self.now.cursor.problem }
        requires allowed { IsTrue (has (allowed self.now.cursor.problem (pair_at self.now.cursor.problem (length self.now.cursor.path))) rel) }
        ensures { IfOk result (λ list. AreAtRisk self.now rel list.items) }
    {
        positions_narrow();
        self.cursor.facts();
        self.cursor.problem().facts();
        let pair = self.cursor.len();
        let concepts = self.cursor.problem().pair_at(pair);
        let places = self.places.at_risk(self.alloc, concepts, rel.row())?;
        let mut list = own_needs(self.alloc, pair, rel)?;
        for place in &places {
            self.push_served(&mut list, *place)?;
        }
        Ok(list)
    }

    // Adds the numbers of the needs that the point at a place serves.
    fn push_served(&self, list: &mut Vec<u32>, place: usize) -> Result<(), AllocError>
        ensures there { OnOk result ((number : ℕ) → Contains (served_at self.now.serves.items place) number → Contains list.new.items number) }
        ensures stay { OnOk result ((number : ℕ) → Contains list.old.items number → Contains list.new.items number) }
    {
        if place < self.serves.len() {
            self.serves[place].push_all(list)?;
        }
        Ok(())
    }

    /// Whether a point that a relation leaves is in a need. If none was found yet, there may be one all the same.
    pub fn leaves_one(&self, rel: Rel, number: u32) -> bool
        requires kept { IsKept self.now }
        requires number { number < need_count self.now.cursor.problem }
        requires within { length self.now.cursor.path < pair_count self.now.cursor.problem }
        requires allowed { IsTrue (has (allowed self.now.cursor.problem (pair_at self.now.cursor.problem (length self.now.cursor.path))) rel) }
        ensures { result ≡ true → HasPoint (problem_at self.now.cursor.problem (self.now.cursor.path ++ rel ∷ [])) (need_at self.now.cursor.problem number) }
    {
        positions_narrow();
        self.cursor.facts();
        let pair = self.cursor.problem().pair_at(self.cursor.len());
        match by_concepts(self.cursor.problem(), number) {
            Wanted::Concept(concept) => {
                self.places
                    .has_clear((concept, true), (concept, true), pair, rel.row())
            }
            Wanted::Region { x, y, part } => {
                self.places
                    .has_clear((x, part < 2), (y, part != 0), pair, rel.row())
            }
        }
    }

    /// What is drafted for the need with a number where a relation is added: a hint.
    pub fn draft_after(&mut self, rel: Rel, number: u32) -> Result<Draft, AllocError>
        requires pool { IsPool self.old }
        requires number { number < need_count self.old.cursor.problem }
        requires within { length self.old.cursor.path < pair_count self.old.cursor.problem }
        requires allowed { IsTrue (has (allowed self.old.cursor.problem (pair_at self.old.cursor.problem (length self.old.cursor.path))) rel) }
        ensures pool { OnOk result (IsPool self.new) }
        ensures cursor { OnOk result (self.new.cursor ≡ self.old.cursor) }
    {
        let pair = self.cursor.len() as usize;
        self.cursor.push(rel)?;
        let need = need_at(self.cursor.problem(), number);
        let draft = self
            .drafts
            .search(self.cursor.problem(), self.cursor.path(), need)?;
        self.cursor.back_to(pair);
        self.drafts.back_to(pair);
        Ok(draft)
    }
}

// The numbers of the needs that a relation has of its pair.
fn own_needs(alloc: Global, pair: u32, rel: Rel) -> Result<Vec<u32>, AllocError>
    requires { 3 * pair + 3 ≤ 4294967295 }
    ensures { IfOk result (λ list. HasOwn list.items pair rel) }
{
    let mut list = Vec::new(alloc);
    for part in 0..3 {
        if let Occupancy::Occupied = word_of(rel.row(), part) {
            list.push(3 * pair + part)?;
        }
    }
    Ok(list)
}
