//! Which relations the points that serve the needs show to lead on.
ghost use Rattle.point_pool.specs.Pools.{AreSeen, IsPool, ShowPart, is_seen};
ghost use Rattle.rcc5_core.specs.Region.{row_of};
ghost use Rattle.rcc5_core.specs.RelationSet.{has};
ghost use Rattle.std.specs.Prelude.{IsTrue, [], length, true, ◌++◌, ◌<◌, ◌∷◌, ◌≡◌};
ghost use Rattle.world_model.specs.Alive.{IsAlive, all_allow, allowed, problem_at};
ghost use Rattle.world_model.specs.Node.{pair_at};
ghost use Rattle.world_model.specs.Problem.{pair_count};

use crate::pool::Pool;
use point_encode::word_of;
use rcc5_core::{Occupancy, Rel};
use world_model::positions_narrow;

/// Which of the three regions of the next pair have a live point that is in use.
#[derive(Clone, Copy)]
pub struct Seen {
    pub left_only: bool,
    pub both: bool,
    pub right_only: bool,
}

impl Seen {
    // Whether a region has one, by its number among the three.
    fn part(self, part: u32) -> bool
        ensures { result ≡ is_seen self part }
    {
        if part == 0 {
            self.left_only
        } else if part == 1 {
            self.both
        } else {
            self.right_only
        }
    }
}

impl Pool {
    /// Which regions of the next pair the witnesses lie in.
    pub fn seen(&self) -> Seen
        requires pool { IsPool self.now }
        requires within { length self.now.cursor.path < pair_count self.now.cursor.problem }
        ensures { AreSeen self.now result }
    {
        let (x, y) = self.cursor.problem().pair_at(self.cursor.len());
        Seen {
            left_only: self.places.shows((x, true), (y, false)),
            both: self.places.shows((x, true), (y, true)),
            right_only: self.places.shows((x, false), (y, true)),
        }
    }

    /// Whether the witnesses show that a relation leads on to an alive prefix: they lie in the regions of the next pair that it
    /// occupies, and in none that it empties. If not, it may lead on all the same.
    pub fn shows(&self, seen: Seen, rel: Rel) -> bool
        requires pool { IsPool self.now }
        requires settled { self.now.waiting ≡ [] }
        requires within { length self.now.cursor.path < pair_count self.now.cursor.problem }
        requires allow { IsTrue (all_allow (problem_at self.now.cursor.problem self.now.cursor.path)) }
        requires allowed { IsTrue (has (allowed self.now.cursor.problem (pair_at self.now.cursor.problem (length self.now.cursor.path))) rel) }
        requires seen { AreSeen self.now seen }
        ensures { result ≡ true → IsAlive (problem_at self.now.cursor.problem (self.now.cursor.path ++ rel ∷ [])) }
    {
        positions_narrow();
        self.cursor.facts();
        if !self.shows_part(seen, rel, 0) {
            return false;
        }
        if !self.shows_part(seen, rel, 1) {
            return false;
        }
        self.shows_part(seen, rel, 2)
    }

    // Whether they show what it says of one region, by its number among the three.
    fn shows_part(&self, seen: Seen, rel: Rel, part: u32) -> bool
        requires part { part < 3 }
        requires seen { AreSeen self.now seen }
        ensures { result ≡ true → ShowPart self.now.places (pair_at self.now.cursor.problem (length self.now.cursor.path)) (row_of rel) part }
    {
        let is_seen = seen.part(part);
        match word_of(rel.row(), part) {
            Occupancy::Empty => !is_seen,
            Occupancy::Occupied => is_seen,
            Occupancy::Free => true,
        }
    }
}
