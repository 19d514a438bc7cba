//! What tells whether a prefix is alive: a table of points, or an asker.
ghost use Rattle.std.specs.Prelude.{List, ◌≡◌, ◌↔◌, ◌<◌, ◌≤◌, ◌++◌, [], length, true, IfOk, IfSome, IsTrue};
ghost use Rattle.rcc5_core.specs.declared.Rel.{Rel};
ghost use Rattle.world_model.specs.Problem.{Problem, pair_count};
ghost use Rattle.world_model.specs.Alive.{problem_at, IsAlive};
ghost use Rattle.constraint_set.specs.Shape.{shape_of};
ghost use Rattle.point_query.specs.Asking.{AskerGoes};
ghost use Rattle.world_search.specs.Walking.{AreOpenAfter};
ghost use Rattle.world_search.specs.Guiding.{IsLadderOf, IsGuideOf};

use constraint_set::Problem;
use dead_nodes::{Guess, Hints};
use point_ladder::{Ladder, MOST_POINTS, MOST_TRIES};
use point_query::Asker;
use rcc5_core::{Position, Rel, RelSet};
use std::alloc::{AllocError, Global};
use world_model::prefixes_of_the_alive_are_alive;

/// Tells which prefixes are alive: by a table of all points, where the problem has one, and else by an asker.
///
/// The table's path is a first part of the prefix that was asked about last. So a prefix with one relation more costs a few
/// words, however long it is.
#[derive(Drop)]
pub(crate) struct Guide {
    pub ladder: Option<Ladder>,
    pub hints: Hints,
}

// Pushes what a prefix has more than a ladder's path, as far as it is alive. Whether all of it is.
fn climb_to(ladder: &mut Ladder, prefix: &Position) -> Result<bool, AllocError>
    requires within { length prefix.now ≤ pair_count ladder.old.problem }
    requires ladder { IsLadderOf ladder.old.problem prefix.now ladder.old }
    ensures ladder { IsLadderOf ladder.old.problem prefix.now ladder.new }
    ensures alive { IfOk result (λ alive. IsTrue alive ↔ IsAlive (problem_at ladder.old.problem prefix.now)) }
    ensures there { IfOk result (λ alive. alive ≡ true → ladder.new.path ≡ prefix.now) }
{
    prefixes_of_the_alive_are_alive();
    if !ladder.is_alive() {
        return Ok(false);
    }
    while ladder.path().len() < prefix.len() {
        let rel = prefix.at(ladder.path().len());
        if !ladder.push(rel)? {
            return Ok(false);
        }
    }
    Ok(true)
}

impl Guide {
    /// A guide at the empty prefix.
    pub fn new(alloc: Global, problem: &Problem) -> Result<Guide, AllocError>
        ensures { IfOk result (IsGuideOf problem.now []) }
    {
        let ladder = Ladder::new(alloc, problem, MOST_POINTS, MOST_TRIES)?;
        Ok(Guide {
            ladder,
            hints: Hints::new(alloc),
        })
    }

    /// A guide that asks, whether the problem has a table or not.
    pub fn asking(alloc: Global) -> Guide
        ensures { (p : Problem) → IsGuideOf p [] result }
    {
        Guide {
            ladder: None,
            hints: Hints::new(alloc),
        }
    }

    /// Goes back with a prefix that grew shorter.
    pub fn back_to(&mut self, prefix: &Position)
        ensures { (p : Problem) (rest : List Rel) → IsGuideOf p (prefix.now ++ rest) self.old → IsGuideOf p prefix.now self.new }
    {
        if let Some(ladder) = &mut self.ladder {
            if prefix.len() < ladder.path().len() {
                ladder.back_to(prefix.len());
            }
        }
    }

    /// Tells the hints what the table knows of a dead node: which region of its last pair is without a point. Nothing is looked up
    /// where some relations lead on from the node, or nobody will read why it is dead.
    pub fn mark(&mut self, node: &Position, set: Option<RelSet>, dropping: bool)
        ensures { (p : Problem) (prefix : List Rel) → IsGuideOf p prefix self.old → IsGuideOf p prefix self.new }
    {
        if set.is_none() && !dropping {
            let guess = self.guess(node);
            self.hints.guess(guess);
        }
    }

    // Where a dead node has a need without a point, if the table stands right above it.
    fn guess(&self, node: &Position) -> Guess {
        let Some(ladder) = &self.ladder else {
            return Guess::Unknown;
        };
        let above = ladder.path().len();
        if above + 1 != node.len() {
            return Guess::Unknown;
        }
        if let Some(part) = ladder.bare_region(node.at(above)) {
            return Guess::Region(part);
        }
        match ladder.bare_region(Rel::Overlaps) {
            Some(part) => Guess::Beside(part),
            None => Guess::Elsewhere,
        }
    }

    /// Whether a prefix is alive.
    #[tactic(auto, using(search_log::proofs::Logs::asker_stays))]
    pub fn is_alive(
        &mut self,
        problem: &Problem,
        asker: &mut Asker,
        prefix: &Position,
    ) -> Result<bool, AllocError>
        requires shape { asker.old.shape ≡ shape_of problem.now }
        requires within { length prefix.now ≤ pair_count problem.now }
        requires guide { IsGuideOf problem.now prefix.now self.old }
        ensures alive { IfOk result (λ alive. IsTrue alive ↔ IsAlive (problem_at problem.now prefix.now)) }
        ensures guide { IsGuideOf problem.now prefix.now self.new }
        ensures kept { AskerGoes asker.old asker.new }
        ensures unasked { IfSome self.old.ladder (λ _. asker.new ≡ asker.old) }
    {
        match &mut self.ladder {
            Some(ladder) => climb_to(ladder, prefix),
            None => asker.is_alive(problem, prefix),
        }
    }

    /// The relations that lead on from an alive prefix to an alive one.
    #[tactic(auto, using(search_log::proofs::Logs::asker_stays))]
    pub fn alive_after(
        &mut self,
        problem: &Problem,
        asker: &mut Asker,
        prefix: &Position,
    ) -> Result<RelSet, AllocError>
        requires shape { asker.old.shape ≡ shape_of problem.now }
        requires short { length prefix.now < pair_count problem.now }
        requires alive { IsAlive (problem_at problem.now prefix.now) }
        requires guide { IsGuideOf problem.now prefix.now self.old }
        ensures each { IfOk result (AreOpenAfter problem.now prefix.now) }
        ensures guide { IsGuideOf problem.now prefix.now self.new }
        ensures kept { AskerGoes asker.old asker.new }
        ensures unasked { IfSome self.old.ladder (λ _. asker.new ≡ asker.old) }
    {
        match &mut self.ladder {
            Some(ladder) => {
                climb_to(ladder, prefix)?;
                Ok(ladder.leads_on())
            }
            None => asker.alive_after(problem, prefix),
        }
    }
}
