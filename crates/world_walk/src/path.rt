//! The path as its users see it.
ghost use Rattle.std.specs.Prelude.{IfOk, IsTrue, OnErr, [], true, length, take, ◌++◌, ◌∷◌, ◌≡◌, ◌<◌, ◌≤◌, ◌↔◌};
ghost use Rattle.rcc5_core.specs.RelationSet.{has};
ghost use Rattle.rcc5_core.specs.declared.Rel.{Rel};
ghost use Rattle.world_model.specs.Alive.{IsAlive, problem_at};
ghost use Rattle.world_model.specs.Problem.{pair_count};
ghost use Rattle.point_ladder.specs.Ladders.{BeginsNone, IsAlong, IsBoundOf, IsPushed};

use crate::asked::Asked;
use constraint_set::Problem;
use point_ladder::{Ladder, MOST_POINTS, MOST_TRIES};
use rcc5_core::{Rel, RelSet};
use std::alloc::{AllocError, Global};
use std::marker::Model;

/// How many steps without a world are worth a look behind a path along a table: such a step costs little.
const PATIENCE_BY_TABLE: usize = 64;

/// And where each step is questions.
const PATIENCE_BY_QUESTIONS: usize = 8;

/// What tells which paths are alive.
pub(crate) enum Ground {
    /// A table of all points.
    Tabled(Ladder),
    /// Questions, where there are too many points for a table.
    Asked(Asked),
}

// Written out, so that letting one go is a call.
impl Drop for Ground {
    fn drop(self) {
        match self {
            Ground::Tabled(_) => {}
            Ground::Asked(_) => {}
        }
    }
}

/// A path of relations for the first pairs of a problem.
#[derive(Drop)]
pub struct AlivePath {
    ground: Ground,
}

impl Model for AlivePath {
    ghost use Rattle.point_ladder.specs.Ladders.{LadderState};
    ghost use Rattle.world_walk.specs.Asked.{state_of};

    ghost Value = { LadderState };

    ghost view = { λ s. state_of s.ground };
}

impl AlivePath {
    /// The empty path of a problem with just the same possible worlds.
    pub fn new(alloc: Global, problem: &Problem) -> Result<AlivePath, AllocError>
        ensures { IfOk result (IsBoundOf problem.now) }
    {
        problem.facts();
        match Ladder::bounded(alloc, problem, MOST_POINTS, MOST_TRIES)? {
            Some(ladder) => Ok(AlivePath {
                ground: Ground::Tabled(ladder),
            }),
            None => Ok(AlivePath {
                ground: Ground::Asked(Asked::new(alloc, problem)?),
            }),
        }
    }

    /// Whether the path is alive.
    pub fn is_alive(&mut self) -> Result<bool, AllocError>
        ensures same { self.new ≡ self.old }
        ensures alive { IfOk result (λ alive. IsTrue alive ↔ IsAlive (problem_at self.old.problem self.old.path)) }
    {
        match &mut self.ground {
            Ground::Tabled(ladder) => Ok(ladder.is_alive()),
            Ground::Asked(asked) => asked.is_alive(),
        }
    }

    /// The relations that lead to an alive path.
    pub fn leads_on(&mut self) -> Result<RelSet, AllocError>
        requires alive { IsAlive (problem_at self.old.problem self.old.path) }
        requires short { length self.old.path < pair_count self.old.problem }
        ensures same { self.new ≡ self.old }
        ensures next { IfOk result (λ set. (rel : Rel) → IsTrue (has set rel) ↔ IsAlive (problem_at self.old.problem (self.old.path ++ rel ∷ []))) }
    {
        match &mut self.ground {
            Ground::Tabled(ladder) => return Ok(ladder.leads_on()),
            Ground::Asked(asked) => return asked.leads_on(),
        }
    }

    /// Puts a relation at the end of the path, if that leads to an alive one.
    pub fn push(&mut self, rel: Rel) -> Result<bool, AllocError>
        requires alive { IsAlive (problem_at self.old.problem self.old.path) }
        requires short { length self.old.path < pair_count self.old.problem }
        ensures pushed { IfOk result (IsPushed self.old self.new rel) }
        ensures err { OnErr result (self.new ≡ self.old) }
    {
        match &mut self.ground {
            Ground::Tabled(ladder) => ladder.push(rel),
            Ground::Asked(asked) => asked.push(rel),
        }
    }

    /// Goes along pairs that have one relation left, where that costs nothing.
    pub fn skip(&mut self)
        requires alive { IsAlive (problem_at self.old.problem self.old.path) }
        requires short { length self.old.path ≤ pair_count self.old.problem }
        ensures { IsAlong self.old self.new }
    {
        match &mut self.ground {
            Ground::Tabled(ladder) => ladder.skip(),
            Ground::Asked(_) => {}
        }
    }

    /// Whether it is shown that no world begins with the first relations. Nothing is said of when that is not shown.
    pub fn is_barren(&mut self, len: usize) -> Result<bool, AllocError>
        requires alive { IsAlive (problem_at self.old.problem self.old.path) }
        requires within { len ≤ length self.old.path }
        ensures same { self.new ≡ self.old }
        ensures none { IfOk result (λ none. none ≡ true → BeginsNone self.old.problem (take len self.old.path)) }
    {
        match &mut self.ground {
            Ground::Tabled(ladder) => return ladder.is_barren(len),
            Ground::Asked(asked) => return asked.is_barren(len),
        }
    }

    /// Has a pair tried before others where it is next to be shown that no world begins with a path: a hint.
    pub fn promote(&mut self, pair: u32)
        ensures { self.new ≡ self.old }
    {
        match &mut self.ground {
            Ground::Tabled(ladder) => ladder.promote(pair),
            Ground::Asked(_) => {}
        }
    }

    /// After how many steps that led to no world it is worth asking whether one begins with the path: a hint.
    pub fn patience(&self) -> usize {
        match &self.ground {
            Ground::Tabled(_) => PATIENCE_BY_TABLE,
            Ground::Asked(asked) => {
                if asked.leads_to_worlds() {
                    usize::MAX
                } else {
                    PATIENCE_BY_QUESTIONS
                }
            }
        }
    }

    /// Takes the path back to its first relations.
    pub fn back_to(&mut self, len: usize)
        requires { len ≤ length self.old.path }
        ensures { self.new ≡ record self.old { path = take len self.old.path } }
    {
        match &mut self.ground {
            Ground::Tabled(ladder) => ladder.back_to(len),
            Ground::Asked(asked) => asked.back_to(len),
        }
    }

    /// The relations.
    pub fn path(&self) -> &[Rel]
        ensures { result.now ≡ self.now.path }
    {
        match &self.ground {
            Ground::Tabled(ladder) => ladder.path(),
            Ground::Asked(asked) => asked.path(),
        }
    }
}
