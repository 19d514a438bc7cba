//! The listing as its users see it.
ghost use Rattle.std.specs.Prelude.{◌≡◌, ◌≢◌, ◌≤◌, [], ◌∷◌, length, None, IfOk, OnErr, IfSome, IfNone};
ghost use Rattle.world_model.specs.Problem.{pair_count};
ghost use Rattle.world_walk.specs.Tables.{IsNewListing, IsAtWorld, PassedTold, Keeps};

use crate::path::AlivePath;
use crate::start::way_from;
use crate::way::{Way, next_world};
use constraint_set::Problem;
use rcc5_core::{Position, Rel};
use std::alloc::{AllocError, Global};
use std::marker::Model;

/// The possible worlds of a problem, one after the other, by a table of all its points, or by questions where these are too many.
///
/// It stands at one world at a time. Neither nodes nor families are told; what a step costs depends on the pairs that it
/// passes, and on the points that a relation takes away.
#[derive(Drop)]
pub struct Tables {
    problem: Problem,
    // Along another problem with the same worlds, each pair of which is narrowed to what it may have.
    way: Way,
}

impl Model for Tables {
    ghost use Rattle.world_walk.specs.Tables.{TablesState, tables_of, IsWayFor};

    ghost Value = { TablesState };

    ghost view = { λ s. tables_of s.problem s.way };

    ghost invariant = { λ s. IsWayFor s.problem s.way };
}

impl Tables {
    /// Stands before the first world from a position on.
    pub fn new(alloc: Global, problem: &Problem, from: &Position) -> Result<Tables, AllocError>
        requires { length from.now ≤ pair_count problem.now }
        ensures { IfOk result (IsNewListing problem.now from.now) }
    {
        let along = AlivePath::new(alloc, problem)?;
        let way = way_from(alloc, along, from)?;
        let problem = problem.copy()?;
        Ok(Tables { problem, way })
    }

    /// Goes to the next world, if there is one, and tells how many of its first relations are those of the world that was told
    /// before (0 where none was). After want of memory it may be called again, and loses no world.
    pub fn next(&mut self) -> Result<Option<usize>, AllocError>
        ensures passed { PassedTold self.old self.new }
        ensures world { IfOk result (λ found. IfSome found (λ _. IsAtWorld self.new)) }
        ensures kept { IfOk result (λ found. IfSome found (Keeps self.old self.new)) }
        ensures end { IfOk result (λ found. IfNone found ((self.new.at ≡ None) × (self.new.told ≡ []))) }
        ensures err { OnErr result (self.new.told ≡ []) }
    {
        let pairs = self.problem.pair_count() as usize;
        next_world(&mut self.way, pairs)
    }

    /// The table of the world at which it stands.
    pub fn table(&self) -> &[Rel]
        requires { self.now.told ≢ [] }
        ensures { self.now.told ≡ result.now ∷ [] }
    {
        self.way.along.path()
    }
}
