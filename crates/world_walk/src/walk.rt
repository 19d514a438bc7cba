//! A walk as its users see it.
ghost use Rattle.std.specs.Prelude.{◌≡◌, ◌≤◌, length, IfOk, IfSome};
ghost use Rattle.world_model.specs.Problem.{pair_count};
ghost use Rattle.world_model.specs.Family.{IsPossibleWorld};
ghost use Rattle.world_walk.specs.Walks.{IsWalk, StandsBefore, StandsBehind, IsNext};

use crate::tables::Tables;
use constraint_set::Problem;
use rcc5_core::{Position, Rel};
use std::alloc::{AllocError, Global};

/// A walk along the possible worlds of a problem, in order.
#[derive(Drop)]
pub struct Walk {
    pub tables: Tables,
}

impl Walk {
    /// A walk that begins at a position.
    pub fn from(alloc: Global, problem: &Problem, from: &Position) -> Result<Walk, AllocError>
        requires { length from.now ≤ pair_count problem.now }
        ensures walk { IfOk result (IsWalk problem.now) }
        ensures before { IfOk result (StandsBefore problem.now from.now) }
    {
        let tables = Tables::new(alloc, problem, from)?;
        Ok(Walk { tables })
    }

    /// A walk that goes on behind a world, or from the front where there is none yet.
    pub fn behind(
        alloc: Global,
        problem: &Problem,
        last: &Option<Position>,
    ) -> Result<Walk, AllocError>
        requires { IfSome last.now (IsPossibleWorld problem.now) }
        ensures walk { IfOk result (IsWalk problem.now) }
        ensures behind { IfOk result (StandsBehind problem.now last.now) }
    {
        match last {
            None => {
                let front = Position::new(alloc);
                let walk = Walk::from(alloc, problem, &front)?;
                Ok(walk)
            }
            Some(last) => {
                let mut walk = Walk::from(alloc, problem, last)?;
                let _ = walk.next(alloc, problem)?;
                Ok(walk)
            }
        }
    }

    /// The next world, if one is left. It needs the problem that the walk was made of.
    pub fn next(&mut self, alloc: Global, problem: &Problem) -> Result<Option<Position>, AllocError>
        requires { IsWalk problem.now self.old }
        ensures walk { IsWalk problem.now self.new }
        ensures next { IfOk result (IsNext problem.now self.old self.new) }
    {
        match self.tables.next()? {
            Some(_) => {
                let table = position_of(alloc, self.tables.table())?;
                Ok(Some(table))
            }
            None => Ok(None),
        }
    }
}

// A table as a position.
fn position_of(alloc: Global, table: &[Rel]) -> Result<Position, AllocError>
    ensures { IfOk result (λ position. position ≡ table.now) }
{
    let mut position = Position::new(alloc);
    for rel in table {
        position.push(*rel)?;
    }
    Ok(position)
}
