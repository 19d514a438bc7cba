//! A solver that is told what all families that meet a problem make so.
ghost use Rattle.family_solver.specs.Showing.{IsBegun, IsGround, variable_count};
ghost use Rattle.std.specs.Prelude.{IfOk, ◌+◌, ◌<◌, ◌^◌, ◌≡◌};

use crate::clauses::give_needs;
use crate::ground::Ground;
use constraint_set::Problem;
use learn_solver::Solver;
use std::alloc::{AllocError, Global};

/// A solver that is told what a problem needs points for, and to which more clauses may be given. So many more variables stand behind
/// those of the points and places.
pub fn begin(
    alloc: Global,
    problem: &Problem,
    ground: &Ground,
    more: u32,
) -> Result<Solver, AllocError>
    requires ground { IsGround problem.now ground.now }
    requires few { variable_count ground.now + more < 2 ^ 31 }
    ensures begun { IfOk result (IsBegun problem.now ground.now) }
    ensures exact { IfOk result (λ solver. solver.variables ≡ variable_count ground.now + more) }
{
    let count = ground.points.len() as u32 + 5 * ground.pairs.len() as u32;
    let mut solver = Solver::new(alloc, count + more)?;
    give_needs(alloc, &mut solver, problem, ground)?;
    Ok(solver)
}
