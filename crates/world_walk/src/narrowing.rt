//! A problem narrowed along a path.
ghost use Rattle.std.specs.Prelude.{IfOk, OnOk, [], ◌∷◌, ◌≡◌, ◌<◌, ◌≤◌, length};
ghost use Rattle.world_model.specs.Problem.{pair_count};
ghost use Rattle.world_walk.specs.Asked.{IsNarrowedBy};

use constraint_set::Problem;
use rcc5_core::{Rel, RelSet};
use std::alloc::{AllocError, Global};

/// The problem in which each of the first pairs has just the relation that a path has there.
pub(crate) fn narrowed_by(
    alloc: Global,
    problem: &Problem,
    path: &[Rel],
) -> Result<Problem, AllocError>
    requires { length path.now ≤ pair_count problem.now }
    ensures { IfOk result (IsNarrowedBy problem.now path.now) }
{
    problem.facts();
    let mut node = problem.copy()?;
    for pair in 0..path.len() {
        node.narrow(alloc, pair as u32, RelSet::one(path[pair]))?;
    }
    Ok(node)
}
