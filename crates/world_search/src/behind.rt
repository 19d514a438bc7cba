//! The least node behind a node.
ghost use Rattle.std.specs.Prelude.{List, ◌≡◌, ◌<◌, ◌++◌, ◌∷◌, [], length, IfOk, IfSome, IfNone};
ghost use Rattle.world_model.specs.Problem.{pair_count};
ghost use Rattle.world_model.specs.Alive.{allowed};
ghost use Rattle.world_model.specs.Node.{pair_at, IsNode};
ghost use Rattle.world_search.specs.Walking.{IsBehind, IsLeastNode, HasNoNode};

use constraint_set::Problem;
use rcc5_core::{Position, Rel, RelSet};
use std::alloc::{AllocError, Global};

// What the pair after a prefix allows.
pub(crate) fn next_set(problem: &Problem, prefix: &Position) -> RelSet
    requires { length prefix.now < pair_count problem.now }
    ensures { result ≡ allowed problem.now (pair_at problem.now (length prefix.now)) }
{
    problem.facts();
    problem.allowed(prefix.len() as u32)
}

// From a node to the place of the least node behind all that begin with it: a prefix, and the relation that follows.
pub(crate) fn climb(problem: &Problem, path: &mut Position) -> Option<Rel>
    requires { IsNode problem.now path.old }
    ensures next { IfSome result (λ rel. IsLeastNode problem.now (IsBehind path.old) (path.new ++ rel ∷ [])) }
    ensures none { IfNone result (HasNoNode problem.now (IsBehind path.old)) }
    ensures prefix { (rest : List Rel) × (path.old ≡ path.new ++ rest) }
{
    while let Some(rel) = path.pop() {
        if let Some(next) = next_set(problem, path).after(rel) {
            return Some(next);
        }
    }
    None
}

/// The least node behind a node and all that begin with it, if there is one.
pub fn node_behind(
    alloc: Global,
    problem: &Problem,
    node: &Position,
) -> Result<Option<Position>, AllocError>
    requires { IsNode problem.now node.now }
    ensures some { IfOk result (λ found. IfSome found (IsLeastNode problem.now (IsBehind node.now))) }
    ensures none { IfOk result (λ found. IfNone found (HasNoNode problem.now (IsBehind node.now))) }
{
    let mut path = node.copy(alloc)?;
    match climb(problem, &mut path) {
        Some(rel) => {
            path.push(rel)?;
            Ok(Some(path))
        }
        None => Ok(None),
    }
}
