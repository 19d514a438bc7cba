//! Picks, and the problem where pairs are narrowed to their relations.
ghost use Rattle.pick_search.specs.Picking.{IsPicked, rel_number};
ghost use Rattle.std.specs.Prelude.{All, IfOk, OnOk, [], ◌<◌, ◌∷◌, ◌≡◌};
ghost use Rattle.world_model.specs.Problem.{pair_count};

use constraint_set::Problem;
use rcc5_core::{Rel, RelSet};
use std::alloc::{AllocError, Global};

/// A relation for the pair at a place in a list of pairs.
#[derive(Clone, Copy)]
pub(crate) struct Pick {
    pub(crate) place: usize,
    pub(crate) rel: Rel,
}

/// Picks that no family makes together which meets the problem.
#[derive(Drop)]
pub(crate) struct Clash {
    pub(crate) picks: Vec<Pick>,
}

// The number of a relation among the five.
pub(crate) fn rel_number(rel: Rel) -> u32
    ensures { result ≡ rel_number rel }
{
    match rel {
        Rel::Equals => 0,
        Rel::Includes => 1,
        Rel::IncludedIn => 2,
        Rel::Overlaps => 3,
        Rel::Disjoint => 4,
    }
}

// Narrows the pair of a pick to its relation. A place behind all pairs narrows none.
fn narrow_by(alloc: Global, node: &mut Problem, pairs: &[u32], pick: Pick) -> Result<(), AllocError>
    requires { All (λ pair. pair < pair_count node.old) pairs.now }
    ensures { OnOk result (IsPicked node.old pairs.now (pick ∷ []) node.new) }
{
    match pairs.get(pick.place) {
        Some(pair) => node.narrow(alloc, *pair, RelSet::one(pick.rel)),
        None => Ok(()),
    }
}

// The problem with the pairs of some picks narrowed to their relations.
pub(crate) fn picked(
    alloc: Global,
    problem: &Problem,
    pairs: &[u32],
    picks: &[Pick],
) -> Result<Problem, AllocError>
    requires { All (λ pair. pair < pair_count problem.now) pairs.now }
    ensures { IfOk result (IsPicked problem.now pairs.now picks.now) }
{
    let mut node = problem.copy()?;
    for pick in picks {
        narrow_by(alloc, &mut node, pairs, *pick)?;
    }
    Ok(node)
}
