//! The pairs on which a search branches.
ghost use Rattle.std.specs.Prelude.{◌≡◌, ◌<◌, not, ◌||◌, All, IfOk, map};
ghost use Rattle.rcc5_core.specs.RelationSet.{is_empty_set};
ghost use Rattle.rcc5_core.specs.Region.{is_whole_set};
ghost use Rattle.world_model.specs.Problem.{pair_count};
ghost use Rattle.world_model.specs.Alive.{allowed};
ghost use Rattle.world_model.specs.Node.{pair_at};
ghost use Rattle.cert_rules.specs.ClaimLists.{split_pairs};

use constraint_set::Problem;
use std::alloc::{AllocError, Global};

// Whether what a pair allows is neither empty nor whole.
fn is_split(problem: &Problem, pair: u32) -> bool
    requires { pair < pair_count problem.now }
    ensures { result ≡ not (is_empty_set (allowed problem.now (pair_at problem.now pair)) || is_whole_set (allowed problem.now (pair_at problem.now pair))) }
{
    let set = problem.allowed(pair);
    !(set.is_empty() || set.is_whole())
}

/// The split pairs of a problem, by their numbers, in order.
pub(crate) fn split_of(alloc: Global, problem: &Problem) -> Result<Vec<u32>, AllocError>
    ensures pairs { IfOk result (λ list. map (pair_at problem.now) list.items ≡ split_pairs problem.now) }
    ensures within { IfOk result (λ list. All (λ pair. pair < pair_count problem.now) list.items) }
{
    let mut list = Vec::new(alloc);
    for pair in 0..problem.pair_count() {
        if is_split(problem, pair) {
            list.push(pair)?;
        }
    }
    Ok(list)
}
