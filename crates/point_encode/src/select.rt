//! What a prefix leaves to a pair, and the selectors that it makes true.
ghost use Rattle.std.specs.Prelude.{◌≡◌, ◌+◌, ◌<◌, ◌≤◌, ◌++◌, length, IfOk, OnOk};
ghost use Rattle.rcc5_core.specs.Region.{forced_regions};
ghost use Rattle.world_model.specs.Problem.{pair_count};
ghost use Rattle.world_model.specs.Alive.{allowed, problem_at};
ghost use Rattle.world_model.specs.Node.{pair_at};
ghost use Rattle.constraint_set.specs.Readers.{sum_places};
ghost use Rattle.point_encode.specs.Model.Clauses.{first_sum_selector};
ghost use Rattle.point_encode.specs.Model.Forced.{pair_selectors, selectors_of, sum_selectors};

use crate::variables::{MAX_SUM_START, first_selector, is_so, sum_count};
use constraint_set::Problem;
use lits_core::Lit;
use rcc5_core::{Occupancy, Position, Regions, RelSet, forced};
use std::alloc::{AllocError, Global};
use world_model::positions_narrow;

/// The relations that a prefix allows a pair.
pub fn allowed_at(problem: &Problem, prefix: &Position, pair: u32) -> RelSet
    requires prefix { length prefix.now ≤ pair_count problem.now }
    requires pair { pair < pair_count problem.now }
    ensures { result ≡ allowed (problem_at problem.now prefix.now) (pair_at problem.now pair) }
{
    positions_narrow();
    let set = problem.allowed(pair);
    let place = pair as usize;
    if place < prefix.len() {
        set.meet(RelSet::one(prefix.at(place)))
    } else {
        set
    }
}

/// What a prefix forces of a pair's regions.
pub fn forced_at(problem: &Problem, prefix: &Position, pair: u32) -> Regions
    requires prefix { length prefix.now ≤ pair_count problem.now }
    requires pair { pair < pair_count problem.now }
    ensures { result ≡ forced_regions (allowed (problem_at problem.now prefix.now) (pair_at problem.now pair)) }
{
    forced(allowed_at(problem, prefix, pair))
}

/// The selectors that a prefix makes true, ascending: those of the regions that are forced empty, then those of the kept sums.
pub fn selectors_of(
    alloc: Global,
    problem: &Problem,
    prefix: &Position,
) -> Result<Vec<Lit>, AllocError>
    requires { length prefix.now ≤ pair_count problem.now }
    ensures { IfOk result (λ lits. lits.items ≡ selectors_of problem.now prefix.now) }
{
    let mut lits = Vec::new(alloc);
    for pair in 0..problem.pair_count() {
        let first = first_selector(problem, pair);
        add_empty_regions(first, forced_at(problem, prefix, pair), &mut lits)?;
    }
    add_kept_sums(problem, &mut lits)?;
    Ok(lits)
}

/// Adds the selectors of a pair's regions that are forced empty, where `first` is the variable of its first selector.
pub fn add_empty_regions(first: u32, forced: Regions, lits: &mut Vec<Lit>) -> Result<(), AllocError>
    requires { first ≤ MAX_SUM_START }
    ensures { OnOk result (lits.new.items ≡ lits.old.items ++ pair_selectors first forced) }
{
    if forced.left_only == Occupancy::Empty {
        lits.push(is_so(first))?;
    }
    if forced.both == Occupancy::Empty {
        lits.push(is_so(first + 1))?;
    }
    if forced.right_only == Occupancy::Empty {
        lits.push(is_so(first + 2))?;
    }
    Ok(())
}

// Adds the selectors of the kept sums.
fn add_kept_sums(problem: &Problem, lits: &mut Vec<Lit>) -> Result<(), AllocError>
    ensures { OnOk result (lits.new.items ≡ lits.old.items ++ sum_selectors problem.now.kept (first_sum_selector problem.now) (sum_places problem.now)) }
{
    let first = first_selector(problem, problem.pair_count());
    for sum in 0..sum_count(problem) {
        if problem.is_kept(problem.sum_at(sum)) {
            lits.push(is_so(first + sum))?;
        }
    }
    Ok(())
}
