//! The selectors that a problem and the relations of a prefix make true.
ghost use Rattle.point_encode.specs.Model.Forced.{pair_selectors};
ghost use Rattle.constraint_set.specs.Readers.{sum_places};
ghost use Rattle.point_pool.specs.Cursors.{AreForced, kept_selector, kept_selectors, start_selectors};
ghost use Rattle.std.specs.Prelude.{IfOk, OnOk, length, ◌*◌, ◌++◌, ◌+◌, ◌<◌, ◌≡◌};
ghost use Rattle.world_model.specs.Problem.{concept_count, pair_count};

use constraint_set::Problem;
use lits_core::Lit;
use point_encode::{add_empty_regions, count_pairs};
use rcc5_core::Regions;
use std::alloc::{AllocError, Global};

// The selectors that a problem alone makes true, where these are what it forces of its pairs. The sums' come last.
pub(crate) fn selected_alone(
    alloc: Global,
    problem: &Problem,
    at_start: &[Regions],
) -> Result<Vec<Lit>, AllocError>
    requires { AreForced problem.now at_start.now }
    ensures { IfOk result (λ lits. lits.items ≡ start_selectors problem.now ++ kept_selectors problem.now) }
{
    let mut lits = Vec::new(alloc);
    push_start(&mut lits, problem, at_start)?;
    push_sums(&mut lits, problem)?;
    Ok(lits)
}

// The selectors of a pair's regions that are forced empty.
pub(crate) fn selected_at(
    alloc: Global,
    problem: &Problem,
    pair: u32,
    regions: Regions,
) -> Result<Vec<Lit>, AllocError>
    requires { pair < pair_count problem.now }
    ensures { IfOk result (λ lits. lits.items ≡ pair_selectors (concept_count problem.now + 3 * pair) regions) }
{
    let mut lits = Vec::new(alloc);
    push_empty(&mut lits, problem, pair, regions)?;
    Ok(lits)
}

// Adds the selectors that the problem alone makes true.
fn push_start(
    lits: &mut Vec<Lit>,
    problem: &Problem,
    at_start: &[Regions],
) -> Result<(), AllocError>
    requires { AreForced problem.now at_start.now }
    ensures { OnOk result (lits.new.items ≡ lits.old.items ++ start_selectors problem.now) }
{
    for pair in 0..problem.pair_count() {
        let regions = at_start[pair as usize];
        push_empty(lits, problem, pair, regions)?;
    }
    Ok(())
}

// Adds the selectors of the sums that are kept.
fn push_sums(lits: &mut Vec<Lit>, problem: &Problem) -> Result<(), AllocError>
    ensures { OnOk result (lits.new.items ≡ lits.old.items ++ kept_selectors problem.now) }
{
    for sum in 0..problem.sum_count() {
        push_sum(lits, problem, sum)?;
    }
    Ok(())
}

// Adds the selectors of a pair's regions that are forced empty.
fn push_empty(
    lits: &mut Vec<Lit>,
    problem: &Problem,
    pair: u32,
    regions: Regions,
) -> Result<(), AllocError>
    requires { pair < pair_count problem.now }
    ensures { OnOk result (lits.new.items ≡ lits.old.items ++ pair_selectors (concept_count problem.now + 3 * pair) regions) }
{
    problem.facts();
    add_empty_regions(problem.concept_count() + 3 * pair, regions, lits)
}

// Adds the selector of a sum that is kept.
fn push_sum(lits: &mut Vec<Lit>, problem: &Problem, sum: u32) -> Result<(), AllocError>
    requires { sum < length (sum_places problem.now) }
    ensures { OnOk result (lits.new.items ≡ lits.old.items ++ kept_selector problem.now sum) }
{
    let few = count_pairs(problem);
    problem.facts();
    if problem.is_kept(problem.sum_at(sum)) {
        lits.push(Lit::new(problem.concept_count() + 3 * few + sum, false))?;
    }
    Ok(())
}
