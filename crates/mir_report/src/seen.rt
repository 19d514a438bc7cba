//! Which relations were seen at the pairs across taxonomies, in families that meet the problem.
ghost use Rattle.std.specs.Prelude.{length, IfOk};
ghost use Rattle.world_model.specs.Problem.{cross_pairs};
ghost use Rattle.set_family.specs.Meeting.{IsMetBy};
ghost use Rattle.mir_report.specs.Steps.{AreSeen};

use constraint_set::Problem;
use rcc5_core::RelSet;
use set_family::Family;
use std::alloc::{AllocError, Global};
use wish_family::FamilyRows;

/// No relation was seen yet.
pub(crate) fn none_seen(alloc: Global, problem: &Problem) -> Result<Vec<RelSet>, AllocError>
    ensures { IfOk result (λ seen. AreSeen problem.now (length (cross_pairs problem.now)) seen.items) }
{
    let mut seen = Vec::new(alloc);
    'pairs: for _pair in 0..problem.cross_count() {
        seen.push(RelSet::none())?;
    }
    Ok(seen)
}

/// What was seen, and what a family shows. So a family need not be kept.
pub(crate) fn seen_with(
    alloc: Global,
    problem: &Problem,
    seen: &[RelSet],
    family: &Family,
) -> Result<Vec<RelSet>, AllocError>
    requires met { IsMetBy problem.now family.now }
    requires seen { AreSeen problem.now (length (cross_pairs problem.now)) seen.now }
    ensures { IfOk result (λ more. AreSeen problem.now (length (cross_pairs problem.now)) more.items) }
{
    let rows = FamilyRows::new(alloc, family)?;
    let mut more = Vec::with_capacity(alloc, seen.len())?;
    'pairs: for pair in 0..problem.cross_count() {
        let (left, right) = problem.pair_at(pair);
        let rel = rows.rel(family, left, right);
        more.push(seen[pair as usize].with(rel))?;
    }
    Ok(more)
}
