//! What a family shows, and others that are made from it.
ghost use Rattle.std.specs.Prelude.{◌≡◌, length, OnOk};
ghost use Rattle.world_model.specs.Problem.{cross_pairs};
ghost use Rattle.set_family.specs.Meeting.{IsMetBy};
ghost use Rattle.mir_report.specs.Steps.{AreSeen};

use crate::drafted::with_family;
use crate::seen::seen_with;
use crate::sight::Help;
use constraint_set::Problem;
use rcc5_core::RelSet;
use set_family::Family;
use std::alloc::{AllocError, Global};
use wish_family::{Table, Wishes, wished};

/// So many families are made from one at most.
const MOST_RUNS: u32 = 200;

/// Families are made from one as long as each shows so many relations more: a question to the solver takes as long as some twenty are
/// worth.
const LEAST_MORE: usize = 20;

/// A question by picks takes longer.
const LEAST_MORE_BY_PICKS: usize = 2;

// How many relations some sets have.
fn count_seen(seen: &[RelSet]) -> usize {
    let mut count: usize = 0;
    for set in seen {
        count = count
            .saturating_add(usize::from(set.equals))
            .saturating_add(usize::from(set.includes))
            .saturating_add(usize::from(set.included_in))
            .saturating_add(usize::from(set.overlaps))
            .saturating_add(usize::from(set.disjoint));
    }
    count
}

// Sees what a family shows that is made from another by points of a table, and tells whether that was much.
fn gather_more(
    alloc: Global,
    problem: &Problem,
    first: u32,
    family: &Family,
    seen: &mut Vec<RelSet>,
    left: &[RelSet],
    table: &Table,
) -> Result<Option<usize>, AllocError>
    requires seen { AreSeen problem.now (length (cross_pairs problem.now)) seen.old.items }
    ensures { OnOk result (AreSeen problem.now (length (cross_pairs problem.now)) seen.new.items) }
{
    let wishes = Wishes {
        left,
        seen,
        first: first as usize,
    };
    let Some(made) = wished(alloc, problem, table, family, wishes)? else {
        return Ok(None);
    };
    let before = count_seen(seen);
    *seen = seen_with(alloc, problem, seen, &made)?;
    Ok(Some(count_seen(seen).saturating_sub(before)))
}

// Sees what a family shows, and what others show that are made from it by points of a table, as long as that is much.
fn gather_by(
    alloc: Global,
    problem: &Problem,
    first: u32,
    family: &Family,
    seen: &mut Vec<RelSet>,
    left: &[RelSet],
    table: &Table,
    much: usize,
) -> Result<(), AllocError>
    requires met { IsMetBy problem.now family.now }
    requires seen { AreSeen problem.now (length (cross_pairs problem.now)) seen.old.items }
    ensures { OnOk result (AreSeen problem.now (length (cross_pairs problem.now)) seen.new.items) }
{
    let Some(more) = gather_more(alloc, problem, first, family, seen, left, table)? else {
        *seen = seen_with(alloc, problem, seen, family)?;
        return Ok(());
    };
    let mut last = more;
    'runs: for _run in 0..MOST_RUNS {
        if last < much {
            return Ok(());
        }
        last = gather_more(alloc, problem, first, family, seen, left, table)?.unwrap_or(0);
    }
    Ok(())
}

/// Sees what a family shows, and what others show that are made from it: by all points of the problem, or by drafted ones and its own.
pub(crate) fn gather(
    alloc: Global,
    problem: &Problem,
    first: u32,
    family: &Family,
    seen: &mut Vec<RelSet>,
    help: &Help,
) -> Result<(), AllocError>
    requires met { IsMetBy problem.now family.now }
    requires seen { AreSeen problem.now (length (cross_pairs problem.now)) seen.old.items }
    ensures { OnOk result (AreSeen problem.now (length (cross_pairs problem.now)) seen.new.items) }
{
    if let Some(granter) = &help.granter {
        let table = &granter.table;
        return gather_by(
            alloc, problem, first, family, seen, &help.left, table, LEAST_MORE,
        );
    }
    let Some(drafted) = &help.drafted else {
        *seen = seen_with(alloc, problem, seen, family)?;
        return Ok(());
    };
    let table = with_family(alloc, problem, drafted, family)?;
    gather_by(
        alloc,
        problem,
        first,
        family,
        seen,
        &help.left,
        &table,
        LEAST_MORE_BY_PICKS,
    )
}
