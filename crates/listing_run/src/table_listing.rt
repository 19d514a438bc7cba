//! The listing of worlds along alive prefixes, where nobody counts nodes and nothing ends the listing.
ghost use Rattle.std.specs.Prelude.{◌≡◌, ◌≤◌, length, map, take, IfOk, IfSome, IfNone, OnOk};
ghost use Rattle.rcc5_core.specs.Relation.{letter_of};
ghost use Rattle.world_model.specs.Family.{IsPossibleWorld};
ghost use Rattle.world_search.specs.Walking.{IsBehind, IsLeastNode, HasNoNode};
ghost use Rattle.run_ends.specs.Ends.{world_line};
ghost use Rattle.run_ends.specs.Runs.{Leaves};
ghost use Rattle.listing_run.specs.Plans.{IsPlan};
ghost use Rattle.listing_run.specs.Putting.{IsPutToStop, IsPutPartly, AreTablesFor, IsStopBehind};

use crate::plan::{Listed, ListingPlan, Stop};
use constraint_set::Problem;
use outer_store::{Sink, StoreFault};
use rcc5_core::{Position, Rel};
use std::alloc::{AllocError, Global};
use world_search::{is_spent, node_behind, one_less};
use world_walk::Tables;

/// The worlds of a plan, if nothing ends it, nobody counts nodes, and a world may be put.
pub(crate) fn tables_for(alloc: Global, plan: &ListingPlan) -> Result<Option<Tables>, AllocError>
    requires { IsPlan plan.now }
    ensures { IfOk result (λ found. IfSome found (AreTablesFor plan.now)) }
{
    if plan.end.is_some() || plan.nodes.is_some() || is_spent(plan.worlds) {
        return Ok(None);
    }
    let tables = Tables::new(alloc, &plan.problem, &plan.start)?;
    Ok(Some(tables))
}

// Makes the line of a world from one that begins with so many of its letters.
fn rewrite(line: &mut Vec<u8>, table: &[Rel], kept: usize) -> Result<(), AllocError>
    requires within { kept ≤ length table.now }
    requires same { take kept line.old.items ≡ map letter_of (take kept table.now) }
    ensures { OnOk result (line.new.items ≡ world_line table.now) }
{
    line.truncate(kept);
    for rel in &table[kept..] {
        line.push(rel.letter())?;
    }
    line.push(b'\n')?;
    Ok(())
}

// The least node behind a world, if there is one.
fn cut_behind(
    alloc: Global,
    problem: &Problem,
    table: &[Rel],
) -> Result<Option<Position>, AllocError>
    requires { IsPossibleWorld problem.now table.now }
    ensures some { IfOk result (λ found. IfSome found (IsLeastNode problem.now (IsBehind table.now))) }
    ensures none { IfOk result (λ found. IfNone found (HasNoNode problem.now (IsBehind table.now))) }
{
    let mut world = Position::new(alloc);
    for rel in table {
        world.push(*rel)?;
    }
    node_behind(alloc, problem, &world)
}

// Where a listing stops that may put no world behind this one.
fn stop_behind(alloc: Global, problem: &Problem, table: &[Rel]) -> Result<Stop, AllocError>
    requires { IsPossibleWorld problem.now table.now }
    ensures { IfOk result (IsStopBehind problem.now table.now) }
{
    match cut_behind(alloc, problem, table)? {
        Some(node) => Ok(Stop::Cut(node)),
        None => Ok(Stop::End(None)),
    }
}

/// Puts the line of each world from the plan's start on, each line in one put, until as many are put as may be, or all.
pub(crate) fn put_tables<W: Sink>(
    alloc: Global,
    out: &mut W,
    plan: &ListingPlan,
    tables: &mut Tables,
) -> Result<Listed, StoreFault>
    requires { AreTablesFor plan.now tables.old }
    ensures { Leaves result (λ listed. IsPutToStop plan.now (W.state out.old).bytes (W.state out.new).bytes listed.stop listed.count) (IsPutPartly plan.now (W.state out.old).bytes (W.state out.new).bytes) (W.state out.old) (W.state out.new) }
{
    plan.problem.facts();
    let mut line = Vec::new(alloc);
    let mut worlds = plan.worlds;
    let mut count: u64 = 0;
    while let Some(kept) = tables.next()? {
        rewrite(&mut line, tables.table(), kept)?;
        out.put(&line)?;
        count = count.saturating_add(1);
        worlds = one_less(worlds);
        if is_spent(worlds) {
            let stop = stop_behind(alloc, &plan.problem, tables.table())?;
            return Ok(Listed { count, stop });
        }
    }
    Ok(Listed {
        count,
        stop: Stop::End(None),
    })
}
