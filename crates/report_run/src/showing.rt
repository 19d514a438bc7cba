//! All possible worlds of a problem, shown to watchers.
ghost use Rattle.std.specs.Prelude.{◌≡◌, ◌≤◌, [], ◌∷◌, length, take, None, IfOk, IfSome, IfNone, OnOk};
ghost use Rattle.world_model.specs.Problem.{pair_count};
ghost use Rattle.merge_print.specs.Json.{HasUtf8Names};
ghost use Rattle.world_walk.specs.Tables.{IsNewListing};
ghost use Rattle.report_run.specs.Steps.{AreShownAll};

use constraint_set::Problem;
use rcc5_core::{Position, Rel};
use std::alloc::{AllocError, Global};
use world_walk::Tables;
use world_watch::{WorldWatcher, feed};

// Takes relations off the end until so many are left.
fn cut(world: &mut Position, kept: usize)
    requires { kept ≤ length world.old }
    ensures { world.new ≡ take kept world.old }
{
    while world.len() > kept {
        world.pop();
    }
}

// Makes a table from one that begins with so many of its relations.
fn rewrite(world: &mut Position, table: &[Rel], kept: usize) -> Result<(), AllocError>
    requires within { kept ≤ length table.now }
    requires same { take kept world.old ≡ take kept table.now }
    ensures { OnOk result (world.new ≡ table.now) }
{
    cut(world, kept);
    for rel in &table[kept..] {
        world.push(*rel)?;
    }
    Ok(())
}

// Shows watchers all worlds of a listing, and counts them, up to the last value of a u64.
fn show_tables(
    alloc: Global,
    problem: &Problem,
    tables: &mut Tables,
    watchers: &mut Vec<Box<dyn WorldWatcher>>,
) -> Result<u64, AllocError>
    requires names { HasUtf8Names problem.now }
    requires tables { IsNewListing problem.now [] tables.old }
    ensures { IfOk result (AreShownAll name text problem.now watchers.old.items watchers.new.items) }
{
    problem.facts();
    let mut world = Position::new(alloc);
    let mut count: u64 = 0;
    while let Some(kept) = tables.next()? {
        rewrite(&mut world, tables.table(), kept)?;
        feed(watchers, problem, &world)?;
        count = count.saturating_add(1);
    }
    Ok(count)
}

/// Shows watchers all possible worlds of a problem, in order, and counts them.
pub(crate) fn show_all(
    alloc: Global,
    problem: &Problem,
    watchers: &mut Vec<Box<dyn WorldWatcher>>,
) -> Result<u64, AllocError>
    requires names { HasUtf8Names problem.now }
    ensures { IfOk result (AreShownAll name text problem.now watchers.old.items watchers.new.items) }
{
    let start = Position::new(alloc);
    let mut tables = Tables::new(alloc, problem, &start)?;
    show_tables(alloc, problem, &mut tables, watchers)
}
