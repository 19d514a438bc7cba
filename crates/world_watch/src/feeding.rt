//! The step of several watchers.

ghost use Rattle.std.specs.Prelude.{◌≡◌, length, OnOk, OnErr};
ghost use Rattle.world_model.specs.Problem.{pair_count};
ghost use Rattle.merge_print.specs.Json.{HasUtf8Names};
ghost use Rattle.world_watch.specs.Steps.{Took, Holds, AllTook, PrefixTook};

use crate::watcher::WorldWatcher;
use constraint_set::Problem;
use rcc5_core::Position;
use std::alloc::AllocError;

fn feed_one(
    watcher: &mut Box<dyn WorldWatcher>,
    problem: &Problem,
    table: &Position,
) -> Result<(), AllocError>
    requires names { HasUtf8Names problem.now }
    requires whole { length table.now ≡ pair_count problem.now }
    ensures ok { OnOk result (Took name text problem.now table.now watcher.old watcher.new) }
    ensures err { OnErr result (Holds name text watcher.old watcher.new) }
{
    watcher.see(problem, table)
}

/// Feeds a world to watchers, in order.
///
/// Where memory runs out, some first watchers have taken the step, and the others hold what they held.
pub fn feed(
    watchers: &mut Vec<Box<dyn WorldWatcher>>,
    problem: &Problem,
    table: &Position,
) -> Result<(), AllocError>
    requires names { HasUtf8Names problem.now }
    requires whole { length table.now ≡ pair_count problem.now }
    ensures ok { OnOk result (AllTook name text problem.now table.now watchers.old.items watchers.new.items) }
    ensures err { OnErr result (PrefixTook name text problem.now table.now watchers.old.items watchers.new.items) }
{
    for place in 0..watchers.len() {
        feed_one(&mut watchers[place], problem, table)?;
    }
    Ok(())
}
