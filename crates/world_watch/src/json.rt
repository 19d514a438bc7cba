//! The merged taxonomy of each world, as a line of JSON.

ghost use Rattle.std.specs.Prelude.{◌≡◌, length, codes, IfOk};
ghost use Rattle.world_model.specs.Problem.{pair_count};
ghost use Rattle.merge_print.specs.Json.{HasUtf8Names, merged_json};
ghost use Rattle.merge_print.specs.Merged.{merged_of};
ghost use Rattle.world_watch.specs.Kinds.{json_part, json_report};
ghost use Rattle.world_watch.specs.Steps.{IsNew};

use crate::watcher::WorldWatcher;
use constraint_set::Problem;
use merge_print::{merged, merged_json};
use rcc5_core::Position;
use std::alloc::{AllocError, Global};

/// Keeps each world's merged taxonomy as a line of JSON.
#[derive(Drop)]
pub struct JsonWatcher {
    alloc: Global,
    lines: Vec<u8>,
}

// A world's merged taxonomy as JSON.
fn json_of(alloc: Global, problem: &Problem, table: &Position) -> Result<Vec<u8>, AllocError>
    requires names { HasUtf8Names problem.now }
    requires whole { length table.now ≡ pair_count problem.now }
    ensures { IfOk result (λ json. json.items ≡ merged_json problem.now (merged_of problem.now table.now)) }
{
    let taxonomy = merged(alloc, problem, table)?;
    merged_json(alloc, problem, &taxonomy)
}

fn world_line(alloc: Global, problem: &Problem, table: &Position) -> Result<Vec<u8>, AllocError>
    requires names { HasUtf8Names problem.now }
    requires whole { length table.now ≡ pair_count problem.now }
    ensures { IfOk result (λ line. line.items ≡ json_part problem.now table.now) }
{
    let mut line = json_of(alloc, problem, table)?;
    line.extend_from_slice(b"\n")?;
    Ok(line)
}

impl JsonWatcher {
    pub fn new(alloc: Global) -> JsonWatcher
        ensures { IsNew ⟦<JsonWatcher as WorldWatcher>⟧.name ⟦<JsonWatcher as WorldWatcher>⟧.text (codes "json") json_report result }
    {
        JsonWatcher {
            alloc,
            lines: Vec::new(alloc),
        }
    }
}

impl WorldWatcher for JsonWatcher {
    ghost use Rattle.std.specs.Prelude.{◌++◌, codes, flat_map};
    ghost use Rattle.world_watch.specs.Kinds.{json_part};

    ghost name = { λ _. codes "json" };

    ghost text = { λ w p tables. w.lines.items ++ flat_map (json_part p) tables };

    fn is_named(&self, word: &[u8]) -> bool {
        word == b"json".as_slice()
    }

    fn see(&mut self, problem: &Problem, table: &Position) -> Result<(), AllocError> {
        let line = world_line(self.alloc, problem, table)?;
        self.lines.extend_from_slice(&line)?;
        Ok(())
    }

    fn report(&self, alloc: Global, _problem: &Problem) -> Result<Vec<u8>, AllocError> {
        Vec::from_slice(alloc, &self.lines)
    }
}
