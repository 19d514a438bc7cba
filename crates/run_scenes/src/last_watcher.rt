//! A watcher of a caller's own that keeps the last table.

ghost use Rattle.std.specs.Prelude.{◌≡◌, IfOk};
ghost use Rattle.run_ends.specs.Ends.{world_line};

use constraint_set::Problem;
use proof_text::put_letters;
use rcc5_core::Position;
use std::alloc::{AllocError, Global};
use world_watch::WorldWatcher;

/// Keeps the line of the last world: the letters of its table and a line feed. It is empty before the first.
#[derive(Drop)]
pub struct LastWatcher {
    alloc: Global,
    line: Vec<u8>,
}

fn line_of(alloc: Global, table: &Position) -> Result<Vec<u8>, AllocError>
    ensures { IfOk result (λ line. line.items ≡ world_line table.now) }
{
    let mut line = Vec::new(alloc);
    put_letters(&mut line, table.rels())?;
    line.push(b'\n')?;
    Ok(line)
}

impl LastWatcher {
    pub fn new(alloc: Global) -> LastWatcher {
        LastWatcher {
            alloc,
            line: Vec::new(alloc),
        }
    }
}

impl WorldWatcher for LastWatcher {
    ghost use Rattle.std.specs.Prelude.{codes, fold};
    ghost use Rattle.run_ends.specs.Ends.{world_line};

    ghost name = { λ _. codes "last" };

    // Each table's line takes the place of the line before it.
    ghost text = { λ w p tables. fold (λ line table. world_line table) w.line.items tables };

    fn is_named(&self, word: &[u8]) -> bool {
        word == b"last".as_slice()
    }

    fn see(&mut self, _problem: &Problem, table: &Position) -> Result<(), AllocError> {
        self.line = line_of(self.alloc, table)?;
        Ok(())
    }

    fn report(&self, alloc: Global, _problem: &Problem) -> Result<Vec<u8>, AllocError> {
        Vec::from_slice(alloc, &self.line)
    }
}
