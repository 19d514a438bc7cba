//! How many worlds there are.

ghost use Rattle.std.specs.Prelude.{codes};
ghost use Rattle.world_watch.specs.Kinds.{count_report};
ghost use Rattle.world_watch.specs.Steps.{IsNew};

use crate::watcher::WorldWatcher;
use constraint_set::Problem;
use proof_text::print_number;
use rcc5_core::Position;
use std::alloc::{AllocError, Global};

/// Counts worlds. The count stays at the last value of a u64.
#[derive(Drop)]
pub struct CountWatcher {
    count: u64,
}

impl CountWatcher {
    pub fn new(_alloc: Global) -> CountWatcher
        ensures { IsNew ⟦<CountWatcher as WorldWatcher>⟧.name ⟦<CountWatcher as WorldWatcher>⟧.text (codes "count") count_report result }
    {
        CountWatcher { count: 0 }
    }
}

impl WorldWatcher for CountWatcher {
    ghost use Rattle.std.specs.Prelude.{◌+◌, length, codes};
    ghost use Rattle.world_watch.specs.Kinds.{count_line};

    ghost name = { λ _. codes "count" };

    ghost text = { λ w p tables. count_line (w.count + length tables) };

    fn is_named(&self, word: &[u8]) -> bool {
        word == b"count".as_slice()
    }

    fn see(&mut self, _problem: &Problem, _table: &Position) -> Result<(), AllocError> {
        self.count = self.count.saturating_add(1);
        Ok(())
    }

    fn report(&self, alloc: Global, _problem: &Problem) -> Result<Vec<u8>, AllocError> {
        let mut report = Vec::new(alloc);
        print_number(&mut report, self.count)?;
        report.push(b'\n')?;
        Ok(report)
    }
}
