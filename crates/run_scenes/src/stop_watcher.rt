//! A watcher of a caller's own that counts worlds and then finds no memory.

use constraint_set::Problem;
use rcc5_core::Position;
use std::alloc::{AllocError, Global};
use world_watch::{CountWatcher, WorldWatcher};

/// Counts as the program's watcher does, so that its report tells what it holds, and finds no memory after so many worlds.
#[derive(Drop)]
pub struct StopWatcher {
    count: CountWatcher,
    left: u64,
}

impl StopWatcher {
    pub fn new(alloc: Global, left: u64) -> StopWatcher {
        StopWatcher {
            count: CountWatcher::new(alloc),
            left,
        }
    }
}

impl WorldWatcher for StopWatcher {
    ghost use Rattle.std.specs.Prelude.{codes};

    ghost name = { λ _. codes "stop" };

    ghost text = { λ w p tables. ⟦<CountWatcher as WorldWatcher>⟧.text w.count p tables };

    fn is_named(&self, word: &[u8]) -> bool {
        word == b"stop".as_slice()
    }

    fn see(&mut self, problem: &Problem, table: &Position) -> Result<(), AllocError> {
        if self.left == 0 {
            return Err(AllocError);
        }
        self.left -= 1;
        self.count.see(problem, table)
    }

    fn report(&self, alloc: Global, problem: &Problem) -> Result<Vec<u8>, AllocError> {
        self.count.report(alloc, problem)
    }
}
