//! A watcher of a caller's own.

use constraint_set::Problem;
use rcc5_core::Position;
use std::alloc::{AllocError, Global};
use std::cell::Cell;
use std::rc::Rc;
use world_watch::WorldWatcher;

/// A watcher with any name and any report, which finds no memory after so many worlds.
#[derive(Drop)]
pub struct OwnWatcher {
    name: Vec<u8>,
    says: Vec<u8>,
    left: u64,
    /// How many held this when the first world was shown to one of them; 0 before.
    held: Rc<Cell<usize>>,
}

impl OwnWatcher {
    pub fn new(
        alloc: Global,
        name: &str,
        says: &str,
        left: u64,
        held: &Rc<Cell<usize>>,
    ) -> Result<OwnWatcher, AllocError> {
        Ok(OwnWatcher {
            name: Vec::from_slice(alloc, name.as_bytes())?,
            says: Vec::from_slice(alloc, says.as_bytes())?,
            left,
            held: held.clone()?,
        })
    }
}

impl WorldWatcher for OwnWatcher {
    ghost name = { λ w. w.name.items };

    ghost text = { λ w p tables. w.says.items };

    fn is_named(&self, word: &[u8]) -> bool {
        word == self.name.as_slice()
    }

    fn see(&mut self, _problem: &Problem, _table: &Position) -> Result<(), AllocError> {
        if self.held.get() == 0 {
            self.held.set(Rc::strong_count(&self.held));
        }
        if self.left == 0 {
            return Err(AllocError);
        }
        self.left -= 1;
        Ok(())
    }

    fn report(&self, alloc: Global, _problem: &Problem) -> Result<Vec<u8>, AllocError> {
        Vec::from_slice(alloc, &self.says)
    }
}
