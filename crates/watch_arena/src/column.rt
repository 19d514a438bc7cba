//! A fixed number of numbers.
ghost use Rattle.std.specs.Prelude.{◌≡◌, ◌<◌, ◌≤◌, length, replicate, slice_index, slice_set, IfOk};

use std::alloc::{AllocError, Global};
use std::marker::Model;

// A fixed number of numbers.
#[derive(Drop)]
pub(crate) struct Column {
    numbers: Vec<usize>,
}

impl Model for Column {
    ghost use Rattle.std.specs.Prelude.{ℕ, List};

    ghost Value = { List ℕ };

    ghost view = { λ c. c.numbers.items };
}

impl Column {
    ghost use Rattle.watch_arena.specs.Columns.{Caps};

    // Zeros.
    pub(crate) fn new(alloc: Global, count: usize) -> Result<Column, AllocError>
        ensures { IfOk result (λ c. c ≡ replicate count 0) }
    {
        let numbers = vec![in alloc; 0; count]?;
        Ok(Column { numbers })
    }

    pub(crate) fn get(&self, at: usize) -> usize
        requires { at < length self.now }
        ensures { result ≡ slice_index self.now at }
    {
        self.numbers[at]
    }

    pub(crate) fn set(&mut self, at: usize, number: usize)
        requires { at < length self.old }
        ensures { self.new ≡ slice_set self.old at number }
    {
        self.numbers[at] = number;
    }

    // Lowers the numbers from a place on and up to another that are above a limit to it.
    pub(crate) fn cap(&mut self, from: usize, to: usize, limit: usize)
        requires { to ≤ length self.old }
        ensures { Caps self.old self.new from to limit }
    {
        for at in from..to {
            let lowered = self.get(at).min(limit);
            self.set(at, lowered);
        }
    }
}
