//! Numbers that wait, the least of which comes first, and lists of numbers.
ghost use Rattle.std.specs.Prelude.{◌≡◌, ℕ, ◌+◌, ◌≤◌, ◌⊎◌, [], ◌∷◌, ◌++◌, length, Contains, IfSome, IfNone, OnOk, OnSome, IsTrue};

use std::alloc::{AllocError, Global};
use std::cmp::Reverse;
use std::collections::BinaryHeap;
use std::marker::Model;

/// Numbers in any order, some of them perhaps more than once.
#[derive(Drop)]
pub struct Waiting {
    heap: BinaryHeap<Reverse<u32>>,
}

impl Model for Waiting {
    ghost use Rattle.std.specs.Prelude.{ℕ, List, map};
    ghost use Rattle.std.specs.Ordering.{nat_cmp};
    ghost use Rattle.std.specs.BinaryHeap.{IsHeap, heap_items};

    ghost Value = { List ℕ };

    ghost view = { λ s. map (λ r. r.0) (heap_items s.heap) };

    ghost invariant = { λ s. IsHeap (λ a b. nat_cmp b.0 a.0) (heap_items s.heap) };
}

impl Waiting {
    pub fn new(alloc: Global) -> Waiting
        ensures { result ≡ [] }
    {
        Waiting {
            heap: BinaryHeap::new(alloc),
        }
    }

    pub fn push(&mut self, number: u32) -> Result<(), AllocError>
        ensures there { OnOk result (Contains self.new number) }
        ensures stay { OnOk result ((other : ℕ) → Contains self.old other → Contains self.new other) }
    {
        self.heap.push(Reverse(number))?;
        Ok(())
    }

    /// Takes out the least number, once.
    pub fn pop(&mut self) -> Option<u32>
        ensures least { IfSome result (λ number. (other : ℕ) → Contains self.old other → number ≤ other) }
        ensures stay { IfSome result (λ number. (other : ℕ) → Contains self.old other → (other ≡ number) ⊎ Contains self.new other) }
        ensures fewer { OnSome result (length self.new + 1 ≡ length self.old) }
        ensures none { IfNone result (self.old ≡ []) }
        ensures left { IfNone result (self.new ≡ []) }
    {
        let Reverse(number) = self.heap.pop()?;
        Some(number)
    }
}

/// Numbers in a row.
#[derive(Drop)]
pub(crate) struct Numbers {
    list: Vec<u32>,
}

impl Model for Numbers {
    ghost use Rattle.std.specs.Prelude.{ℕ, List};

    ghost Value = { List ℕ };

    ghost view = { λ s. s.list.items };
}

impl Numbers {
    pub(crate) fn new(alloc: Global) -> Numbers
        ensures { result ≡ [] }
    {
        Numbers {
            list: Vec::new(alloc),
        }
    }

    pub(crate) fn len(&self) -> usize
        ensures { result ≡ length self.now }
    {
        self.list.len()
    }

    // Whether the number stands at a place.
    pub(crate) fn has_at(&self, place: usize, number: u32) -> bool
        ensures { IsTrue result → Contains self.now number }
    {
        place < self.list.len() && self.list[place] == number
    }

    pub(crate) fn push(&mut self, number: u32) -> Result<(), AllocError>
        ensures { OnOk result (self.new ≡ self.old ++ number ∷ []) }
    {
        self.list.push(number)?;
        Ok(())
    }

    // Adds the numbers to a list.
    pub(crate) fn push_all(&self, list: &mut Vec<u32>) -> Result<(), AllocError>
        ensures { OnOk result (list.new.items ≡ list.old.items ++ self.now) }
    {
        list.extend_from_slice(&self.list)?;
        Ok(())
    }

    // Moves the numbers to those that wait.
    pub(crate) fn release(&mut self, waiting: &mut Waiting) -> Result<(), AllocError>
        ensures moved { OnOk result ((number : ℕ) → Contains self.old number → Contains waiting.new number) }
        ensures stay { OnOk result ((number : ℕ) → Contains waiting.old number → Contains waiting.new number) }
    {
        push_each(waiting, &self.list)?;
        self.list.clear();
        Ok(())
    }
}

// Adds some numbers to those that wait.
fn push_each(waiting: &mut Waiting, numbers: &[u32]) -> Result<(), AllocError>
    ensures there { OnOk result ((number : ℕ) → Contains numbers.now number → Contains waiting.new number) }
    ensures stay { OnOk result ((number : ℕ) → Contains waiting.old number → Contains waiting.new number) }
{
    for number in numbers {
        waiting.push(*number)?;
    }
    Ok(())
}
