//! What a walk knows of the prefixes of its path: by which relations alive nodes follow them.
ghost use Rattle.std.specs.Prelude.{ℕ, ◌≡◌, ◌≤◌, ◌⊎◌, IfSome};
ghost use Rattle.rcc5_core.specs.declared.RelSet.{RelSet};
ghost use Rattle.world_search.specs.Opens.{Keeps};

use rcc5_core::RelSet;
use std::alloc::Global;

/// Sets of relations for prefixes of a path, each of which has one relation more than the one before it.
#[derive(Drop)]
pub struct Opens {
    /// How long the first of these prefixes is.
    pub first: usize,
    pub sets: Vec<RelSet>,
}

impl Opens {
    /// No set for any prefix.
    pub fn new(alloc: Global) -> Opens
        ensures { (depth : ℕ) (set : RelSet) → Keeps result depth set → ⊥ }
    {
        Opens {
            first: 0,
            sets: Vec::new(alloc),
        }
    }

    /// The set of the prefix of a length, where one is kept.
    pub fn at(&self, depth: usize) -> Option<RelSet>
        ensures { IfSome result (Keeps self.now depth) }
    {
        let place = depth.checked_sub(self.first)?;
        self.sets.get(place).copied()
    }

    /// Keeps the set of the prefix of a length, and it alone where it doesn't follow those that are kept. Where memory is wanting
    /// it is not kept.
    pub fn keep(&mut self, depth: usize, set: RelSet)
        ensures { (d : ℕ) (s : RelSet) → Keeps self.new d s → Keeps self.old d s ⊎ ((d ≡ depth) × (s ≡ set)) }
    {
        if depth.checked_sub(self.first) != Some(self.sets.len()) {
            self.sets.clear();
            self.first = depth;
        }
        let _ = self.sets.push(set);
    }

    /// Lets go the sets of prefixes that are longer.
    pub fn back_to(&mut self, depth: usize)
        ensures { (d : ℕ) (s : RelSet) → Keeps self.new d s → Keeps self.old d s × (d ≤ depth) }
    {
        match depth.checked_sub(self.first) {
            Some(last) => self.sets.truncate(last.saturating_add(1)),
            None => self.sets.clear(),
        }
    }
}
