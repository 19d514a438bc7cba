//! Where the entries stand, by their ids.

ghost use Rattle.std.specs.Prelude.{◌≡◌, ◌==◌, ◌-◌, ℕ, None, Some, if◌then◌else◌, slice_set, ◌<◌, length, OnOk, OnErr};
ghost use Rattle.proof_check.specs.Slots.{slot_of, place_of};

use std::alloc::{AllocError, Global};
use std::collections::BTreeMap;

/// Places by ids. Ids mostly grow by one from line to line: such a run from the first id on has a table, and the other
/// ids stand in order.
#[derive(Drop)]
pub struct Places {
    first: u64,
    table: Vec<Option<usize>>,
    others: BTreeMap<u64, usize>,
}

impl Places {
    pub fn new(alloc: Global) -> Self
        ensures { (id : ℕ) → place_of result id ≡ None }
    {
        Places {
            first: 0,
            table: Vec::new(alloc),
            others: BTreeMap::new(alloc),
        }
    }

    pub fn get(&self, id: u64) -> Option<usize>
        ensures { result ≡ place_of self.now id }
    {
        match self.slot(id) {
            Some(slot) => self.table[slot],
            None => self.others.get(&id).copied(),
        }
    }

    pub fn insert(&mut self, id: u64, place: usize) -> Result<(), AllocError>
        requires { place_of self.old id ≡ None }
        ensures ok { OnOk result ((q : ℕ) → place_of self.new q ≡ (if id == q then Some place else place_of self.old q)) }
        ensures err { OnErr result ((q : ℕ) → place_of self.new q ≡ place_of self.old q) }
    {
        if self.table.is_empty() {
            self.first = id;
        }
        if let Some(slot) = self.slot(id) {
            self.table[slot] = Some(place);
            return Ok(());
        }
        if id.checked_sub(self.first) == Some(self.table.len() as u64) {
            self.table.push(Some(place))?;
            return Ok(());
        }
        self.others.insert(id, place)?;
        Ok(())
    }

    pub fn remove(&mut self, id: u64) -> Option<usize>
        ensures value { result ≡ place_of self.old id }
        ensures out { (q : ℕ) → place_of self.new q ≡ (if id == q then None else place_of self.old q) }
    {
        match self.slot(id) {
            Some(slot) => {
                let place = self.table[slot];
                self.table[slot] = None;
                place
            }
            None => self.others.remove(&id),
        }
    }

    pub fn clear(&mut self)
        ensures { (q : ℕ) → place_of self.new q ≡ None }
    {
        self.table.clear();
        self.others.clear();
    }

    /// The place in the table, of an id that is within it.
    fn slot(&self, id: u64) -> Option<usize>
        ensures { result ≡ slot_of self.now.first (length self.now.table.items) id }
    {
        let slot = id.checked_sub(self.first)?;
        if slot < self.table.len() as u64 {
            Some(slot as usize)
        } else {
            None
        }
    }
}
