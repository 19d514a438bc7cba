//! What closed a need the last time that a relation was tried at a pair.
use rcc5_core::Rel;
use std::alloc::{AllocError, Global};

// No more entries than these are kept. Where two relations share one, a look at it may be in vain.
const MOST: usize = 1 << 16;

/// A need, by its number, and the clause that closed it.
#[derive(Clone, Copy)]
pub(crate) struct Closing {
    pub(crate) number: u32,
    pub(crate) id: u64,
}

/// For each pair and relation, the closing that was met there last: hints, since what a clause says is read anew.
#[derive(Drop)]
pub(crate) struct Stuck {
    entries: Vec<Option<Closing>>,
}

impl Stuck {
    // Nothing was met yet, among so many pairs.
    pub(crate) fn new(alloc: Global, pairs: u32) -> Result<Stuck, AllocError> {
        let count = (pairs as usize).saturating_mul(5).min(MOST);
        Ok(Stuck {
            entries: vec![in alloc; None; count]?,
        })
    }

    // Where the entry of a pair and a relation is.
    fn place(&self, pair: u32, rel: Rel) -> usize {
        let key = (pair as usize)
            .saturating_mul(5)
            .saturating_add(number_of(rel));
        key.checked_rem(self.entries.len()).unwrap_or(0)
    }

    // What was met there last.
    pub(crate) fn at(&self, pair: u32, rel: Rel) -> Option<Closing> {
        match self.entries.get(self.place(pair, rel)) {
            Some(entry) => *entry,
            None => None,
        }
    }

    // Notes what is met there now.
    pub(crate) fn note(&mut self, pair: u32, rel: Rel, closing: Closing) {
        let place = self.place(pair, rel);
        if let Some(entry) = self.entries.get_mut(place) {
            *entry = Some(closing);
        }
    }
}

// The number of a relation among the five.
fn number_of(rel: Rel) -> usize {
    match rel {
        Rel::Equals => 0,
        Rel::Includes => 1,
        Rel::IncludedIn => 2,
        Rel::Overlaps => 3,
        Rel::Disjoint => 4,
    }
}
