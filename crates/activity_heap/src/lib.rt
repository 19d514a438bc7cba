//! Variables by how active they are.
#![tactic(auto)]

ghost use Rattle.std.specs.Prelude.{◌≡◌, ◌<◌, IfSome, OnSome};

use std::alloc::{AllocError, Global};

// Where an activity is past the limit, all are halved as often as `SHIFT` says, which keeps their order.
const LIMIT: u64 = 1 << 60;

const SHIFT: u32 = 40;

// What stands for the place of a variable that is not in the heap.
const NOWHERE: usize = usize::MAX;

/// A binary heap of variables with the most active one first, and the place of each variable in it.
///
/// No clause speaks of its order: what takes variables out of it may take them in any. Activities decay in that what is added
/// to them grows, by a sixteenth each time.
#[derive(Drop)]
pub struct Heap {
    entries: Vec<u32>,
    count: usize,
    places: Vec<usize>,
    activities: Vec<u64>,
    step: u64,
}

// The variable at a place of the heap.
fn read_entry(entries: &[u32], at: usize) -> u32 {
    entries.get(at).copied().unwrap_or(0)
}

impl Heap {
    /// An empty heap with room for so many variables.
    pub fn new(alloc: Global, variables: u32) -> Result<Heap, AllocError> {
        let room = variables as usize;
        Ok(Heap {
            entries: vec![in alloc; 0; room]?,
            count: 0,
            places: vec![in alloc; NOWHERE; room]?,
            activities: vec![in alloc; 0; room]?,
            step: 1 << 10,
        })
    }

    // The activity of the variable at a place.
    fn activity_at(&self, at: usize) -> u64 {
        let variable = read_entry(&self.entries, at) as usize;
        self.activities.get(variable).copied().unwrap_or(0)
    }

    // A variable stands at a place from here on.
    fn place(&mut self, at: usize, variable: u32)
        ensures { self.new.count ≡ self.old.count }
    {
        if let Some(entry) = self.entries.get_mut(at) {
            *entry = variable;
        }
        if let Some(place) = self.places.get_mut(variable as usize) {
            *place = at;
        }
    }

    // Exchanges the variables at two places.
    fn exchange(&mut self, a: usize, b: usize)
        ensures { self.new.count ≡ self.old.count }
    {
        let first = read_entry(&self.entries, a);
        let second = read_entry(&self.entries, b);
        self.place(a, second);
        self.place(b, first);
    }

    // Moves a variable up until none above it is less active.
    fn sift_up(&mut self, from: usize) {
        let mut at = from;
        while at > 0 {
            let above = (at - 1) / 2;
            if self.activity_at(above) >= self.activity_at(at) {
                return;
            }
            self.exchange(above, at);
            at = above;
        }
    }

    // The more active one of the two places below a place, if there is one.
    fn below(&self, at: usize) -> Option<usize>
        ensures { IfSome result (λ below. at < below) }
    {
        if at >= self.count / 2 {
            return None;
        }
        let left = 2 * at + 1;
        let right = left + 1;
        let is_right = right < self.count && self.activity_at(right) > self.activity_at(left);
        Some(if is_right { right } else { left })
    }

    // Moves a variable down until none below it is more active.
    fn sift_down(&mut self, from: usize)
        ensures { self.new.count ≡ self.old.count }
    {
        let mut at = from;
        for _ in 0..64 {
            let Some(below) = self.below(at) else {
                return;
            };
            if self.activity_at(at) >= self.activity_at(below) {
                return;
            }
            self.exchange(at, below);
            at = below;
        }
    }

    /// Puts a variable in, unless it is there or past the room.
    pub fn push(&mut self, variable: u32) {
        let index = variable as usize;
        let place = self.places.get(index).copied().unwrap_or(NOWHERE);
        let at = self.count;
        if place == NOWHERE && at < self.entries.len() {
            self.count = at + 1;
            self.place(at, variable);
            self.sift_up(at);
        }
    }

    /// Takes the most active variable out.
    pub fn pop(&mut self) -> Option<u32>
        ensures { OnSome result (self.new.count < self.old.count) }
    {
        if self.count == 0 {
            return None;
        }
        let last = self.count - 1;
        self.exchange(0, last);
        self.count = last;
        let variable = read_entry(&self.entries, last);
        self.place(NOWHERE, variable);
        self.sift_down(0);
        Some(variable)
    }

    // A variable becomes more active.
    fn bump(&mut self, variable: u32) {
        let index = variable as usize;
        if let Some(activity) = self.activities.get_mut(index) {
            *activity = activity.saturating_add(self.step);
            if *activity > LIMIT {
                self.rescale();
            }
        }
        let place = self.places.get(index).copied().unwrap_or(NOWHERE);
        if place < self.count {
            self.sift_up(place);
        }
    }

    /// Each of some variables becomes more active, and what becomes active from here on counts more.
    pub fn bump_all(&mut self, variables: &[u32]) {
        for variable in variables {
            self.bump(*variable);
        }
        self.step = self.step.saturating_add(self.step / 16);
        if self.step > LIMIT {
            self.rescale();
        }
    }

    // All activities become smaller, in their order.
    fn rescale(&mut self) {
        for activity in self.activities.iter_mut() {
            *activity = *activity >> SHIFT;
        }
        self.step = (self.step >> SHIFT).max(1);
    }
}
