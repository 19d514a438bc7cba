//! The points that serve the needs.
ghost use Rattle.bit_rows.specs.Rows.{has_bit};
ghost use Rattle.point_encode.specs.Numbers.{AreServing, EachServed, IsBelow, needs_below, wanted_seen};
ghost use Rattle.point_encode.specs.Model.Forced.{need_at, need_count};
ghost use Rattle.point_pool.specs.Pools.{AreGathered, FitsNeed, HasWitness, IsAdded, IsFit, IsKept, IsPool, IsPoolBut, served_at};
ghost use Rattle.std.specs.Prelude.{Contains, IfOk, IfSome, IsTrue, OnOk, [], length, true, ℕ, ◌+◌, ◌<◌, ◌≡◌};
ghost use Rattle.world_model.specs.Alive.{is_in_need, is_point, needs, problem_at};
ghost use Rattle.world_model.specs.Problem.{concept_count};

use crate::copies::copy;
use crate::pool::Pool;
use crate::waiting::Numbers;
use lits_core::Bits;
use point_encode::{Wanted, by_concepts, count_needs, is_in};
use std::alloc::AllocError;
use world_model::positions_narrow;

impl Pool {
    /// Whether a point is known to serve a need.
    pub fn is_served(&self, number: u32) -> bool
        requires kept { IsKept self.now }
        requires within { number < need_count self.now.cursor.problem }
        ensures { result ≡ true → HasWitness self.now number }
    {
        let place = self.witness[number as usize];
        let wanted = by_concepts(self.cursor.problem(), number);
        self.is_fit(place, wanted) && self.serves_at(place, number)
    }

    // Whether a point of the prefix is in a need.
    fn is_fit(&self, place: usize, wanted: Wanted) -> bool
        requires kept { IsKept self.now }
        requires below { IsBelow (concept_count self.now.cursor.problem) wanted }
        ensures { result ≡ true → IsFit self.now.places (wanted_seen wanted) place }
    {
        if place >= self.places.len() {
            return false;
        }
        self.places.is_live(place) && is_in(wanted, self.places.point(place))
    }

    // Whether a point serves a need, by its place.
    fn serves_at(&self, place: usize, number: u32) -> bool
        requires slotted { number < length self.now.slots.items }
        ensures used { result ≡ true → has_bit self.now.places.used place ≡ true }
        ensures listed { result ≡ true → Contains (served_at self.now.serves.items place) number }
    {
        self.places.is_used(place) && self.is_listed(place, number)
    }

    // Whether the list of a point has a need's number, where its slot says.
    fn is_listed(&self, place: usize, number: u32) -> bool
        requires slotted { number < length self.now.slots.items }
        ensures { result ≡ true → Contains (served_at self.now.serves.items place) number }
    {
        place < self.serves.len() && self.serves[place].has_at(self.slots[number as usize], number)
    }

    /// The place of a point of the prefix that is in a need: that of the last witness, or else the first.
    pub fn find(&self, number: u32) -> Option<usize>
        requires kept { IsKept self.now }
        requires within { number < need_count self.now.cursor.problem }
        ensures { IfSome result (FitsNeed self.now number) }
    {
        let wanted = by_concepts(self.cursor.problem(), number);
        let witness = self.witness[number as usize];
        if self.is_fit(witness, wanted) {
            return Some(witness);
        }
        let place = self.first_in(wanted)?;
        if self.is_fit(place, wanted) {
            return Some(place);
        }
        None
    }

    // The place of the first live point in a need.
    fn first_in(&self, wanted: Wanted) -> Option<usize>
        requires kept { IsKept self.now }
        requires below { IsBelow (concept_count self.now.cursor.problem) wanted }
    {
        match wanted {
            Wanted::Concept(concept) => {
                self.places.next_met(0, (concept, true), (concept, true))
            }
            Wanted::Region { x, y, part } => {
                self.places.next_met(0, (x, part != 2), (y, part != 0))
            }
        }
    }

    /// Makes a point the witness of a need.
    pub fn assign(&mut self, number: u32, place: usize) -> Result<(), AllocError>
        requires pool { IsPoolBut self.old number (number + 1) }
        requires within { number < need_count self.old.cursor.problem }
        requires fit { FitsNeed self.old number place }
        ensures pool { OnOk result (IsPool self.new) }
        ensures cursor { OnOk result (self.new.cursor ≡ self.old.cursor) }
        ensures served { OnOk result (HasWitness self.new number) }
        ensures waiting { OnOk result (self.new.waiting ≡ self.old.waiting) }
    {
        self.places.note_use(place)?;
        let slot = self.serves[place].len();
        self.serves[place].push(number)?;
        self.witness[number as usize] = place;
        self.slots[number as usize] = slot;
        Ok(())
    }

    /// Adds a point of the prefix, and answers its place.
    pub fn add(&mut self, bits: Bits) -> Result<usize, AllocError>
        requires kept { IsKept self.old }
        requires point { IsTrue (is_point (problem_at self.old.cursor.problem self.old.cursor.path) bits) }
        ensures pool { OnOk result ((low high : ℕ) → IsPoolBut self.old low high → IsPoolBut self.new low high) }
        ensures cursor { OnOk result (self.new.cursor ≡ self.old.cursor) }
        ensures added { IfOk result (IsAdded self.new bits) }
        ensures waiting { OnOk result (self.new.waiting ≡ self.old.waiting) }
    {
        positions_narrow();
        self.cursor.facts();
        self.places.facts();
        let place = self.places.add(bits)?;
        self.serves.push(Numbers::new(self.alloc))?;
        Ok(place)
    }

    /// The point that serves a need.
    pub fn witness(&self, number: u32) -> Result<Bits, AllocError>
        requires kept { IsKept self.now }
        requires within { number < need_count self.now.cursor.problem }
        requires served { HasWitness self.now number }
        ensures point { IfOk result (λ bits. IsTrue (is_point (problem_at self.now.cursor.problem self.now.cursor.path) bits)) }
        ensures in_need { IfOk result (λ bits. IsTrue (is_in_need (need_at self.now.cursor.problem number) bits)) }
    {
        let place = self.witness[number as usize];
        let point = copy(self.alloc, self.places.point(place))?;
        Ok(point)
    }

    /// A point for each need, in order, where none waits.
    pub fn witnesses(&self) -> Result<Vec<Bits>, AllocError>
        requires pool { IsPool self.now }
        requires settled { self.now.waiting ≡ [] }
        ensures { IfOk result (λ list. EachServed (problem_at self.now.cursor.problem self.now.cursor.path) (needs (problem_at self.now.cursor.problem self.now.cursor.path)) list.items) }
    {
        let mut list = Vec::new(self.alloc);
        for number in 0..count_needs(self.cursor.problem()) {
            self.push_witness(&mut list, number)?;
        }
        Ok(list)
    }

    // Adds the point of a need, if the number is that of one.
    fn push_witness(&self, list: &mut Vec<Bits>, number: u32) -> Result<(), AllocError>
        requires pool { IsPool self.now }
        requires settled { self.now.waiting ≡ [] }
        requires within { number < need_count self.now.cursor.problem }
        requires served { EachServed (problem_at self.now.cursor.problem self.now.cursor.path) (needs_below (problem_at self.now.cursor.problem self.now.cursor.path) number) list.old.items }
        ensures { OnOk result (EachServed (problem_at self.now.cursor.problem self.now.cursor.path) (needs_below (problem_at self.now.cursor.problem self.now.cursor.path) (number + 1)) list.new.items) }
    {
        if !self.cursor.is_needed(number) {
            return Ok(());
        }
        let place = self.witness[number as usize];
        list.push(copy(self.alloc, self.places.point(place))?)?;
        Ok(())
    }

    /// The witnesses of all needs, each point once, where none waits.
    pub fn gathered(&self) -> Result<Vec<Bits>, AllocError>
        requires pool { IsPool self.now }
        requires settled { self.now.waiting ≡ [] }
        ensures { IfOk result (λ list. AreServing (problem_at self.now.cursor.problem self.now.cursor.path) (needs (problem_at self.now.cursor.problem self.now.cursor.path)) list.items) }
    {
        let mut list = Vec::new(self.alloc);
        let mut taken = vec![in self.alloc; false; self.places.len()]?;
        for number in 0..count_needs(self.cursor.problem()) {
            self.gather(&mut list, &mut taken, number)?;
        }
        Ok(list)
    }

    // Adds the witness of a need, if the number is that of one and its point is not there yet.
    fn gather(
        &self,
        list: &mut Vec<Bits>,
        taken: &mut Vec<bool>,
        number: u32,
    ) -> Result<(), AllocError>
        requires pool { IsPool self.now }
        requires settled { self.now.waiting ≡ [] }
        requires within { number < need_count self.now.cursor.problem }
        requires gathered { AreGathered self.now number list.old.items taken.old.items }
        ensures { OnOk result (AreGathered self.now (number + 1) list.new.items taken.new.items) }
    {
        if !self.cursor.is_needed(number) {
            return Ok(());
        }
        let place = self.witness[number as usize];
        if taken[place] {
            return Ok(());
        }
        list.push(copy(self.alloc, self.places.point(place))?)?;
        taken[place] = true;
        Ok(())
    }
}
