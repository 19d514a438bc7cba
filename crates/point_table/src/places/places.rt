//! Points by their places, as a row of bits for each concept.
ghost use Rattle.bit_rows.specs.Rows.{SomePlace, has_bit, word_bit};
ghost use Rattle.point_table.specs.Places.Places.{AreRevived, AreStruck, IsAdded, IsNextMet, IsRevived, IsStruck, IsUsed, are_as, is_as, is_at_risk, is_clear, meets, meets_clear, shows_at};
ghost use Rattle.std.specs.Prelude.{Contains, IfNone, IfOk, IfSome, IsTrue, OnOk, [], false, length, not, slice_index_or, true, ℕ, ◌*◌, ◌+◌, ◌<◌, ◌||◌, ◌↔◌, ◌≡◌, ◌≢◌, ◌≤◌};
ghost use Rattle.world_model.specs.Alive.{avoids_by, point_at};

use crate::places::row::Row;
use crate::points::avoids_by;
use bit_rows::has_bit;
use lits_core::Bits;
use rcc5_core::Regions;
use std::alloc::{AllocError, Global};
use std::marker::Model;

/// Points, which of them each concept has, and which are live and which are used. A place is that of a point in the list.
#[derive(Drop)]
pub struct Places {
    points: Vec<Bits>,
    with: Vec<Row>,
    live: Row,
    used: Row,
}

impl Model for Places {
    ghost use Rattle.point_table.specs.Places.Places.{AreTold, PlaceState};
    ghost use Rattle.std.specs.Prelude.{length};

    ghost Value = { PlaceState };

    ghost view = { λ s. record { concepts = length s.with.items; points = s.points.items; live = s.live; used = s.used } };

    ghost invariant = { λ s. AreTold s.points.items s.with.items s.live };
}

impl Places {
    /// No points, of which so many concepts will be asked.
    pub fn new(alloc: Global, concepts: usize) -> Result<Places, AllocError>
        ensures { IfOk result (λ s. s ≡ record { concepts = concepts; points = []; live = []; used = [] }) }
    {
        let with = empty_rows(alloc, concepts)?;
        Ok(Places {
            points: Vec::new(alloc),
            with,
            live: Row::new(alloc),
            used: Row::new(alloc),
        })
    }

    /// What holds of all places. A call does nothing: it tells the prover.
    pub fn facts(&self)
        ensures live { (k : ℕ) → has_bit self.now.live k ≡ true → k < length self.now.points }
        ensures fits { length self.now.points < 18446744073709551616 }
    {
        let _ = self.points.len();
    }

    /// How many points there are.
    pub fn len(&self) -> usize
        ensures { result ≡ length self.now.points }
    {
        self.points.len()
    }

    /// The point at a place.
    pub fn point(&self, place: usize) -> &Bits
        requires { place < length self.now.points }
        ensures { result.now ≡ point_at self.now.points place }
    {
        &self.points[place]
    }

    pub fn is_live(&self, place: usize) -> bool
        ensures { result ≡ has_bit self.now.live place }
    {
        self.live.has(place)
    }

    pub fn is_used(&self, place: usize) -> bool
        ensures { result ≡ has_bit self.now.used place }
    {
        self.used.has(place)
    }

    /// Adds a point, live and not used, and answers its place.
    pub fn add(&mut self, bits: Bits) -> Result<usize, AllocError>
        requires { length bits ≡ self.old.concepts }
        ensures { IfOk result (IsAdded self.old self.new bits) }
    {
        let place = self.points.len();
        tell(&mut self.with, place, &bits)?;
        self.live.fit(place)?;
        self.used.unset(place);
        self.points.push(bits)?;
        self.live.set(place);
        Ok(place)
    }

    /// The point at a place is no more live, nor used.
    pub fn strike(&mut self, place: usize)
        ensures { IsStruck self.old self.new place }
    {
        self.live.unset(place);
        self.used.unset(place);
    }

    /// The point at a place is live again.
    pub fn revive(&mut self, place: usize)
        requires { place < length self.old.points }
        ensures { IsRevived self.old self.new place }
    {
        self.live.set(place);
    }

    /// All points are live again, and none is used.
    pub fn revive_all(&mut self)
        ensures { AreRevived self.old self.new }
    {
        self.used.clear();
        self.live.set_below(self.points.len());
    }

    /// The point at a place is used.
    pub fn note_use(&mut self, place: usize) -> Result<(), AllocError>
        ensures { OnOk result (IsUsed self.old self.new place) }
    {
        self.used.assign(place, true)
    }

    /// The first live point, in the words from one on, that two concepts have or lack, as is said.
    pub fn next_met(&self, from: usize, one: (u32, bool), other: (u32, bool)) -> Option<usize>
        requires one { one.0 < self.now.concepts }
        requires other { other.0 < self.now.concepts }
        ensures some { IfSome result (IsNextMet self.now from one other) }
        ensures none { IfNone result ((k : ℕ) → 64 * from ≤ k → meets self.now one other k ≡ false) }
    {
        for at in from..self.live.len() {
            let word = self.met_word(at, one, other);
            if word != 0 {
                return Some(64 * at + word.trailing_zeros() as usize);
            }
        }
        None
    }

    /// Whether a live point that is used is one that two concepts have or lack, as is said.
    pub fn shows(&self, one: (u32, bool), other: (u32, bool)) -> bool
        requires one { one.0 < self.now.concepts }
        requires other { other.0 < self.now.concepts }
        ensures { IsTrue result ↔ SomePlace (shows_at self.now one other) }
    {
        for at in 0..self.used.len() {
            if self.used.word(at) & self.met_word(at, one, other) != 0 {
                return true;
            }
        }
        false
    }

    /// Whether a live point that two concepts have or lack, as is said, is in no region of a pair that is forced empty.
    pub fn has_clear(
        &self,
        one: (u32, bool),
        other: (u32, bool),
        pair: (u32, u32),
        regions: Regions,
    ) -> bool
        requires one { one.0 < self.now.concepts }
        requires other { other.0 < self.now.concepts }
        requires left { pair.0 < self.now.concepts }
        requires right { pair.1 < self.now.concepts }
        ensures { IsTrue result → SomePlace (meets_clear self.now one other pair regions) }
    {
        for at in 0..self.live.len() {
            if self.met_word(at, one, other) & self.clear_word(at, pair, regions) != 0 {
                return true;
            }
        }
        false
    }

    /// The places of the points that are live and used, and in a region of a pair that is forced empty.
    pub fn at_risk(
        &self,
        alloc: Global,
        pair: (u32, u32),
        regions: Regions,
    ) -> Result<Vec<usize>, AllocError>
        requires left { pair.0 < self.now.concepts }
        requires right { pair.1 < self.now.concepts }
        ensures { IfOk result (λ list. (place : ℕ) → is_at_risk self.now pair regions place ≡ true → Contains list.items place) }
    {
        let mut list = Vec::new(alloc);
        for at in 0..self.used.len() {
            self.push_at_risk(&mut list, at, pair, regions)?;
        }
        Ok(list)
    }

    // Adds those of one word.
    fn push_at_risk(
        &self,
        list: &mut Vec<usize>,
        at: usize,
        pair: (u32, u32),
        regions: Regions,
    ) -> Result<(), AllocError>
        requires left { pair.0 < self.now.concepts }
        requires right { pair.1 < self.now.concepts }
        ensures there { OnOk result ((j : ℕ) → j < 64 → is_at_risk self.now pair regions (64 * at + j) ≡ true → Contains list.new.items (64 * at + j)) }
        ensures stay { OnOk result ((place : ℕ) → Contains list.old.items place → Contains list.new.items place) }
    {
        let word = self.used.word(at) & self.live.word(at) & !self.clear_word(at, pair, regions);
        if word != 0 {
            push_places(list, at, word)?;
        }
        Ok(())
    }

    /// Strikes out all points that two concepts have or lack, as is said.
    pub fn strike_all(&mut self, one: (u32, bool), other: (u32, bool))
        requires one { one.0 < self.old.concepts }
        requires other { other.0 < self.old.concepts }
        ensures { AreStruck self.old self.new one other }
    {
        self.facts();
        let mut from = 0;
        while let Some(place) = self.next_met(from / 64, one, other) {
            self.strike(place);
            from = place + 1;
        }
    }

    // A word of the live points that two concepts have or lack.
    fn met_word(&self, at: usize, one: (u32, bool), other: (u32, bool)) -> u64
        requires one { one.0 < self.now.concepts }
        requires other { other.0 < self.now.concepts }
        ensures { (j : ℕ) → j < 64 → meets self.now one other (64 * at + j) ≡ word_bit result j }
    {
        self.live.word(at) & self.side_word(at, one) & self.side_word(at, other)
    }

    // A word of the points that are in no region of a pair that is forced empty. What it says of places without a point counts for
    // nothing.
    fn clear_word(&self, at: usize, pair: (u32, u32), regions: Regions) -> u64
        requires left { pair.0 < self.now.concepts }
        requires right { pair.1 < self.now.concepts }
        ensures { (j : ℕ) → j < 64 → 64 * at + j < length self.now.points → is_clear self.now.points pair regions (64 * at + j) ≡ word_bit result j }
    {
        let (x, y) = pair;
        self.out_of_cell(at, (x, true), (y, true), regions)
            & self.out_of_cell(at, (x, true), (y, false), regions)
            & self.out_of_cell(at, (x, false), (y, true), regions)
    }

    // A word of those that are out of one cell, or of all, if the cell is not forced empty.
    fn out_of_cell(&self, at: usize, one: (u32, bool), other: (u32, bool), regions: Regions) -> u64
        requires one { one.0 < self.now.concepts }
        requires other { other.0 < self.now.concepts }
        ensures { (j : ℕ) → j < 64 → 64 * at + j < length self.now.points → (not (are_as self.now.points one other (64 * at + j)) || avoids_by regions one.1 other.1) ≡ word_bit result j }
    {
        if avoids_by(regions, one.1, other.1) {
            return !0;
        }
        !(self.side_word(at, one) & self.side_word(at, other))
    }

    // A word of the points that a concept has or lacks. What it says of places without a point counts for nothing.
    fn side_word(&self, at: usize, side: (u32, bool)) -> u64
        requires { side.0 < self.now.concepts }
        ensures { (j : ℕ) → j < 64 → 64 * at + j < length self.now.points → is_as (point_at self.now.points (64 * at + j)) side ≡ word_bit result j }
    {
        let word = self.with[side.0 as usize].word(at);
        if side.1 { word } else { !word }
    }
}

// Adds the places of a word's bits, by the number of the word.
fn push_places(list: &mut Vec<usize>, at: usize, word: u64) -> Result<(), AllocError>
    requires { (j : ℕ) → j < 64 → word_bit word j ≡ true → 64 * at + j < 18446744073709551616 }
    ensures there { OnOk result ((j : ℕ) → j < 64 → word_bit word j ≡ true → Contains list.new.items (64 * at + j)) }
    ensures stay { OnOk result ((place : ℕ) → Contains list.old.items place → Contains list.new.items place) }
{
    let words = [word];
    for j in 0..64 {
        if has_bit(&words, j) {
            list.push(64 * at + j)?;
        }
    }
    Ok(())
}

// So many rows without bits.
fn empty_rows(alloc: Global, count: usize) -> Result<Vec<Row>, AllocError>
    ensures { IfOk result (λ rows. length rows.items ≡ count) }
{
    let mut rows = Vec::with_capacity(alloc, count)?;
    for _row in 0..count {
        rows.push(Row::new(alloc))?;
    }
    Ok(rows)
}

// Tells each row whether its concept has the point at a place.
fn tell(rows: &mut Vec<Row>, place: usize, bits: &Bits) -> Result<(), AllocError>
    requires { length bits.now ≡ length rows.old.items }
    ensures told { OnOk result ((c : ℕ) → c < length rows.old.items → has_bit (slice_index_or rows.new.items c []) place ≡ slice_index_or bits.now c false) }
    ensures others { (c k : ℕ) → k ≢ place → has_bit (slice_index_or rows.new.items c []) k ≡ has_bit (slice_index_or rows.old.items c []) k }
    ensures len { length rows.new.items ≡ length rows.old.items }
{
    for concept in 0..rows.len() {
        rows[concept].assign(place, bits.get(concept))?;
    }
    Ok(())
}
