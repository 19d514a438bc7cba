//! Frames: the points that are left, those of them that have to stay, and rows of which one point each has to stay.
ghost use Rattle.std.specs.Prelude.{◌≡◌, ℕ, ◌<◌, ◌≤◌, ◌↔◌, Bool, true, length, IfOk, OnOk, IsTrue};
ghost use Rattle.bit_rows.specs.Rows.{has_bit, SomePlace};
ghost use Rattle.point_frames.specs.Frames.{left_of, must_of, IsLaid, AreWithin, Satisfies, IsInRegion, IsMetBy, IsRegionMet, SayAlike, IsAliveFrame, open_at, LeadsOn, IsOwing, IsNarrowed, IsSeen};
ghost use Rattle.point_frames.specs.Joined.{HasFirst, HaveSomeIn};

use crate::base::{Base, are_met_from, first_rows};
use crate::builder::Builder;
use crate::groups::FIRST_OPEN;
use crate::words::{
    cells_with, has_empty, has_occupied, is_occupied, is_region_met, kept_cells, region_cell,
};
use bit_rows::{Cells, Rows, Sides, is_inside, meets};
use rcc5_core::{Occupancy, Region, Regions};
use std::alloc::{AllocError, Global};
use std::marker::Model;
use std::rc::Rc;

/// The rows of a frame: the places that are left, those that have to stay, and from the third on those of which one place each has to.
#[derive(Drop)]
pub struct Frame {
    // Most open rows are shared with the frames that this one came of: they do not change.
    base: Rc<Base>,
    // The places that are left, those that have to stay, and the open rows that were added since the base was made.
    own: Rows,
}

impl Model for Frame {
    ghost use Rattle.bit_rows.specs.Rows.{BitRows};
    ghost use Rattle.point_frames.specs.Joined.{joined, StandsOn};

    ghost Value = { BitRows };

    ghost view = { λ s. joined s.own s.base.value.rows };

    ghost invariant = { λ s. StandsOn s.own s.base.value };
}

/// The cells of two sets in which places of a frame lie: any that is left, and one that has to stay.
#[derive(Clone, Copy)]
pub struct Seen {
    pub all: Cells,
    pub must: Cells,
}

impl Frame {
    /// The frame that has some rows.
    pub(crate) fn new(alloc: Global, rows: Rows) -> Result<Frame, AllocError>
        requires { IsLaid rows }
        ensures { IfOk result (λ frame. HasFirst rows frame rows.count) }
    {
        let own = first_rows(alloc, &rows, FIRST_OPEN)?;
        let base = Rc::new(alloc, Base::new(alloc, rows)?)?;
        Ok(Frame { base, own })
    }

    /// Whether so many rows were added since the base was made, or so many places went, that the frame should be made anew: a hint.
    // A frame's own rows are copied for each that comes of it, so they are to stay few beside those of the base. Where many
    // places went, many rows of the base have few left, and a frame that is made anew has fewer rows.
    pub fn is_stale(&self) -> bool {
        let added = self.own.count().saturating_sub(FIRST_OPEN);
        let left_then = count_places(self.base.rows.row(0));
        let gone = left_then.saturating_sub(count_places(self.own.row(0)));
        added > 16 + self.base.rows.count() / 8 || gone > 16 + left_then / 8
    }

    /// The frame after words were said of two sets, made of this one: places that went are left in its open rows.
    /// So many of its own rows are set beside each new one: a hint.
    pub fn narrow(
        self,
        alloc: Global,
        sides: &Sides,
        words: Regions,
        most: usize,
    ) -> Result<Frame, AllocError>
        ensures { IfOk result (λ next. IsNarrowed self next (has_bit sides.now.left.now) (has_bit sides.now.right.now) words) }
    {
        let needed = self.words_left(sides, words);
        let Frame { base, mut own } = self;
        let left = Vec::from_slice(alloc, own.row(0))?;
        let places = left.as_slice();
        own.write(0, places, places, sides, kept_cells(words));
        let mut next = Builder::new(alloc, own, most)?;
        next.add_regions(places, sides, needed)?;
        let own = next.into_rows();
        Ok(Frame { base, own })
    }

    /// The frame after words were said of two sets, beside this one: both share the base.
    pub fn after(
        &self,
        alloc: Global,
        sides: &Sides,
        words: Regions,
        most: usize,
    ) -> Result<Frame, AllocError>
        ensures { IfOk result (λ next. IsNarrowed self.now next (has_bit sides.now.left.now) (has_bit sides.now.right.now) words) }
    {
        let base = self.base.clone()?;
        let own = first_rows(alloc, &self.own, self.own.count())?;
        Frame { base, own }.narrow(alloc, sides, words, most)
    }

    /// How many words its rows have: a hint.
    pub fn size(&self) -> usize {
        let shared = self.base.rows.count().saturating_sub(FIRST_OPEN);
        let rows = self.own.count().saturating_add(shared);
        rows.saturating_mul(self.own.width())
    }

    /// How many words a row has.
    pub fn width(&self) -> usize
        ensures width { result ≡ self.now.width }
        ensures some { 0 < result }
    {
        self.own.width()
    }

    /// Adds the open rows to those of a new frame, as far as they are left in some cells of two sets.
    pub(crate) fn add_open_to(
        &self,
        next: &mut Builder,
        sides: &Sides,
        cells: Cells,
    ) -> Result<(), AllocError>
        requires laid { IsLaid next.old.rows }
        requires width { self.now.width ≡ next.old.rows.width }
        ensures { OnOk result (IsOwing next.old.rows next.new.rows (HaveSomeIn self.now (left_of self.now) (has_bit sides.now.left.now) (has_bit sides.now.right.now) cells)) }
    {
        let left = self.own.row(0);
        next.add_open(&self.own, left, sides, cells)?;
        next.add_open(&self.base.rows, left, sides, cells)
    }

    /// The places that are left.
    pub(crate) fn left(&self) -> &[u64]
        ensures bits { (k : ℕ) → has_bit result.now k ≡ left_of self.now k }
        ensures width { length result.now ≡ self.now.width }
    {
        self.own.row(0)
    }

    /// The places that have to stay.
    pub(crate) fn must(&self) -> &[u64]
        ensures bits { (k : ℕ) → has_bit result.now k ≡ must_of self.now k }
        ensures width { length result.now ≡ self.now.width }
    {
        self.own.row(1)
    }

    /// The number of the first region that has to have a place that is left, and has none.
    pub fn first_bare(&self, sides: &Sides, words: Regions) -> Option<u8> {
        let mut number: u8 = 0;
        for region in [Region::LeftOnly, Region::Both, Region::RightOnly] {
            if !is_region_met(self.left(), sides, words, region) {
                return Some(number);
            }
            number = number.saturating_add(1);
        }
        None
    }

    // Whether each open row has a place that is left in some cells of two sets.
    fn open_met(&self, sides: &Sides, cells: Cells) -> bool
        ensures { IsTrue result ↔ ((r : ℕ) → 2 ≤ r → r < self.now.count → SomePlace (open_at self.now (has_bit sides.now.left.now) (has_bit sides.now.right.now) cells r)) }
    {
        let left = self.own.row(0);
        self.base.is_met(left, sides, cells)
            && are_met_from(&self.own, FIRST_OPEN, left, sides, cells)
    }

    /// Whether the places that are left satisfy the other rows.
    pub fn is_alive(&self) -> bool
        ensures { IsTrue result ↔ IsAliveFrame self.now }
    {
        let left = self.left();
        if !is_inside(self.must(), left) {
            return false;
        }
        let sides = Sides { left, right: left };
        self.open_met(&sides, Cells::all())
    }

    /// The cells of two sets in which places lie.
    pub fn seen(&self, sides: &Sides) -> Seen
        ensures { IsSeen self.now (has_bit sides.now.left.now) (has_bit sides.now.right.now) result }
    {
        Seen {
            all: cells_with(self.left(), sides),
            must: cells_with(self.must(), sides),
        }
    }

    /// Whether the places that words about two sets leave satisfy the other rows, and lie in the regions that are occupied,
    /// by the cells in which places lie.
    pub fn leads_by(&self, sides: &Sides, seen: Seen, words: Regions) -> bool
        requires alive { IsAliveFrame self.now }
        requires seen { IsSeen self.now (has_bit sides.now.left.now) (has_bit sides.now.right.now) seen }
        ensures { IsTrue result ↔ LeadsOn self.now (has_bit sides.now.left.now) (has_bit sides.now.right.now) words }
    {
        if !has_occupied(words, seen.all) {
            return false;
        }
        if !has_empty(words, seen.all) {
            return true;
        }
        if has_empty(words, seen.must) {
            return false;
        }
        self.open_met(sides, kept_cells(words))
    }

    /// Whether the places that words about two sets leave satisfy the other rows, and lie in the regions that are occupied.
    pub fn leads_on(&self, sides: &Sides, words: Regions) -> bool
        requires { IsAliveFrame self.now }
        ensures { IsTrue result ↔ LeadsOn self.now (has_bit sides.now.left.now) (has_bit sides.now.right.now) words }
    {
        self.leads_by(sides, self.seen(sides), words)
    }

    // Whether one place has to stay in a region already: one of those that have to lies there, or all that are left of an open row do.
    fn is_kept(&self, sides: &Sides, region: Region) -> bool
        ensures { result ≡ true → (some : ℕ → Bool) → AreWithin some (left_of self.now) → Satisfies self.now self.now.count some → IsInRegion (has_bit sides.now.left.now) (has_bit sides.now.right.now) some region }
    {
        let must = self.must();
        let cell = region_cell(region);
        meets(must, must, sides, cell) || !self.open_met(sides, cell.others())
    }

    // The word for a region, unless one place has to stay there already.
    fn word_left(&self, sides: &Sides, words: Regions, region: Region) -> Occupancy
        ensures { (some : ℕ → Bool) → AreWithin some (left_of self.now) → Satisfies self.now self.now.count some → IsMetBy result (has_bit sides.now.left.now) (has_bit sides.now.right.now) some region ↔ IsRegionMet words (has_bit sides.now.left.now) (has_bit sides.now.right.now) some region }
    {
        if is_occupied(words, region) && self.is_kept(sides, region) {
            return Occupancy::Free;
        }
        words.at(region)
    }

    // Words about two sets, without the regions in which one place has to stay already.
    fn words_left(&self, sides: &Sides, words: Regions) -> Regions
        ensures { SayAlike self.now (has_bit sides.now.left.now) (has_bit sides.now.right.now) result words }
    {
        Regions {
            left_only: self.word_left(sides, words, Region::LeftOnly),
            both: self.word_left(sides, words, Region::Both),
            right_only: self.word_left(sides, words, Region::RightOnly),
        }
    }

    /// Whether words about two sets take no place away, and one has to stay already in each region that is occupied.
    pub fn is_same(&self, sides: &Sides, words: Regions) -> bool
        ensures { result ≡ true → IsNarrowed self.now self.now (has_bit sides.now.left.now) (has_bit sides.now.right.now) words }
    {
        let left = self.left();
        if meets(left, left, sides, kept_cells(words).others()) {
            return false;
        }
        has_occupied(self.words_left(sides, words), Cells::neither())
    }
}

// How many places a row has.
fn count_places(row: &[u64]) -> usize {
    let mut count: usize = 0;
    for word in row {
        count = count.saturating_add(word.count_ones() as usize);
    }
    count
}
