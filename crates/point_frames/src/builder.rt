//! The making of frames: needs are added one by one to the rows of what is left and what has to stay.
ghost use Rattle.std.specs.Prelude.{◌≡◌, ℕ, ◌<◌, ◌≤◌, ◌&&◌, Bool, true, length, IfOk, OnOk};
ghost use Rattle.bit_rows.specs.Rows.{has_bit, bit_in, meets_at, SomePlace};
ghost use Rattle.point_frames.specs.Joined.{HasFirst, HaveSomeIn};
ghost use Rattle.point_frames.specs.Frames.{left_of, IsLaid, AreWithin, Satisfies, IsRegionMet, AreRegionsMet, IsOwing, IsNarrowed};

use crate::frame::Frame;
use crate::groups::FIRST_OPEN;
use crate::words::{is_occupied, kept_cells, region_cell};
use bit_rows::{Cells, Rows, Sides, first_place, has_bit, has_single, have_common, is_inside};
use rcc5_core::{Region, Regions};
use std::alloc::{AllocError, Global};

/// So many of the rows before a new one are set beside it: each row beside each would take too long where they are many.
pub const MOST_COMPARED: usize = 1024;

/// The first places of rows, and how many of those before a new one are set beside it: hints.
#[derive(Drop)]
struct Sieve {
    firsts: Vec<usize>,
    most: usize,
}

// The first row that is set beside the last one.
fn first_compared(last: usize, most: usize) -> usize
    ensures { 2 ≤ result }
{
    last.saturating_sub(most).max(2)
}

// Whether a row may be inside another, by its first place: most are not, and one bit tells.
fn may_be_inside(firsts: &[usize], one: usize, other: &[u64]) -> bool {
    match firsts.get(one) {
        Some(first) => has_bit(other, *first),
        None => true,
    }
}

// Whether a row is met wherever those before it are: it has a place that has to stay, or all of one of them.
fn is_needless(rows: &Rows, sieve: &Sieve, last: usize) -> bool
    requires { last < rows.now.count }
    ensures { result ≡ true → (some : ℕ → Bool) → Satisfies rows.now last some → SomePlace (λ k. bit_in rows.now last k && some k) }
{
    let row = rows.row(last);
    if last < 2 {
        return false;
    }
    if have_common(rows.row(1), row) {
        return true;
    }
    for other in first_compared(last, sieve.most)..last {
        if may_be_inside(&sieve.firsts, other, row) && is_inside(rows.row(other), row) {
            return true;
        }
    }
    false
}

// Drops the last row if it is needless, and moves its place to those that have to stay if it is the only one.
fn reduce_last(rows: &mut Rows, sieve: &Sieve)
    requires some { 0 < rows.old.width }
    requires three { 3 ≤ rows.old.count }
    ensures { IsOwing rows.old rows.new (λ _. Unit {0}) }
{
    let last = rows.count() - 1;
    if is_needless(rows, sieve, last) {
        rows.pop();
        return;
    }
    let row = rows.row(last);
    if !has_single(row) {
        return;
    }
    let Some(place) = first_place(row) else {
        return;
    };
    rows.pop();
    rows.set(1, place);
}

// Notes the first place of a row that was added, if one was. The first places of rows are hints.
fn note_first(rows: &Rows, sieve: &mut Sieve) -> Result<(), AllocError> {
    let row = sieve.firsts.len();
    if row < rows.count() {
        sieve.firsts.push(first_place(rows.row(row)).unwrap_or(0))?;
    }
    Ok(())
}

/// The rows of a frame that is being made, and what tells soon which new ones are needless.
#[derive(Drop)]
pub struct Builder {
    pub rows: Rows,
    sieve: Sieve,
}

impl Builder {
    /// From the rows of what is left and what has to stay. So many rows are set beside each new one: a hint.
    pub fn new(alloc: Global, rows: Rows, most: usize) -> Result<Builder, AllocError>
        ensures { IfOk result (λ builder. builder.rows ≡ rows) }
    {
        let firsts = vec![in alloc; 0; FIRST_OPEN]?;
        let sieve = Sieve { firsts, most };
        Ok(Builder { rows, sieve })
    }

    /// The frame of the rows, which stay in a base that other frames may share.
    pub fn finish(self, alloc: Global) -> Result<Frame, AllocError>
        requires { IsLaid self.rows }
        ensures { IfOk result (λ frame. HasFirst self.rows frame self.rows.count) }
    {
        Frame::new(alloc, self.into_rows())
    }

    /// The rows.
    pub(crate) fn into_rows(self) -> Rows
        ensures { result ≡ self.rows }
    {
        let Builder { rows, sieve: _ } = self;
        rows
    }

    /// Adds that one place has to stay of what two rows have in common in some cells of two sets.
    pub fn add_need(
        &mut self,
        one: &[u64],
        other: &[u64],
        sides: &Sides,
        cells: Cells,
    ) -> Result<(), AllocError>
        requires laid { IsLaid self.old.rows }
        requires width { length one.now ≤ self.old.rows.width }
        ensures owing { OnOk result (IsOwing self.old.rows self.new.rows (λ some. SomePlace (λ k. meets_at one.now other.now sides.now.left.now sides.now.right.now cells k && some k))) }
    {
        self.rows.push(one, other, sides, cells)?;
        reduce_last(&mut self.rows, &self.sieve);
        note_first(&self.rows, &mut self.sieve)?;
        Ok(())
    }

    // Adds that one of some places has to stay in a region, if it has to have one.
    fn add_region(
        &mut self,
        places: &[u64],
        sides: &Sides,
        words: Regions,
        region: Region,
    ) -> Result<(), AllocError>
        requires laid { IsLaid self.old.rows }
        requires width { length places.now ≤ self.old.rows.width }
        requires places { AreWithin (left_of self.old.rows) (has_bit places.now) }
        ensures owing { OnOk result (IsOwing self.old.rows self.new.rows (λ some. IsRegionMet words (has_bit sides.now.left.now) (has_bit sides.now.right.now) some region)) }
    {
        if is_occupied(words, region) {
            self.add_need(places, places, sides, region_cell(region))?;
        }
        Ok(())
    }

    /// Adds that one of some places has to stay in each region that has to have one.
    pub fn add_regions(
        &mut self,
        places: &[u64],
        sides: &Sides,
        words: Regions,
    ) -> Result<(), AllocError>
        requires laid { IsLaid self.old.rows }
        requires width { length places.now ≤ self.old.rows.width }
        requires places { AreWithin (left_of self.old.rows) (has_bit places.now) }
        ensures owing { OnOk result (IsOwing self.old.rows self.new.rows (AreRegionsMet words (has_bit sides.now.left.now) (has_bit sides.now.right.now))) }
    {
        self.add_region(places, sides, words, Region::LeftOnly)?;
        self.add_region(places, sides, words, Region::Both)?;
        self.add_region(places, sides, words, Region::RightOnly)?;
        Ok(())
    }

    /// Adds some open rows, as far as they are left in some cells of two sets.
    pub(crate) fn add_open(
        &mut self,
        more: &Rows,
        left: &[u64],
        sides: &Sides,
        cells: Cells,
    ) -> Result<(), AllocError>
        requires laid { IsLaid self.old.rows }
        requires two { 2 ≤ more.now.count }
        requires width { more.now.width ≡ self.old.rows.width }
        ensures { OnOk result (IsOwing self.old.rows self.new.rows (HaveSomeIn more.now (has_bit left.now) (has_bit sides.now.left.now) (has_bit sides.now.right.now) cells)) }
    {
        for row in FIRST_OPEN..more.count() {
            self.add_need(more.row(row), left, sides, cells)?;
        }
        Ok(())
    }
}

/// The frame after words were said of two sets. So many rows are set beside each new one: a hint.
pub fn narrowed(
    alloc: Global,
    frame: &Frame,
    sides: &Sides,
    words: Regions,
    most: usize,
) -> Result<Frame, AllocError>
    ensures { IfOk result (λ next. IsNarrowed frame.now next (has_bit sides.now.left.now) (has_bit sides.now.right.now) words) }
{
    let left = frame.left();
    let kept = kept_cells(words);
    let mut rows = Rows::new(alloc, frame.width());
    rows.push(left, left, sides, kept)?;
    rows.push_copy(frame.must())?;
    let mut next = Builder::new(alloc, rows, most)?;
    next.add_regions(left, sides, words)?;
    frame.add_open_to(&mut next, sides, kept)?;
    next.finish(alloc)
}
