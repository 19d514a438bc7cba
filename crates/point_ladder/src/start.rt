//! The start of a ladder: the frame of a problem itself, and a line of relations.
ghost use Rattle.std.specs.Prelude.{◌≡◌, ℕ, ◌*◌, ◌/◌, ◌<◌, ◌≤◌, ◌↔◌, nat_lt, true, length, IsTrue, IfOk, IfSome, OnOk};
ghost use Rattle.rcc5_core.specs.RelationSet.{only};
ghost use Rattle.world_model.specs.Problem.{concept_count, pair_count};
ghost use Rattle.world_model.specs.Alive.{all_allow, IsAlive};
ghost use Rattle.world_model.specs.Trial.{points_by_trial};
ghost use Rattle.bit_rows.specs.Rows.{bit_in};
ghost use Rattle.point_table.specs.Points.{AreAllowed};
ghost use Rattle.point_table.specs.Table.{AreRowsOf};
ghost use Rattle.point_ladder.specs.Bounds.{AreBounds};
ghost use Rattle.point_ladder.specs.Stretches.{AreNexts};
ghost use Rattle.point_frames.specs.Frames.{left_of, IsLaid, AreWithin, IsOwing};
ghost use Rattle.point_ladder.specs.Ladders.{PairsMet, ConceptsMet, IsFrame};

use crate::bounds::{Bounds, are_same, no_bounds};
use crate::sides::sides_of;
use bit_rows::{Cells, Rows, Sides};
use constraint_set::Problem;
use point_frames::{Builder, Frame, MOST_COMPARED};
use point_table::{all_points, allowed_sets, rows_of};
use rcc5_core::{Rel, RelSet, forced};
use std::alloc::{AllocError, Global};

// One row with all of so many places.
fn full_row(alloc: Global, width: usize, count: usize) -> Result<Rows, AllocError>
    requires some { 0 < width }
    requires within { count ≤ 64 * width }
    ensures count { IfOk result (λ rows. rows.count ≡ 1) }
    ensures width { IfOk result (λ rows. rows.width ≡ width) }
    ensures places { IfOk result (λ rows. (k : ℕ) → bit_in rows 0 k ≡ nat_lt k count) }
{
    let mut rows = Rows::new(alloc, width);
    rows.push_empty()?;
    for place in 0..count {
        rows.set(0, place);
    }
    Ok(rows)
}

// Adds the regions that each pair has to have.
fn add_pairs(
    problem: &Problem,
    sets: &[RelSet],
    rows: &Rows,
    full: &Rows,
    frame: &mut Builder,
) -> Result<(), AllocError>
    requires sets { AreAllowed problem.now sets.now }
    requires rows { AreRowsOf problem.now rows.now }
    requires one { 0 < full.now.count }
    requires wide { full.now.width ≡ frame.old.rows.width }
    requires laid { IsLaid frame.old.rows }
    requires full { AreWithin (left_of frame.old.rows) (bit_in full.now 0) }
    ensures { OnOk result (IsOwing frame.old.rows frame.new.rows (PairsMet problem.now (points_by_trial problem.now) (pair_count problem.now))) }
{
    for pair in 0..problem.pair_count() {
        let sides = sides_of(problem, rows, pair);
        frame.add_regions(full.row(0), &sides, forced(sets[pair as usize]))?;
    }
    Ok(())
}

// Adds each concept.
fn add_concepts(problem: &Problem, rows: &Rows, frame: &mut Builder) -> Result<(), AllocError>
    requires rows { AreRowsOf problem.now rows.now }
    requires wide { rows.now.width ≡ frame.old.rows.width }
    requires laid { IsLaid frame.old.rows }
    ensures { OnOk result (IsOwing frame.old.rows frame.new.rows (ConceptsMet (points_by_trial problem.now) (concept_count problem.now))) }
{
    for concept in 0..rows.count() {
        let row = rows.row(concept);
        let sides = Sides {
            left: row,
            right: row,
        };
        frame.add_need(row, row, &sides, Cells::all())?;
    }
    Ok(())
}

// Adds each concept, if none may be empty.
fn add_nonempty(problem: &Problem, rows: &Rows, frame: &mut Builder) -> Result<(), AllocError>
    requires rows { AreRowsOf problem.now rows.now }
    requires wide { rows.now.width ≡ frame.old.rows.width }
    requires laid { IsLaid frame.old.rows }
    ensures { OnOk result (IsOwing frame.old.rows frame.new.rows (λ some. problem.now.switches.nonempty ≡ true → ConceptsMet (points_by_trial problem.now) (concept_count problem.now) some)) }
{
    if problem.switches().nonempty {
        add_concepts(problem, rows, frame)?;
    }
    Ok(())
}

// The frame of a problem, whose points are so many.
pub(crate) fn first_frame(
    alloc: Global,
    problem: &Problem,
    sets: &[RelSet],
    rows: &Rows,
    count: usize,
) -> Result<Frame, AllocError>
    requires sets { AreAllowed problem.now sets.now }
    requires rows { AreRowsOf problem.now rows.now }
    requires count { count ≡ length (points_by_trial problem.now) }
    ensures { IfOk result (λ frame. IsFrame problem.now (points_by_trial problem.now) frame) }
{
    let full = full_row(alloc, rows.width(), count)?;
    let mut two = Rows::new(alloc, rows.width());
    two.push_copy(full.row(0))?;
    two.push_empty()?;
    let mut frame = Builder::new(alloc, two, MOST_COMPARED)?;
    add_pairs(problem, sets, rows, &full, &mut frame)?;
    add_nonempty(problem, rows, &mut frame)?;
    frame.finish(alloc)
}

// Whether each pair allows a relation.
fn all_allow(problem: &Problem, sets: &[RelSet]) -> bool
    requires { AreAllowed problem.now sets.now }
    ensures { result ≡ all_allow problem.now }
{
    for set in sets {
        if set.is_empty() {
            return false;
        }
    }
    true
}

// Whether a problem is alive, by its frame.
pub(crate) fn is_alive(problem: &Problem, sets: &[RelSet], frame: &Frame) -> bool
    requires sets { AreAllowed problem.now sets.now }
    requires frame { IsFrame problem.now (points_by_trial problem.now) frame.now }
    ensures { IsTrue result ↔ IsAlive problem.now }
{
    if !all_allow(problem, sets) {
        return false;
    }
    frame.is_alive()
}

// The rows of a problem's points, and its pairs before any is narrowed.
pub(crate) fn begin(
    alloc: Global,
    problem: &Problem,
    most: usize,
    tries: usize,
) -> Result<Option<(Rows, Bounds)>, AllocError>
    ensures rows { IfOk result (λ found. IfSome found (λ both. AreRowsOf problem.now both.0)) }
    ensures bounds { IfOk result (λ found. IfSome found (λ both. AreBounds problem.now both.1)) }
    ensures none { IfOk result (λ found. IfSome found (λ both. both.1.count ≡ 0)) }
{
    let sets = allowed_sets(alloc, problem)?;
    let Some(points) = all_points(alloc, problem, &sets, most, tries)? else {
        return Ok(None);
    };
    let rows = rows_of(alloc, &points, problem.concept_count() as usize)?;
    let bounds = no_bounds(alloc, problem, sets, &rows, points.len())?;
    Ok(Some((rows, bounds)))
}

// The first relation of each set.
pub(crate) fn first_line(alloc: Global, sets: &[RelSet]) -> Result<Vec<Rel>, AllocError>
    ensures { IfOk result (λ line. length line.items ≡ length sets.now) }
{
    let mut line = Vec::new(alloc);
    for set in sets {
        line.push(set.first().unwrap_or(Rel::Equals))?;
    }
    Ok(line)
}

// Whether a set has one relation, and no other.
fn is_decided(set: RelSet, rel: Rel) -> bool
    ensures { result ≡ true → set ≡ only rel }
{
    are_same(set, RelSet::one(rel))
}

// For each set the next one that has more than the line's relation, from it on, or the end.
pub(crate) fn nexts_of(alloc: Global, sets: &[RelSet], line: &[Rel]) -> Result<Vec<u32>, AllocError>
    requires lined { length line.now ≡ length sets.now }
    requires few { length sets.now < 4294967296 }
    ensures { IfOk result (λ nexts. AreNexts sets.now line.now nexts.items) }
{
    let mut nexts = Vec::new(alloc);
    for pair in 0..sets.len() {
        if !is_decided(sets[pair], line[pair]) {
            nexts.resize(pair + 1, pair as u32)?;
        }
    }
    nexts.resize(sets.len(), sets.len() as u32)?;
    Ok(nexts)
}

// The pairs whose sets are not whole.
pub(crate) fn split_pairs(alloc: Global, sets: &[RelSet]) -> Result<Vec<u32>, AllocError> {
    let mut pairs = Vec::new(alloc);
    let mut pair: u32 = 0;
    for set in sets {
        if !set.is_whole() {
            pairs.push(pair)?;
        }
        pair = pair.saturating_add(1);
    }
    Ok(pairs)
}
