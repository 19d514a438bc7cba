//! The bounds of pairs: what is left of what they allow without the relations with which they are dead by themselves.
ghost use Rattle.std.specs.Prelude.{◌≡◌, ◌+◌, ◌<◌, ◌≤◌, ◌↔◌, true, length, IsTrue, IfOk, OnOk};
ghost use Rattle.rcc5_core.specs.declared.Rel.{Rel};
ghost use Rattle.rcc5_core.specs.RelationSet.{has};
ghost use Rattle.world_model.specs.Problem.{pair_count};
ghost use Rattle.world_model.specs.Trial.{points_by_trial};
ghost use Rattle.bit_rows.specs.Rows.{has_bit};
ghost use Rattle.point_table.specs.Points.{AreAllowed};
ghost use Rattle.point_table.specs.Table.{AreRowsOf};
ghost use Rattle.point_frames.specs.Frames.{IsAliveFrame, IsNarrowed, IsSeen};
ghost use Rattle.point_ladder.specs.Bounds.{AreBounds, IsAliveIn};

use crate::sides::sides_of;
use crate::start::{first_frame, is_alive};
use bit_rows::{Rows, Sides};
use constraint_set::Problem;
use point_frames::{Frame, MOST_COMPARED, Seen, narrowed};
use rcc5_core::{Regions, Rel, RelSet, forced};
use std::alloc::{AllocError, Global};

/// What the pairs of a problem allow after the first so many were narrowed, and the frame then.
#[derive(Drop)]
pub(crate) struct Bounds {
    pub(crate) sets: Vec<RelSet>,
    pub(crate) count: usize,
    pub(crate) alive: bool,
    /// Of use only if the problem is alive then.
    pub(crate) frame: Frame,
}

// Whether two sets have the same relations.
pub(crate) fn are_same(one: RelSet, other: RelSet) -> bool
    ensures { result ≡ true → one ≡ other }
{
    one == other
}

// The bounds before any pair is narrowed, of a problem that has so many points.
pub(crate) fn no_bounds(
    alloc: Global,
    problem: &Problem,
    sets: Vec<RelSet>,
    rows: &Rows,
    points: usize,
) -> Result<Bounds, AllocError>
    requires sets { AreAllowed problem.now sets.items }
    requires rows { AreRowsOf problem.now rows.now }
    requires count { points ≡ length (points_by_trial problem.now) }
    ensures bounds { IfOk result (AreBounds problem.now) }
    ensures none { IfOk result (λ bounds. bounds.count ≡ 0) }
{
    let frame = first_frame(alloc, problem, &sets, rows, points)?;
    let alive = is_alive(problem, &sets, &frame);
    Ok(Bounds {
        sets,
        count: 0,
        alive,
        frame,
    })
}

// Whether a set has a relation that leads on.
fn has_alive(frame: &Frame, sides: &Sides, seen: Seen, set: RelSet, rel: Rel) -> bool
    requires alive { IsAliveFrame frame.now }
    requires seen { IsSeen frame.now (has_bit sides.now.left.now) (has_bit sides.now.right.now) seen }
    ensures { IsTrue result ↔ IsAliveIn frame.now (has_bit sides.now.left.now) (has_bit sides.now.right.now) set rel }
{
    set.has(rel) && frame.leads_by(sides, seen, rel.row())
}

// The relations of a set that lead on.
pub(crate) fn bound(frame: &Frame, sides: &Sides, set: RelSet) -> RelSet
    requires { IsAliveFrame frame.now }
    ensures { (rel : Rel) → IsTrue (has result rel) ↔ IsAliveIn frame.now (has_bit sides.now.left.now) (has_bit sides.now.right.now) set rel }
{
    let seen = frame.seen(sides);
    RelSet {
        equals: has_alive(frame, sides, seen, set, Rel::Equals),
        includes: has_alive(frame, sides, seen, set, Rel::Includes),
        included_in: has_alive(frame, sides, seen, set, Rel::IncludedIn),
        overlaps: has_alive(frame, sides, seen, set, Rel::Overlaps),
        disjoint: has_alive(frame, sides, seen, set, Rel::Disjoint),
    }
}

// The frame after words were said of two sets. It is made anew only where much has changed since it was made.
fn narrow_frame(
    alloc: Global,
    sides: &Sides,
    words: Regions,
    frame: Frame,
) -> Result<Frame, AllocError>
    ensures { IfOk result (λ next. IsNarrowed frame next (has_bit sides.now.left.now) (has_bit sides.now.right.now) words) }
{
    if frame.is_same(sides, words) {
        return Ok(frame);
    }
    if !frame.is_stale() {
        return frame.narrow(alloc, sides, words, MOST_COMPARED);
    }
    narrowed(alloc, &frame, sides, words, MOST_COMPARED)
}

// Narrows the next pair to the relations with which it is alive by itself.
fn narrow_pair(
    alloc: Global,
    problem: &Problem,
    rows: &Rows,
    pair: u32,
    bounds: Bounds,
) -> Result<Bounds, AllocError>
    requires rows { AreRowsOf problem.now rows.now }
    requires bounds { AreBounds problem.now bounds }
    requires alive { bounds.alive ≡ true }
    requires next { bounds.count ≡ pair }
    requires within { pair < pair_count problem.now }
    ensures bounds { IfOk result (AreBounds problem.now) }
    ensures next { IfOk result (λ next. next.count ≡ pair + 1) }
{
    let sides = sides_of(problem, rows, pair);
    let Bounds {
        mut sets,
        count: _,
        alive,
        frame,
    } = bounds;
    let old = sets[pair as usize];
    let set = bound(&frame, &sides, old);
    let count = pair as usize + 1;
    if are_same(set, old) {
        return Ok(Bounds {
            sets,
            count,
            alive,
            frame,
        });
    }
    sets[pair as usize] = set;
    if set.is_empty() {
        return Ok(Bounds {
            sets,
            count,
            alive: false,
            frame,
        });
    }
    let frame = narrow_frame(alloc, &sides, forced(set), frame)?;
    Ok(Bounds {
        sets,
        count,
        alive,
        frame,
    })
}

// Narrows each pair, unless the problem turns out to be dead.
pub(crate) fn narrow_all(
    alloc: Global,
    problem: &Problem,
    rows: &Rows,
    bounds: Bounds,
) -> Result<Bounds, AllocError>
    requires rows { AreRowsOf problem.now rows.now }
    requires bounds { AreBounds problem.now bounds }
    requires none { bounds.count ≡ 0 }
    ensures { IfOk result (AreBounds problem.now) }
{
    let mut bounds = bounds;
    for pair in 0..problem.pair_count() {
        if !bounds.alive {
            break;
        }
        bounds = narrow_pair(alloc, problem, rows, pair, bounds)?;
    }
    Ok(bounds)
}
