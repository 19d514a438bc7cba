//! Whether a world lies behind a frame: a search over the pairs whose sets are not whole.
ghost use Rattle.std.specs.Prelude.{◌≡◌, ◌∷◌, ◌<◌, ◌≤◌, true, length, take, IsTrue, IfOk};
ghost use Rattle.rcc5_core.specs.RelationSet.{has};
ghost use Rattle.rcc5_core.specs.Region.{row_of};
ghost use Rattle.bit_rows.specs.Rows.{has_bit};
ghost use Rattle.point_table.specs.Table.{AreRowsOf};
ghost use Rattle.point_frames.specs.Frames.{IsAliveFrame, LeadsOn};
ghost use Rattle.point_ladder.specs.Barren.{IsFreeAt, LiesNone, LiesNoneBy, AreNoneBy};

use crate::bounds::bound;
use crate::next::next_frame;
use crate::sides::sides_of;
use bit_rows::{Rows, Sides};
use constraint_set::Problem;
use point_frames::Frame;
use rcc5_core::{Rel, RelSet};
use std::alloc::{AllocError, Global};

/// What a search goes by: what the pairs of a problem allow, of which those before a number are narrowed by a path, and the
/// pairs that it tries, in their order.
#[derive(Clone, Copy)]
pub(crate) struct Ground<'a> {
    pub(crate) alloc: Global,
    pub(crate) problem: &'a Problem,
    pub(crate) rows: &'a Rows,
    pub(crate) sets: &'a [RelSet],
    pub(crate) from: usize,
    pub(crate) order: &'a [u32],
}

/// How many steps a search may take yet, and the pairs at which it failed: hints.
#[derive(Drop)]
pub(crate) struct Effort {
    pub(crate) left: usize,
    pub(crate) failed: Vec<u32>,
}

/// So many steps a search for a world takes at the most: where it takes longer, nothing is shown.
const MOST_STEPS: usize = 1000;

/// The effort of a new search.
pub(crate) fn new_effort(alloc: Global) -> Effort {
    Effort {
        left: MOST_STEPS,
        failed: Vec::new(alloc),
    }
}

/// A frame that is soon dropped is made with no look at the rows before a new one: that would take longer than it saves.
const FEW_COMPARED: usize = 0;

/// So many pairs are kept at which a search failed: the first ones tell most.
const MOST_FAILED: usize = 4;

// Notes that a search failed at a pair.
fn note_failure(effort: &mut Effort, pair: u32) -> Result<(), AllocError> {
    if effort.failed.len() < MOST_FAILED {
        effort.failed.push(pair)?;
    }
    Ok(())
}

/// Moves a pair before the others of an order that has it.
pub(crate) fn move_to_front(order: &mut Vec<u32>, pair: u32) {
    if !order.contains(&pair) {
        return;
    }
    let mut carried = pair;
    for place in order.iter_mut() {
        let next = *place;
        *place = carried;
        if next == pair {
            return;
        }
        carried = next;
    }
}

/// Moves some pairs before the others of an order, the last one first.
pub(crate) fn move_all_to_front(order: &mut Vec<u32>, pairs: &[u32]) {
    for pair in pairs {
        move_to_front(order, *pair);
    }
}

// Whether nothing was said yet of the pair at a place of the order: no path narrows it, and no place before has it.
fn is_free(ground: &Ground, at: usize, pair: u32) -> bool
    requires { at ≤ length ground.now.order.now }
    ensures { result ≡ true → IsFreeAt ground.now.problem.now ground.now.from (take at ground.now.order.now) pair }
{
    pair < ground.problem.pair_count()
        && pair as usize >= ground.from
        && !ground.order[..at].contains(&pair)
}

// Whether no world lies behind a frame in which the pair at the place before has a relation.
#[cycle(barren)]
fn is_barren_by(
    ground: &Ground,
    at: usize,
    frame: &Frame,
    sides: &Sides,
    rel: Rel,
    effort: &mut Effort,
) -> Result<bool, AllocError>
    requires rows { AreRowsOf ground.now.problem.now ground.now.rows.now }
    requires at { at ≤ length ground.now.order.now }
    requires leads { LeadsOn frame.now (has_bit sides.now.left.now) (has_bit sides.now.right.now) (row_of rel) }
    ensures { IfOk result (λ none. none ≡ true → LiesNoneBy ground.now.problem.now ground.now.sets.now ground.now.from (take at ground.now.order.now) frame.now (has_bit sides.now.left.now) (has_bit sides.now.right.now) rel) }
{
    if frame.is_same(sides, rel.row()) {
        return is_barren(ground, at, frame, effort);
    }
    let next = next_frame(ground.alloc, frame, sides, rel.row(), FEW_COMPARED)?;
    is_barren(ground, at, &next, effort)
}

// Whether no world lies behind a frame in which the pair at the place before has some relation of a set.
#[cycle(barren)]
fn are_barren(
    ground: &Ground,
    at: usize,
    frame: &Frame,
    sides: &Sides,
    set: RelSet,
    effort: &mut Effort,
) -> Result<bool, AllocError>
    requires rows { AreRowsOf ground.now.problem.now ground.now.rows.now }
    requires at { at ≤ length ground.now.order.now }
    requires leads { (rel : Rel) → IsTrue (has set rel) → LeadsOn frame.now (has_bit sides.now.left.now) (has_bit sides.now.right.now) (row_of rel) }
    ensures { IfOk result (λ none. none ≡ true → AreNoneBy ground.now.problem.now ground.now.sets.now ground.now.from (take at ground.now.order.now) frame.now (has_bit sides.now.left.now) (has_bit sides.now.right.now) set) }
{
    for rel in [
        Rel::Equals,
        Rel::Includes,
        Rel::IncludedIn,
        Rel::Overlaps,
        Rel::Disjoint,
    ] {
        if set.has(rel) && !is_barren_by(ground, at, frame, sides, rel, effort)? {
            return Ok(false);
        }
    }
    Ok(true)
}

/// Whether it is shown that no world lies behind a frame, by trying the pairs of the order from a place on.
#[cycle(barren)]
pub(crate) fn is_barren(
    ground: &Ground,
    at: usize,
    frame: &Frame,
    effort: &mut Effort,
) -> Result<bool, AllocError>
    requires rows { AreRowsOf ground.now.problem.now ground.now.rows.now }
    requires at { at ≤ length ground.now.order.now }
    requires alive { IsAliveFrame frame.now }
    ensures { IfOk result (λ none. none ≡ true → LiesNone ground.now.problem.now ground.now.sets.now ground.now.from (take at ground.now.order.now) frame.now) }
{
    if at >= ground.order.len() {
        return Ok(false);
    }
    if effort.left == 0 {
        return Ok(false);
    }
    effort.left -= 1;
    let pair = ground.order[at];
    if !is_free(ground, at, pair) {
        return is_barren(ground, at + 1, frame, effort);
    }
    if pair as usize >= ground.sets.len() {
        return Ok(false);
    }
    let old = ground.sets[pair as usize];
    let sides = sides_of(ground.problem, ground.rows, pair);
    let set = bound(frame, &sides, old);
    if set.is_empty() {
        note_failure(effort, pair)?;
    }
    are_barren(ground, at + 1, frame, &sides, set, effort)
}
