//! Which points of other problems of a shape are points of a problem.
ghost use Rattle.bit_rows.specs.Rows.{has_bit};
ghost use Rattle.world_model.specs.Points.{forced_at, sum_holds, sums_from};
ghost use Rattle.point_pool.specs.Pools.{AllAvoid, CellAvoids, IsFewer};
ghost use Rattle.std.specs.List.{list_all, list_any};
ghost use Rattle.std.specs.Prelude.{All, IfOk, IsTrue, length, true, ℕ, ◌&&◌, ◌+◌, ◌<◌, ◌≡◌};
ghost use Rattle.world_model.specs.Alive.{bit_of, is_point, meets_trees, point_at, point_sums};
ghost use Rattle.world_model.specs.Node.{pair_at};
ghost use Rattle.world_model.specs.Problem.{concept_count, is_articulation, kept_sums, pair_count};

use crate::copies::copy;
use crate::cursor::Cursor;
use constraint_set::{Articulation, Problem};
use lits_core::Bits;
use point_table::{Places, avoids_by};
use rcc5_core::Regions;
use std::alloc::{AllocError, Global};

/// Points at their places, in order.
pub(crate) fn gathered_places(
    alloc: Global,
    problem: &Problem,
    points: &[Bits],
) -> Result<Places, AllocError>
    requires { All (λ bits. IsTrue (meets_trees problem.now bits)) points.now }
    ensures points { IfOk result (λ s. s.points ≡ points.now) }
    ensures concepts { IfOk result (λ s. s.concepts ≡ concept_count problem.now) }
{
    let mut places = Places::new(alloc, problem.concept_count() as usize)?;
    for bits in points {
        places.add(copy(alloc, bits)?)?;
    }
    Ok(places)
}

/// Strikes out the points that are none of the problem. Most are found by rows of bits, and only the others are tested.
pub(crate) fn strike_others(cursor: &Cursor, places: &mut Places)
    requires trees { All (λ bits. IsTrue (meets_trees cursor.now.problem bits)) places.old.points }
    requires concepts { places.old.concepts ≡ concept_count cursor.now.problem }
    ensures concepts { places.new.concepts ≡ places.old.concepts }
    ensures points { places.new.points ≡ places.old.points }
    ensures live { (place : ℕ) → has_bit places.new.live place ≡ true → IsTrue (is_point cursor.now.problem (point_at places.new.points place)) }
{
    for pair in 0..cursor.problem().pair_count() {
        strike_pair(cursor, pair, places);
    }
    for place in 0..places.len() {
        strike_unless_sums_hold(cursor.problem(), place, places);
    }
    places.facts();
}

// Strikes out the points in regions of a pair that the problem alone forces empty.
fn strike_pair(cursor: &Cursor, pair: u32, places: &mut Places)
    requires concepts { places.old.concepts ≡ concept_count cursor.now.problem }
    requires within { pair < pair_count cursor.now.problem }
    ensures fewer { IsFewer places.old places.new }
    ensures avoid { AllAvoid places.new (pair_at cursor.now.problem pair) (forced_at cursor.now.problem pair) }
{
    let (x, y) = cursor.problem().pair_at(pair);
    let regions = cursor.start_at(pair);
    strike_cell(places, regions, (x, true), (y, true));
    strike_cell(places, regions, (x, true), (y, false));
    strike_cell(places, regions, (x, false), (y, true));
}

// Strikes out the points that two concepts have or lack, as is said, if they lie in a region that is forced empty.
fn strike_cell(places: &mut Places, regions: Regions, one: (u32, bool), other: (u32, bool))
    requires one { one.0 < places.old.concepts }
    requires other { other.0 < places.old.concepts }
    ensures fewer { IsFewer places.old places.new }
    ensures avoid { CellAvoids places.new regions one other }
{
    if !avoids_by(regions, one.1, other.1) {
        places.strike_all(one, other);
    }
}

// Strikes out a point unless the kept sums hold at it.
fn strike_unless_sums_hold(problem: &Problem, place: usize, places: &mut Places)
    requires there { place < length places.old.points }
    requires length { length (point_at places.old.points place) ≡ concept_count problem.now }
    ensures fewer { IsFewer places.old places.new }
    ensures sums { has_bit places.new.live place ≡ true → IsTrue (list_all (point_sums (point_at places.new.points place)) (kept_sums problem.now)) }
{
    if places.is_live(place) && !sums_hold(problem, places.point(place)) {
        places.strike(place);
    }
}

// Whether each kept sum holds at a point.
fn sums_hold(problem: &Problem, bits: &Bits) -> bool
    requires { length bits.now ≡ concept_count problem.now }
    ensures { result ≡ true → IsTrue (list_all (point_sums bits.now) (kept_sums problem.now)) }
{
    for index in 0..problem.articulation_count() {
        if !holds_if_kept(problem, index, bits) {
            return false;
        }
    }
    true
}

// Whether an articulation is not kept, or is no sum, or holds at a point.
fn holds_if_kept(problem: &Problem, index: u32, bits: &Bits) -> bool
    requires length { length bits.now ≡ concept_count problem.now }
    requires within { index < length problem.now.articulations }
    ensures { sums_from bits.now problem.now index ≡ (result && sums_from bits.now problem.now (index + 1)) }
{
    if !problem.is_kept(index) {
        return true;
    }
    sum_holds(problem, problem.articulation(index), bits)
}

// Whether a sum holds at a point. What is no sum says nothing.
fn sum_holds(problem: &Problem, articulation: &Articulation, bits: &Bits) -> bool
    requires length { length bits.now ≡ concept_count problem.now }
    requires fit { IsTrue (is_articulation problem.now articulation.now) }
    ensures { result ≡ sum_holds bits.now articulation.now }
{
    match articulation {
        Articulation::Pair { .. } => true,
        Articulation::Sum { whole, parts } => {
            bits.get(*whole as usize) == any_part(parts.list(), bits)
        }
    }
}

// Whether one of some concepts has the point.
fn any_part(parts: &[u32], bits: &Bits) -> bool
    requires { All (λ part. part < length bits.now) parts.now }
    ensures { result ≡ list_any (bit_of bits.now) parts.now }
{
    parts.iter().any(|part| bits.get(*part as usize))
}
