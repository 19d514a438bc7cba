//! Points by trial of every list of bits, and whether a prefix is alive.
ghost use Rattle.std.specs.Prelude.{◌≡◌, ◌↔◌, ◌<◌, ◌++◌, ◌&&◌, not, [], ◌∷◌, map, filter, IsTrue, IfOk, OnOk};
ghost use Rattle.std.specs.List.{list_all, list_any};
ghost use Rattle.rcc5_core.specs.RelationSet.{is_empty_set};
ghost use Rattle.rcc5_core.specs.Region.{forced_regions};
ghost use Rattle.world_model.specs.Problem.{concept_count, concepts, pair_count, pairs};
ghost use Rattle.world_model.specs.Family.{implies};
ghost use Rattle.world_model.specs.Alive.{bit_of, allowed, lies_in, avoids, obeys, problem_at, IsAlive};
ghost use Rattle.world_model.specs.Node.{pair_at};
ghost use Rattle.world_model.specs.Trial.{bit_lists, alive_by_trial};
ghost use Rattle.plain_walk.specs.Plain.{serves_at};

use crate::rules::{bit, meets_structure};
use constraint_set::Problem;
use rcc5_core::{Occupancy, Position, Region, Regions, RelSet, forced};
use std::alloc::{AllocError, Global};
use std::marker::Model;
use world_model::{positions_narrow, trial_is_right};

// A pair of concepts, the lower number first.
type Pair = (u32, u32);

// The regions of a pair, in their order.
const REGIONS: [Region; 3] = [Region::LeftOnly, Region::Both, Region::RightOnly];

// A bit for each concept: whether the point is in it.
#[derive(Debug, Drop)]
struct Point {
    bits: Vec<bool>,
}

impl Model for Point {
    ghost use Rattle.std.specs.Prelude.{Bool, List};

    ghost Value = { List Bool };

    ghost view = { λ p. p.bits.items };
}

impl Point {
    // The point of no concept.
    fn new(alloc: Global) -> Point
        ensures { result ≡ [] }
    {
        Point {
            bits: Vec::new(alloc),
        }
    }

    fn bits(&self) -> &[bool]
        ensures { result.now ≡ self.now }
    {
        &self.bits
    }

    // The point with one more concept before the others.
    fn after(&self, alloc: Global, first: bool) -> Result<Point, AllocError>
        ensures { IfOk result (λ point. point ≡ first ∷ self.now) }
    {
        let mut bits = Vec::new(alloc);
        bits.push(first)?;
        bits.extend_from_slice(&self.bits)?;
        Ok(Point { bits })
    }
}

// Adds points that have a first bit and then those of others.
fn push_after(
    alloc: Global,
    first: bool,
    points: &[Point],
    list: &mut Vec<Point>,
) -> Result<(), AllocError>
    ensures { OnOk result (list.new.items ≡ list.old.items ++ map (λ bits. first ∷ bits) points.now) }
{
    for point in points {
        list.push(point.after(alloc, first)?)?;
    }
    Ok(())
}

// Every list of so many bits.
fn bit_lists(alloc: Global, count: usize) -> Result<Vec<Point>, AllocError>
    ensures { IfOk result (λ points. points.items ≡ bit_lists count) }
{
    let mut points = Vec::new(alloc);
    points.push(Point::new(alloc))?;
    for _length in 0..count {
        let mut longer = Vec::new(alloc);
        push_after(alloc, false, &points, &mut longer)?;
        push_after(alloc, true, &points, &mut longer)?;
        points = longer;
    }
    Ok(points)
}

// Whether a point lies in a region of a pair.
fn lies_in(region: Region, pair: Pair, bits: &[bool]) -> bool
    ensures { result ≡ lies_in region pair bits.now }
{
    let left = bit(bits, pair.0 as usize);
    let right = bit(bits, pair.1 as usize);
    match region {
        Region::LeftOnly => left && !right,
        Region::Both => left && right,
        Region::RightOnly => !left && right,
    }
}

// Whether no region of a pair that is forced empty has the point.
fn avoids(bits: &[bool], pair: Pair, regions: Regions) -> bool
    ensures { result ≡ avoids bits.now (pair, regions) }
{
    REGIONS.iter().all(|region| {
        !(regions.at(*region) == Occupancy::Empty && lies_in(*region, pair, bits))
    })
}

// Whether no region that is forced empty has the point.
fn avoids_each(bits: &[bool], forced: &[(Pair, Regions)]) -> bool
    ensures { result ≡ list_all (avoids bits.now) forced.now }
{
    forced
        .iter()
        .all(|(pair, regions)| avoids(bits, *pair, *regions))
}

// Whether bits meet the rules on concepts, and avoid what is forced empty.
fn obeys(problem: &Problem, forced: &[(Pair, Regions)], bits: &[bool]) -> bool
    ensures { result ≡ obeys problem.now forced.now bits.now }
{
    meets_structure(problem, bits) && avoids_each(bits, forced)
}

// The points, where so much is forced, by trial of every list of bits.
fn points(
    alloc: Global,
    problem: &Problem,
    forced: &[(Pair, Regions)],
) -> Result<Vec<Point>, AllocError>
    ensures { IfOk result (λ points. points.items ≡ filter (obeys problem.now forced.now) (bit_lists (concept_count problem.now))) }
{
    let mut points = bit_lists(alloc, problem.concept_count() as usize)?;
    points.retain(|point| obeys(problem, forced, point.bits()));
    Ok(points)
}

// Whether one of some points lies in a region of a pair.
fn has_point_in(points: &[Point], region: Region, pair: Pair) -> bool
    ensures { result ≡ list_any (lies_in region pair) points.now }
{
    points
        .iter()
        .any(|point| lies_in(region, pair, point.bits()))
}

// Whether each region of a pair that is forced occupied has one of the points.
fn serves_at(points: &[Point], pair: Pair, regions: Regions) -> bool
    ensures { result ≡ serves_at points.now (pair, regions) }
{
    REGIONS.iter().all(|region| {
        regions.at(*region) != Occupancy::Occupied || has_point_in(points, *region, pair)
    })
}

// Whether each region that is forced occupied has one of some points.
fn serves_each(points: &[Point], forced: &[(Pair, Regions)]) -> bool
    ensures { result ≡ list_all (serves_at points.now) forced.now }
{
    forced
        .iter()
        .all(|(pair, regions)| serves_at(points, *pair, *regions))
}

// Whether one of some points is in a concept.
fn has_point_of(points: &[Point], concept: usize) -> bool
    ensures { result ≡ list_any (λ bits. bit_of bits concept) points.now }
{
    points.iter().any(|point| bit(point.bits(), concept))
}

// Whether each concept has one of some points.
fn fills_concepts(problem: &Problem, points: &[Point]) -> bool
    ensures { result ≡ list_all (λ c. list_any (λ bits. bit_of bits c) points.now) (concepts problem.now) }
{
    (0..problem.concept_count() as usize).all(|concept| has_point_of(points, concept))
}

// Whether each need has one of some points: a region that is forced occupied, or a concept if none may be empty.
fn is_served(problem: &Problem, points: &[Point], forced: &[(Pair, Regions)]) -> bool
    ensures { result ≡ (list_all (serves_at points.now) forced.now && implies problem.now.switches.nonempty (list_all (λ c. list_any (λ bits. bit_of bits c) points.now) (concepts problem.now))) }
{
    serves_each(points, forced) && (!problem.switches().nonempty || fills_concepts(problem, points))
}

// The allowed set, at a position, of the pair with a number.
fn allowed_at(problem: &Problem, prefix: &Position, number: u32) -> RelSet
    requires { number < pair_count problem.now }
    ensures { result ≡ allowed (problem_at problem.now prefix.now) (pair_at problem.now number) }
{
    positions_narrow();
    let set = problem.allowed(number);
    if (number as usize) < prefix.len() {
        set.meet(RelSet::one(prefix.at(number as usize)))
    } else {
        set
    }
}

// Each pair with its allowed set at a position.
fn allowed_sets(
    alloc: Global,
    problem: &Problem,
    prefix: &Position,
) -> Result<Vec<(Pair, RelSet)>, AllocError>
    ensures { IfOk result (λ sets. sets.items ≡ map (λ pair. (pair, allowed (problem_at problem.now prefix.now) pair)) (pairs problem.now)) }
{
    let mut sets = Vec::new(alloc);
    for number in 0..problem.pair_count() {
        sets.push((problem.pair_at(number), allowed_at(problem, prefix, number)))?;
    }
    Ok(sets)
}

// Whether each of some sets has a relation.
fn all_allow(sets: &[(Pair, RelSet)]) -> bool
    ensures { result ≡ list_all (λ entry. not (is_empty_set entry.1)) sets.now }
{
    sets.iter().all(|(_, set)| !set.is_empty())
}

// What some sets force of their pairs.
fn forced_of(alloc: Global, sets: &[(Pair, RelSet)]) -> Result<Vec<(Pair, Regions)>, AllocError>
    ensures { IfOk result (λ regions. regions.items ≡ map (λ entry. (entry.0, forced_regions entry.1)) sets.now) }
{
    sets.iter()
        .map(|(pair, set)| (*pair, forced(*set)))
        .collect(alloc)
}

// Whether the problem is alive at a prefix, by trial of every list of bits.
fn is_alive_by_trial(
    alloc: Global,
    problem: &Problem,
    prefix: &Position,
) -> Result<bool, AllocError>
    ensures { IfOk result (λ alive. alive ≡ alive_by_trial (problem_at problem.now prefix.now)) }
{
    let sets = allowed_sets(alloc, problem, prefix)?;
    if !all_allow(&sets) {
        return Ok(false);
    }
    let forced = forced_of(alloc, &sets)?;
    let points = points(alloc, problem, &forced)?;
    Ok(is_served(problem, &points, &forced))
}

/// Whether the problem is alive at a prefix: each pair allows some relation there, and each need
/// has a point.
pub fn is_alive(alloc: Global, problem: &Problem, prefix: &Position) -> Result<bool, AllocError>
    ensures by_trial { IfOk result (λ alive. alive ≡ alive_by_trial (problem_at problem.now prefix.now)) }
    ensures alive { IfOk result (λ alive. IsTrue alive ↔ IsAlive (problem_at problem.now prefix.now)) }
{
    trial_is_right();
    let alive = is_alive_by_trial(alloc, problem, prefix)?;
    Ok(alive)
}
