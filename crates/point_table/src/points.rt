//! The test of a point: whether a list of bits, one a concept, is a point of a problem.
ghost use Rattle.std.specs.Prelude.{◌≡◌, ◌+◌, ◌<◌, ◌==◌, ◌&&◌, ◌||◌, not, [], ◌∷◌, ◌++◌, if◌then◌else◌, length, All, IfOk, OnOk};
ghost use Rattle.std.specs.List.{list_all, list_any};
ghost use Rattle.world_model.specs.Problem.{concept_count, children_of, pair_count, kept_sums};
ghost use Rattle.world_model.specs.Family.{implies};
ghost use Rattle.world_model.specs.Node.{pair_at};
ghost use Rattle.world_model.specs.Alive.{bit_of, avoids, avoids_by, point_within, point_apart, point_covered, point_sums, meets_structure, is_point};
ghost use Rattle.world_model.specs.Points.{has_empty, empty_pairs, avoids_at, sum_holds, sums_from};
ghost use Rattle.point_table.specs.Points.{AreAllowed};

use constraint_set::{Articulation, Problem};
use rcc5_core::{Occupancy, Regions, RelSet, forced};
use std::alloc::{AllocError, Global};

/// What each pair allows, by its number.
pub fn allowed_sets(alloc: Global, problem: &Problem) -> Result<Vec<RelSet>, AllocError>
    ensures { IfOk result (λ sets. AreAllowed problem.now sets.items) }
{
    let mut sets = Vec::with_capacity(alloc, problem.pair_count() as usize)?;
    for pair in 0..problem.pair_count() {
        sets.push(problem.allowed(pair))?;
    }
    Ok(sets)
}

// The pairs with a region that is forced empty.
pub(crate) fn pairs_with_empty(
    alloc: Global,
    problem: &Problem,
    sets: &[RelSet],
) -> Result<Vec<u32>, AllocError>
    requires { AreAllowed problem.now sets.now }
    ensures { IfOk result (λ pairs. pairs.items ≡ empty_pairs problem.now) }
{
    let mut pairs = Vec::new(alloc);
    for pair in 0..problem.pair_count() {
        add_if_empty(&mut pairs, pair, forced(sets[pair as usize]))?;
    }
    Ok(pairs)
}

/// Adds a pair if it has a region that is forced empty.
pub fn add_if_empty(pairs: &mut Vec<u32>, pair: u32, regions: Regions) -> Result<(), AllocError>
    ensures { OnOk result (pairs.new.items ≡ pairs.old.items ++ (if has_empty regions then pair ∷ [] else [])) }
{
    if has_empty(regions) {
        pairs.push(pair)?;
    }
    Ok(())
}

// Whether a region is forced empty.
fn has_empty(regions: Regions) -> bool
    ensures { result ≡ has_empty regions }
{
    regions.left_only == Occupancy::Empty
        || regions.both == Occupancy::Empty
        || regions.right_only == Occupancy::Empty
}

// A concept's bit in a list of bits.
pub(crate) fn bit(bits: &[bool], concept: u32) -> bool
    ensures { result ≡ bit_of bits.now concept }
{
    match bits.get(concept as usize) {
        Some(bit) => *bit,
        None => false,
    }
}

// Whether one of some concepts has the point.
fn any_bit(bits: &[bool], concepts: &[u32]) -> bool
    ensures { result ≡ list_any (bit_of bits.now) concepts.now }
{
    concepts.iter().any(|concept| bit(bits, *concept))
}

// Whether each child of a concept that has the point leaves it to the concept too.
fn is_within_at(problem: &Problem, bits: &[bool], concept: u32) -> bool
    requires { concept < concept_count problem.now }
    ensures { result ≡ list_all (λ child. implies (bit_of bits.now child) (bit_of bits.now concept)) (children_of problem.now concept) }
{
    let whole = bit(bits, concept);
    problem
        .children(concept)
        .iter()
        .all(|child| !bit(bits, *child) || whole)
}

// Whether no two different ones of some concepts have the point, the first of which is given.
fn is_apart_from(bits: &[bool], child: u32, children: &[u32]) -> bool
    ensures { result ≡ list_all (λ other. (child == other) || not (bit_of bits.now child && bit_of bits.now other)) children.now }
{
    let has = bit(bits, child);
    // Most children don't have the point; of those nothing is to be looked at.
    !has || children
        .iter()
        .all(|other| child == *other || !(has && bit(bits, *other)))
}

// Whether no two different children of a concept have the point.
fn is_apart_at(problem: &Problem, bits: &[bool], concept: u32) -> bool
    requires { concept < concept_count problem.now }
    ensures { result ≡ list_all (λ a. list_all (λ b. (a == b) || not (bit_of bits.now a && bit_of bits.now b)) (children_of problem.now concept)) (children_of problem.now concept) }
{
    let children = problem.children(concept);
    children
        .iter()
        .all(|child| is_apart_from(bits, *child, children))
}

// Whether a concept that has the point has no children, or one with the point.
fn is_covered_at(problem: &Problem, bits: &[bool], concept: u32) -> bool
    requires { concept < concept_count problem.now }
    ensures { result ≡ (length (children_of problem.now concept) == 0) || implies (bit_of bits.now concept) (list_any (bit_of bits.now) (children_of problem.now concept)) }
{
    let children = problem.children(concept);
    children.is_empty() || !bit(bits, concept) || any_bit(bits, children)
}

// Whether the bit of each child implies that of its parent.
fn is_within(problem: &Problem, bits: &[bool]) -> bool
    ensures { result ≡ point_within problem.now bits.now }
{
    for concept in 0..problem.concept_count() {
        if !is_within_at(problem, bits, concept) {
            return false;
        }
    }
    true
}

// Whether no two different children of one parent have the point.
fn is_apart(problem: &Problem, bits: &[bool]) -> bool
    ensures { result ≡ point_apart problem.now bits.now }
{
    for concept in 0..problem.concept_count() {
        if !is_apart_at(problem, bits, concept) {
            return false;
        }
    }
    true
}

// Whether each concept that has the point and has children has a child with the point.
fn is_covered(problem: &Problem, bits: &[bool]) -> bool
    ensures { result ≡ point_covered problem.now bits.now }
{
    for concept in 0..problem.concept_count() {
        if !is_covered_at(problem, bits, concept) {
            return false;
        }
    }
    true
}

// Whether each kept sum holds at a point.
fn sums_hold(problem: &Problem, bits: &[bool]) -> bool
    ensures { result ≡ list_all (point_sums bits.now) (kept_sums problem.now) }
{
    for index in 0..problem.articulation_count() {
        if !holds_if_kept(problem, index, bits) {
            return false;
        }
    }
    true
}

// Whether an articulation is not kept, or is no sum, or holds at a point.
fn holds_if_kept(problem: &Problem, index: u32, bits: &[bool]) -> bool
    requires { index < length problem.now.articulations }
    ensures { sums_from bits.now problem.now index ≡ (result && sums_from bits.now problem.now (index + 1)) }
{
    if !problem.is_kept(index) {
        return true;
    }
    sum_holds(problem.articulation(index), bits)
}

// Whether a sum holds at a point. What is no sum says nothing.
fn sum_holds(articulation: &Articulation, bits: &[bool]) -> bool
    ensures { result ≡ sum_holds bits.now articulation.now }
{
    match articulation {
        Articulation::Pair { .. } => true,
        Articulation::Sum { whole, parts } => bit(bits, *whole) == any_bit(bits, parts.list()),
    }
}

/// Whether no region of two concepts that is forced empty has a point, by whether it is in the left one and in the right one.
pub fn avoids_by(regions: Regions, left: bool, right: bool) -> bool
    ensures { result ≡ avoids_by regions left right }
{
    match (left, right) {
        (true, false) => regions.left_only != Occupancy::Empty,
        (true, true) => regions.both != Occupancy::Empty,
        (false, true) => regions.right_only != Occupancy::Empty,
        (false, false) => true,
    }
}

// Whether no region of a pair that is forced empty has the point.
fn avoids(bits: &[bool], pair: (u32, u32), regions: Regions) -> bool
    ensures { result ≡ avoids bits.now (pair, regions) }
{
    avoids_by(regions, bit(bits, pair.0), bit(bits, pair.1))
}

// Whether a point is in no region of some pairs that is forced empty.
fn avoids_all(problem: &Problem, sets: &[RelSet], pairs: &[u32], bits: &[bool]) -> bool
    requires sets { AreAllowed problem.now sets.now }
    requires pairs { All (λ pair. pair < pair_count problem.now) pairs.now }
    ensures { result ≡ list_all (avoids_at problem.now bits.now) pairs.now }
{
    for pair in pairs {
        if !avoids(bits, problem.pair_at(*pair), forced(sets[*pair as usize])) {
            return false;
        }
    }
    true
}

/// Whether bits, one a concept, meet the rules on a point that speak of the concepts alone: trees and kept sums.
pub fn meets_structure(problem: &Problem, bits: &[bool]) -> bool
    ensures { result ≡ meets_structure problem.now bits.now }
{
    let switches = problem.switches();
    bits.len() == problem.concept_count() as usize
        && is_within(problem, bits)
        && (!switches.sibling || is_apart(problem, bits))
        && (!switches.coverage || is_covered(problem, bits))
        && sums_hold(problem, bits)
}

// Whether bits are a point.
pub(crate) fn is_point(problem: &Problem, sets: &[RelSet], pairs: &[u32], bits: &[bool]) -> bool
    requires sets { AreAllowed problem.now sets.now }
    requires pairs { pairs.now ≡ empty_pairs problem.now }
    ensures { result ≡ is_point problem.now bits.now }
{
    meets_structure(problem, bits) && avoids_all(problem, sets, pairs, bits)
}
