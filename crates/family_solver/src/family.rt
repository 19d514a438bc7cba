//! The family of some of the points.
ghost use Rattle.set_family.specs.Meeting.{IsMetBy};
ghost use Rattle.set_family.specs.Sets.{is_set_below};
ghost use Rattle.std.specs.List.{list_all};
ghost use Rattle.std.specs.Prelude.{IfOk, IfSome, IsTrue};

use crate::clauses::has_concept;
use crate::ground::Ground;
use constraint_set::Problem;
use lits_core::Bits;
use set_family::Family;
use std::alloc::{AllocError, Global};

// The places of the points that bits have.
fn chosen(alloc: Global, ground: &Ground, bits: &Bits) -> Result<Vec<u32>, AllocError> {
    let mut places = Vec::new(alloc);
    for place in 0..ground.points.len().min(bits.len()).min(u32::MAX as usize) {
        if bits.get(place) {
            places.push(place as u32)?;
        }
    }
    Ok(places)
}

// Those of some places whose points lie in a concept.
fn places_with(
    alloc: Global,
    ground: &Ground,
    places: &[u32],
    concept: u32,
) -> Result<Vec<u32>, AllocError> {
    let mut found = Vec::new(alloc);
    for place in places {
        if let Some(point) = ground.points.get(*place as usize) {
            if has_concept(point, concept) {
                found.push(*place)?;
            }
        }
    }
    Ok(found)
}

// The family of the points that bits have.
fn family_of(
    alloc: Global,
    problem: &Problem,
    ground: &Ground,
    bits: &Bits,
) -> Result<Option<Family>, AllocError>
    ensures { IfOk result (λ found. IfSome found (λ f. IsTrue (list_all (is_set_below f.universe) f.sets))) }
{
    let places = chosen(alloc, ground, bits)?;
    let mut sets = Vec::new(alloc);
    for concept in 0..problem.concept_count() {
        sets.push(places_with(alloc, ground, &places, concept)?)?;
    }
    let most = ground.points.len().min(u32::MAX as usize);
    Ok(Family::from_lists(most as u32, sets))
}

/// The family of the points that bits have, if it meets the problem.
pub fn met_by(
    alloc: Global,
    problem: &Problem,
    ground: &Ground,
    bits: &Bits,
) -> Result<Option<Family>, AllocError>
    ensures { IfOk result (λ found. IfSome found (IsMetBy problem.now)) }
{
    let found = family_of(alloc, problem, ground, bits)?;
    let Some(family) = found else {
        return Ok(None);
    };
    if !family.meets(problem) {
        return Ok(None);
    }
    Ok(Some(family))
}
