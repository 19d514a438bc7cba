//! A family that shows many wished relations.
ghost use Rattle.std.specs.Prelude.{IfOk, IfSome, IsTrue};
ghost use Rattle.std.specs.List.{list_all};
ghost use Rattle.set_family.specs.Meeting.{IsMetBy};
ghost use Rattle.set_family.specs.Sets.{is_set_below};

use crate::draft::Draft;
use crate::table::Table;
use bit_rows::has_bit;
use constraint_set::Problem;
use rcc5_core::{Rel, RelSet};
use set_family::Family;
use std::alloc::{AllocError, Global};

const RELS: [Rel; 5] = [
    Rel::Equals,
    Rel::Includes,
    Rel::IncludedIn,
    Rel::Overlaps,
    Rel::Disjoint,
];

/// For each pair, by its number, the relations that may be left, and those that were seen. What is left and was not seen is wished,
/// from a pair on, and then from the first one.
#[derive(Clone, Copy)]
pub struct Wishes<'a> {
    pub left: &'a [RelSet],
    pub seen: &'a [RelSet],
    pub first: usize,
}

impl Wishes<'_> {
    // Whether a relation is wished at a pair.
    fn has(&self, pair: usize, rel: Rel) -> bool {
        match (self.left.get(pair), self.seen.get(pair)) {
            (Some(left), Some(seen)) => left.has(rel) && !seen.has(rel),
            _ => false,
        }
    }
}

/// So many wishes may fail before no more are tried.
const MOST_FAILED: usize = 1_000;

// Grants a wished relation of a pair, and counts those that can't be.
fn grant_pair(
    problem: &Problem,
    table: &Table,
    wishes: Wishes,
    pair: usize,
    draft: &mut Draft,
    failed: &mut usize,
) -> Result<(), AllocError> {
    if pair < problem.pair_count() as usize {
        let (left, right) = problem.pair_at(pair as u32);
        for rel in RELS {
            if wishes.has(pair, rel) {
                if draft.grant(table, left, right, rel)? {
                    return Ok(());
                }
                *failed = failed.saturating_add(1);
            }
        }
    }
    Ok(())
}

/// The pairs are gone through in steps of so many, since wishes of pairs that stand side by side mostly bar one another. It is a
/// prime, so that each pair has its turn.
const STEP: usize = 648_059;

// Grants wished relations, of each pair one at most.
fn grant_all(
    problem: &Problem,
    table: &Table,
    wishes: Wishes,
    draft: &mut Draft,
) -> Result<(), AllocError> {
    let count = wishes.left.len();
    let mut failed = 0;
    let mut pair = wishes.first;
    for _n in 0..count {
        if MOST_FAILED <= failed {
            return Ok(());
        }
        grant_pair(problem, table, wishes, pair, draft, &mut failed)?;
        pair = pair.saturating_add(STEP) % count;
    }
    Ok(())
}

// Which of some points have a concept, by their numbers among these.
fn numbers_with(
    alloc: Global,
    table: &Table,
    places: &[usize],
    concept: usize,
) -> Result<Vec<u32>, AllocError> {
    let mut numbers = Vec::new(alloc);
    if concept < table.rows.count() {
        let row = table.rows.row(concept);
        for number in 0..places.len().min(u32::MAX as usize) {
            if has_bit(row, places[number]) {
                numbers.push(number as u32)?;
            }
        }
    }
    Ok(numbers)
}

// The family of some points.
fn family_of(
    alloc: Global,
    problem: &Problem,
    table: &Table,
    places: &[usize],
) -> Result<Option<Family>, AllocError>
    ensures { IfOk result (λ found. IfSome found (λ f. IsTrue (list_all (is_set_below f.universe) f.sets))) }
{
    let mut sets = Vec::new(alloc);
    for concept in 0..problem.concept_count() {
        sets.push(numbers_with(alloc, table, places, concept as usize)?)?;
    }
    let most = places.len().min(u32::MAX as usize);
    Ok(Family::from_lists(most as u32, sets))
}

/// A family that meets a problem and shows many wished relations. The pairs whose sets are not whole have the relations that a given
/// family has there.
pub fn wished(
    alloc: Global,
    problem: &Problem,
    table: &Table,
    family: &Family,
    wishes: Wishes,
) -> Result<Option<Family>, AllocError>
    ensures { IfOk result (λ found. IfSome found (IsMetBy problem.now)) }
{
    let Some(mut draft) = Draft::new(alloc, problem, table, family)? else {
        return Ok(None);
    };
    grant_all(problem, table, wishes, &mut draft)?;
    let places = draft.places(alloc, table)?;
    let found = family_of(alloc, problem, table, &places)?;
    let Some(family) = found else {
        return Ok(None);
    };
    if !family.meets(problem) {
        return Ok(None);
    }
    Ok(Some(family))
}
