//! A family of 1,000 elements for the concepts of a problem, and whether it meets the problem and has a table.

use crate::files::bytes_of;
use cleantax_text::read_problem;
use constraint_set::Problem;
use lits_core::Bits;
use outer_store::{Store, StoreFault};
use rcc5_core::Position;
use set_family::Family;
use std::alloc::{AllocError, Global};
use world_model::Switches;

const ELEMENTS: u32 = 1000;

const DEPTH: u32 = 8;

// The concepts of a taxonomy that have no children.
fn leaves(alloc: Global, problem: &Problem, owner: u32) -> Result<Vec<u32>, AllocError> {
    let mut list = Vec::new(alloc);
    for concept in 0..problem.concept_count() {
        if problem.owner(concept) == owner && problem.children(concept).is_empty() {
            list.push(concept)?;
        }
    }
    Ok(list)
}

// Makes a concept and those above it true.
fn set_upwards(problem: &Problem, bits: &mut Bits, concept: u32) {
    let mut at = Some(concept);
    for _ in 0..DEPTH {
        if let Some(concept) = at {
            if (concept as usize) < bits.len() {
                bits.set(concept as usize, true);
            }
            at = if concept < problem.concept_count() {
                problem.parent(concept)
            } else {
                None
            };
        }
    }
}

// An element in one leaf of each taxonomy, the leaves in turn.
fn point(alloc: Global, problem: &Problem, element: u32) -> Result<Bits, AllocError> {
    let mut bits = Bits::new(alloc, problem.concept_count() as usize)?;
    for owner in 0..problem.taxonomy_count() {
        let leaves = leaves(alloc, problem, owner)?;
        if !leaves.is_empty() {
            let leaf = leaves[element as usize % leaves.len()];
            set_upwards(problem, &mut bits, leaf);
        }
    }
    Ok(bits)
}

// One point an element.
fn points(alloc: Global, problem: &Problem) -> Result<Vec<Bits>, AllocError> {
    let mut list = Vec::new(alloc);
    for element in 0..ELEMENTS {
        list.push(point(alloc, problem, element)?)?;
    }
    Ok(list)
}

// The relations of a family's sets, pair by pair.
fn table(alloc: Global, problem: &Problem, family: &Family) -> Result<Position, AllocError> {
    let mut table = Position::new(alloc);
    for pair in 0..problem.pair_count() {
        let (i, j) = problem.pair_at(pair);
        if j < family.count() {
            table.push(family.relation(i, j))?;
        }
    }
    Ok(table)
}

// How often the family met the problem and had its table, of so many times.
fn times_met(alloc: Global, problem: &Problem, times: u32) -> Result<u32, AllocError> {
    let points = points(alloc, problem)?;
    if points.len() > ELEMENTS as usize {
        return Ok(0);
    }
    if points
        .iter()
        .any(|bits| bits.len() < problem.concept_count() as usize)
    {
        return Ok(0);
    }
    let family = Family::from_points(alloc, problem.concept_count(), &points)?;
    let table = table(alloc, problem, &family)?;
    let mut met = 0u32;
    for _ in 0..times {
        let meets = family.meets(problem);
        let has_table = family.has_table(problem, &table);
        if meets && has_table {
            met = met.saturating_add(1);
        }
    }
    Ok(met)
}

/// All rules on.
fn all_on() -> Switches {
    Switches {
        nonempty: true,
        sibling: true,
        coverage: true,
    }
}

/// What came of reading the problem in a file.
pub fn read<S: Store>(alloc: Global, store: &mut S, name: &str) -> Result<String, AllocError> {
    let bytes = match bytes_of(alloc, store, name) {
        Ok(bytes) => bytes,
        Err(StoreFault::Failed) => return format!(in alloc; "failed"),
        Err(StoreFault::NoMemory) => return Err(AllocError),
    };
    match read_problem(alloc, &bytes, all_on()) {
        Ok(problem) => {
            let concepts = problem.concept_count();
            format!(in alloc; "concepts {concepts}")
        }
        Err(_) => format!(in alloc; "refused"),
    }
}

/// What came of asking so many times whether the family meets the problem in a file and has its table.
pub fn meet<S: Store>(
    alloc: Global,
    store: &mut S,
    name: &str,
    times: u32,
) -> Result<String, AllocError> {
    let bytes = match bytes_of(alloc, store, name) {
        Ok(bytes) => bytes,
        Err(StoreFault::Failed) => return format!(in alloc; "failed"),
        Err(StoreFault::NoMemory) => return Err(AllocError),
    };
    match read_problem(alloc, &bytes, all_on()) {
        Ok(problem) => {
            let met = times_met(alloc, &problem, times)?;
            format!(in alloc; "met {met}")
        }
        Err(_) => format!(in alloc; "refused"),
    }
}
