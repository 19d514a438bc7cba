//! Given clauses.
ghost use Rattle.std.specs.Prelude.{◌≡◌, ◌+◌, ◌<◌, ◌≤◌, ◌==◌, [], ◌∷◌, ◌++◌, length, map, flat_map, if◌then◌else◌, All, IfOk, OnOk};
ghost use Rattle.world_model.specs.Problem.{concept_count, concepts, children_of, pairs};
ghost use Rattle.constraint_set.specs.Readers.{all_sums};
ghost use Rattle.point_encode.specs.Model.Clauses.{is_so, is_not, within_clauses, each_two, apart_clause, covered_clause, first_sum_selector, given_clauses, pair_clauses, pairs_clauses, sum_clauses, sums_clauses};

use crate::variables::{
    MAX_SUM_START, MAX_VARIABLES, children_of, concept_count, first_selector, is_not, is_so,
    parent_of, sum_count, sum_of,
};
use constraint_set::{MAX_CONCEPTS, Problem};
use lits_core::{Clause, Lit};
use std::alloc::{AllocError, Global};

/// The given clauses, in the order of their ids 1, 2 and so on.
pub fn given_clauses(alloc: Global, problem: &Problem) -> Result<Vec<Clause>, AllocError>
    ensures { IfOk result (λ clauses. clauses.items ≡ given_clauses problem.now) }
{
    let mut clauses = Vec::new(alloc);
    add_within(alloc, problem, &mut clauses)?;
    if problem.switches().sibling {
        add_apart(alloc, problem, &mut clauses)?;
    }
    if problem.switches().coverage {
        add_covered(alloc, problem, &mut clauses)?;
    }
    add_pairs(alloc, problem, &mut clauses)?;
    add_sums(alloc, problem, &mut clauses)?;
    Ok(clauses)
}

// Adds a clause.
fn add(alloc: Global, lits: &[Lit], clauses: &mut Vec<Clause>) -> Result<(), AllocError>
    ensures { OnOk result (clauses.new.items ≡ clauses.old.items ++ lits.now ∷ []) }
{
    clauses.push(Clause::from_lits(alloc, lits)?)?;
    Ok(())
}

// Adds a clause of some literals and then of concepts, one of which holds.
fn add_with_any(
    alloc: Global,
    lits: &[Lit],
    concepts: &[u32],
    clauses: &mut Vec<Clause>,
) -> Result<(), AllocError>
    requires { All (λ concept. concept < MAX_CONCEPTS) concepts.now }
    ensures { OnOk result (clauses.new.items ≡ clauses.old.items ++ (lits.now ++ map is_so concepts.now) ∷ []) }
{
    let mut all = Vec::from_slice(alloc, lits)?;
    for concept in concepts {
        all.push(is_so(*concept))?;
    }
    add(alloc, &all, clauses)
}

// Adds for each concept with a parent that it lies in its parent.
fn add_within(alloc: Global, problem: &Problem, clauses: &mut Vec<Clause>) -> Result<(), AllocError>
    ensures { OnOk result (clauses.new.items ≡ clauses.old.items ++ within_clauses problem.now) }
{
    for concept in 0..concept_count(problem) {
        if let Some(parent) = parent_of(problem, concept) {
            add(alloc, &[is_not(concept), is_so(parent)], clauses)?;
        }
    }
    Ok(())
}

// Adds for each two children of one parent that they have nothing in common.
fn add_apart(alloc: Global, problem: &Problem, clauses: &mut Vec<Clause>) -> Result<(), AllocError>
    ensures { OnOk result (clauses.new.items ≡ clauses.old.items ++ flat_map (λ c. map apart_clause (each_two (children_of problem.now c))) (concepts problem.now)) }
{
    for concept in 0..concept_count(problem) {
        add_apart_all(alloc, children_of(problem, concept), clauses)?;
    }
    Ok(())
}

// Adds for each two of some concepts that they have nothing in common.
fn add_apart_all(
    alloc: Global,
    concepts: &[u32],
    clauses: &mut Vec<Clause>,
) -> Result<(), AllocError>
    requires { All (λ concept. concept < MAX_CONCEPTS) concepts.now }
    ensures { OnOk result (clauses.new.items ≡ clauses.old.items ++ map apart_clause (each_two concepts.now)) }
{
    for (place, concept) in concepts.iter().enumerate() {
        add_apart_from(alloc, *concept, &concepts[place + 1..], clauses)?;
    }
    Ok(())
}

// Adds for one concept and each of others that they have nothing in common.
fn add_apart_from(
    alloc: Global,
    concept: u32,
    others: &[u32],
    clauses: &mut Vec<Clause>,
) -> Result<(), AllocError>
    requires concept { concept < MAX_CONCEPTS }
    requires others { All (λ other. other < MAX_CONCEPTS) others.now }
    ensures { OnOk result (clauses.new.items ≡ clauses.old.items ++ map apart_clause (map (λ other. (concept, other)) others.now)) }
{
    for other in others {
        add(alloc, &[is_not(concept), is_not(*other)], clauses)?;
    }
    Ok(())
}

// Adds for each concept with children that what is in it is in one of its children.
fn add_covered(
    alloc: Global,
    problem: &Problem,
    clauses: &mut Vec<Clause>,
) -> Result<(), AllocError>
    ensures { OnOk result (clauses.new.items ≡ clauses.old.items ++ flat_map (λ c. if length (children_of problem.now c) == 0 then [] else covered_clause c (children_of problem.now c) ∷ []) (concepts problem.now)) }
{
    for concept in 0..concept_count(problem) {
        let children = children_of(problem, concept);
        if !children.is_empty() {
            add_with_any(alloc, &[is_not(concept)], children, clauses)?;
        }
    }
    Ok(())
}

// Adds for each pair that its selectors keep the point out of its regions.
fn add_pairs(alloc: Global, problem: &Problem, clauses: &mut Vec<Clause>) -> Result<(), AllocError>
    ensures { OnOk result (clauses.new.items ≡ clauses.old.items ++ pairs_clauses (concept_count problem.now) (pairs problem.now)) }
{
    problem.facts();
    for pair in 0..problem.pair_count() {
        let (x, y) = problem.pair_at(pair);
        add_pair(alloc, first_selector(problem, pair), x, y, clauses)?;
    }
    Ok(())
}

// Adds for one pair, with its first selector, that its selectors keep the point out of its regions.
fn add_pair(
    alloc: Global,
    first: u32,
    x: u32,
    y: u32,
    clauses: &mut Vec<Clause>,
) -> Result<(), AllocError>
    requires first { first ≤ MAX_SUM_START }
    requires x { x < MAX_CONCEPTS }
    requires y { y < MAX_CONCEPTS }
    ensures { OnOk result (clauses.new.items ≡ clauses.old.items ++ pair_clauses first (x, y)) }
{
    add(alloc, &[is_not(first), is_not(x), is_so(y)], clauses)?;
    add(alloc, &[is_not(first + 1), is_not(x), is_not(y)], clauses)?;
    add(alloc, &[is_not(first + 2), is_so(x), is_not(y)], clauses)
}

// Adds for each sum that it holds where its selector does.
fn add_sums(alloc: Global, problem: &Problem, clauses: &mut Vec<Clause>) -> Result<(), AllocError>
    ensures { OnOk result (clauses.new.items ≡ clauses.old.items ++ sums_clauses (first_sum_selector problem.now) (all_sums problem.now)) }
{
    let first = first_selector(problem, problem.pair_count());
    for sum in 0..sum_count(problem) {
        let (whole, parts) = sum_of(problem, sum);
        add_sum(alloc, first + sum, whole, parts, clauses)?;
    }
    Ok(())
}

// Adds for one sum, with its selector, that each part lies in the whole, and what is in the whole in one of the parts.
fn add_sum(
    alloc: Global,
    selector: u32,
    whole: u32,
    parts: &[u32],
    clauses: &mut Vec<Clause>,
) -> Result<(), AllocError>
    requires selector { selector ≤ MAX_VARIABLES }
    requires whole { whole < MAX_CONCEPTS }
    requires parts { All (λ part. part < MAX_CONCEPTS) parts.now }
    ensures { OnOk result (clauses.new.items ≡ clauses.old.items ++ sum_clauses selector (record { whole = whole; parts = parts.now })) }
{
    for part in parts {
        add(
            alloc,
            &[is_not(selector), is_not(*part), is_so(whole)],
            clauses,
        )?;
    }
    add_with_any(alloc, &[is_not(selector), is_not(whole)], parts, clauses)
}
