//! The ids of a problem's given clauses: of its trees, of its pairs and of its sums.
use constraint_set::{Articulation, Problem};
use std::alloc::{AllocError, Global};

/// Where the ids of each kind begin.
#[derive(Drop)]
pub(crate) struct Given {
    // By the concept: the one that it lies in its parent, the first of those that its children lie apart, and the one that they
    // cover it.
    within: Vec<u64>,
    apart: Vec<u64>,
    covered: Vec<u64>,
    // The first of the first pair, each of which has three, and the first of each sum.
    pairs: u64,
    sums: Vec<u64>,
}

// How many clauses say of so many children that they lie apart.
fn apart_count(children: u64) -> u64 {
    children.saturating_mul(children.saturating_sub(1)) / 2
}

// How many of these clauses come before that of two children, by their places.
fn apart_before(children: u64, first: u64, second: u64) -> u64 {
    let left = children.saturating_sub(first);
    let rows = apart_count(children).saturating_sub(apart_count(left));
    rows.saturating_add(second.saturating_sub(first).saturating_sub(1))
}

// An id, by its number among some.
fn at(ids: &[u64], number: u32) -> u64 {
    ids.get(number as usize).copied().unwrap_or(0)
}

impl Given {
    pub(crate) fn new(alloc: Global, problem: &Problem) -> Result<Given, AllocError> {
        let mut given = Given {
            within: Vec::new(alloc),
            apart: Vec::new(alloc),
            covered: Vec::new(alloc),
            pairs: 0,
            sums: Vec::new(alloc),
        };
        let mut next: u64 = 1;
        next = given.number_within(problem, next)?;
        next = given.number_apart(problem, next)?;
        next = given.number_covered(problem, next)?;
        given.pairs = next;
        next = next.saturating_add(3 * u64::from(problem.pair_count()));
        given.number_sums(problem, next)?;
        Ok(given)
    }

    // From an id on, each that a concept lies in its parent. Answers the next one.
    fn number_within(&mut self, problem: &Problem, first: u64) -> Result<u64, AllocError> {
        let mut next = first;
        for concept in 0..problem.concept_count() {
            self.within.push(next)?;
            if problem.parent(concept).is_some() {
                next = next.saturating_add(1);
            }
        }
        Ok(next)
    }

    // From an id on, each that two children of a concept lie apart. Answers the next one.
    fn number_apart(&mut self, problem: &Problem, first: u64) -> Result<u64, AllocError> {
        let mut next = first;
        for concept in 0..problem.concept_count() {
            self.apart.push(next)?;
            if problem.switches().sibling {
                let count = problem.children(concept).len();
                next = next.saturating_add(apart_count(count as u64));
            }
        }
        Ok(next)
    }

    // From an id on, each that the children of a concept cover it. Answers the next one.
    fn number_covered(&mut self, problem: &Problem, first: u64) -> Result<u64, AllocError> {
        let mut next = first;
        for concept in 0..problem.concept_count() {
            self.covered.push(next)?;
            if problem.switches().coverage && !problem.children(concept).is_empty() {
                next = next.saturating_add(1);
            }
        }
        Ok(next)
    }

    // From an id on, those of each sum.
    fn number_sums(&mut self, problem: &Problem, first: u64) -> Result<(), AllocError> {
        problem.facts();
        let mut next = first;
        for sum in 0..problem.sum_count() {
            self.sums.push(next)?;
            let count = match problem.articulation(problem.sum_at(sum)) {
                Articulation::Sum { parts, .. } => parts.list().len(),
                Articulation::Pair { .. } => 0,
            };
            next = next.saturating_add(1).saturating_add(count as u64);
        }
        Ok(())
    }

    // That a concept lies in its parent.
    pub(crate) fn within(&self, concept: u32) -> u64 {
        at(&self.within, concept)
    }

    // That two of so many children of a concept lie apart, by their places among them, the lower one first.
    pub(crate) fn apart(&self, concept: u32, children: usize, first: usize, second: usize) -> u64 {
        let before = apart_before(children as u64, first as u64, second as u64);
        at(&self.apart, concept).saturating_add(before)
    }

    // That a concept is covered by its children.
    pub(crate) fn covered(&self, concept: u32) -> u64 {
        at(&self.covered, concept)
    }

    // That a region of a pair is empty where its selector is true.
    pub(crate) fn of_region(&self, pair: u32, part: u32) -> u64 {
        let number = 3 * u64::from(pair) + u64::from(part);
        self.pairs.saturating_add(number)
    }

    // That a part of a sum, by its place, lies in the whole.
    pub(crate) fn part(&self, sum: u32, place: usize) -> u64 {
        at(&self.sums, sum).saturating_add(place as u64)
    }
}
