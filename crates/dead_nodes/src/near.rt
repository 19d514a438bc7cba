//! Regions that are shown empty by others beside them: a concept lies in its parent.
//!
//! All ids here are hints, by the order of the given clauses: whether they show a clause is tested by the asker.
ghost use Rattle.std.specs.Prelude.{◌<◌, ◌≤◌, length, IfSome};
ghost use Rattle.world_model.specs.Problem.{concept_count, pair_count};

use constraint_set::Problem;
use lits_core::Lit;
use point_encode::{forced_at, word_of};
use rcc5_core::{Occupancy, Position};
use std::alloc::{AllocError, Global};

/// For each concept the id of the clause that it lies in its parent, and the id of the first clause of a region.
#[derive(Drop)]
pub(crate) struct Given {
    within: Vec<u64>,
    first: u64,
}

/// A clause that is to be shown: its literals, and the ids of the two clauses that show it.
#[derive(Clone, Copy)]
pub(crate) struct Draft {
    pub lits: [Lit; 3],
    pub hints: [u64; 2],
}

/// What lies in one concept and in another, or in the one alone.
#[derive(Clone, Copy)]
struct Part {
    inside: u32,
    other: u32,
    both: bool,
}

/// A region of a pair, by their numbers.
#[derive(Clone, Copy)]
pub(crate) struct Region {
    pub pair: u32,
    pub part: u32,
}

// The region that a part is, unless the two concepts are one.
fn region_of(problem: &Problem, part: Part) -> Option<Region>
    requires inside { part.inside < concept_count problem.now }
    requires other { part.other < concept_count problem.now }
    ensures { IfSome result (λ region. (region.pair < pair_count problem.now) × (region.part < 3)) }
{
    if part.inside < part.other {
        return Some(Region {
            pair: problem.pair_index(part.inside, part.other),
            part: if part.both { 1 } else { 0 },
        });
    }
    if part.other < part.inside {
        return Some(Region {
            pair: problem.pair_index(part.other, part.inside),
            part: if part.both { 1 } else { 2 },
        });
    }
    None
}

// The part that a region is.
fn part_of(problem: &Problem, region: Region) -> Part
    requires { region.pair < pair_count problem.now }
    ensures inside { result.inside < concept_count problem.now }
    ensures other { result.other < concept_count problem.now }
{
    let (x, y) = problem.pair_at(region.pair);
    let both = region.part == 1;
    if region.part == 2 {
        return Part {
            inside: y,
            other: x,
            both,
        };
    }
    Part {
        inside: x,
        other: y,
        both,
    }
}

// How a part is shown empty by a wider one that a node forces empty: the concept of this number lies in its parent, so the one
// part lies in the other.
fn shown_in(
    problem: &Problem,
    node: &Position,
    given: &Given,
    part: Part,
    wider: Part,
    step: u32,
) -> Option<Draft>
    requires within { length node.now ≤ pair_count problem.now }
    requires inside { part.inside < concept_count problem.now }
    requires other { part.other < concept_count problem.now }
    requires wide_inside { wider.inside < concept_count problem.now }
    requires wide_other { wider.other < concept_count problem.now }
{
    let Some(region) = region_of(problem, wider) else {
        return None;
    };
    match word_of(forced_at(problem, node, region.pair), region.part) {
        Occupancy::Empty => {}
        Occupancy::Occupied | Occupancy::Free => return None,
    }
    problem.facts();
    let selector = problem.concept_count() + 3 * region.pair + region.part;
    Some(Draft {
        lits: [
            Lit::new(selector, true),
            Lit::new(part.inside, true),
            Lit::new(part.other, part.both),
        ],
        hints: given.of(step, region),
    })
}

// How a part is shown empty by one with the parent of a concept of it in place of the concept.
fn shown_by_parent(problem: &Problem, node: &Position, given: &Given, part: Part) -> Option<Draft>
    requires within { length node.now ≤ pair_count problem.now }
    requires inside { part.inside < concept_count problem.now }
    requires other { part.other < concept_count problem.now }
{
    let count = problem.concept_count();
    if let Some(inside) = problem.parent(part.inside) {
        if inside < count {
            let wider = Part { inside, ..part };
            let shown = shown_in(problem, node, given, part, wider, part.inside);
            if shown.is_some() {
                return shown;
            }
        }
    }
    if !part.both {
        return None;
    }
    match problem.parent(part.other) {
        Some(other) if other < count => {
            let wider = Part { other, ..part };
            shown_in(problem, node, given, part, wider, part.other)
        }
        _ => None,
    }
}

// How a part outside of a concept is shown empty by the one outside of a child of it.
fn shown_by_child(problem: &Problem, node: &Position, given: &Given, part: Part) -> Option<Draft>
    requires within { length node.now ≤ pair_count problem.now }
    requires inside { part.inside < concept_count problem.now }
    requires other { part.other < concept_count problem.now }
{
    if part.both {
        return None;
    }
    let count = problem.concept_count();
    for child in problem.children(part.other) {
        let other = *child;
        if other < count {
            let wider = Part { other, ..part };
            let shown = shown_in(problem, node, given, part, wider, other);
            if shown.is_some() {
                return shown;
            }
        }
    }
    None
}

// How a region is shown empty by one beside it, if by one.
pub(crate) fn shown_near(
    problem: &Problem,
    node: &Position,
    given: &Given,
    region: Region,
) -> Option<Draft>
    requires within { length node.now ≤ pair_count problem.now }
    requires region { region.pair < pair_count problem.now }
{
    let part = part_of(problem, region);
    let shown = shown_by_parent(problem, node, given, part);
    if shown.is_some() {
        return shown;
    }
    shown_by_child(problem, node, given, part)
}

impl Given {
    // No ids.
    pub(crate) fn none(alloc: Global) -> Given {
        Given {
            within: Vec::new(alloc),
            first: 0,
        }
    }

    // Whether there are none.
    pub(crate) fn is_none(&self) -> bool {
        self.within.is_empty()
    }

    // The ids of a problem's clauses.
    pub(crate) fn new(alloc: Global, problem: &Problem) -> Result<Given, AllocError> {
        let mut within = Vec::new(alloc);
        let mut next: u64 = 1;
        let mut others: u64 = 0;
        for concept in 0..problem.concept_count() {
            within.push(next)?;
            if problem.parent(concept).is_some() {
                next = next.saturating_add(1);
            }
            let count = problem.children(concept).len();
            others = others.saturating_add(clauses_of_children(problem, count as u64));
        }
        Ok(Given {
            within,
            first: next.saturating_add(others),
        })
    }

    // The clauses that a concept lies in its parent and that a region is empty by its selector.
    fn of(&self, step: u32, region: Region) -> [u64; 2] {
        let within = match self.within.get(step as usize) {
            Some(id) => *id,
            None => 0,
        };
        [within, self.of_region(region)]
    }

    // The clause that a region is empty by its selector.
    pub(crate) fn of_region(&self, region: Region) -> u64 {
        let number = 3 * u64::from(region.pair) + u64::from(region.part);
        self.first.saturating_add(number)
    }
}

// How many clauses say of so many children of a concept that they lie apart and cover it.
fn clauses_of_children(problem: &Problem, count: u64) -> u64 {
    let switches = problem.switches();
    let mut clauses: u64 = 0;
    if switches.sibling {
        clauses = count.saturating_mul(count.saturating_sub(1)) / 2;
    }
    if switches.coverage && count > 0 {
        clauses = clauses.saturating_add(1);
    }
    clauses
}
