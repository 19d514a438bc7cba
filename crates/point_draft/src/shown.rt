//! What shows a clash: the given clauses and the steps from which it follows, and what must hold for it.
use crate::board::{Board, Mark, Why};
use crate::given::Given;
use crate::row::Row;
use crate::rules::Rules;
use constraint_set::Problem;
use lits_core::Lit;
use std::alloc::{AllocError, Global};

/// A clause that shows another one: a given one, by its id, or that of an earlier step.
#[derive(Clone, Copy, Debug)]
pub enum Hint {
    Given(u64),
    Step(usize),
}

/// A drafted clause, with what is to show it in turn, and whether a later step that counts needs it.
#[derive(Debug, Drop)]
pub struct Step {
    pub lits: Vec<Lit>,
    pub hints: Vec<Hint>,
    pub counts: bool,
}

/// What a clash is looked up in.
#[derive(Clone, Copy)]
pub(crate) struct Terms<'a> {
    pub(crate) problem: &'a Problem,
    pub(crate) given: &'a Given,
    pub(crate) rules: &'a Rules,
    pub(crate) board: &'a Board,
    pub(crate) steps: &'a [Step],
}

// A step under construction: the concepts whose marks it rests on, and its hints, the last one first.
#[derive(Drop)]
struct Story {
    rests: Row,
    lits: Vec<Lit>,
    hints: Vec<Hint>,
}

// Whether a concept is one of a problem's.
fn is_concept(problem: &Problem, concept: u32) -> bool {
    concept < problem.concept_count()
}

// The parent of a concept.
fn parent_of(problem: &Problem, concept: u32) -> Option<u32> {
    if concept < problem.concept_count() {
        problem.parent(concept)
    } else {
        None
    }
}

impl Story {
    // Adds a literal, if its variable is one, and it is not there.
    fn say(&mut self, variable: u32, negative: bool) -> Result<(), AllocError> {
        if variable < 1 << 31 {
            let lit = Lit::new(variable, negative);
            if !self.lits.contains(&lit) {
                self.lits.push(lit)?;
            }
        }
        Ok(())
    }

    // Adds a hint.
    fn name(&mut self, hint: Hint) -> Result<(), AllocError> {
        self.hints.push(hint)?;
        Ok(())
    }

    // A region of two concepts is empty by its selector: what the first has without the second, or both have.
    fn tell_region(
        &mut self,
        terms: &Terms,
        first: u32,
        second: u32,
        both: bool,
    ) -> Result<(), AllocError> {
        let problem = terms.problem;
        let (left, right) = if first < second {
            (first, second)
        } else {
            (second, first)
        };
        if left >= right || right >= problem.concept_count() {
            return Ok(());
        }
        let pair = problem.pair_index(left, right);
        let part = if both {
            1
        } else if first < second {
            0
        } else {
            2
        };
        let before = problem.concept_count().saturating_add(part);
        self.say(before.saturating_add(pair.saturating_mul(3)), true)?;
        self.name(Hint::Given(terms.given.of_region(pair, part)))
    }

    // The selector of a sum is true.
    fn tell_sum(&mut self, terms: &Terms, sum: u32) -> Result<(), AllocError> {
        let problem = terms.problem;
        let first = problem
            .concept_count()
            .saturating_add(problem.pair_count().saturating_mul(3));
        self.say(first.saturating_add(sum), true)
    }

    // The first of two concepts lies in the second by a sum, if there is such a sum.
    fn tell_part(&mut self, terms: &Terms, first: u32, second: u32) -> Result<bool, AllocError> {
        let Some(numbers) = terms.rules.covers_of.get(second as usize) else {
            return Ok(false);
        };
        for number in &numbers.list {
            if let Some(cover) = terms.rules.covers.get(*number) {
                if let Some(sum) = cover.sum {
                    if cover.head == second && cover.row.has(first) {
                        let place = place_of(&cover.parts, first);
                        self.tell_sum(terms, sum)?;
                        self.name(Hint::Given(terms.given.part(sum, place)))?;
                        return Ok(true);
                    }
                }
            }
        }
        Ok(false)
    }

    // The first of two concepts lies in the second.
    fn tell_within(&mut self, terms: &Terms, first: u32, second: u32) -> Result<(), AllocError> {
        if parent_of(terms.problem, first) == Some(second) {
            return self.name(Hint::Given(terms.given.within(first)));
        }
        if self.tell_part(terms, first, second)? {
            return Ok(());
        }
        self.tell_region(terms, first, second, false)
    }

    // Two concepts have nothing in common.
    fn tell_apart(&mut self, terms: &Terms, first: u32, second: u32) -> Result<(), AllocError> {
        let problem = terms.problem;
        let parent = parent_of(problem, first);
        if parent == parent_of(problem, second) && problem.switches().sibling {
            if let Some(parent) = parent {
                if parent < problem.concept_count() {
                    let children = problem.children(parent);
                    let (one, other) = (place_of(children, first), place_of(children, second));
                    let (low, high) = if one < other {
                        (one, other)
                    } else {
                        (other, one)
                    };
                    let id = terms.given.apart(parent, children.len(), low, high);
                    return self.name(Hint::Given(id));
                }
            }
        }
        self.tell_region(terms, first, second, true)
    }

    // A cover, by its number: it rests on the other concepts that it speaks of.
    fn tell_cover(&mut self, terms: &Terms, concept: u32, number: usize) -> Result<(), AllocError> {
        let Some(cover) = terms.rules.covers.get(number) else {
            return Ok(());
        };
        self.rest_on(cover.head, concept);
        for part in &cover.parts {
            self.rest_on(*part, concept);
        }
        match cover.sum {
            Some(sum) => {
                self.tell_sum(terms, sum)?;
                let id = terms.given.part(sum, cover.parts.len());
                self.name(Hint::Given(id))
            }
            None => self.name(Hint::Given(terms.given.covered(cover.head))),
        }
    }

    // A step, by its number: it rests on the other concepts that it speaks of.
    fn tell_step(&mut self, terms: &Terms, concept: u32, number: usize) -> Result<(), AllocError> {
        if let Some(step) = terms.steps.get(number) {
            for lit in &step.lits {
                let variable = lit.variable();
                if is_concept(terms.problem, variable) {
                    self.rest_on(variable, concept);
                } else {
                    self.say(variable, lit.is_negative())?;
                }
            }
        }
        self.name(Hint::Step(number))
    }

    // It rests on a concept other than this one.
    fn rest_on(&mut self, other: u32, concept: u32) {
        if other != concept {
            self.rests.set(other as usize);
        }
    }

    // What shows a mark.
    fn tell(&mut self, terms: &Terms, mark: Mark) -> Result<(), AllocError> {
        match mark.why {
            Why::Asked => self.say(mark.concept, mark.value),
            Why::From(other, true) => {
                self.rests.set(other as usize);
                if mark.value {
                    self.tell_within(terms, other, mark.concept)
                } else {
                    self.tell_apart(terms, other, mark.concept)
                }
            }
            Why::From(other, false) => {
                self.rests.set(other as usize);
                self.tell_within(terms, mark.concept, other)
            }
            Why::Cover(number) => self.tell_cover(terms, mark.concept, number),
            Why::Step(number) => self.tell_step(terms, mark.concept, number),
        }
    }

    // Tells why there is a clash, and why each mark stands that it rests on, the last one first.
    fn tell_all(&mut self, terms: &Terms, clash: Mark) -> Result<(), AllocError> {
        self.tell(terms, clash)?;
        self.rests.set(clash.concept as usize);
        for mark in terms.board.marks.iter().rev() {
            if self.rests.has(mark.concept) {
                self.tell(terms, *mark)?;
            }
        }
        Ok(())
    }
}

// The place of a concept among some.
fn place_of(concepts: &[u32], concept: u32) -> usize {
    for (place, other) in concepts.iter().enumerate() {
        if *other == concept {
            return place;
        }
    }
    0
}

/// The step that a clash is: a mark whose opposite is there.
pub(crate) fn step_of(alloc: Global, terms: &Terms, clash: Mark) -> Result<Step, AllocError> {
    let count = terms.problem.concept_count() as usize;
    let mut story = Story {
        rests: Row::new(alloc, count)?,
        lits: Vec::new(alloc),
        hints: Vec::new(alloc),
    };
    story.tell_all(terms, clash)?;
    let Story {
        lits,
        mut hints,
        ..
    } = story;
    hints.reverse();
    Ok(Step {
        lits,
        hints,
        counts: false,
    })
}
