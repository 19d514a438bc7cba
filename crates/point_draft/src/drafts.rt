//! A search for a point in a need, or for clauses that show that there is none.
use crate::board::{Board, Mark, Why};
use crate::given::Given;
use crate::rules::Rules;
use crate::shown::{Hint, Step, Terms, step_of};
use constraint_set::Problem;
use point_encode::Need;
use rcc5_core::Rel;
use std::alloc::{AllocError, Global};

/// So many clauses are drafted at most for one need.
const MOST_STEPS: usize = 32;

/// So many times something is tried, or a clause drafted.
const MOST_TURNS: usize = 4096;

/// So many needs are asked about before the rules are written down.
const FEW: u32 = 4;

/// What a search found. All of it is a draft, to be tested by whoever takes it.
#[derive(Debug, Drop)]
pub enum Draft {
    /// These clauses show in turn that the need has no point; the last one of them speaks of nothing but the need and the path.
    Empty(Vec<Step>),
    /// This is a point in the need, by a bit for each concept.
    Point(Vec<bool>),
    /// Nothing was found.
    Unknown,
}

/// The rules of a problem at a path, the ids of its given clauses, and room to search in.
#[derive(Drop)]
struct Desk {
    given: Given,
    rules: Rules,
    board: Board,
}

/// Searches for points of a problem at a path that grows and shrinks, by rows of bits.
pub struct Drafts {
    desk: Option<Desk>,
    asked: u32,
    alloc: Global,
}

// Written out, so that letting one go is a call.
impl Drop for Drafts {
    fn drop(self) {
        let Drafts {
            desk: _,
            asked: _,
            alloc: _,
        } = self;
    }
}

impl Desk {
    fn new(alloc: Global, problem: &Problem) -> Result<Desk, AllocError> {
        Ok(Desk {
            given: Given::new(alloc, problem)?,
            rules: Rules::new(alloc, problem)?,
            board: Board::new(alloc, problem.concept_count() as usize)?,
        })
    }

    // Marks what is asked of a point in a need.
    fn ask(&mut self, problem: &Problem, need: Need) -> Result<(), AllocError> {
        self.board.clear();
        match need {
            Need::Concept(concept) => self.mark(concept, true, Why::Asked),
            Need::Region { pair, part } => {
                if pair >= problem.pair_count() {
                    return Ok(());
                }
                let (left, right) = problem.pair_at(pair);
                self.mark(left, part != 2, Why::Asked)?;
                self.mark(right, part != 0, Why::Asked)
            }
        }
    }

    // Adds a mark.
    fn mark(&mut self, concept: u32, value: bool, why: Why) -> Result<(), AllocError> {
        self.board.put(Mark {
            concept,
            value,
            why,
        })?;
        Ok(())
    }

    // The first part that may have the point, of a concept that has it and whose parts have not.
    fn next_part(&self) -> Option<u32> {
        for mark in &self.board.marks {
            if mark.value {
                let part = self.open_part(mark.concept);
                if part.is_some() {
                    return part;
                }
            }
        }
        None
    }

    // The first part of a concept that may have the point, if none of its parts has it.
    fn open_part(&self, concept: u32) -> Option<u32> {
        for number in &self.rules.covers_of.get(concept as usize)?.list {
            let cover = self.rules.covers.get(*number as usize)?;
            if cover.head == concept {
                let part = self.first_open(&cover.parts);
                if part.is_some() {
                    return part;
                }
            }
        }
        None
    }

    // The first of some concepts that may have the point, where none has.
    fn first_open(&self, parts: &[u32]) -> Option<u32> {
        let mut found = None;
        for part in parts {
            if self.board.with.has(*part) {
                return None;
            }
            if found.is_none() && !self.board.without.has(*part) {
                found = Some(*part);
            }
        }
        found
    }

    // The point that the marks are: what has no mark is without it.
    fn point(&self, alloc: Global, count: u32) -> Result<Vec<bool>, AllocError> {
        let mut bits = vec![in alloc; false; count as usize]?;
        for mark in &self.board.marks {
            if mark.value {
                if let Some(bit) = bits.get_mut(mark.concept as usize) {
                    *bit = true;
                }
            }
        }
        Ok(bits)
    }

    // The step that a clash is.
    fn step(
        &self,
        alloc: Global,
        problem: &Problem,
        steps: &[Step],
        clash: Mark,
    ) -> Result<Step, AllocError> {
        let terms = Terms {
            problem,
            given: &self.given,
            rules: &self.rules,
            board: &self.board,
            steps,
        };
        step_of(alloc, &terms, clash)
    }

    // Searches for a point with what is marked.
    fn search(&mut self, alloc: Global, problem: &Problem) -> Result<Draft, AllocError> {
        let mut steps: Vec<Step> = Vec::new(alloc);
        let mut tried: Vec<usize> = Vec::new(alloc);
        for _turn in 0..MOST_TURNS {
            match self.board.close(&self.rules)? {
                None => match self.next_part() {
                    None => return Ok(Draft::Point(self.point(alloc, problem.concept_count())?)),
                    Some(part) => {
                        tried.push(self.board.marks.len())?;
                        self.mark(part, true, Why::Asked)?;
                    }
                },
                Some(clash) => {
                    let step = self.step(alloc, problem, &steps, clash)?;
                    let place = last_tried(&self.board.marks, &mut tried, &step);
                    let number = steps.len();
                    steps.push(step)?;
                    let Some(place) = place else {
                        count_needed(&mut steps);
                        return Ok(Draft::Empty(steps));
                    };
                    if steps.len() >= MOST_STEPS {
                        return Ok(Draft::Unknown);
                    }
                    let Some(mark) = self.board.marks.get(place).copied() else {
                        return Ok(Draft::Unknown);
                    };
                    self.board.back_to(place);
                    self.mark(mark.concept, false, Why::Step(number))?;
                }
            }
        }
        Ok(Draft::Unknown)
    }
}

// The place of the last mark that was tried and that a step rests on. Those after it are tried no more.
fn last_tried(marks: &[Mark], tried: &mut Vec<usize>, step: &Step) -> Option<usize> {
    for _turn in 0..tried.len() {
        let place = tried.pop()?;
        if let Some(mark) = marks.get(place) {
            if step.lits.iter().any(|lit| lit.variable() == mark.concept) {
                return Some(place);
            }
        }
    }
    None
}

// Notes of each step whether the last one needs it.
fn count_needed(steps: &mut Vec<Step>) {
    let count = steps.len();
    if let Some(last) = steps.last_mut() {
        last.counts = true;
    }
    for number in (0..count).rev() {
        count_hints(steps, number);
    }
}

// Notes that the steps that show one count, if it counts.
fn count_hints(steps: &mut Vec<Step>, number: usize) {
    let count = match steps.get(number) {
        Some(step) if step.counts => step.hints.len(),
        _ => 0,
    };
    for place in 0..count {
        if let Some(earlier) = step_named(steps, number, place) {
            if let Some(step) = steps.get_mut(earlier) {
                step.counts = true;
            }
        }
    }
}

// The number of the step that a hint of a step names, if it names one.
fn step_named(steps: &[Step], number: usize, place: usize) -> Option<usize> {
    match steps.get(number)?.hints.get(place)? {
        Hint::Step(earlier) => Some(*earlier),
        Hint::Given(_) => None,
    }
}

impl Drafts {
    /// Nothing is written down yet.
    pub fn new(alloc: Global) -> Drafts {
        Drafts {
            desk: None,
            asked: 0,
            alloc,
        }
    }

    /// The path is taken back to its first relations.
    pub fn back_to(&mut self, count: usize) {
        if let Some(desk) = &mut self.desk {
            desk.rules.back_to(count);
        }
    }

    /// A point in a need at a path of a problem, or clauses that show that there is none, or nothing.
    ///
    /// It is one problem all the time, and the path begins with what `back_to` left of the last one.
    pub fn search(
        &mut self,
        problem: &Problem,
        path: &[Rel],
        need: Need,
    ) -> Result<Draft, AllocError> {
        if self.asked < FEW {
            self.asked += 1;
            return Ok(Draft::Unknown);
        }
        if self.desk.is_none() {
            self.desk = Some(Desk::new(self.alloc, problem)?);
        }
        match &mut self.desk {
            None => Ok(Draft::Unknown),
            Some(desk) => {
                desk.rules.follow(problem, path)?;
                desk.ask(problem, need)?;
                desk.search(self.alloc, problem)
            }
        }
    }
}
