//! What follows of one concept from another, at a path of relations.
use crate::row::Row;
use constraint_set::{Articulation, Problem};
use rcc5_core::{Occupancy, Regions, Rel, forced};
use std::alloc::{AllocError, Global};

/// A concept that lies in some others together: by its tree, or by the sum with a number.
#[derive(Drop)]
pub(crate) struct Cover {
    pub(crate) head: u32,
    pub(crate) parts: Vec<u32>,
    pub(crate) row: Row,
    pub(crate) sum: Option<u32>,
}

// What is said of two concepts.
#[derive(Clone, Copy)]
enum Said {
    // The first lies in the second.
    Within(u32, u32),
    // They have nothing in common.
    Apart(u32, u32),
}

/// The numbers of some covers.
#[derive(Drop)]
pub(crate) struct Numbers {
    pub(crate) list: Vec<usize>,
}

/// Rows of concepts, one a concept: those that it lies in, those that lie in it, and those that have nothing in common with it.
pub(crate) struct Rules {
    pub(crate) above: Vec<Row>,
    pub(crate) below: Vec<Row>,
    pub(crate) apart: Vec<Row>,
    pub(crate) covers: Vec<Cover>,
    // By the concept, the covers whose head it is, or one of whose parts.
    pub(crate) covers_of: Vec<Numbers>,
    // What the relations of the path added, and how much there was before each.
    added: Vec<Said>,
    marks: Vec<usize>,
}

// Written out, so that letting one go is a call.
impl Drop for Rules {
    fn drop(self) {
        let Rules {
            above: _,
            below: _,
            apart: _,
            covers: _,
            covers_of: _,
            added: _,
            marks: _,
        } = self;
    }
}

// So many rows without bits.
fn empty_rows(alloc: Global, count: usize) -> Result<Vec<Row>, AllocError> {
    let mut rows = Vec::with_capacity(alloc, count)?;
    for _row in 0..count {
        rows.push(Row::new(alloc, count)?)?;
    }
    Ok(rows)
}

// So many empty lists.
fn no_numbers(alloc: Global, count: usize) -> Result<Vec<Numbers>, AllocError> {
    let mut lists = Vec::with_capacity(alloc, count)?;
    for _list in 0..count {
        lists.push(Numbers {
            list: Vec::new(alloc),
        })?;
    }
    Ok(lists)
}

// Whether a row has a bit.
fn has_in(rows: &[Row], row: u32, place: u32) -> bool {
    match rows.get(row as usize) {
        Some(row) => row.has(place),
        None => false,
    }
}

// Sets a bit of a row, or takes it away.
fn put_in(rows: &mut Vec<Row>, row: u32, place: u32, on: bool) {
    if let Some(row) = rows.get_mut(row as usize) {
        if on {
            row.set(place as usize);
        } else {
            row.unset(place as usize);
        }
    }
}

impl Rules {
    // Those of a problem, at the empty path.
    pub(crate) fn new(alloc: Global, problem: &Problem) -> Result<Rules, AllocError> {
        let mut rules = Rules::none(alloc, problem.concept_count() as usize)?;
        rules.add_problem(alloc, problem)?;
        Ok(rules)
    }

    // None, of so many concepts.
    fn none(alloc: Global, count: usize) -> Result<Rules, AllocError> {
        Ok(Rules {
            above: empty_rows(alloc, count)?,
            below: empty_rows(alloc, count)?,
            apart: empty_rows(alloc, count)?,
            covers_of: no_numbers(alloc, count)?,
            covers: Vec::new(alloc),
            added: Vec::new(alloc),
            marks: Vec::new(alloc),
        })
    }

    // Writes down what a problem says at the empty path.
    fn add_problem(&mut self, alloc: Global, problem: &Problem) -> Result<(), AllocError> {
        self.add_trees(alloc, problem)?;
        self.add_sums(alloc, problem)?;
        for pair in 0..problem.pair_count() {
            self.add_regions(problem, pair, forced(problem.allowed(pair)))?;
        }
        self.added.clear();
        Ok(())
    }

    // Whether it is known that the first of two concepts lies in the second, or that they have nothing in common.
    fn knows(&self, said: Said) -> bool {
        match said {
            Said::Within(first, second) => has_in(&self.above, first, second),
            Said::Apart(first, second) => has_in(&self.apart, first, second),
        }
    }

    // Writes it down, or takes it away.
    fn put(&mut self, said: Said, on: bool) {
        match said {
            Said::Within(first, second) => {
                put_in(&mut self.above, first, second, on);
                put_in(&mut self.below, second, first, on);
            }
            Said::Apart(first, second) => {
                put_in(&mut self.apart, first, second, on);
                put_in(&mut self.apart, second, first, on);
            }
        }
    }

    // Adds it, if it is not known.
    fn add(&mut self, said: Said) -> Result<(), AllocError> {
        if !self.knows(said) {
            self.added.push(said)?;
            self.put(said, true);
        }
        Ok(())
    }

    // Adds what the trees say.
    fn add_trees(&mut self, alloc: Global, problem: &Problem) -> Result<(), AllocError> {
        let switches = problem.switches();
        for concept in 0..problem.concept_count() {
            if let Some(parent) = problem.parent(concept) {
                self.add(Said::Within(concept, parent))?;
            }
            let children = problem.children(concept);
            if switches.sibling {
                self.add_siblings(children)?;
            }
            if switches.coverage && !children.is_empty() {
                self.add_cover(alloc, problem, concept, children, None)?;
            }
        }
        Ok(())
    }

    // Adds that no two of some concepts have anything in common.
    fn add_siblings(&mut self, concepts: &[u32]) -> Result<(), AllocError> {
        for first in concepts {
            for second in concepts {
                if *first != *second {
                    self.add(Said::Apart(*first, *second))?;
                }
            }
        }
        Ok(())
    }

    // Adds what the kept sums say.
    fn add_sums(&mut self, alloc: Global, problem: &Problem) -> Result<(), AllocError> {
        problem.facts();
        for sum in 0..problem.sum_count() {
            let index = problem.sum_at(sum);
            if problem.is_kept(index) {
                if let Articulation::Sum { whole, parts } = problem.articulation(index) {
                    for part in parts.list() {
                        self.add(Said::Within(*part, *whole))?;
                    }
                    self.add_cover(alloc, problem, *whole, parts.list(), Some(sum))?;
                }
            }
        }
        Ok(())
    }

    // Adds that a concept lies in some others together.
    fn add_cover(
        &mut self,
        alloc: Global,
        problem: &Problem,
        head: u32,
        parts: &[u32],
        sum: Option<u32>,
    ) -> Result<(), AllocError> {
        let number = self.covers.len();
        let mut row = Row::new(alloc, problem.concept_count() as usize)?;
        for part in parts {
            row.set(*part as usize);
            self.note_cover(*part, number)?;
        }
        self.note_cover(head, number)?;
        let parts = Vec::from_slice(alloc, parts)?;
        self.covers.push(Cover {
            head,
            parts,
            row,
            sum,
        })?;
        Ok(())
    }

    // Notes that a cover speaks of a concept.
    fn note_cover(&mut self, concept: u32, number: usize) -> Result<(), AllocError> {
        if let Some(numbers) = self.covers_of.get_mut(concept as usize) {
            numbers.list.push(number)?;
        }
        Ok(())
    }

    // Adds what the empty regions of a pair say.
    fn add_regions(
        &mut self,
        problem: &Problem,
        pair: u32,
        regions: Regions,
    ) -> Result<(), AllocError> {
        if pair >= problem.pair_count() {
            return Ok(());
        }
        let (left, right) = problem.pair_at(pair);
        if regions.left_only == Occupancy::Empty {
            self.add(Said::Within(left, right))?;
        }
        if regions.both == Occupancy::Empty {
            self.add(Said::Apart(left, right))?;
        }
        if regions.right_only == Occupancy::Empty {
            self.add(Said::Within(right, left))?;
        }
        Ok(())
    }

    // Takes away what the relations of the path after the first ones added.
    pub(crate) fn back_to(&mut self, count: usize) {
        if let Some(mark) = self.marks.get(count).copied() {
            for _said in mark..self.added.len() {
                if let Some(said) = self.added.pop() {
                    self.put(said, false);
                }
            }
            self.marks.truncate(count);
        }
    }

    // Goes along the path, of which it has come to a first part.
    pub(crate) fn follow(&mut self, problem: &Problem, path: &[Rel]) -> Result<(), AllocError> {
        for pair in self.marks.len()..path.len() {
            self.marks.push(self.added.len())?;
            if pair < problem.pair_count() as usize {
                self.add_regions(problem, pair as u32, path[pair].row())?;
            }
        }
        Ok(())
    }
}
