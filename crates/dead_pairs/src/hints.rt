//! What is left without a point where a pair is narrowed, by a table of all points.
//!
//! All that is said here is a hint: whether a need has no point is shown by a clause, and whether that closes it is read.
ghost use Rattle.std.specs.Prelude.{◌<◌};
ghost use Rattle.world_model.specs.Problem.{pair_count};
ghost use Rattle.point_encode.specs.Needs.{IsInRange};

use crate::lone::Lone;
use bit_rows::{Cells, Rows, Sides, have_common, is_inside, meets};
use constraint_set::Problem;
use lits_core::Lit;
use point_encode::{Need, need_number, needs_of, word_of};
use point_table::{all_points, allowed_sets, rows_of};
use rcc5_core::{Occupancy, Position, Regions};
use std::alloc::{AllocError, Global};

/// A need without a point where a pair is narrowed, by its number; and its place among the needs of the problem, where it has one
/// as long as the pair is not narrowed.
#[derive(Clone, Copy)]
pub(crate) struct Lost {
    pub number: u64,
    pub place: Option<usize>,
}

/// The points of each concept, and those of each need that a problem forces: regions of pairs, and then the concepts.
#[derive(Drop)]
pub(crate) struct Table {
    concepts: Rows,
    needs: Vec<u64>,
    rows: Rows,
    /// The place of the first concept among the needs.
    first: usize,
}

// The cell of a region.
fn cell_of(part: u32) -> Cells {
    Cells {
        left_only: part == 0,
        both: part == 1,
        right_only: part == 2,
        neither: false,
    }
}

// The cells that words leave.
fn kept_cells(words: Regions) -> Cells {
    Cells {
        left_only: words.left_only != Occupancy::Empty,
        both: words.both != Occupancy::Empty,
        right_only: words.right_only != Occupancy::Empty,
        neither: true,
    }
}

// A row, or none of its bits past the last one.
fn row_of(rows: &Rows, place: usize) -> &[u64] {
    if place < rows.count() {
        rows.row(place)
    } else {
        &[]
    }
}

impl Table {
    // By the points of a problem, unless there are too many.
    fn new(
        alloc: Global,
        problem: &Problem,
        most: usize,
        tries: usize,
    ) -> Result<Option<Table>, AllocError> {
        let sets = allowed_sets(alloc, problem)?;
        let Some(points) = all_points(alloc, problem, &sets, most, tries)? else {
            return Ok(None);
        };
        let concepts = rows_of(alloc, &points, problem.concept_count() as usize)?;
        let rows = Rows::new(alloc, concepts.width());
        let mut table = Table {
            concepts,
            needs: Vec::new(alloc),
            rows,
            first: 0,
        };
        let forced = needs_of(alloc, problem, &Position::new(alloc))?;
        for need in &forced {
            if let Need::Region { .. } = need {
                table.first = table.first.saturating_add(1);
            }
            table.add(problem, *need)?;
        }
        Ok(Some(table))
    }

    // Adds a need.
    fn add(&mut self, problem: &Problem, need: Need) -> Result<(), AllocError>
        requires { IsInRange problem.now need }
    {
        let (left, right, cells) = match need {
            Need::Concept(concept) => (concept, concept, cell_of(1)),
            Need::Region { pair, part } => {
                let (left, right) = problem.pair_at(pair);
                (left, right, cell_of(u32::from(part)))
            }
        };
        let left = row_of(&self.concepts, left as usize);
        let right = row_of(&self.concepts, right as usize);
        let one = if cells.right_only { right } else { left };
        if one.len() > self.rows.width() || self.rows.width() == 0 {
            return Ok(());
        }
        let sides = Sides { left, right };
        self.rows.push(one, one, &sides, cells)?;
        self.needs.push(u64::from(need_number(problem, need)))?;
        Ok(())
    }

    // The points of a concept.
    fn points(&self, concept: u32) -> &[u64] {
        row_of(&self.concepts, concept as usize)
    }

    // Whether a region of a pair has a point.
    fn has_point(&self, left: u32, right: u32, part: u32) -> bool {
        let sides = Sides {
            left: self.points(left),
            right: self.points(right),
        };
        let one = if part == 2 { sides.right } else { sides.left };
        meets(one, one, &sides, cell_of(part))
    }

    /// Whether a need, by its number, is a region without a point.
    pub(crate) fn is_empty(&self, problem: &Problem, number: u64) -> bool {
        let pair = number / 3;
        if pair >= u64::from(problem.pair_count()) {
            return false;
        }
        let (left, right) = problem.pair_at(pair as u32);
        !self.has_point(left, right, (number % 3) as u32)
    }

    /// Whether all points of the need with a place make a literal true.
    pub(crate) fn implies(&self, place: usize, lit: Lit) -> bool {
        let row = row_of(&self.rows, place);
        let points = self.points(lit.variable());
        if lit.is_negative() {
            !have_common(row, points)
        } else {
            is_inside(row, points)
        }
    }

    /// A need without a point where a pair is narrowed: a region of the pair, or a need of the problem.
    pub(crate) fn lost(&self, problem: &Problem, lone: Lone) -> Option<Lost>
        requires { lone.pair < pair_count problem.now }
    {
        let (left, right) = problem.pair_at(lone.pair);
        let words = lone.rel.row();
        for part in 0..3 {
            if word_of(words, part) == Occupancy::Occupied && !self.has_point(left, right, part) {
                let number = 3 * u64::from(lone.pair) + u64::from(part);
                return Some(Lost {
                    number,
                    place: None,
                });
            }
        }
        self.lost_by(left, right, kept_cells(words))
    }

    // A need of the problem without a point in some cells of two concepts. The concepts come first, since what is asked about them
    // is asked about their regions too.
    fn lost_by(&self, left: u32, right: u32, kept: Cells) -> Option<Lost> {
        for concept in [left, right] {
            let place = self.first.saturating_add(concept as usize);
            let lost = self.lost_at(place, left, right, kept);
            if lost.is_some() {
                return lost;
            }
        }
        for place in 0..self.needs.len() {
            let lost = self.lost_at(place, left, right, kept);
            if lost.is_some() {
                return lost;
            }
        }
        None
    }

    // The need with a place, if it has no point in some cells of two concepts.
    fn lost_at(&self, place: usize, left: u32, right: u32, kept: Cells) -> Option<Lost> {
        let number = *self.needs.get(place)?;
        let row = row_of(&self.rows, place);
        let sides = Sides {
            left: self.points(left),
            right: self.points(right),
        };
        if meets(row, row, &sides, kept) {
            return None;
        }
        Some(Lost {
            number,
            place: Some(place),
        })
    }
}

/// A table of all points of a problem, if it has one, and the number of its first clause of a region: hints of what is left
/// without a point where a pair is narrowed, and of clauses that show it.
#[derive(Drop)]
pub struct Hints {
    pub(crate) table: Option<Table>,
    pub(crate) first: u64,
    pub(crate) turns: u32,
    pub(crate) alloc: Global,
}

impl Hints {
    /// By all points of a problem; none where there are more than `most`, or finding them takes more than `tries` steps.
    pub fn new(
        alloc: Global,
        problem: &Problem,
        most: usize,
        tries: usize,
    ) -> Result<Hints, AllocError> {
        Ok(Hints {
            table: Table::new(alloc, problem, most, tries)?,
            first: first_region(problem),
            turns: 0,
            alloc,
        })
    }
}

// The id of the first clause of a region: before it come those of parents, of siblings and of covered concepts.
fn first_region(problem: &Problem) -> u64 {
    let switches = problem.switches();
    let mut next: u64 = 1;
    for concept in 0..problem.concept_count() {
        let count = problem.children(concept).len() as u64;
        next = next.saturating_add(count);
        if switches.sibling {
            next = next.saturating_add(count.saturating_mul(count.saturating_sub(1)) / 2);
        }
        if switches.coverage && count > 0 {
            next = next.saturating_add(1);
        }
    }
    next
}
