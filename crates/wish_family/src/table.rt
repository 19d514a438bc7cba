//! Points of a problem by rows of bits, and what it needs.
use crate::sites::{REGIONS, Site};
use bit_rows::{Rows, with_bit};
use constraint_set::Problem;
use lits_core::Bits;
use rcc5_core::{Occupancy, Region, forced};
use std::alloc::{AllocError, Global};

/// The points of each concept, the regions that need one, and the pairs whose sets are not whole.
#[derive(Drop)]
pub struct Table {
    pub(crate) rows: Rows,
    pub(crate) count: usize,
    pub(crate) needs: Vec<Site>,
    pub(crate) splits: Vec<u32>,
}

// Whether a point is there and has a concept.
fn has(points: &[Bits], place: usize, concept: usize) -> bool {
    match points.get(place) {
        Some(point) => concept < point.len() && point.get(concept),
        None => false,
    }
}

// The bits of a concept in the points from one on, as many as a word has.
fn word_of(points: &[Bits], from: usize, concept: usize) -> u64 {
    let mut word = 0;
    for k in 0..64 {
        if has(points, from.saturating_add(k), concept) {
            word = with_bit(word, k);
        }
    }
    word
}

// Adds a row, if it is as wide as the others.
fn push_row(rows: &mut Rows, row: &[u64]) -> Result<(), AllocError> {
    let width = rows.width();
    if 0 < width && row.len() == width {
        rows.push_copy(row)?;
    }
    Ok(())
}

// Adds the row of a concept.
fn add_row(
    alloc: Global,
    rows: &mut Rows,
    points: &[Bits],
    concept: usize,
) -> Result<(), AllocError> {
    let width = rows.width();
    let mut row = Vec::with_capacity(alloc, width)?;
    for i in 0..width {
        row.push(word_of(points, i.saturating_mul(64), concept))?;
    }
    push_row(rows, &row)
}

// Adds the need of a concept, where each has one.
fn add_concept(problem: &Problem, needs: &mut Vec<Site>, concept: u32) -> Result<(), AllocError> {
    if problem.switches().nonempty {
        needs.push(Site {
            left: concept,
            right: concept,
            region: Region::Both,
        })?;
    }
    Ok(())
}

// Adds the regions of a pair that what it allows forces occupied.
fn add_pair(problem: &Problem, needs: &mut Vec<Site>, pair: u32) -> Result<(), AllocError> {
    if pair < problem.pair_count() {
        let (left, right) = problem.pair_at(pair);
        let words = forced(problem.allowed(pair));
        for region in REGIONS {
            if words.at(region) == Occupancy::Occupied {
                needs.push(Site {
                    left,
                    right,
                    region,
                })?;
            }
        }
    }
    Ok(())
}

impl Table {
    /// By points of a problem, all or some, and the pairs whose sets are not whole.
    pub fn new(
        alloc: Global,
        problem: &Problem,
        points: &[Bits],
        splits: &[u32],
    ) -> Result<Table, AllocError> {
        let mut rows = Rows::new(alloc, points.len() / 64 + 1);
        let mut needs = Vec::new(alloc);
        for concept in 0..problem.concept_count() {
            add_row(alloc, &mut rows, points, concept as usize)?;
            add_concept(problem, &mut needs, concept)?;
        }
        for pair in 0..problem.pair_count() {
            add_pair(problem, &mut needs, pair)?;
        }
        Ok(Table {
            rows,
            count: points.len(),
            needs,
            splits: Vec::from_slice(alloc, splits)?,
        })
    }

    /// The same with more points behind its own.
    pub fn with(&self, alloc: Global, points: &[Bits]) -> Result<Table, AllocError> {
        let own = self.rows.width();
        let more = points.len() / 64 + 1;
        let mut rows = Rows::new(alloc, own.saturating_add(more));
        for concept in 0..self.rows.count() {
            let mut row = Vec::from_slice(alloc, self.rows.row(concept))?;
            for i in 0..more {
                row.push(word_of(points, i.saturating_mul(64), concept))?;
            }
            push_row(&mut rows, &row)?;
        }
        Ok(Table {
            rows,
            count: own.saturating_mul(64).saturating_add(points.len()),
            needs: Vec::from_slice(alloc, &self.needs)?,
            splits: Vec::from_slice(alloc, &self.splits)?,
        })
    }
}
