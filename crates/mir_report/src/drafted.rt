//! Points from which families are made where a problem has too many for a table of all: in each region of a pair one that is drafted.
use bit_rows::with_bit;
use constraint_set::Problem;
use lits_core::Bits;
use point_draft::{Draft, Drafts};
use point_encode::Need;
use point_table::meets_structure;
use rcc5_core::Rel;
use set_family::Family;
use std::alloc::{AllocError, Global};
use std::collections::BTreeSet;
use wish_family::Table;

/// Points are drafted for so many pairs at most. A draft takes some 20 microseconds, and a question by picks a few thousand.
const MOST_PAIRS: u32 = 30_000;

// Bits as words, 64 a word.
fn words_of(alloc: Global, bits: &[bool]) -> Result<Vec<u64>, AllocError> {
    let mut words = vec![in alloc; 0; bits.len() / 64 + 1]?;
    for place in 0..bits.len() {
        let i = place / 64;
        if bits[place] && i < words.len() {
            words[i] = with_bit(words[i], place % 64);
        }
    }
    Ok(words)
}

// A point with some bits.
fn point_of(alloc: Global, bits: &[bool]) -> Result<Bits, AllocError> {
    let mut point = Bits::new(alloc, bits.len())?;
    for place in 0..bits.len() {
        if place < point.len() {
            point.set(place, bits[place]);
        }
    }
    Ok(point)
}

// Adds the point that is drafted for a need, unless it is among them, or does not meet the rules of the problem.
fn add_drafted(
    alloc: Global,
    problem: &Problem,
    need: Need,
    drafts: &mut Drafts,
    known: &mut BTreeSet<Vec<u64>>,
    points: &mut Vec<Bits>,
) -> Result<(), AllocError> {
    let path: Vec<Rel> = Vec::new(alloc);
    let draft = drafts.search(problem, &path, need)?;
    let Draft::Point(bits) = draft else {
        return Ok(());
    };
    if known.insert(words_of(alloc, &bits)?)? && meets_structure(problem, &bits) {
        points.push(point_of(alloc, &bits)?)?;
    }
    Ok(())
}

// A point in each region of each pair, or of as many pairs as may be, as far as such points are drafted.
fn drafted_points(alloc: Global, problem: &Problem) -> Result<Vec<Bits>, AllocError> {
    let mut points = Vec::new(alloc);
    let mut known = BTreeSet::new(alloc);
    let mut drafts = Drafts::new(alloc);
    let stride = problem.pair_count() / MOST_PAIRS + 1;
    for number in 0..problem.pair_count() / stride {
        let pair = number.saturating_mul(stride);
        for part in 0..3 {
            let need = Need::Region { pair, part };
            add_drafted(alloc, problem, need, &mut drafts, &mut known, &mut points)?;
        }
    }
    Ok(points)
}

// The pairs whose sets are not whole.
fn split_pairs(alloc: Global, problem: &Problem) -> Result<Vec<u32>, AllocError> {
    let mut pairs = Vec::new(alloc);
    for pair in 0..problem.pair_count() {
        if !problem.allowed(pair).is_whole() {
            pairs.push(pair)?;
        }
    }
    Ok(pairs)
}

/// A table of drafted points.
pub(crate) fn drafted(alloc: Global, problem: &Problem) -> Result<Table, AllocError> {
    let points = drafted_points(alloc, problem)?;
    let splits = split_pairs(alloc, problem)?;
    Table::new(alloc, problem, &points, &splits)
}

// The points of a family, one for each number that its sets are of.
fn points_of(alloc: Global, problem: &Problem, family: &Family) -> Result<Vec<Bits>, AllocError> {
    let count = problem.concept_count().min(family.count());
    let mut points = Vec::new(alloc);
    for _number in 0..family.universe() {
        points.push(Bits::new(alloc, problem.concept_count() as usize)?)?;
    }
    for concept in 0..count {
        for number in family.set(concept) {
            put_concept(&mut points, *number as usize, concept as usize);
        }
    }
    Ok(points)
}

// Puts the point at a place into a concept.
fn put_concept(points: &mut [Bits], place: usize, concept: usize) {
    if place < points.len() && concept < points[place].len() {
        points[place].set(concept, true);
    }
}

/// A table with the points of a family too, so that each of its needs has one.
pub(crate) fn with_family(
    alloc: Global,
    problem: &Problem,
    table: &Table,
    family: &Family,
) -> Result<Table, AllocError> {
    let points = points_of(alloc, problem, family)?;
    table.with(alloc, &points)
}
