//! All points of a problem, as a list and as rows of bits.
ghost use Rattle.std.specs.Prelude.{◌≡◌, ℕ, ◌+◌, ◌*◌, ◌/◌, ◌<◌, false, length, All, IfOk, IfSome};
ghost use Rattle.world_model.specs.Problem.{concept_count};
ghost use Rattle.world_model.specs.Alive.{bit_of, point_at};
ghost use Rattle.world_model.specs.Trial.{points_by_trial};
ghost use Rattle.bit_rows.specs.Rows.{word_bit, has_bit};
ghost use Rattle.point_table.specs.Points.{AreAllowed};
ghost use Rattle.point_table.specs.Table.{AreShown};

use crate::build::rules_of;
use crate::grow::{Terms, grow_all};
use crate::points::pairs_with_empty;
use bit_rows::{Rows, with_bit};
use constraint_set::Problem;
use lits_core::Bits;
use rcc5_core::RelSet;
use std::alloc::{AllocError, Global};

/// All points of a problem, if they are at most so many and are found in so many tries.
pub fn all_points(
    alloc: Global,
    problem: &Problem,
    sets: &[RelSet],
    most: usize,
    tries: usize,
) -> Result<Option<Vec<Bits>>, AllocError>
    requires { AreAllowed problem.now sets.now }
    ensures { IfOk result (λ found. IfSome found (λ points. points.items ≡ points_by_trial problem.now)) }
{
    problem.facts();
    let pairs = pairs_with_empty(alloc, problem, sets)?;
    let rules = rules_of(alloc, problem, sets, &pairs)?;
    let terms = Terms {
        problem,
        sets,
        pairs: &pairs,
        rules: &rules,
    };
    grow_all(alloc, &terms, most, tries)
}

// The bits that 64 points have of a concept, from one place on.
fn word_of(points: &[Bits], concept: usize, from: usize) -> u64
    requires { All (λ bits. concept < length bits) points.now }
    ensures { (i : ℕ) → i < 64 → word_bit result i ≡ bit_of (point_at points.now (from + i)) concept }
{
    let mut word = 0;
    for i in 0..64 {
        if has_point(points, concept, from, i) {
            word = with_bit(word, i);
        }
    }
    word
}

// Whether a concept has the point that comes so many places after a place.
fn has_point(points: &[Bits], concept: usize, from: usize, after: usize) -> bool
    requires { All (λ bits. concept < length bits) points.now }
    ensures { result ≡ bit_of (point_at points.now (from + after)) concept }
{
    let Some(place) = from.checked_add(after) else {
        return false;
    };
    match points.get(place) {
        Some(bits) => bits.get(concept),
        None => false,
    }
}

// A concept's row: its bit in each point.
fn row_of(alloc: Global, points: &[Bits], concept: usize) -> Result<Vec<u64>, AllocError>
    requires { All (λ bits. concept < length bits) points.now }
    ensures length { IfOk result (λ row. length row.items ≡ length points.now / 64 + 1) }
    ensures bits { IfOk result (λ row. (k : ℕ) → has_bit row.items k ≡ bit_of (point_at points.now k) concept) }
{
    let width = points.len() / 64 + 1;
    let mut row = Vec::with_capacity(alloc, width)?;
    for i in 0..width {
        row.push(word_of(points, concept, 64 * i))?;
    }
    Ok(row)
}

/// The rows of so many concepts.
pub fn rows_of(alloc: Global, points: &[Bits], count: usize) -> Result<Rows, AllocError>
    requires { All (λ bits. length bits ≡ count) points.now }
    ensures count { IfOk result (λ rows. rows.count ≡ count) }
    ensures width { IfOk result (λ rows. rows.width ≡ length points.now / 64 + 1) }
    ensures bits { IfOk result (AreShown points.now) }
{
    let mut rows = Rows::new(alloc, points.len() / 64 + 1);
    for concept in 0..count {
        let row = row_of(alloc, points, concept)?;
        rows.push_copy(&row)?;
    }
    Ok(rows)
}
