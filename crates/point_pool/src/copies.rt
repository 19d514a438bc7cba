//! Whether two problems are equal, and copies of points.
ghost use Rattle.constraint_set.specs.Shape.{SameShape};
ghost use Rattle.std.specs.Prelude.{IfOk, length, slice_get, take, true, ◌<◌, ◌≡◌, ◌≤◌};

use constraint_set::Problem;
use lits_core::Bits;
use std::alloc::{AllocError, Global};

/// Whether two problems of one shape are equal.
pub fn is_same(one: &Problem, other: &Problem) -> bool
    requires { SameShape one.now other.now }
    ensures { result ≡ true → one.now ≡ other.now }
{
    if !same_flags(one, other) {
        return false;
    }
    same_narrowings(one, other)
}

// Whether two problems of one shape keep the same articulations.
fn same_flags(one: &Problem, other: &Problem) -> bool
    requires { one.now.articulations ≡ other.now.articulations }
    ensures { result ≡ true → one.now.kept ≡ other.now.kept }
{
    one.facts();
    other.facts();
    for index in 0..one.articulation_count() {
        if one.is_kept(index) != other.is_kept(index) {
            return false;
        }
    }
    true
}

// Whether two problems have the same narrowings.
fn same_narrowings(one: &Problem, other: &Problem) -> bool
    ensures { result ≡ true → one.now.narrowings ≡ other.now.narrowings }
{
    if one.narrowing_count() != other.narrowing_count() {
        return false;
    }
    for index in 0..one.narrowing_count() {
        if !same_narrowing(one, other, index) {
            return false;
        }
    }
    true
}

// Whether two problems have the same narrowing at a place.
fn same_narrowing(one: &Problem, other: &Problem, index: usize) -> bool
    requires one { index < length one.now.narrowings }
    requires other { index < length other.now.narrowings }
    ensures { result ≡ true → slice_get one.now.narrowings index ≡ slice_get other.now.narrowings index }
{
    let (left, right, set) = one.narrowing(index);
    let (other_left, other_right, other_set) = other.narrowing(index);
    left == other_left && right == other_right && set == other_set
}

/// The first bits.
pub fn front(alloc: Global, bits: &Bits, count: usize) -> Result<Bits, AllocError>
    requires { count ≤ length bits.now }
    ensures { IfOk result (λ front. front ≡ take count bits.now) }
{
    let mut front = Bits::new(alloc, count)?;
    for place in 0..count {
        front.set(place, bits.get(place));
    }
    Ok(front)
}

/// A second list of the same bits.
pub fn copy(alloc: Global, bits: &Bits) -> Result<Bits, AllocError>
    ensures { IfOk result (λ copy. copy ≡ bits.now) }
{
    front(alloc, bits, bits.len())
}
