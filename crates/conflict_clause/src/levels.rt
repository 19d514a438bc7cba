//! The places and levels of literals on a trail.
ghost use Rattle.std.specs.Prelude.{◌≡◌, ℕ, ◌<◌, ◌≤◌, length, slice_index, Some, IfOk, MatchOption, slice_get, IsTrue, Contains, IsPermutation};
ghost use Rattle.std.specs.List.Sorted.{IsNonDecreasing};
ghost use Rattle.lits_core.specs.Literals.{negation_of, variable_of};
ghost use Rattle.watch_arena.specs.Places.{place_at, place_of, is_false};
ghost use Rattle.watch_arena.specs.Trails.{AreInRange};
ghost use Rattle.conflict_clause.specs.Taught.{level_in};
ghost use Rattle.conflict_clause.specs.Search.{ArePlacesOf};

use lits_core::Lit;
use std::alloc::{AllocError, Global};
use watch_arena::Trail;

/// The place by which a literal is false.
pub(crate) fn false_place(trail: &Trail, lit: Lit) -> usize
    requires range { variable_of lit < trail.now.variables }
    requires off { IsTrue (is_false trail.now.places lit) }
    ensures within { result < length trail.now.places }
    ensures is { (place_at trail.now.places result).lit ≡ negation_of lit }
    ensures place { place_of trail.now.places (variable_of lit) ≡ Some result }
{
    trail.facts();
    match trail.place_of(lit.variable()) {
        Some(place) => place,
        None => unreachable!(),
    }
}

/// The places by which literals are false, from the lowest up.
pub(crate) fn false_places(
    alloc: Global,
    trail: &Trail,
    lits: &[Lit],
) -> Result<Vec<usize>, AllocError>
    requires range { AreInRange lits.now trail.now.variables }
    requires off { (lit : ℕ) → Contains lits.now lit → IsTrue (is_false trail.now.places lit) }
    ensures of_these { IfOk result (λ places. ArePlacesOf trail.now lits.now places.items) }
    ensures sorted { IfOk result (λ places. IsNonDecreasing places.items) }
{
    let mut places = Vec::with_capacity(alloc, lits.len())?;
    for lit in lits {
        places.push(false_place(trail, *lit))?;
    }
    places.sort_unstable();
    Ok(places)
}

// The level of a literal's variable; 0 where it has no value.
fn level_of(trail: &Trail, lit: Lit) -> u32
    requires { variable_of lit < trail.now.variables }
    ensures { result ≡ level_in trail.now.places lit }
{
    match trail.place_of(lit.variable()) {
        Some(place) => trail.level_on(place),
        None => 0,
    }
}

// The place in a list of a literal whose level is the highest.
fn highest(trail: &Trail, lits: &[Lit]) -> usize
    requires range { AreInRange lits.now trail.now.variables }
    requires some { 0 < length lits.now }
    ensures within { result < length lits.now }
    ensures most { (k : ℕ) → k < length lits.now → level_in trail.now.places (slice_index lits.now k) ≤ level_in trail.now.places (slice_index lits.now result) }
{
    let mut best = 0;
    for k in 0..lits.len() {
        if level_of(trail, lits[k]) > level_of(trail, lits[best]) {
            best = k;
        }
    }
    best
}

/// Brings a literal whose level is the highest to the front, and answers that level; 0 where there is no literal.
pub(crate) fn highest_first(trail: &Trail, lits: &mut [Lit]) -> u32
    requires { AreInRange lits.old trail.now.variables }
    ensures permuted { IsPermutation lits.old lits.new }
    ensures up_to { (lit : ℕ) → Contains lits.new lit → level_in trail.now.places lit ≤ result }
    ensures first { MatchOption (slice_get lits.new 0) (result ≡ 0) (λ lit. level_in trail.now.places lit ≡ result) }
{
    if lits.is_empty() {
        return 0;
    }
    let best = highest(trail, lits);
    lits.swap(0, best);
    level_of(trail, lits[0])
}
