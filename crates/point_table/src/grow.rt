//! All points of a problem, by a search through the lists of bits that turns back where no point begins.
ghost use Rattle.std.specs.Prelude.{◌≡◌, ◌+◌, ◌-◌, ◌<◌, true, false, [], ◌∷◌, ◌++◌, if◌then◌else◌, length, IfOk, IfSome};
ghost use Rattle.world_model.specs.Problem.{concept_count};
ghost use Rattle.world_model.specs.Alive.{is_point};
ghost use Rattle.world_model.specs.Trial.{points_by_trial};
ghost use Rattle.point_table.specs.Growing.{points_below, IsTried, AreTerms};

use crate::build::nothing_known;
use crate::points::is_point;
use crate::rules::Rules;
use bit_rows::Rows;
use constraint_set::Problem;
use lits_core::Bits;
use rcc5_core::RelSet;
use std::alloc::{AllocError, Global};

// What a search goes by: the problem, what its pairs allow, those with a region forced empty, and rules.
#[derive(Clone, Copy)]
pub(crate) struct Terms<'a> {
    pub(crate) problem: &'a Problem,
    pub(crate) sets: &'a [RelSet],
    pub(crate) pairs: &'a [u32],
    pub(crate) rules: &'a Rules,
}

// How far a search has come: the bits tried, the points found, and how many points and tries it may have.
#[derive(Drop)]
struct Search {
    tried: Vec<bool>,
    points: Vec<Bits>,
    most: usize,
    tries: usize,
}

/// Bits of a list.
pub fn bits_of(alloc: Global, tried: &[bool]) -> Result<Bits, AllocError>
    ensures { IfOk result (λ bits. bits ≡ tried.now) }
{
    let mut bits = Bits::new(alloc, tried.len())?;
    for (place, bit) in tried.iter().enumerate() {
        bits.set(place, *bit);
    }
    Ok(bits)
}

// Adds the bits tried, one a concept, if they are a point.
fn add_if_point(alloc: Global, terms: &Terms, search: &mut Search) -> Result<bool, AllocError>
    requires { AreTerms terms.now }
    ensures tried { IfOk result (λ _. search.new.tried.items ≡ search.old.tried.items) }
    ensures points { IfOk result (λ _. search.new.points.items ≡ search.old.points.items ++ (if is_point terms.now.problem.now search.old.tried.items then search.old.tried.items ∷ [] else [])) }
{
    if is_point(terms.problem, terms.sets, terms.pairs, &search.tried) {
        let bits = bits_of(alloc, &search.tried)?;
        search.points.push(bits)?;
    }
    Ok(search.points.len() <= search.most)
}

// Adds all points that begin with the bits tried, unless it takes too long or they are too many.
#[cycle(grow)]
fn grow(
    alloc: Global,
    terms: &Terms,
    search: &mut Search,
    known: &Rows,
    left: usize,
) -> Result<bool, AllocError>
    requires terms { AreTerms terms.now }
    requires tried { IsTried terms.now.problem.now search.old.tried.items known.now }
    requires width { known.now.width ≡ terms.now.rules.now.implied.width }
    requires left { length search.old.tried.items + left ≡ concept_count terms.now.problem.now }
    ensures tried { IfOk result (λ done. done ≡ true → search.new.tried.items ≡ search.old.tried.items) }
    ensures points { IfOk result (λ done. done ≡ true → search.new.points.items ≡ search.old.points.items ++ points_below terms.now.problem.now search.old.tried.items left) }
{
    if left == 0 {
        return add_if_point(alloc, terms, search);
    }
    if !grow_by(alloc, terms, search, known, left, false)? {
        return Ok(false);
    }
    grow_by(alloc, terms, search, known, left, true)
}

// Adds those that go on with a bit.
#[cycle(grow)]
fn grow_by(
    alloc: Global,
    terms: &Terms,
    search: &mut Search,
    known: &Rows,
    left: usize,
    bit: bool,
) -> Result<bool, AllocError>
    requires terms { AreTerms terms.now }
    requires tried { IsTried terms.now.problem.now search.old.tried.items known.now }
    requires width { known.now.width ≡ terms.now.rules.now.implied.width }
    requires left { length search.old.tried.items + left ≡ concept_count terms.now.problem.now }
    requires some { 0 < left }
    ensures tried { IfOk result (λ done. done ≡ true → search.new.tried.items ≡ search.old.tried.items) }
    ensures points { IfOk result (λ done. done ≡ true → search.new.points.items ≡ search.old.points.items ++ points_below terms.now.problem.now (search.old.tried.items ++ bit ∷ []) (left - 1)) }
{
    let concept = search.tried.len();
    if !terms.rules.may_add(known, concept, bit) {
        return Ok(true);
    }
    if search.tries == 0 {
        return Ok(false);
    }
    search.tries -= 1;
    let next = terms.rules.next_known(alloc, known, concept, bit)?;
    if !terms.rules.covers_may_hold(&next, concept) {
        return Ok(true);
    }
    search.tried.push(bit)?;
    let done = grow(alloc, terms, search, &next, left - 1)?;
    search.tried.pop();
    Ok(done)
}

// All points of a problem, if they are at most so many and are found in so many tries.
pub(crate) fn grow_all(
    alloc: Global,
    terms: &Terms,
    most: usize,
    tries: usize,
) -> Result<Option<Vec<Bits>>, AllocError>
    requires { AreTerms terms.now }
    ensures { IfOk result (λ found. IfSome found (λ points. points.items ≡ points_by_trial terms.now.problem.now)) }
{
    let count = terms.problem.concept_count() as usize;
    let known = nothing_known(alloc, terms.rules.implied.width())?;
    let mut search = Search {
        tried: Vec::new(alloc),
        points: Vec::new(alloc),
        most,
        tries,
    };
    if !grow(alloc, terms, &mut search, &known, count)? {
        return Ok(None);
    }
    Ok(Some(search.points))
}
