//! What must be true of a point in a need: the literals of the need, and the selectors.
ghost use Rattle.point_encode.specs.Model.Forced.{asked_of, need_lits, region_with, selectors_of};
ghost use Rattle.constraint_set.specs.Readers.{sum_places};
ghost use Rattle.point_encode.specs.Needs.{IsInRange, lits_there, need_seen};
ghost use Rattle.point_encode.specs.Selectors.{IsSelector, selector_lit};
ghost use Rattle.rcc5_core.specs.Region.{same_word, word_at};
ghost use Rattle.rcc5_core.specs.declared.Occupancy.TheVariants.{Empty};
ghost use Rattle.std.specs.Prelude.{Contains, IfSome, IsTrue, Some, false, length, slice_index_or, ◌<◌, ◌≡◌, ◌≤◌};
ghost use Rattle.world_model.specs.Problem.{pair_count};

use crate::need::{Need, need_lits};
use crate::numbers::{count_pairs, word_of};
use crate::select::forced_at;
use crate::variables::sum_count;
use constraint_set::Problem;
use lits_core::Lit;
use rcc5_core::{Occupancy, Position, Regions};

/// A selector, by what it says.
#[derive(Clone, Copy)]
pub enum Selector {
    /// That a region of a pair is empty, by the pair's number and the region's among the three.
    Empty { pair: u32, part: u32 },
    /// That a sum is kept, by its number among the sums.
    Kept(u32),
}

/// Whether a literal must be true of a point in a need at a prefix.
pub fn is_asked(problem: &Problem, prefix: &Position, need: Need, lit: Lit) -> bool
    requires within { length prefix.now ≤ pair_count problem.now }
    requires range { IsInRange problem.now need }
    ensures { IsTrue result → Contains (asked_of problem.now prefix.now (need_seen problem.now need)) lit }
{
    if is_selected(problem, prefix, lit) {
        return true;
    }
    is_need_lit(problem, need, lit)
}

// Whether a literal is a selector that a prefix makes true.
fn is_selected(problem: &Problem, prefix: &Position, lit: Lit) -> bool
    requires { length prefix.now ≤ pair_count problem.now }
    ensures { IsTrue result → Contains (selectors_of problem.now prefix.now) lit }
{
    match selector_of(problem, lit) {
        Some(Selector::Empty { pair, part }) => is_empty(forced_at(problem, prefix, pair), part),
        Some(Selector::Kept(sum)) => is_sum_kept(problem, sum),
        None => false,
    }
}

/// Whether a region is forced empty, by its number among the three.
pub fn is_empty(regions: Regions, part: u32) -> bool
    ensures { result ≡ same_word (word_at regions (region_with part)) Empty }
{
    match word_of(regions, part) {
        Occupancy::Empty => true,
        Occupancy::Occupied | Occupancy::Free => false,
    }
}

/// Whether the sum with a number is kept.
pub fn is_sum_kept(problem: &Problem, sum: u32) -> bool
    requires { sum < length (sum_places problem.now) }
    ensures { result ≡ slice_index_or problem.now.kept (slice_index_or (sum_places problem.now) sum 0) false }
{
    problem.is_kept(problem.sum_at(sum))
}

/// The selector that a literal is. None where it is negative or of another variable.
pub fn selector_of(problem: &Problem, lit: Lit) -> Option<Selector>
    ensures lit { IfSome result (λ selector. selector_lit problem.now selector ≡ lit) }
    ensures range { IfSome result (IsSelector problem.now) }
{
    let concepts = problem.concept_count();
    if lit.is_negative() || lit.variable() < concepts {
        return None;
    }
    let regions = 3 * count_pairs(problem);
    let selector = lit.variable() - concepts;
    if selector < regions {
        return Some(Selector::Empty {
            pair: selector / 3,
            part: selector % 3,
        });
    }
    let sum = selector - regions;
    if sum < sum_count(problem) {
        return Some(Selector::Kept(sum));
    }
    None
}

/// Whether a literal says that a point is in a need.
pub fn is_need_lit(problem: &Problem, need: Need, lit: Lit) -> bool
    requires { IsInRange problem.now need }
    ensures { IsTrue result → Contains (need_lits (need_seen problem.now need)) lit }
{
    let [first, second] = need_lits(problem, need);
    is_one_of(first, second, lit)
}

// Whether a literal is one of two, each of which may be missing.
fn is_one_of(first: Option<Lit>, second: Option<Lit>, lit: Lit) -> bool
    ensures { IsTrue result → Contains (lits_there first second) lit }
{
    if is_it(first, lit) {
        return true;
    }
    is_it(second, lit)
}

// Whether a literal is there, and this one.
fn is_it(there: Option<Lit>, lit: Lit) -> bool
    ensures { IsTrue result → there ≡ Some lit }
{
    match there {
        Some(other) => other == lit,
        None => false,
    }
}
