//! The needs of a problem by their numbers, and the regions that they speak of.
ghost use Rattle.point_encode.specs.Model.Forced.{need_at, need_count, need_with, region_with};
ghost use Rattle.point_encode.specs.Needs.{IsInRange, need_number, need_seen};
ghost use Rattle.point_encode.specs.Numbers.{IsBelow, wanted_seen};
ghost use Rattle.rcc5_core.specs.Region.{word_at};
ghost use Rattle.std.specs.Prelude.{IfSome, Some, length, option_map, ◌<◌, ◌≡◌, ◌≤◌};
ghost use Rattle.world_model.specs.Alive.{is_in_need, lies_by};
ghost use Rattle.world_model.specs.Problem.{concept_count, pair_count};

use crate::need::Need;
use constraint_set::{MAX_CONCEPTS, MAX_PAIRS, Problem};
use lits_core::Bits;
use rcc5_core::{Occupancy, Regions};

/// How many pairs there are, which is not too many to count their regions.
pub fn count_pairs(problem: &Problem) -> u32
    ensures count { result ≡ pair_count problem.now }
    ensures pairs { result ≤ MAX_PAIRS }
    ensures concepts { concept_count problem.now ≤ MAX_CONCEPTS }
{
    problem.facts();
    problem.pair_count()
}

/// How many needs there may be.
pub fn count_needs(problem: &Problem) -> u32
    ensures { result ≡ need_count problem.now }
{
    let pairs = count_pairs(problem);
    3 * pairs + problem.concept_count()
}

/// What is known of a region, by its number among the three.
pub fn word_of(regions: Regions, part: u32) -> Occupancy
    ensures { result ≡ word_at regions (region_with part) }
{
    if part == 0 {
        regions.left_only
    } else if part == 1 {
        regions.both
    } else {
        regions.right_only
    }
}

/// Whether a point lies in a region of a pair, by whether it is in the left concept and in the right one.
pub fn lies_in(part: u32, left: bool, right: bool) -> bool
    ensures { result ≡ lies_by (region_with part) left right }
{
    if part == 0 {
        left && !right
    } else if part == 1 {
        left && right
    } else {
        !left && right
    }
}

/// A need, by its concepts: a region of two, by its number among the three, or one concept.
#[derive(Clone, Copy)]
pub enum Wanted {
    Region { x: u32, y: u32, part: u32 },
    Concept(u32),
}

/// The need with a number.
pub fn by_concepts(problem: &Problem, number: u32) -> Wanted
    requires { number < need_count problem.now }
    ensures value { wanted_seen result ≡ need_at problem.now number }
    ensures below { IsBelow (concept_count problem.now) result }
{
    let pairs = problem.pair_count();
    let pair = number / 3;
    if pair < pairs {
        let (x, y) = problem.pair_at(pair);
        Wanted::Region {
            x,
            y,
            part: number % 3,
        }
    } else {
        Wanted::Concept(number - 3 * pairs)
    }
}

/// Whether a point is in a need.
pub fn is_in(wanted: Wanted, bits: &Bits) -> bool
    requires { IsBelow (length bits.now) wanted }
    ensures { result ≡ is_in_need (wanted_seen wanted) bits.now }
{
    match wanted {
        Wanted::Concept(concept) => bits.get(concept as usize),
        Wanted::Region { x, y, part } => {
            lies_in(part, bits.get(x as usize), bits.get(y as usize))
        }
    }
}

/// The need with a number, by the number of its pair.
pub fn need_at(problem: &Problem, number: u32) -> Need
    requires { number < need_count problem.now }
    ensures value { need_seen problem.now result ≡ need_at problem.now number }
    ensures range { IsInRange problem.now result }
    ensures number { need_number problem.now result ≡ number }
{
    let pairs = problem.pair_count();
    let pair = number / 3;
    if pair < pairs {
        Need::Region {
            pair,
            part: (number % 3) as u8,
        }
    } else {
        Need::Concept(number - 3 * pairs)
    }
}

/// The need with a number. None exactly where there is none.
pub fn need_of(problem: &Problem, number: u64) -> Option<Need>
    ensures value { option_map (need_seen problem.now) result ≡ need_with problem.now number }
    ensures range { IfSome result (IsInRange problem.now) }
    ensures number { IfSome result (λ need. need_number problem.now need ≡ number) }
{
    if number >= u64::from(count_needs(problem)) {
        return None;
    }
    Some(need_at(problem, number as u32))
}

/// The number of a need: three a pair, then the concepts.
pub fn need_number(problem: &Problem, need: Need) -> u32
    requires { IsInRange problem.now need }
    ensures number { result ≡ need_number problem.now need }
    ensures of { need_with problem.now result ≡ Some (need_seen problem.now need) }
{
    let pairs = count_pairs(problem);
    match need {
        Need::Region { pair, part } => 3 * pair + u32::from(part),
        Need::Concept(concept) => 3 * pairs + concept,
    }
}
