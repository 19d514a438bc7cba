//! Needs by the literals that say that a point is in them.
ghost use Rattle.std.specs.Prelude.{◌<◌};
ghost use Rattle.lits_core.specs.Literals.{variable_of};
ghost use Rattle.world_model.specs.Problem.{concept_count};

use constraint_set::{MAX_CONCEPTS, Problem};
use lits_core::Lit;

/// The number of the need of the points that make two literals true, if there is one.
pub(crate) fn need_of_both(problem: &Problem, one: Lit, other: Lit) -> Option<u64> {
    let count = problem.concept_count();
    if one.variable() < other.variable() && other.variable() < count {
        return region_of(problem, one, other);
    }
    if other.variable() < one.variable() && one.variable() < count {
        return region_of(problem, other, one);
    }
    None
}

// The number of the region of a pair in which two literals are true, the one of its left concept and the one of its right.
fn region_of(problem: &Problem, left: Lit, right: Lit) -> Option<u64>
    requires order { variable_of left < variable_of right }
    requires within { variable_of right < concept_count problem.now }
{
    let part = match (left.is_negative(), right.is_negative()) {
        (false, true) => 0,
        (false, false) => 1,
        (true, false) => 2,
        (true, true) => return None,
    };
    let pair = problem.pair_index(left.variable(), right.variable());
    Some(3 * u64::from(pair) + part)
}

/// The literals that say that a point is in a region of a pair.
pub(crate) fn lits_of(left: u32, right: u32, part: u32) -> [Lit; 2]
    requires left { left < MAX_CONCEPTS }
    requires right { right < MAX_CONCEPTS }
{
    [Lit::new(left, part == 2), Lit::new(right, part == 0)]
}
