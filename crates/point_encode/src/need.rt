//! The needs of a prefix, and their literals.
ghost use Rattle.std.specs.Prelude.{◌≡◌, ◌+◌, ◌*◌, ◌<◌, ◌≤◌, ◌↔◌, ◌++◌, length, map, filter, All, Contains, IfOk, IfSome, IsTrue, OnOk, Some, slice_index_or, None, option_map};
ghost use Rattle.rcc5_core.specs.declared.Occupancy.TheVariants.{Occupied};
ghost use Rattle.rcc5_core.specs.Region.{all_regions, word_at, same_word};
ghost use Rattle.world_model.specs.Problem.{concepts, pair_count};
ghost use Rattle.world_model.specs.Node.{pair_at};
ghost use Rattle.world_model.specs.Alive.{InConcept, needs, needs_at, problem_at};
ghost use Rattle.point_encode.specs.Model.Forced.{need_lits, region_with};
ghost use Rattle.point_encode.specs.Needs.{need_seen, lits_there, IsInRange};

use crate::select::forced_at;
use constraint_set::Problem;
use lits_core::Lit;
use rcc5_core::{Occupancy, Position, Region, Regions};
use std::alloc::{AllocError, Global};

/// What must have a point.
#[derive(Clone, Copy, Debug, PartialEq, Eq)]
pub enum Need {
    /// A region of a pair, by the pair's number: 0 is the left concept without the right, 1 both, 2 the right without the left.
    Region { pair: u32, part: u8 },
    /// A concept, by its number.
    Concept(u32),
}

/// The needs of a prefix, by number.
pub fn needs_of(
    alloc: Global,
    problem: &Problem,
    prefix: &Position,
) -> Result<Vec<Need>, AllocError>
    requires { length prefix.now ≤ pair_count problem.now }
    ensures value { IfOk result (λ list. map (need_seen problem.now) list.items ≡ needs (problem_at problem.now prefix.now)) }
    ensures range { IfOk result (λ list. All (IsInRange problem.now) list.items) }
{
    let mut needs = Vec::new(alloc);
    for pair in 0..problem.pair_count() {
        add_needs_at(problem, pair, forced_at(problem, prefix, pair), &mut needs)?;
    }
    if problem.switches().nonempty {
        add_concepts(problem, &mut needs)?;
    }
    Ok(needs)
}

// Adds the regions of a pair that are forced occupied.
fn add_needs_at(
    problem: &Problem,
    pair: u32,
    forced: Regions,
    needs: &mut Vec<Need>,
) -> Result<(), AllocError>
    requires pair { pair < pair_count problem.now }
    requires range { All (IsInRange problem.now) needs.old.items }
    ensures value { OnOk result (map (need_seen problem.now) needs.new.items ≡ map (need_seen problem.now) needs.old.items ++ needs_at (pair_at problem.now pair, forced)) }
    ensures range { OnOk result (All (IsInRange problem.now) needs.new.items) }
{
    if forced.left_only == Occupancy::Occupied {
        needs.push(Need::Region { pair, part: 0 })?;
    }
    if forced.both == Occupancy::Occupied {
        needs.push(Need::Region { pair, part: 1 })?;
    }
    if forced.right_only == Occupancy::Occupied {
        needs.push(Need::Region { pair, part: 2 })?;
    }
    Ok(())
}

// Adds each concept.
fn add_concepts(problem: &Problem, needs: &mut Vec<Need>) -> Result<(), AllocError>
    requires { All (IsInRange problem.now) needs.old.items }
    ensures value { OnOk result (map (need_seen problem.now) needs.new.items ≡ map (need_seen problem.now) needs.old.items ++ map InConcept (concepts problem.now)) }
    ensures range { OnOk result (All (IsInRange problem.now) needs.new.items) }
{
    for concept in 0..problem.concept_count() {
        needs.push(Need::Concept(concept))?;
    }
    Ok(())
}

/// The literals that say that a point is in a need: two for a region, one for a concept.
pub fn need_lits(problem: &Problem, need: Need) -> [Option<Lit>; 2]
    requires { IsInRange problem.now need }
    ensures { lits_there (slice_index_or result 0 None) (slice_index_or result 1 None) ≡ need_lits (need_seen problem.now need) }
{
    problem.facts();
    match need {
        Need::Concept(c) => [Some(Lit::new(c, false)), None],
        Need::Region { pair, part } => {
            let (x, y) = problem.pair_at(pair);
            [Some(Lit::new(x, part == 2)), Some(Lit::new(y, part == 0))]
        }
    }
}

/// Whether a prefix forces a need.
pub fn is_forced(problem: &Problem, prefix: &Position, need: Need) -> bool
    requires prefix { length prefix.now ≤ pair_count problem.now }
    requires range { IsInRange problem.now need }
    ensures { IsTrue result ↔ Contains (needs (problem_at problem.now prefix.now)) (need_seen problem.now need) }
{
    match need {
        Need::Concept(_) => problem.switches().nonempty,
        Need::Region { pair, part } => {
            forced_at(problem, prefix, pair).at(region_of(part)) == Occupancy::Occupied
        }
    }
}

// The region with a number: 0 is the left concept without the right, 1 both, another the right without the left.
fn region_of(part: u8) -> Region
    ensures { result ≡ region_with part }
{
    match part {
        0 => Region::LeftOnly,
        1 => Region::Both,
        _ => Region::RightOnly,
    }
}
