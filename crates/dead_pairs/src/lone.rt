//! A problem with one pair narrowed to a relation, read without making it.
ghost use Rattle.std.specs.Prelude.{◌≡◌, ◌<◌};
ghost use Rattle.rcc5_core.specs.declared.Occupancy.TheVariants.{Occupied};
ghost use Rattle.rcc5_core.specs.Region.{same_word, forced_regions};
ghost use Rattle.world_model.specs.Problem.{pair_count};
ghost use Rattle.world_model.specs.Alive.{allowed};
ghost use Rattle.world_model.specs.Node.{pair_at};
ghost use Rattle.cert_rules.specs.Trees.{is_forced};
ghost use Rattle.point_encode.specs.Needs.{IsInRange, need_seen};
ghost use Rattle.dead_pairs.specs.Lone.{lone_problem};

use cert_rules::children_narrow;
use constraint_set::Problem;
use point_encode::{Need, word_of};
use rcc5_core::{Occupancy, Regions, Rel, RelSet, forced};
use world_model::pairs_stand_once;

/// A pair, by its number, and the relation to which it is narrowed.
#[derive(Clone, Copy)]
pub struct Lone {
    pub pair: u32,
    pub rel: Rel,
}

// What a pair allows.
fn allowed_at(problem: &Problem, lone: Lone, pair: u32) -> RelSet
    requires lone { lone.pair < pair_count problem.now }
    requires within { pair < pair_count problem.now }
    ensures { result ≡ allowed (lone_problem problem.now lone) (pair_at problem.now pair) }
{
    children_narrow();
    pairs_stand_once();
    let set = problem.allowed(pair);
    if pair == lone.pair {
        set.meet(RelSet::one(lone.rel))
    } else {
        set
    }
}

/// What is forced at a pair.
pub(crate) fn forced_at(problem: &Problem, lone: Lone, pair: u32) -> Regions
    requires lone { lone.pair < pair_count problem.now }
    requires within { pair < pair_count problem.now }
    ensures { result ≡ forced_regions (allowed (lone_problem problem.now lone) (pair_at problem.now pair)) }
{
    forced(allowed_at(problem, lone, pair))
}

/// Whether a need is forced.
pub(crate) fn is_forced(problem: &Problem, lone: Lone, need: Need) -> bool
    requires lone { lone.pair < pair_count problem.now }
    requires range { IsInRange problem.now need }
    ensures { result ≡ is_forced (lone_problem problem.now lone) (need_seen problem.now need) }
{
    match need {
        Need::Concept(_) => problem.switches().nonempty,
        Need::Region { pair, part } => {
            is_occupied(word_of(forced_at(problem, lone, pair), u32::from(part)))
        }
    }
}

// Whether a region is occupied.
fn is_occupied(word: Occupancy) -> bool
    ensures { result ≡ same_word word Occupied }
{
    match word {
        Occupancy::Occupied => true,
        Occupancy::Empty | Occupancy::Free => false,
    }
}
