//! The points that a problem has where no articulation is kept, and the pairs that articulations speak of.
ghost use Rattle.family_solver.specs.Showing.{IsGround, variable_count};
ghost use Rattle.family_solver.specs.Kept.Keeping.{bare};
ghost use Rattle.std.specs.Prelude.{IfOk, IfSome, IsTrue, length, slice_index_or, ◌+◌, ◌<◌, ◌^◌, ◌≡◌};
ghost use Rattle.world_model.specs.Problem.{pair_count};

use crate::{Ground, ground_of};
use constraint_set::Problem;
use std::alloc::{AllocError, Global};
use world_model::Articulation;

/// A solver has no more points than these.
const MOST_POINTS: usize = 65_536;

/// So many tries are made at most to find them.
const MOST_TRIES: usize = 10_000_000;

/// The points times the articulations, and some more, are no more than these: so many clauses are given at most for what each says
/// is empty.
const MOST_CLAUSES: usize = 4_000_000;

/// Points, pairs and articulations are no more than these, so that a literal has room for all variables.
const MOST_EACH: usize = 100_000_000;

// How many points are few for so many articulations.
fn most_points(articulations: u32) -> usize {
    MOST_POINTS.min(MOST_CLAUSES / (articulations as usize + 16))
}

// The problem with no articulation kept.
pub(crate) fn bare(alloc: Global, problem: &Problem) -> Result<Problem, AllocError>
    ensures { IfOk result (λ base. base ≡ bare problem.now) }
{
    let none = vec![in alloc; false; problem.articulation_count() as usize]?;
    problem.restricted(alloc, &none)
}

// The place of a pair, if it is there.
pub(crate) fn place_of(ground: &Ground, pair: u32) -> Option<usize>
    ensures within { IfSome result (λ place. place < length ground.now.pairs.items) }
    ensures is { IfSome result (λ place. slice_index_or ground.now.pairs.items place 0 ≡ pair) }
{
    for place in 0..ground.pairs.len() {
        if ground.pairs[place] == pair {
            return Some(place);
        }
    }
    None
}

// Adds a pair, unless it is there, or there are very many.
fn add_pair(ground: &mut Ground, base: &Problem, pair: u32) -> Result<(), AllocError>
    requires ground { IsGround base.now ground.old }
    requires pair { pair < pair_count base.now }
    ensures { IsGround base.now ground.new }
{
    if place_of(ground, pair).is_none() {
        ground.add_pair(base, pair)?;
    }
    Ok(())
}

// Adds the pair that an articulation speaks of.
fn add_pair_of(ground: &mut Ground, base: &Problem, index: u32) -> Result<(), AllocError>
    requires ground { IsGround base.now ground.old }
    requires index { index < length base.now.articulations }
    ensures { IsGround base.now ground.new }
{
    match base.articulation(index) {
        Articulation::Pair {
            left,
            right,
            set: _,
        } => { add_pair(ground, base, base.pair_index(*left, *right)) }
        Articulation::Sum { whole: _, parts: _ } => Ok(()),
    }
}

// The points and the pairs, if they are few.
pub(crate) fn few_points(alloc: Global, base: &Problem) -> Result<Option<Ground>, AllocError>
    ensures ground { IfOk result (λ found. IfSome found (IsGround base.now)) }
    ensures few { IfOk result (λ found. IfSome found (λ g. variable_count g + length base.now.articulations < 2 ^ 31)) }
{
    let articulations = base.articulation_count();
    let most = most_points(articulations);
    let Some(mut ground) = ground_of(alloc, base, most, MOST_TRIES)? else {
        return Ok(None);
    };
    for index in 0..articulations {
        add_pair_of(&mut ground, base, index)?;
    }
    if !has_room(&ground, articulations) {
        return Ok(None);
    }
    Ok(Some(ground))
}

// Whether a literal has room for a variable for each of so many articulations too.
fn has_room(ground: &Ground, articulations: u32) -> bool
    ensures { IsTrue result → variable_count ground.now + articulations < 2 ^ 31 }
{
    ground.points.len() <= MOST_EACH
        && ground.pairs.len() <= MOST_EACH
        && (articulations as usize) <= MOST_EACH
}
