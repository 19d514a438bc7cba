//! What is left of each pair by itself, whatever the others are.
ghost use Rattle.std.specs.Prelude.{◌≡◌, ◌<◌, ◌≤◌, IfOk, IfSome};
ghost use Rattle.world_model.specs.Problem.{pair_count};
ghost use Rattle.point_table.specs.Table.{AreRowsOf};
ghost use Rattle.point_ladder.specs.Bounds.{AreBounds};
ghost use Rattle.point_ladder.specs.Alone.{IsAliveAlone, AreAliveAlone};

use crate::bounds::{Bounds, bound};
use crate::sides::sides_of;
use crate::start::begin;
use bit_rows::Rows;
use constraint_set::Problem;
use rcc5_core::RelSet;
use std::alloc::{AllocError, Global};

// The relations with which the problem is alive where a pair is narrowed to one of them, by its frame before any pair is narrowed.
fn alone(problem: &Problem, rows: &Rows, bounds: &Bounds, pair: u32) -> RelSet
    requires rows { AreRowsOf problem.now rows.now }
    requires bounds { AreBounds problem.now bounds.now }
    requires none { bounds.now.count ≡ 0 }
    requires within { pair < pair_count problem.now }
    ensures { IsAliveAlone problem.now pair result }
{
    if !bounds.alive {
        return RelSet::none();
    }
    let sides = sides_of(problem, rows, pair);
    bound(&bounds.frame, &sides, bounds.sets[pair as usize])
}

/// For each of the first so many pairs the relations with which the problem is alive where just this pair is narrowed to one of them.
///
/// `most` and `tries` are hints, as for a ladder: there are no sets where there would be no ladder.
pub fn alive_alone(
    alloc: Global,
    problem: &Problem,
    count: u32,
    most: usize,
    tries: usize,
) -> Result<Option<Vec<RelSet>>, AllocError>
    requires { count ≤ pair_count problem.now }
    ensures { IfOk result (λ found. IfSome found (λ sets. AreAliveAlone problem.now count sets.items)) }
{
    let Some((rows, bounds)) = begin(alloc, problem, most, tries)? else {
        return Ok(None);
    };
    let mut sets = Vec::new(alloc);
    for pair in 0..count {
        sets.push(alone(problem, &rows, &bounds, pair))?;
    }
    Ok(Some(sets))
}
