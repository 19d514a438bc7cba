//! The points of a problem, and pairs of it.
ghost use Rattle.family_solver.specs.Showing.{IsGround, variable_count};
ghost use Rattle.point_table.specs.Points.{AreAllowed};
ghost use Rattle.std.specs.Prelude.{All, IfOk, IfSome, IsTrue, [], length, ◌++◌, ◌<◌, ◌∷◌, ◌≡◌, ◌≤◌};
ghost use Rattle.world_model.specs.Problem.{pair_count};

use constraint_set::Problem;
use lits_core::Bits;
use point_table::{all_points, allowed_sets};
use rcc5_core::RelSet;
use std::alloc::{AllocError, Global};

/// A ground has no more points than these, and room for as many pairs.
pub const MOST_ROOM: usize = 100_000_000;

/// All points of a problem, and pairs whose relations a solver speaks of.
#[derive(Drop)]
pub struct Ground {
    pub points: Vec<Bits>,
    pub pairs: Vec<u32>,
}

// The pairs that allow neither none nor a whole set, by their numbers.
fn split_pairs(alloc: Global, sets: &[RelSet]) -> Result<Vec<u32>, AllocError>
    requires { length sets.now ≤ 1_000_000 }
    ensures few { IfOk result (λ pairs. length pairs.items ≤ length sets.now) }
    ensures within { IfOk result (λ pairs. All (λ pair. pair < length sets.now) pairs.items) }
{
    let mut pairs = Vec::new(alloc);
    for pair in 0..sets.len() {
        if !sets[pair].is_empty() && !sets[pair].is_whole() {
            pairs.push(pair as u32)?;
        }
    }
    Ok(pairs)
}

/// All points of a problem, if they are few and found in so many tries, and its pairs that allow neither none nor a whole set.
pub fn ground_of(
    alloc: Global,
    problem: &Problem,
    most: usize,
    tries: usize,
) -> Result<Option<Ground>, AllocError>
    ensures { IfOk result (λ found. IfSome found (IsGround problem.now)) }
{
    problem.facts();
    let sets = allowed_sets(alloc, problem)?;
    let Some(points) = all_points(alloc, problem, &sets, most, tries)? else {
        return Ok(None);
    };
    if points.len() > MOST_ROOM {
        return Ok(None);
    }
    let pairs = split_pairs(alloc, &sets)?;
    Ok(Some(Ground { points, pairs }))
}

impl Ground {
    /// Adds a pair, unless there are very many. Its place is then the last.
    pub fn add_pair(&mut self, problem: &Problem, pair: u32) -> Result<bool, AllocError>
        requires ground { IsGround problem.now self.old }
        requires pair { pair < pair_count problem.now }
        ensures ground { IsGround problem.now self.new }
        ensures last { IfOk result (λ done. IsTrue done → self.new.pairs.items ≡ self.old.pairs.items ++ pair ∷ []) }
    {
        if self.points.len() > MOST_ROOM || self.pairs.len() >= MOST_ROOM {
            return Ok(false);
        }
        self.pairs.push(pair)?;
        Ok(true)
    }

    /// Drops all pairs but the first.
    pub fn keep_pairs(&mut self, problem: &Problem, count: usize)
        requires ground { IsGround problem.now self.old }
        ensures ground { IsGround problem.now self.new }
    {
        self.pairs.truncate(count);
    }
}
