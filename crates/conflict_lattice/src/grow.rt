//! From articulations that hold together to a maximal set of such around them.
ghost use Rattle.conflict_lattice.specs.Lattice.{IsMaximalConsistent, IsMinimalConflict};
ghost use Rattle.conflict_lattice.specs.Rounds.{IsGrown, IsJudge, holds_one};
ghost use Rattle.constraint_set.specs.Shape.{shape_of};
ghost use Rattle.family_solver.specs.Kept.Keeping.{IsWithin};
ghost use Rattle.set_family.specs.Meeting.{IsMetBy};
ghost use Rattle.set_family.specs.Rules.{articulation_holds};
ghost use Rattle.std.specs.Prelude.{All, IfOk, OnOk, length, map, ◌+◌, ◌<◌, ◌≡◌};
ghost use Rattle.world_model.specs.Problem.{restricted};
ghost use Rattle.world_model.specs.Questions.{HasFlags};

use crate::decide::{Judge, Judged, decide};
use crate::seeds::is_part;
use crate::subset::Subset;
use constraint_set::Problem;
use point_query::Asker;
use set_family::Family;
use std::alloc::{AllocError, Global};

// A flag for each articulation: whether it holds in a family.
fn held_by(alloc: Global, problem: &Problem, family: &Family) -> Result<Vec<bool>, AllocError>
    ensures { IfOk result (λ flags. flags.items ≡ map (articulation_holds family.now) problem.now.articulations) }
{
    let mut flags = Vec::new(alloc);
    for index in 0..problem.articulation_count() {
        flags.push(family.articulation_holds(problem.articulation(index)))?;
    }
    Ok(flags)
}

// Whether flags hold a conflict that was found.
fn holds_one(conflicts: &[Subset], kept: &[bool]) -> bool
    ensures { result ≡ holds_one conflicts.now kept.now }
{
    for conflict in conflicts {
        if is_part(conflict.flags(), kept) {
            return true;
        }
    }
    false
}

// Tries with the articulation at a place besides: all that hold in the family that is found then are taken.
fn grow_at(
    alloc: Global,
    problem: &Problem,
    place: usize,
    kept: &mut Vec<bool>,
    conflicts: &[Subset],
    judge: &mut Judge,
    asker: &mut Asker,
) -> Result<(), AllocError>
    requires shape { asker.old.shape ≡ shape_of problem.now }
    requires judge { IsJudge problem.now judge.old }
    requires within { place < length problem.now.articulations }
    requires conflicts { All (IsMinimalConflict problem.now) conflicts.now }
    requires before { IsGrown problem.now place kept.old.items }
    ensures shape { asker.new.shape ≡ asker.old.shape }
    ensures judge { IsJudge problem.now judge.new }
    ensures after { OnOk result (IsGrown problem.now (place + 1) kept.new.items) }
    ensures more { OnOk result (IsWithin kept.old.items kept.new.items) }
{
    if kept[place] {
        return Ok(());
    }
    kept[place] = true;
    if holds_one(conflicts, kept) {
        kept[place] = false;
        return Ok(());
    }
    match decide(alloc, problem, kept, judge, asker)? {
        Judged::Met(family) => *kept = held_by(alloc, problem, &family)?,
        Judged::Clash(_core) => kept[place] = false,
    }
    Ok(())
}

/// A maximal consistent set that has all articulations of some which a family meets.
pub(crate) fn grow(
    alloc: Global,
    problem: &Problem,
    seed: &[bool],
    family: &Family,
    conflicts: &[Subset],
    judge: &mut Judge,
    asker: &mut Asker,
) -> Result<Subset, AllocError>
    requires shape { asker.old.shape ≡ shape_of problem.now }
    requires judge { IsJudge problem.now judge.old }
    requires flags { HasFlags problem.now seed.now }
    requires met { IsMetBy (restricted problem.now seed.now) family.now }
    requires conflicts { All (IsMinimalConflict problem.now) conflicts.now }
    ensures shape { asker.new.shape ≡ asker.old.shape }
    ensures judge { IsJudge problem.now judge.new }
    ensures maximal { IfOk result (IsMaximalConsistent problem.now) }
    ensures within { IfOk result (IsWithin seed.now) }
{
    let mut kept = held_by(alloc, problem, family)?;
    'places: for place in 0..kept.len() {
        grow_at(alloc, problem, place, &mut kept, conflicts, judge, asker)?;
    }
    Ok(Subset::new(kept))
}
