//! From a conflict to a minimal one within it.
ghost use Rattle.conflict_lattice.specs.Lattice.{IsMinimalConflict};
ghost use Rattle.conflict_lattice.specs.Rounds.{IsJudge, IsShrunk};
ghost use Rattle.constraint_set.specs.Shape.{shape_of};
ghost use Rattle.family_solver.specs.Kept.Keeping.{IsClash, IsWithin};
ghost use Rattle.std.specs.Prelude.{IfOk, OnOk, length, ◌+◌, ◌<◌, ◌≡◌};

use crate::decide::{Judge, Judged, decide};
use crate::subset::Subset;
use constraint_set::Problem;
use point_query::Asker;
use std::alloc::{AllocError, Global};

// Tries without the articulation at a place: what is left is the conflict within the others, if there is one.
fn shrink_at(
    alloc: Global,
    problem: &Problem,
    place: usize,
    core: &mut Vec<bool>,
    judge: &mut Judge,
    asker: &mut Asker,
) -> Result<(), AllocError>
    requires shape { asker.old.shape ≡ shape_of problem.now }
    requires judge { IsJudge problem.now judge.old }
    requires within { place < length problem.now.articulations }
    requires before { IsShrunk problem.now place core.old.items }
    ensures shape { asker.new.shape ≡ asker.old.shape }
    ensures judge { IsJudge problem.now judge.new }
    ensures after { OnOk result (IsShrunk problem.now (place + 1) core.new.items) }
    ensures less { OnOk result (IsWithin core.new.items core.old.items) }
{
    if !core[place] {
        return Ok(());
    }
    core[place] = false;
    match decide(alloc, problem, core, judge, asker)? {
        Judged::Clash(less) => *core = less,
        Judged::Met(_family) => core[place] = true,
    }
    Ok(())
}

/// A minimal conflict within one.
pub(crate) fn shrink(
    alloc: Global,
    problem: &Problem,
    clash: Vec<bool>,
    judge: &mut Judge,
    asker: &mut Asker,
) -> Result<Subset, AllocError>
    requires shape { asker.old.shape ≡ shape_of problem.now }
    requires judge { IsJudge problem.now judge.old }
    requires clash { IsClash problem.now clash.items clash.items }
    ensures shape { asker.new.shape ≡ asker.old.shape }
    ensures judge { IsJudge problem.now judge.new }
    ensures minimal { IfOk result (IsMinimalConflict problem.now) }
    ensures within { IfOk result (λ kept. IsWithin kept clash.items) }
{
    let mut core = clash;
    'places: for place in 0..core.len() {
        shrink_at(alloc, problem, place, &mut core, judge, asker)?;
    }
    Ok(Subset::new(core))
}
