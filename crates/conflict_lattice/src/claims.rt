//! What is claimed of what was found.
ghost use Rattle.cert_text.specs.declared.line.Subject.TheVariants.{Kept};
ghost use Rattle.pick_search.specs.Blocks.Blocks.{KeepsClaims, claimed};
ghost use Rattle.conflict_lattice.specs.Lattice.{IsLattice, IsMaximalConsistent, IsMinimalConflict, claims_of, lattice_claims};
ghost use Rattle.conflict_lattice.specs.Rounds.{IsJudge};
ghost use Rattle.constraint_set.specs.Shape.{shape_of};
ghost use Rattle.search_log.specs.Leading.{KeepsLeading};
ghost use Rattle.search_log.specs.Logging.{LogGoes};
ghost use Rattle.std.specs.Prelude.{All, false, true, ◌≡◌};

use crate::decide::{Judge, Judged, decide};
use crate::subset::{Lattice, Subset};
use cert_text::TreeLog;
use conflict_min::{refute_kept, show_kept};
use constraint_set::Problem;
use point_query::Asker;
use search_log::StepFault;
use std::alloc::Global;

// Claims of a consistent set that it holds, by a family that is found by an asker of its own.
fn claim_set<L: TreeLog>(
    alloc: Global,
    problem: &Problem,
    set: &Subset,
    judge: &mut Judge,
    own: &mut Asker,
    asker: &mut Asker,
    log: &mut L,
) -> Result<(), StepFault>
    requires shape { asker.old.shape ≡ shape_of problem.now }
    requires own { own.old.shape ≡ shape_of problem.now }
    requires judge { IsJudge problem.now judge.old }
    requires maximal { IsMaximalConsistent problem.now set.now }
    ensures shape { asker.new.shape ≡ asker.old.shape }
    ensures own { own.new.shape ≡ own.old.shape }
    ensures judge { IsJudge problem.now judge.new }
    ensures keeps { KeepsClaims problem.now result (λ _ more. more ≡ claimed (Kept set.now) true) (L.lines log.old) (L.lines log.new) asker.old asker.new }
    ensures leads { KeepsLeading (L.lines log.old) (L.lines log.new) asker.old asker.new }
    ensures log { LogGoes L.drops L.lines L.faults L.steady L.quiet result log.old log.new }
{
    match decide(alloc, problem, set.flags(), judge, own)? {
        Judged::Met(family) => {
            let kept = Vec::from_slice(alloc, set.flags())?;
            show_kept(alloc, problem, kept, &family, asker, log)
        }
        Judged::Clash(_core) => unreachable!(),
    }
}

// Claims of each conflict that it doesn't hold, in order.
fn claim_conflicts<L: TreeLog>(
    alloc: Global,
    problem: &Problem,
    conflicts: &[Subset],
    asker: &mut Asker,
    log: &mut L,
) -> Result<(), StepFault>
    requires shape { asker.old.shape ≡ shape_of problem.now }
    requires minimal { All (IsMinimalConflict problem.now) conflicts.now }
    ensures shape { asker.new.shape ≡ asker.old.shape }
    ensures keeps { KeepsClaims problem.now result (λ _ more. more ≡ claims_of false conflicts.now) (L.lines log.old) (L.lines log.new) asker.old asker.new }
    ensures leads { KeepsLeading (L.lines log.old) (L.lines log.new) asker.old asker.new }
    ensures log { LogGoes L.drops L.lines L.faults L.steady L.quiet result log.old log.new }
{
    'conflicts: for conflict in conflicts {
        refute_kept(alloc, problem, conflict.flags(), asker, log)?;
    }
    Ok(())
}

// Claims of each consistent set that it holds, in order.
fn claim_sets<L: TreeLog>(
    alloc: Global,
    problem: &Problem,
    sets: &[Subset],
    judge: &mut Judge,
    own: &mut Asker,
    asker: &mut Asker,
    log: &mut L,
) -> Result<(), StepFault>
    requires shape { asker.old.shape ≡ shape_of problem.now }
    requires own { own.old.shape ≡ shape_of problem.now }
    requires judge { IsJudge problem.now judge.old }
    requires maximal { All (IsMaximalConsistent problem.now) sets.now }
    ensures shape { asker.new.shape ≡ asker.old.shape }
    ensures keeps { KeepsClaims problem.now result (λ _ more. more ≡ claims_of true sets.now) (L.lines log.old) (L.lines log.new) asker.old asker.new }
    ensures leads { KeepsLeading (L.lines log.old) (L.lines log.new) asker.old asker.new }
    ensures log { LogGoes L.drops L.lines L.faults L.steady L.quiet result log.old log.new }
{
    'sets: for set in sets {
        claim_set(alloc, problem, set, judge, own, asker, log)?;
    }
    Ok(())
}

/// Claims of each conflict that it doesn't hold, and of each consistent set that it does, in order.
pub(crate) fn claim_all<L: TreeLog>(
    alloc: Global,
    problem: &Problem,
    lattice: &Lattice,
    judge: &mut Judge,
    own: &mut Asker,
    asker: &mut Asker,
    log: &mut L,
) -> Result<(), StepFault>
    requires shape { asker.old.shape ≡ shape_of problem.now }
    requires own { own.old.shape ≡ shape_of problem.now }
    requires judge { IsJudge problem.now judge.old }
    requires lattice { IsLattice problem.now lattice.now }
    ensures shape { asker.new.shape ≡ asker.old.shape }
    ensures keeps { KeepsClaims problem.now result (λ _ more. more ≡ lattice_claims lattice.now) (L.lines log.old) (L.lines log.new) asker.old asker.new }
    ensures leads { KeepsLeading (L.lines log.old) (L.lines log.new) asker.old asker.new }
    ensures log { LogGoes L.drops L.lines L.faults L.steady L.quiet result log.old log.new }
{
    claim_conflicts(alloc, problem, lattice.conflicts(), asker, log)?;
    claim_sets(alloc, problem, lattice.consistent(), judge, own, asker, log)
}
