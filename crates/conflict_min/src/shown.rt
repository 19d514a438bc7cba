//! What is claimed of what was found.
ghost use Rattle.std.specs.Prelude.{◌≡◌, ◌<◌, true, false, length, set, IfOk};
ghost use Rattle.world_model.specs.Problem.{restricted};
ghost use Rattle.world_model.specs.Questions.{HasFlags, IsConsistent};
ghost use Rattle.constraint_set.specs.Shape.{shape_of};
ghost use Rattle.cert_text.specs.declared.line.Subject.TheVariants.{Kept};
ghost use Rattle.search_log.specs.Leading.{KeepsLeading};
ghost use Rattle.search_log.specs.Logging.{LogGoes};
ghost use Rattle.set_family.specs.Meeting.{IsMetBy};
ghost use Rattle.pick_search.specs.Blocks.Blocks.{claimed, KeepsClaims};
ghost use Rattle.conflict_min.specs.declared.conflict.Outcome.TheVariants.{Least};
ghost use Rattle.conflict_min.specs.Conflicts.{places_from, loss_claims, IsLeast, IsFound, IsClaimedOf};

use crate::conflict::{Conflict, Outcome};
use crate::tries::{all_flags, settle_kept};
use cert_text::{Flags, Subject, TreeLog};
use constraint_set::Problem;
use pick_search::show;
use point_query::Asker;
use search_log::StepFault;
use set_family::Family;
use split_search::Choice;
use std::alloc::{AllocError, Global};

// The places of the flags that are true.
fn places_of(alloc: Global, kept: &[bool]) -> Result<Vec<usize>, AllocError>
    ensures { IfOk result (λ places. places.items ≡ places_from 0 kept.now) }
{
    let mut places = Vec::new(alloc);
    for (place, is_kept) in kept.iter().enumerate() {
        if *is_kept {
            places.push(place)?;
        }
    }
    Ok(places)
}

/// Claims that the articulations with these flags hold together, by a family that shows it.
pub fn show_kept<L: TreeLog>(
    alloc: Global,
    problem: &Problem,
    kept: Vec<bool>,
    family: &Family,
    asker: &mut Asker,
    log: &mut L,
) -> Result<(), StepFault>
    requires flags { HasFlags problem.now kept.items }
    requires met { IsMetBy (restricted problem.now kept.items) family.now }
    ensures shape { asker.new.shape ≡ asker.old.shape }
    ensures keeps { KeepsClaims problem.now result (λ _ more. more ≡ claimed (Kept kept.items) true) (L.lines log.old) (L.lines log.new) asker.old asker.new }
    ensures leads { KeepsLeading (L.lines log.old) (L.lines log.new) asker.old asker.new }
    ensures log { LogGoes L.drops L.lines L.faults L.steady L.quiet result log.old log.new }
{
    problem.facts();
    let subject = Subject::Kept(Flags::new(kept));
    show(alloc, &subject, family, asker, log)
}

// Claims that the articulations with these flags hold together without the one at a place, by a family that shows it.
fn show_loss<L: TreeLog>(
    alloc: Global,
    problem: &Problem,
    kept: &[bool],
    place: usize,
    family: &Family,
    asker: &mut Asker,
    log: &mut L,
) -> Result<(), StepFault>
    requires flags { HasFlags problem.now kept.now }
    requires within { place < length kept.now }
    requires met { IsMetBy (restricted problem.now (set kept.now place false)) family.now }
    ensures shape { asker.new.shape ≡ asker.old.shape }
    ensures keeps { KeepsClaims problem.now result (λ _ more. more ≡ claimed (Kept (set kept.now place false)) true) (L.lines log.old) (L.lines log.new) asker.old asker.new }
    ensures leads { KeepsLeading (L.lines log.old) (L.lines log.new) asker.old asker.new }
    ensures log { LogGoes L.drops L.lines L.faults L.steady L.quiet result log.old log.new }
{
    let mut others = Vec::from_slice(alloc, kept)?;
    others[place] = false;
    show_kept(alloc, problem, others, family, asker, log)
}

/// Claims of each articulation of a conflict that the others hold together without it. Where nobody will read it, nothing is copied.
pub(crate) fn show_losses<L: TreeLog>(
    alloc: Global,
    problem: &Problem,
    conflict: &Conflict,
    asker: &mut Asker,
    log: &mut L,
) -> Result<(), StepFault>
    requires shape { asker.old.shape ≡ shape_of problem.now }
    requires least { IsLeast problem.now conflict.now }
    ensures shape { asker.new.shape ≡ asker.old.shape }
    ensures keeps { KeepsClaims problem.now result (λ _ more. more ≡ loss_claims conflict.now.kept.items) (L.lines log.old) (L.lines log.new) asker.old asker.new }
    ensures leads { KeepsLeading (L.lines log.old) (L.lines log.new) asker.old asker.new }
    ensures log { LogGoes L.drops L.lines L.faults L.steady L.quiet result log.old log.new }
{
    if log.is_dropping() {
        return Ok(());
    }
    let places = places_of(alloc, &conflict.kept)?;
    'losses: for (nth, family) in conflict.families.iter().enumerate() {
        show_loss(
            alloc,
            problem,
            &conflict.kept,
            places[nth],
            family,
            asker,
            log,
        )?;
    }
    Ok(())
}

/// Claims that articulations don't hold together, which are known to be in conflict.
pub fn refute_kept<L: TreeLog>(
    alloc: Global,
    problem: &Problem,
    kept: &[bool],
    asker: &mut Asker,
    log: &mut L,
) -> Result<(), StepFault>
    requires shape { asker.old.shape ≡ shape_of problem.now }
    requires flags { HasFlags problem.now kept.now }
    requires inconsistent { IsConsistent problem.now kept.now → ⊥ }
    ensures shape { asker.new.shape ≡ asker.old.shape }
    ensures keeps { KeepsClaims problem.now result (λ _ more. more ≡ claimed (Kept kept.now) false) (L.lines log.old) (L.lines log.new) asker.old asker.new }
    ensures leads { KeepsLeading (L.lines log.old) (L.lines log.new) asker.old asker.new }
    ensures log { LogGoes L.drops L.lines L.faults L.steady L.quiet result log.old log.new }
{
    match settle_kept(alloc, problem, kept, asker, log)? {
        Choice::Refuted => Ok(()),
        Choice::Met(_family) => unreachable!(),
    }
}

// Claims that the articulations of a conflict don't hold together, and that they do without any one of them.
fn show_conflict<L: TreeLog>(
    alloc: Global,
    problem: &Problem,
    conflict: &Conflict,
    asker: &mut Asker,
    log: &mut L,
) -> Result<(), StepFault>
    requires shape { asker.old.shape ≡ shape_of problem.now }
    requires least { IsLeast problem.now conflict.now }
    ensures shape { asker.new.shape ≡ asker.old.shape }
    ensures keeps { KeepsClaims problem.now result (λ _. IsClaimedOf problem.now (Least conflict.now)) (L.lines log.old) (L.lines log.new) asker.old asker.new }
    ensures leads { KeepsLeading (L.lines log.old) (L.lines log.new) asker.old asker.new }
    ensures log { LogGoes L.drops L.lines L.faults L.steady L.quiet result log.old log.new }
{
    refute_kept(alloc, problem, &conflict.kept, asker, log)?;
    show_losses(alloc, problem, conflict, asker, log)
}

/// Claims what was found of all articulations. Where nobody will read it, nothing is searched or copied.
pub(crate) fn show_found<L: TreeLog>(
    alloc: Global,
    problem: &Problem,
    outcome: &Outcome,
    asker: &mut Asker,
    log: &mut L,
) -> Result<(), StepFault>
    requires shape { asker.old.shape ≡ shape_of problem.now }
    requires found { IsFound problem.now outcome.now }
    ensures shape { asker.new.shape ≡ asker.old.shape }
    ensures keeps { KeepsClaims problem.now result (λ _. IsClaimedOf problem.now outcome.now) (L.lines log.old) (L.lines log.new) asker.old asker.new }
    ensures leads { KeepsLeading (L.lines log.old) (L.lines log.new) asker.old asker.new }
    ensures log { LogGoes L.drops L.lines L.faults L.steady L.quiet result log.old log.new }
{
    if log.is_dropping() {
        return Ok(());
    }
    match outcome {
        Outcome::Consistent(family) => {
            let all = all_flags(alloc, problem)?;
            show_kept(alloc, problem, all, family, asker, log)
        }
        Outcome::Least(conflict) => show_conflict(alloc, problem, conflict, asker, log),
    }
}
