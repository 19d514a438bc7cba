//! A pass over the articulations, by which those are dropped that are not needed.
ghost use Rattle.std.specs.Prelude.{◌≡◌, ◌+◌, ◌<◌, ◌≤◌, length, IfOk, OnOk};
ghost use Rattle.world_model.specs.Questions.{IsConsistent};
ghost use Rattle.constraint_set.specs.Shape.{shape_of};
ghost use Rattle.search_log.specs.Leading.{KeepsLeading};
ghost use Rattle.search_log.specs.Logging.{LogGoes};
ghost use Rattle.pick_search.specs.Blocks.Blocks.{KeepsClaims};
ghost use Rattle.conflict_min.specs.Conflicts.{all_kept, IsLeast, IsFound, IsClaimedOf};
ghost use Rattle.conflict_min.specs.Shrinking.{IsShrunk, IsDropped};

use crate::conflict::{Conflict, Outcome};
use crate::points::find_by_points;
use crate::shown::{show_found, show_losses};
use crate::tries::{all_flags, drop_some, settle_kept, try_without};
use cert_text::TreeLog;
use constraint_set::Problem;
use point_query::Asker;
use search_log::StepFault;
use set_family::Family;
use split_search::Choice;
use std::alloc::Global;

/// How far a pass over the articulations is.
#[derive(Drop)]
pub(crate) struct Pass {
    /// The place of the articulation that is tried next.
    pub(crate) next: usize,
    /// At most so many are tried together then.
    pub(crate) most: usize,
}

// How many articulations are tried together next: after one that is kept a single one; else twice as many where all were dropped
// together, and half as many where they were not.
fn most_after(most: usize, passed: usize, is_kept: bool) -> usize {
    if is_kept {
        return 1;
    }
    if passed == most {
        most.saturating_mul(2)
    } else {
        most / 2
    }
}

// Goes on from a place: drops at most so many articulations together, and where not all of these can be dropped, tries without the
// first of them alone. How many were gone through.
fn pass_some<L: TreeLog>(
    alloc: Global,
    problem: &Problem,
    place: usize,
    most: usize,
    kept: &mut Vec<bool>,
    families: &mut Vec<Family>,
    asker: &mut Asker,
    log: &mut L,
) -> Result<usize, StepFault>
    requires shape { asker.old.shape ≡ shape_of problem.now }
    requires within { place < length problem.now.articulations }
    requires upto { place + most ≤ length problem.now.articulations }
    requires before { IsShrunk problem.now place kept.old.items families.old.items }
    ensures shape { asker.new.shape ≡ asker.old.shape }
    ensures some { IfOk result (λ passed. 0 < passed) }
    ensures after { IfOk result (λ passed. IsShrunk problem.now (place + passed) kept.new.items families.new.items) }
    ensures keeps { KeepsClaims problem.now result (λ _ more. IsDropped kept.old.items kept.new.items more) (L.lines log.old) (L.lines log.new) asker.old asker.new }
    ensures leads { KeepsLeading (L.lines log.old) (L.lines log.new) asker.old asker.new }
    ensures log { LogGoes L.drops L.lines L.faults L.steady L.quiet result log.old log.new }
{
    let dropped = drop_some(alloc, problem, place, most, kept, asker, log)?;
    if dropped > 0 {
        return Ok(dropped);
    }
    try_without(alloc, problem, place, kept, families, asker, log)?;
    Ok(1)
}

// Goes on from a place that is not gone through yet.
fn go_on<L: TreeLog>(
    alloc: Global,
    problem: &Problem,
    place: usize,
    pass: &mut Pass,
    kept: &mut Vec<bool>,
    families: &mut Vec<Family>,
    asker: &mut Asker,
    log: &mut L,
) -> Result<(), StepFault>
    requires shape { asker.old.shape ≡ shape_of problem.now }
    requires within { place < length problem.now.articulations }
    requires upto { place ≤ pass.old.next }
    requires before { IsShrunk problem.now pass.old.next kept.old.items families.old.items }
    ensures shape { asker.new.shape ≡ asker.old.shape }
    ensures further { OnOk result (place < pass.new.next) }
    ensures after { OnOk result (IsShrunk problem.now pass.new.next kept.new.items families.new.items) }
    ensures keeps { KeepsClaims problem.now result (λ _ more. IsDropped kept.old.items kept.new.items more) (L.lines log.old) (L.lines log.new) asker.old asker.new }
    ensures leads { KeepsLeading (L.lines log.old) (L.lines log.new) asker.old asker.new }
    ensures log { LogGoes L.drops L.lines L.faults L.steady L.quiet result log.old log.new }
{
    if place < pass.next {
        return Ok(());
    }
    let most = pass.most.min(kept.len() - place);
    let passed = pass_some(alloc, problem, place, most, kept, families, asker, log)?;
    pass.most = most_after(pass.most, passed, kept[place]);
    pass.next = place + passed;
    Ok(())
}

// Goes through all articulations, which are in conflict.
fn shrink<L: TreeLog>(
    alloc: Global,
    problem: &Problem,
    all: Vec<bool>,
    asker: &mut Asker,
    log: &mut L,
) -> Result<Conflict, StepFault>
    requires shape { asker.old.shape ≡ shape_of problem.now }
    requires all { all.items ≡ all_kept problem.now }
    requires inconsistent { IsConsistent problem.now all.items → ⊥ }
    ensures shape { asker.new.shape ≡ asker.old.shape }
    ensures least { IfOk result (IsLeast problem.now) }
    ensures keeps { KeepsClaims problem.now result (λ conflict more. IsDropped all.items conflict.kept.items more) (L.lines log.old) (L.lines log.new) asker.old asker.new }
    ensures leads { KeepsLeading (L.lines log.old) (L.lines log.new) asker.old asker.new }
    ensures log { LogGoes L.drops L.lines L.faults L.steady L.quiet result log.old log.new }
{
    let mut kept = all;
    let mut families = Vec::new(alloc);
    let mut pass = Pass { next: 0, most: 1 };
    'places: for place in 0..kept.len() {
        go_on(
            alloc,
            problem,
            place,
            &mut pass,
            &mut kept,
            &mut families,
            asker,
            log,
        )?;
    }
    Ok(Conflict { kept, families })
}

// What is found of all articulations by a search, which claims each set of them that it tries.
fn find_by_picks<L: TreeLog>(
    alloc: Global,
    problem: &Problem,
    asker: &mut Asker,
    log: &mut L,
) -> Result<Outcome, StepFault>
    requires shape { asker.old.shape ≡ shape_of problem.now }
    ensures shape { asker.new.shape ≡ asker.old.shape }
    ensures answer { IfOk result (IsFound problem.now) }
    ensures keeps { KeepsClaims problem.now result (IsClaimedOf problem.now) (L.lines log.old) (L.lines log.new) asker.old asker.new }
    ensures leads { KeepsLeading (L.lines log.old) (L.lines log.new) asker.old asker.new }
    ensures log { LogGoes L.drops L.lines L.faults L.steady L.quiet result log.old log.new }
{
    let all = all_flags(alloc, problem)?;
    match settle_kept(alloc, problem, &all, asker, log)? {
        Choice::Met(family) => Ok(Outcome::Consistent(family)),
        Choice::Refuted => {
            let conflict = shrink(alloc, problem, all, asker, log)?;
            show_losses(alloc, problem, &conflict, asker, log)?;
            Ok(Outcome::Least(conflict))
        }
    }
}

/// What is found of all articulations: a family that meets them, or their least conflict.
pub(crate) fn find<L: TreeLog>(
    alloc: Global,
    problem: &Problem,
    asker: &mut Asker,
    log: &mut L,
) -> Result<Outcome, StepFault>
    requires shape { asker.old.shape ≡ shape_of problem.now }
    ensures shape { asker.new.shape ≡ asker.old.shape }
    ensures answer { IfOk result (IsFound problem.now) }
    ensures keeps { KeepsClaims problem.now result (IsClaimedOf problem.now) (L.lines log.old) (L.lines log.new) asker.old asker.new }
    ensures leads { KeepsLeading (L.lines log.old) (L.lines log.new) asker.old asker.new }
    ensures log { LogGoes L.drops L.lines L.faults L.steady L.quiet result log.old log.new }
{
    match find_by_points(alloc, problem)? {
        Some(outcome) => {
            show_found(alloc, problem, &outcome, asker, log)?;
            Ok(outcome)
        }
        None => find_by_picks(alloc, problem, asker, log),
    }
}
