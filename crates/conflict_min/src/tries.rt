//! What is tried: the articulations that are kept, without one or several of them.
ghost use Rattle.std.specs.Prelude.{◌≡◌, ◌+◌, ◌<◌, ◌≤◌, false, [], ◌∷◌, ◌++◌, length, IfOk, OnOk};
ghost use Rattle.world_model.specs.Problem.{restricted};
ghost use Rattle.world_model.specs.Questions.{HasFlags, IsConsistent};
ghost use Rattle.constraint_set.specs.Shape.{shape_of};
ghost use Rattle.cert_text.specs.declared.line.Subject.TheVariants.{Kept};
ghost use Rattle.search_log.specs.Leading.{KeepsLeading};
ghost use Rattle.search_log.specs.Logging.{LogGoes};
ghost use Rattle.split_search.specs.Choosing.{IsChoice};
ghost use Rattle.pick_search.specs.Blocks.Blocks.{settled, KeepsClaims};
ghost use Rattle.conflict_min.specs.Conflicts.{all_kept};
ghost use Rattle.conflict_min.specs.Shrinking.{cut, IsCutOut, IsShrunk, IsDropped};

use cert_text::{Flags, Subject, TreeLog};
use constraint_set::Problem;
use pick_search::settle;
use point_query::Asker;
use search_log::StepFault;
use set_family::Family;
use split_search::Choice;
use std::alloc::{AllocError, Global};

/// A flag for each articulation, all true.
pub(crate) fn all_flags(alloc: Global, problem: &Problem) -> Result<Vec<bool>, AllocError>
    ensures { IfOk result (λ flags. flags.items ≡ all_kept problem.now) }
{
    vec![in alloc; true; problem.articulation_count() as usize]
}

/// Whether the articulations with these flags hold together, and the claim that says so.
pub(crate) fn settle_kept<L: TreeLog>(
    alloc: Global,
    problem: &Problem,
    kept: &[bool],
    asker: &mut Asker,
    log: &mut L,
) -> Result<Choice, StepFault>
    requires shape { asker.old.shape ≡ shape_of problem.now }
    requires flags { HasFlags problem.now kept.now }
    ensures shape { asker.new.shape ≡ asker.old.shape }
    ensures answer { IfOk result (IsChoice (restricted problem.now kept.now)) }
    ensures keeps { KeepsClaims problem.now result (λ choice more. more ≡ settled (Kept kept.now) choice) (L.lines log.old) (L.lines log.new) asker.old asker.new }
    ensures leads { KeepsLeading (L.lines log.old) (L.lines log.new) asker.old asker.new }
    ensures log { LogGoes L.drops L.lines L.faults L.steady L.quiet result log.old log.new }
{
    let subject = Subject::Kept(Flags::new(Vec::from_slice(alloc, kept)?));
    let restricted = problem.restricted(alloc, kept)?;
    settle(alloc, &subject, &restricted, asker, log)
}

/// One more family.
pub(crate) fn add_family(families: &mut Vec<Family>, family: Family) -> Result<(), AllocError>
    ensures { OnOk result (families.new.items ≡ families.old.items ++ family ∷ []) }
{
    families.push(family)?;
    Ok(())
}

/// Tries without the articulation at a place: it is dropped where those left are in conflict still, and else kept with a family
/// that shows why.
pub(crate) fn try_without<L: TreeLog>(
    alloc: Global,
    problem: &Problem,
    place: usize,
    kept: &mut Vec<bool>,
    families: &mut Vec<Family>,
    asker: &mut Asker,
    log: &mut L,
) -> Result<(), StepFault>
    requires shape { asker.old.shape ≡ shape_of problem.now }
    requires within { place < length problem.now.articulations }
    requires before { IsShrunk problem.now place kept.old.items families.old.items }
    ensures shape { asker.new.shape ≡ asker.old.shape }
    ensures after { OnOk result (IsShrunk problem.now (place + 1) kept.new.items families.new.items) }
    ensures keeps { KeepsClaims problem.now result (λ _ more. IsDropped kept.old.items kept.new.items more) (L.lines log.old) (L.lines log.new) asker.old asker.new }
    ensures leads { KeepsLeading (L.lines log.old) (L.lines log.new) asker.old asker.new }
    ensures log { LogGoes L.drops L.lines L.faults L.steady L.quiet result log.old log.new }
{
    kept[place] = false;
    match settle_kept(alloc, problem, kept, asker, log)? {
        Choice::Refuted => Ok(()),
        Choice::Met(family) => {
            kept[place] = true;
            add_family(families, family)?;
            Ok(())
        }
    }
}

// The flags with so many of them taken off from a place on.
fn without(
    alloc: Global,
    kept: &[bool],
    place: usize,
    count: usize,
) -> Result<Vec<bool>, AllocError>
    requires within { place + count ≤ length kept.now }
    ensures { IfOk result (λ tried. tried.items ≡ cut kept.now place count) }
{
    let mut tried = Vec::from_slice(alloc, kept)?;
    'flags: for nth in 0..count {
        tried[place + nth] = false;
    }
    Ok(tried)
}

/// Tries without so many articulations from a place on, if these are several: they are dropped together where those left are in
/// conflict still. How many were dropped.
pub(crate) fn drop_some<L: TreeLog>(
    alloc: Global,
    problem: &Problem,
    place: usize,
    count: usize,
    kept: &mut Vec<bool>,
    asker: &mut Asker,
    log: &mut L,
) -> Result<usize, StepFault>
    requires shape { asker.old.shape ≡ shape_of problem.now }
    requires flags { HasFlags problem.now kept.old.items }
    requires within { place + count ≤ length kept.old.items }
    requires conflict { IsConsistent problem.now kept.old.items → ⊥ }
    ensures shape { asker.new.shape ≡ asker.old.shape }
    ensures upto { IfOk result (λ dropped. dropped ≤ count) }
    ensures cut { IfOk result (IsCutOut problem.now place kept.old.items kept.new.items) }
    ensures keeps { KeepsClaims problem.now result (λ _ more. IsDropped kept.old.items kept.new.items more) (L.lines log.old) (L.lines log.new) asker.old asker.new }
    ensures leads { KeepsLeading (L.lines log.old) (L.lines log.new) asker.old asker.new }
    ensures log { LogGoes L.drops L.lines L.faults L.steady L.quiet result log.old log.new }
{
    if count < 2 {
        return Ok(0);
    }
    let tried = without(alloc, kept, place, count)?;
    match settle_kept(alloc, problem, &tried, asker, log)? {
        Choice::Met(_family) => Ok(0),
        Choice::Refuted => {
            *kept = tried;
            Ok(count)
        }
    }
}
