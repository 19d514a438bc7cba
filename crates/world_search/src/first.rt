//! The first node of a walk: along the start as far as its prefixes are nodes, and then the next one.
ghost use Rattle.std.specs.Prelude.{◌≡◌, ◌≢◌, ◌↔◌, ◌+◌, ◌<◌, ◌≤◌, [], length, true, None, IfOk, OnOk, OnErr, IsTrue};
ghost use Rattle.world_model.specs.Problem.{pair_count};
ghost use Rattle.world_model.specs.Alive.{problem_at, IsAlive};
ghost use Rattle.constraint_set.specs.Shape.{shape_of};
ghost use Rattle.cert_rules.specs.Listings.{listing_next};
ghost use Rattle.world_search.specs.Walking.{place, LeadsTo, IsOnWay, IsFrom, Knows, Follows, at_by, expected};
ghost use Rattle.world_search.specs.Searching.{Passes};
ghost use Rattle.world_search.specs.Guiding.{IsGuideOf, IsUnderWay};
ghost use Rattle.world_search.specs.Logging.{KeepsOn};
ghost use Rattle.search_log.specs.Logging.{LogGoes};
ghost use Rattle.world_search.specs.declared.walk.Stage.TheVariants.{Start};

use crate::behind::next_set;
use crate::guide::Guide;
use crate::tell::tell;
use crate::walk::{Span, Stage, Walk, pass};
use cert_text::TreeLog;
use constraint_set::Problem;
use point_query::Asker;
use rcc5_core::Position;
use search_log::{StepFault, tidy_by_turns};
use std::alloc::Global;

// Follows the start by one relation from an alive prefix of it, if the pair allows this relation, and else goes on to the first
// node from the start on. Whether it is still on the way.
fn follow(problem: &Problem, guide: &mut Guide, from: &Position, walk: &mut Walk) -> bool
    requires way { IsOnWay problem.now from.now walk.old }
    requires settled { walk.old.next ≡ None }
    requires alive { IsAlive (problem_at problem.now walk.old.path) }
    requires short { length walk.old.path < length from.now }
    requires within { length from.now ≤ pair_count problem.now }
    requires knows { Knows problem.now walk.old }
    requires guide { IsGuideOf problem.now walk.old.path guide.old }
    ensures ok { Follows problem.now from.now walk.new result }
    ensures longer { result ≡ true → length (place walk.new) ≡ length walk.old.path + 1 }
    ensures knows { Knows problem.now walk.new }
    ensures guide { IsGuideOf problem.now walk.new.path guide.new }
    ensures next { listing_next problem.now from.now true walk.old.path ≡ expected walk.new }
{
    let wanted = from.at(walk.path.len());
    let set = next_set(problem, &walk.path);
    if set.has(wanted) {
        walk.next = Some(wanted);
        return true;
    }
    match set.after(wanted) {
        Some(rel) => {
            walk.stage = Stage::Standing;
            walk.next = Some(rel);
            false
        }
        None => {
            pass(problem, guide, walk);
            false
        }
    }
}

// Goes along the start from any prefix of it that is a node.
fn go_along(
    problem: &Problem,
    guide: &mut Guide,
    from: &Position,
    walk: &mut Walk,
    alive: bool,
) -> bool
    requires way { IsOnWay problem.now from.now walk.old }
    requires settled { walk.old.next ≡ None }
    requires alive { IsTrue alive ↔ IsAlive (problem_at problem.now walk.old.path) }
    requires short { length walk.old.path < length from.now }
    requires within { length from.now ≤ pair_count problem.now }
    requires knows { Knows problem.now walk.old }
    requires guide { IsGuideOf problem.now walk.old.path guide.old }
    ensures ok { Follows problem.now from.now walk.new result }
    ensures longer { result ≡ true → length (place walk.new) ≡ length walk.old.path + 1 }
    ensures knows { Knows problem.now walk.new }
    ensures guide { IsGuideOf problem.now walk.new.path guide.new }
    ensures next { listing_next problem.now from.now alive walk.old.path ≡ expected walk.new }
{
    if alive {
        return follow(problem, guide, from, walk);
    }
    pass(problem, guide, walk);
    false
}

// Tells of a proper prefix of the start that is a node, and goes on from it. Whether it is still on the way.
fn along<L: TreeLog>(
    alloc: Global,
    problem: &Problem,
    asker: &mut Asker,
    log: &mut L,
    guide: &mut Guide,
    from: &Position,
    walk: &mut Walk,
) -> Result<bool, StepFault>
    requires shape { asker.old.shape ≡ shape_of problem.now }
    requires way { IsOnWay problem.now from.now walk.old }
    requires settled { walk.old.next ≡ None }
    requires short { length walk.old.path < length from.now }
    requires within { length from.now ≤ pair_count problem.now }
    requires knows { Knows problem.now walk.old }
    requires guide { IsGuideOf problem.now walk.old.path guide.old }
    ensures ok { IfOk result (Follows problem.now from.now walk.new) }
    ensures longer { IfOk result (λ on. on ≡ true → length (place walk.new) ≡ length walk.old.path + 1) }
    ensures knows { Knows problem.now walk.new }
    ensures err { OnErr result (walk.new ≡ walk.old) }
    ensures guide { IsGuideOf problem.now walk.new.path guide.new }
    ensures shape { asker.new.shape ≡ asker.old.shape }
    ensures keeps { KeepsOn problem.now from.now (L.lines log.old) (L.lines log.new) asker.old asker.new (expected walk.old) (expected walk.new) }
    ensures log { LogGoes L.drops L.lines L.faults L.steady L.quiet result log.old log.new }
{
    let alive = guide.is_alive(problem, asker, &walk.path)?;
    guide.mark(&walk.path, None, log.is_dropping());
    tell(
        alloc,
        problem,
        asker,
        log,
        &mut guide.hints,
        &walk.path,
        alive,
    )?;
    Ok(go_along(problem, guide, from, walk, alive))
}

// Finds the first node from the start on.
fn find<L: TreeLog>(
    alloc: Global,
    problem: &Problem,
    asker: &mut Asker,
    log: &mut L,
    guide: &mut Guide,
    from: &Position,
    walk: &mut Walk,
) -> Result<(), StepFault>
    requires shape { asker.old.shape ≡ shape_of problem.now }
    requires way { IsOnWay problem.now from.now walk.old }
    requires within { length from.now ≤ pair_count problem.now }
    requires knows { Knows problem.now walk.old }
    requires guide { IsGuideOf problem.now walk.old.path guide.old }
    ensures ok { OnOk result (LeadsTo problem.now (IsFrom from.now) walk.new) }
    ensures err { OnErr result (IsOnWay problem.now from.now walk.new) }
    ensures knows { Knows problem.now walk.new }
    ensures guide { IsGuideOf problem.now walk.new.path guide.new }
    ensures shape { asker.new.shape ≡ asker.old.shape }
    ensures keeps { KeepsOn problem.now from.now (L.lines log.old) (L.lines log.new) asker.old asker.new (expected walk.old) (expected walk.new) }
    ensures log { LogGoes L.drops L.lines L.faults L.steady L.quiet result log.old log.new }
{
    let mut turns = 0;
    walk.settle()?;
    while walk.path.len() < from.len() {
        turns = tidy_by_turns(asker, turns)?;
        if !along(alloc, problem, asker, log, guide, from, walk)? {
            return Ok(());
        }
        walk.settle()?;
    }
    walk.stage = Stage::Standing;
    Ok(())
}

/// Finds the first node, if it is yet to be found.
pub(crate) fn begin<L: TreeLog>(
    alloc: Global,
    problem: &Problem,
    asker: &mut Asker,
    log: &mut L,
    guide: &mut Guide,
    span: &Span,
    walk: &mut Walk,
) -> Result<(), StepFault>
    requires shape { asker.old.shape ≡ shape_of problem.now }
    requires within { length span.now.from ≤ pair_count problem.now }
    requires walk { IsUnderWay problem.now span.now.from span.now.to walk.old guide.old }
    ensures walk { IsUnderWay problem.now span.now.from span.now.to walk.new guide.new }
    ensures passed { Passes problem.now (at_by span.now.from span.now.to (place walk.old) walk.old.stage) (at_by span.now.from span.now.to (place walk.new) walk.new.stage) [] [] }
    ensures begun { OnOk result (walk.new.stage ≢ Start) }
    ensures shape { asker.new.shape ≡ asker.old.shape }
    ensures keeps { KeepsOn problem.now span.now.from (L.lines log.old) (L.lines log.new) asker.old asker.new (expected walk.old) (expected walk.new) }
    ensures log { LogGoes L.drops L.lines L.faults L.steady L.quiet result log.old log.new }
{
    if walk.stage == Stage::Start {
        find(alloc, problem, asker, log, guide, &span.from, walk)?;
    }
    Ok(())
}
