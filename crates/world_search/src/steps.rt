//! The steps of a search.
ghost use Rattle.std.specs.Prelude.{◌≡◌, ◌≢◌, ◌↔◌, ◌<◌, ◌≤◌, Some, None, length, [], IfOk, OnOk, OnErr, IfSome, IfNone, IsTrue};
ghost use Rattle.world_model.specs.Problem.{pair_count};
ghost use Rattle.world_model.specs.Family.{meets, table_of, IsPossibleWorld};
ghost use Rattle.world_model.specs.Listing.{is_before_end};
ghost use Rattle.world_model.specs.Node.{IsNode};
ghost use Rattle.constraint_set.specs.Shape.{shape_of};
ghost use Rattle.point_query.specs.Asking.{AskerGoes};
ghost use Rattle.world_search.specs.Walking.{LeadsTo, IsAfter, Knows, state_of, nodes_left, expected};
ghost use Rattle.world_search.specs.Logging.{KeepsOn, KeepsFrom};
ghost use Rattle.search_log.specs.Logging.{LogGoes};
ghost use Rattle.world_search.specs.Guiding.{IsGuideOf, IsUnderWay};
ghost use Rattle.world_search.specs.Searching.{FellBy, Came};
ghost use Rattle.world_search.specs.Steps.{IsTableStep, IsStepped};
ghost use Rattle.world_search.specs.Stopping.{IsStop};
ghost use Rattle.world_search.specs.declared.walk.Stage.TheVariants.{Start, Standing};

use crate::budget::{is_spent, one_less};
use crate::first::begin;
use crate::guide::Guide;
use crate::step::{Nodes, Step, TableStep};
use crate::tell::tell_world;
use crate::walk::{Span, Stage, Walk, pass, visit};
use cert_text::{NoLog, TreeLog};
use constraint_set::Problem;
use point_query::Asker;
use rcc5_core::Position;
use search_log::{StepFault, put_waiting, tidy, tidy_by_turns};
use set_family::Family;
use std::alloc::{AllocError, Global};
use std::cmp::Ordering;
use world_model::alive_tables_are_worlds;

// Whether a position comes before the end, which may be none.
fn is_before_end(node: &Position, to: &Option<Position>) -> bool
    ensures { result ≡ is_before_end node.now to.now }
{
    match to {
        None => true,
        Some(end) => node.compare(end) == Ordering::Less,
    }
}

// Visits the node at which a walk stands, if it is below the end and may be visited, and goes on unless it is a world.
fn turn<L: TreeLog>(
    alloc: Global,
    problem: &Problem,
    asker: &mut Asker,
    log: &mut L,
    guide: &mut Guide,
    span: &Span,
    walk: &mut Walk,
    nodes: &mut Nodes,
) -> Result<Option<TableStep>, StepFault>
    requires shape { asker.old.shape ≡ shape_of problem.now }
    requires walk { IsUnderWay problem.now span.now.from span.now.to walk.old guide.old }
    requires standing { walk.old.stage ≡ Standing }
    ensures stop { IfOk result (λ stop. IfSome stop (IsStop problem.now span.now.from span.now.to walk.new nodes.new.left)) }
    ensures came { Came (state_of problem.now span.now.from span.now.to walk.old) (state_of problem.now span.now.from span.now.to walk.new) nodes.old.left nodes.new.left [] }
    ensures walk { IsUnderWay problem.now span.now.from span.now.to walk.new guide.new }
    ensures fewer { IfOk result (λ stop. IfNone stop (nodes_left problem.now walk.new < nodes_left problem.now walk.old)) }
    ensures begun { walk.new.stage ≢ Start }
    ensures shape { asker.new.shape ≡ asker.old.shape }
    ensures keeps { KeepsOn problem.now span.now.from (L.lines log.old) (L.lines log.new) asker.old asker.new (expected walk.old) (expected walk.new) }
    ensures log { LogGoes L.drops L.lines L.faults L.steady L.quiet result log.old log.new }
{
    walk.settle()?;
    if !is_before_end(&walk.path, &span.to) {
        let node = walk.path.copy(alloc)?;
        return Ok(Some(TableStep::End(Some(node))));
    }
    if is_spent(nodes.left) {
        let node = walk.path.copy(alloc)?;
        return Ok(Some(TableStep::Spent(node)));
    }
    if visit(alloc, problem, asker, log, guide, walk)? {
        let table = walk.path.copy(alloc)?;
        return Ok(Some(TableStep::World(table)));
    }
    nodes.left = one_less(nodes.left);
    Ok(None)
}

// Visits the next nodes, up to the next world, or until none may be visited or none is left. The world is not passed yet.
fn walk_on<L: TreeLog>(
    alloc: Global,
    problem: &Problem,
    asker: &mut Asker,
    log: &mut L,
    guide: &mut Guide,
    span: &Span,
    walk: &mut Walk,
    nodes: &mut Nodes,
) -> Result<TableStep, StepFault>
    requires shape { asker.old.shape ≡ shape_of problem.now }
    requires within { length span.now.from ≤ pair_count problem.now }
    requires walk { IsUnderWay problem.now span.now.from span.now.to walk.old guide.old }
    ensures stop { IfOk result (IsStop problem.now span.now.from span.now.to walk.new nodes.new.left) }
    ensures came { Came (state_of problem.now span.now.from span.now.to walk.old) (state_of problem.now span.now.from span.now.to walk.new) nodes.old.left nodes.new.left [] }
    ensures walk { IsUnderWay problem.now span.now.from span.now.to walk.new guide.new }
    ensures few { OnOk result (length asker.new.solver.idle ≤ 1024) }
    ensures shape { asker.new.shape ≡ asker.old.shape }
    ensures keeps { KeepsOn problem.now span.now.from (L.lines log.old) (L.lines log.new) asker.old asker.new (expected walk.old) (expected walk.new) }
    ensures log { LogGoes L.drops L.lines L.faults L.steady L.quiet result log.old log.new }
{
    begin(alloc, problem, asker, log, guide, span, walk)?;
    let mut turns = 0;
    while walk.stage == Stage::Standing {
        if let Some(step) = turn(alloc, problem, asker, log, guide, span, walk, nodes)? {
            tidy(asker)?;
            return Ok(step);
        }
        turns = tidy_by_turns(asker, turns)?;
    }
    tidy(asker)?;
    Ok(TableStep::End(None))
}

// Walks on with no log.
fn walk_untold(
    alloc: Global,
    problem: &Problem,
    asker: &mut Asker,
    guide: &mut Guide,
    span: &Span,
    walk: &mut Walk,
    nodes: &mut Nodes,
) -> Result<TableStep, AllocError>
    requires shape { asker.old.shape ≡ shape_of problem.now }
    requires within { length span.now.from ≤ pair_count problem.now }
    requires walk { IsUnderWay problem.now span.now.from span.now.to walk.old guide.old }
    ensures stop { IfOk result (IsStop problem.now span.now.from span.now.to walk.new nodes.new.left) }
    ensures came { Came (state_of problem.now span.now.from span.now.to walk.old) (state_of problem.now span.now.from span.now.to walk.new) nodes.old.left nodes.new.left [] }
    ensures walk { IsUnderWay problem.now span.now.from span.now.to walk.new guide.new }
    ensures few { OnOk result (length asker.new.solver.idle ≤ 1024) }
    ensures shape { asker.new.shape ≡ asker.old.shape }
{
    let mut log = NoLog::new();
    match walk_on(alloc, problem, asker, &mut log, guide, span, walk, nodes) {
        Ok(stop) => Ok(stop),
        Err(_) => Err(AllocError),
    }
}

// Passes the full node at which a walk stands.
fn leave(problem: &Problem, guide: &mut Guide, walk: &mut Walk, nodes: &mut Nodes)
    requires node { IsNode problem.now walk.old.path }
    requires full { pair_count problem.now ≤ length walk.old.path }
    requires some_left { nodes.old.left ≢ Some 0 }
    requires knows { Knows problem.now walk.old }
    requires guide { IsGuideOf problem.now walk.old.path guide.old }
    ensures on { LeadsTo problem.now (IsAfter walk.old.path) walk.new }
    ensures knows { Knows problem.now walk.new }
    ensures counted { FellBy nodes.old.left nodes.new.left 1 }
    ensures guide { IsGuideOf problem.now walk.new.path guide.new }
{
    pass(problem, guide, walk);
    nodes.left = one_less(nodes.left);
}

/// Visits the next nodes, up to the next world, or until none may be visited or none is left.
pub(crate) fn table_step(
    alloc: Global,
    problem: &Problem,
    asker: &mut Asker,
    guide: &mut Guide,
    span: &Span,
    walk: &mut Walk,
    nodes: &mut Nodes,
) -> Result<TableStep, AllocError>
    requires shape { asker.old.shape ≡ shape_of problem.now }
    requires within { length span.now.from ≤ pair_count problem.now }
    requires walk { IsUnderWay problem.now span.now.from span.now.to walk.old guide.old }
    ensures step { IfOk result (IsTableStep (state_of problem.now span.now.from span.now.to walk.old) (state_of problem.now span.now.from span.now.to walk.new) nodes.old.left nodes.new.left) }
    ensures err { OnErr result (Came (state_of problem.now span.now.from span.now.to walk.old) (state_of problem.now span.now.from span.now.to walk.new) nodes.old.left nodes.new.left []) }
    ensures walk { IsUnderWay problem.now span.now.from span.now.to walk.new guide.new }
    ensures few { OnOk result (length asker.new.solver.idle ≤ 1024) }
    ensures shape { asker.new.shape ≡ asker.old.shape }
{
    match walk_untold(alloc, problem, asker, guide, span, walk, nodes)? {
        TableStep::World(table) => {
            leave(problem, guide, walk, nodes);
            Ok(TableStep::World(table))
        }
        other => Ok(other),
    }
}

// A family that shows a possible world.
#[tactic(auto, using(search_log::proofs::Logs::asker_joins))]
fn family_of(
    alloc: Global,
    problem: &Problem,
    asker: &mut Asker,
    table: &Position,
) -> Result<Family, AllocError>
    requires shape { asker.old.shape ≡ shape_of problem.now }
    requires world { IsPossibleWorld problem.now table.now }
    ensures met { IfOk result (λ family. IsTrue (meets problem.now family)) }
    ensures shown { IfOk result (λ family. table_of problem.now family ≡ table.now) }
    ensures few { OnOk result (length asker.new.solver.idle ≤ 1024) }
    ensures kept { AskerGoes asker.old asker.new }
{
    alive_tables_are_worlds();
    problem.facts();
    let serving = asker.serving(problem, table)?;
    tidy(asker)?;
    match serving {
        Some(points) => Family::from_points(alloc, problem.concept_count(), points.list()),
        None => unreachable!(),
    }
}

// Tells of the world at which a walk stands, and passes it. A refusal leaves the walk there.
fn world_step<L: TreeLog>(
    alloc: Global,
    problem: &Problem,
    asker: &mut Asker,
    log: &mut L,
    guide: &mut Guide,
    walk: &mut Walk,
    nodes: &mut Nodes,
    table: &Position,
) -> Result<Family, StepFault>
    requires shape { asker.old.shape ≡ shape_of problem.now }
    requires world { IsPossibleWorld problem.now table.now }
    requires is { walk.old.path ≡ table.now }
    requires at { expected walk.old ≡ Some walk.old.path }
    requires node { IsNode problem.now walk.old.path }
    requires full { pair_count problem.now ≤ length walk.old.path }
    requires some_left { nodes.old.left ≢ Some 0 }
    requires knows { Knows problem.now walk.old }
    requires guide { IsGuideOf problem.now walk.old.path guide.old }
    ensures met { IfOk result (λ family. IsTrue (meets problem.now family)) }
    ensures shown { IfOk result (λ family. table_of problem.now family ≡ table.now) }
    ensures on { OnOk result (LeadsTo problem.now (IsAfter walk.old.path) walk.new) }
    ensures knows { OnOk result (Knows problem.now walk.new) }
    ensures counted { OnOk result (FellBy nodes.old.left nodes.new.left 1) }
    ensures err { OnErr result (walk.new ≡ walk.old) }
    ensures uncounted { OnErr result (nodes.new.left ≡ nodes.old.left) }
    ensures guide { IsGuideOf problem.now walk.new.path guide.new }
    ensures none_waits { OnOk result (asker.new.solver.waiting ≡ []) }
    ensures few { OnOk result (length asker.new.solver.idle ≤ 1024) }
    ensures shape { asker.new.shape ≡ asker.old.shape }
    ensures keeps { KeepsFrom problem.now (L.lines log.old) (L.lines log.new) asker.old asker.new walk.old walk.new }
    ensures log { LogGoes L.drops L.lines L.faults L.steady L.quiet result log.old log.new }
{
    let family = family_of(alloc, problem, asker, table)?;
    tell_world(alloc, problem, asker, log, table, &family)?;
    leave(problem, guide, walk, nodes);
    Ok(family)
}

/// The next world with a family that shows it, as `table_step` has its table. The log is told of each node that is passed.
pub(crate) fn family_step<L: TreeLog>(
    alloc: Global,
    problem: &Problem,
    asker: &mut Asker,
    log: &mut L,
    guide: &mut Guide,
    span: &Span,
    walk: &mut Walk,
    nodes: &mut Nodes,
) -> Result<Step, StepFault>
    requires shape { asker.old.shape ≡ shape_of problem.now }
    requires within { length span.now.from ≤ pair_count problem.now }
    requires walk { IsUnderWay problem.now span.now.from span.now.to walk.old guide.old }
    ensures step { IsStepped (state_of problem.now span.now.from span.now.to walk.old) (state_of problem.now span.now.from span.now.to walk.new) nodes.old.left nodes.new.left result }
    ensures walk { IsUnderWay problem.now span.now.from span.now.to walk.new guide.new }
    ensures none_waits { OnOk result (asker.new.solver.waiting ≡ []) }
    ensures few { OnOk result (length asker.new.solver.idle ≤ 1024) }
    ensures shape { asker.new.shape ≡ asker.old.shape }
    ensures keeps { KeepsOn problem.now span.now.from (L.lines log.old) (L.lines log.new) asker.old asker.new (expected walk.old) (expected walk.new) }
    ensures log { LogGoes L.drops L.lines L.faults L.steady L.quiet result log.old log.new }
{
    match walk_on(alloc, problem, asker, log, guide, span, walk, nodes)? {
        TableStep::World(table) => {
            let family = world_step(alloc, problem, asker, log, guide, walk, nodes, &table)?;
            Ok(Step::World(table, family))
        }
        TableStep::Spent(node) => {
            put_waiting(alloc, asker, log)?;
            Ok(Step::Spent(node))
        }
        TableStep::End(node) => {
            put_waiting(alloc, asker, log)?;
            Ok(Step::End(node))
        }
    }
}
