//! Where a walk stands among the nodes, and how it goes on from there.
ghost use Rattle.std.specs.Prelude.{List, Some, None, ◌≡◌, ◌↔◌, true, false, ◌<◌, ◌++◌, length, IfOk, OnOk, OnErr, IfSome, IsTrue};
ghost use Rattle.world_model.specs.Problem.{Problem, pair_count};
ghost use Rattle.world_model.specs.Family.{IsPossibleWorld};
ghost use Rattle.world_model.specs.Alive.{problem_at, IsAlive};
ghost use Rattle.world_model.specs.Node.{IsNode};
ghost use Rattle.constraint_set.specs.Shape.{shape_of};
ghost use Rattle.point_query.specs.Asking.{AskerGoes};
ghost use Rattle.world_search.specs.Walking.{IsBehind, place, LeadsTo, IsAfter, AreOpenAfter, Knows, expected, IsOpenOrDead, IsFoundAt};
ghost use Rattle.world_search.specs.Guiding.{IsGuideOf};
ghost use Rattle.world_search.specs.Logging.{KeepsFrom};
ghost use Rattle.search_log.specs.Logging.{LogGoes};

use crate::behind::{climb, next_set};
use crate::guide::Guide;
use crate::opens::Opens;
use crate::tell::tell;
use cert_text::TreeLog;
use constraint_set::Problem;
use point_query::Asker;
use rcc5_core::{Position, Rel, RelSet};
use search_log::StepFault;
use std::alloc::{AllocError, Global};
use world_model::alive_tables_are_worlds;

/// How far a walk is.
#[derive(Clone, Copy, PartialEq, Eq)]
pub enum Stage {
    /// The first node is yet to be found.
    Start,
    /// It stands at a node, which is to be visited next.
    Standing,
    /// All nodes are passed.
    Past,
}

/// Where a walk begins, and before which position it ends, if before one.
#[derive(Drop)]
pub struct Span {
    pub from: Position,
    pub to: Option<Position>,
}

/// A place among the nodes: a path, and the relation that is to be added to it next.
#[derive(Drop)]
pub struct Walk {
    pub stage: Stage,
    pub path: Position,
    pub next: Option<Rel>,
    /// By which relations alive nodes follow prefixes of the path, as far as that is known.
    pub opens: Opens,
}

impl Walk {
    // Adds the relation that waits to the path.
    pub(crate) fn settle(&mut self) -> Result<(), AllocError>
        ensures stage { self.new.stage ≡ self.old.stage }
        ensures place { place self.new ≡ place self.old }
        ensures known { self.new.opens ≡ self.old.opens }
        ensures settled { OnOk result (self.new.path ≡ place self.old) }
        ensures none_waits { OnOk result (self.new.next ≡ None) }
        ensures longer { (rest : List Rel) × (self.new.path ≡ self.old.path ++ rest) }
    {
        if let Some(rel) = self.next {
            self.path.push(rel)?;
            self.next = None;
        }
        Ok(())
    }
}

// Goes on from a node to the least node behind all that begin with it.
pub(crate) fn pass(problem: &Problem, guide: &mut Guide, walk: &mut Walk)
    requires node { IsNode problem.now walk.old.path }
    requires knows { Knows problem.now walk.old }
    requires guide { IsGuideOf problem.now walk.old.path guide.old }
    ensures on { LeadsTo problem.now (IsBehind walk.old.path) walk.new }
    ensures knows { Knows problem.now walk.new }
    ensures guide { IsGuideOf problem.now walk.new.path guide.new }
{
    let next = climb(problem, &mut walk.path);
    walk.opens.back_to(walk.path.len());
    guide.back_to(&walk.path);
    match next {
        Some(rel) => {
            walk.stage = Stage::Standing;
            walk.next = Some(rel);
        }
        None => {
            walk.stage = Stage::Past;
            walk.next = None;
        }
    }
}

// Goes on from an alive node that has room to its first child. These relations lead on to an alive one.
fn enter(problem: &Problem, walk: &mut Walk, set: RelSet)
    requires alive { IsAlive (problem_at problem.now walk.old.path) }
    requires short { length walk.old.path < pair_count problem.now }
    requires open { AreOpenAfter problem.now walk.old.path set }
    requires knows { Knows problem.now walk.old }
    ensures on { LeadsTo problem.now (IsAfter walk.old.path) walk.new }
    ensures knows { Knows problem.now walk.new }
    ensures path { walk.new.path ≡ walk.old.path }
{
    walk.next = next_set(problem, &walk.path).first();
    walk.stage = Stage::Standing;
    walk.opens.keep(walk.path.len(), set);
}

// Whether the node at which a walk stands is alive, where the walk keeps the set of the node without its last relation.
fn known_here(walk: &Walk) -> Option<bool>
    ensures { (p : Problem) → Knows p walk.now → IfSome result (λ alive. IsTrue alive ↔ IsAlive (problem_at p walk.now.path)) }
{
    let above = walk.path.len().checked_sub(1)?;
    let set = walk.opens.at(above)?;
    Some(set.has(walk.path.at(above)))
}

// Whether the node at which a walk stands is alive. The guide is asked only where the walk doesn't know.
#[tactic(auto, using(search_log::proofs::Logs::asker_stays))]
fn is_here_alive(
    problem: &Problem,
    asker: &mut Asker,
    guide: &mut Guide,
    walk: &Walk,
) -> Result<bool, AllocError>
    requires shape { asker.old.shape ≡ shape_of problem.now }
    requires node { IsNode problem.now walk.now.path }
    requires knows { Knows problem.now walk.now }
    requires guide { IsGuideOf problem.now walk.now.path guide.old }
    ensures alive { IfOk result (λ alive. IsTrue alive ↔ IsAlive (problem_at problem.now walk.now.path)) }
    ensures guide { IsGuideOf problem.now walk.now.path guide.new }
    ensures kept { AskerGoes asker.old asker.new }
{
    match known_here(walk) {
        Some(alive) => Ok(alive),
        None => guide.is_alive(problem, asker, &walk.path),
    }
}

/// What a visit finds at a node: it is a world; or it is none, and these relations lead on from it to an alive one, or it is
/// dead.
#[derive(Clone, Copy, PartialEq, Eq)]
pub(crate) enum NodeSight {
    World,
    NoWorld(Option<RelSet>),
}

// Looks at the node at which a walk stands.
#[tactic(auto, using(search_log::proofs::Logs::asker_joins))]
fn look(
    problem: &Problem,
    asker: &mut Asker,
    guide: &mut Guide,
    walk: &Walk,
) -> Result<NodeSight, AllocError>
    requires shape { asker.old.shape ≡ shape_of problem.now }
    requires node { IsNode problem.now walk.now.path }
    requires knows { Knows problem.now walk.now }
    requires guide { IsGuideOf problem.now walk.now.path guide.old }
    ensures found { IfOk result (IsFoundAt problem.now walk.now.path) }
    ensures guide { IsGuideOf problem.now walk.now.path guide.new }
    ensures kept { AskerGoes asker.old asker.new }
{
    alive_tables_are_worlds();
    problem.facts();
    if !is_here_alive(problem, asker, guide, walk)? {
        return Ok(NodeSight::NoWorld(None));
    }
    if walk.path.len() < problem.pair_count() as usize {
        let set = guide.alive_after(problem, asker, &walk.path)?;
        return Ok(NodeSight::NoWorld(Some(set)));
    }
    Ok(NodeSight::World)
}

// Goes on from a node that is no world.
fn go_on(problem: &Problem, guide: &mut Guide, walk: &mut Walk, set: Option<RelSet>)
    requires node { IsNode problem.now walk.old.path }
    requires found { IsOpenOrDead problem.now walk.old.path set }
    requires knows { Knows problem.now walk.old }
    requires guide { IsGuideOf problem.now walk.old.path guide.old }
    ensures on { LeadsTo problem.now (IsAfter walk.old.path) walk.new }
    ensures knows { Knows problem.now walk.new }
    ensures guide { IsGuideOf problem.now walk.new.path guide.new }
{
    match set {
        Some(set) => enter(problem, walk, set),
        None => pass(problem, guide, walk),
    }
}

// Tells of a node that is no world, and goes on from it.
fn move_on<L: TreeLog>(
    alloc: Global,
    problem: &Problem,
    asker: &mut Asker,
    log: &mut L,
    guide: &mut Guide,
    walk: &mut Walk,
    set: Option<RelSet>,
) -> Result<(), StepFault>
    requires shape { asker.old.shape ≡ shape_of problem.now }
    requires node { IsNode problem.now walk.old.path }
    requires at { expected walk.old ≡ Some walk.old.path }
    requires found { IsOpenOrDead problem.now walk.old.path set }
    requires knows { Knows problem.now walk.old }
    requires guide { IsGuideOf problem.now walk.old.path guide.old }
    ensures on { OnOk result (LeadsTo problem.now (IsAfter walk.old.path) walk.new) }
    ensures knows { Knows problem.now walk.new }
    ensures err { OnErr result (walk.new ≡ walk.old) }
    ensures guide { IsGuideOf problem.now walk.new.path guide.new }
    ensures shape { asker.new.shape ≡ asker.old.shape }
    ensures keeps { KeepsFrom problem.now (L.lines log.old) (L.lines log.new) asker.old asker.new walk.old walk.new }
    ensures log { LogGoes L.drops L.lines L.faults L.steady L.quiet result log.old log.new }
{
    guide.mark(&walk.path, set, log.is_dropping());
    tell(
        alloc,
        problem,
        asker,
        log,
        &mut guide.hints,
        &walk.path,
        set.is_some(),
    )?;
    go_on(problem, guide, walk, set);
    Ok(())
}

/// Visits the node at which a walk stands, and goes on to the next one unless it is a world. Whether it is one.
pub(crate) fn visit<L: TreeLog>(
    alloc: Global,
    problem: &Problem,
    asker: &mut Asker,
    log: &mut L,
    guide: &mut Guide,
    walk: &mut Walk,
) -> Result<bool, StepFault>
    requires shape { asker.old.shape ≡ shape_of problem.now }
    requires node { IsNode problem.now walk.old.path }
    requires at { expected walk.old ≡ Some walk.old.path }
    requires knows { Knows problem.now walk.old }
    requires guide { IsGuideOf problem.now walk.old.path guide.old }
    ensures found { IfOk result (λ world. IsTrue world ↔ IsPossibleWorld problem.now walk.old.path) }
    ensures stays { IfOk result (λ world. world ≡ true → walk.new ≡ walk.old) }
    ensures on { IfOk result (λ world. world ≡ false → LeadsTo problem.now (IsAfter walk.old.path) walk.new) }
    ensures knows { Knows problem.now walk.new }
    ensures err { OnErr result (walk.new ≡ walk.old) }
    ensures guide { IsGuideOf problem.now walk.new.path guide.new }
    ensures shape { asker.new.shape ≡ asker.old.shape }
    ensures keeps { KeepsFrom problem.now (L.lines log.old) (L.lines log.new) asker.old asker.new walk.old walk.new }
    ensures log { LogGoes L.drops L.lines L.faults L.steady L.quiet result log.old log.new }
{
    match look(problem, asker, guide, walk)? {
        NodeSight::World => Ok(true),
        NodeSight::NoWorld(set) => {
            move_on(alloc, problem, asker, log, guide, walk, set)?;
            Ok(false)
        }
    }
}
