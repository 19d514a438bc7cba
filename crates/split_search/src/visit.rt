//! A visit of a node, and the turn from it to the next one.
ghost use Rattle.std.specs.Prelude.{◌≡◌, ◌<◌, Some, length, IfOk, OnOk, OnErr};
ghost use Rattle.constraint_set.specs.Shape.{shape_of};
ghost use Rattle.cert_rules.specs.ClaimLists.{split_pairs};
ghost use Rattle.search_log.specs.Leading.{KeepsLeading};
ghost use Rattle.search_log.specs.Logging.{LogGoes};
ghost use Rattle.split_search.specs.Walking.{IsWalk, IsVisit, IsTurn, next_node, visit_next, turn_next, KeepsTree, KeepsAnywhere};
ghost use Rattle.split_search.specs.declared.visit.Visit.TheVariants.{Past};

use crate::family::family_at;
use crate::tell::{tell_branch, tell_dead};
use crate::walk::NodePath;
use cert_text::TreeLog;
use point_query::Asker;
use rcc5_core::Position;
use search_log::StepFault;
use set_family::Family;
use std::alloc::{AllocError, Global};

/// What a visit finds at a node.
#[derive(Drop)]
pub(crate) enum Visit {
    /// A family meets the problem.
    Met(Family),
    /// The log is told of the node: that it branches, or why it is dead.
    Past(bool),
}

/// What a turn comes to.
#[derive(Drop)]
pub(crate) enum VisitEnd {
    /// A family meets the problem.
    Met(Family),
    /// The walk stands at the next node.
    On,
    /// There is no further node.
    Done,
}

// Visits a node where all split pairs are narrowed to a relation.
fn visit_full<L: TreeLog>(
    alloc: Global,
    walk: &NodePath,
    asker: &mut Asker,
    log: &mut L,
) -> Result<Visit, StepFault>
    requires shape { asker.old.shape ≡ shape_of walk.now.subject }
    requires walk { IsWalk walk.now }
    requires full { length walk.now.path ≡ length (split_pairs walk.now.subject) }
    ensures found { IfOk result (IsVisit walk.now.subject walk.now.path) }
    ensures shape { asker.new.shape ≡ asker.old.shape }
    ensures keeps { KeepsTree walk.now.subject (L.lines log.old) (L.lines log.new) asker.old asker.new (Some walk.now.path) (visit_next walk.now.subject walk.now.path result) }
    ensures leads { KeepsLeading (L.lines log.old) (L.lines log.new) asker.old asker.new }
    ensures log { LogGoes L.drops L.lines L.faults L.steady L.quiet result log.old log.new }
{
    match family_at(alloc, walk, asker)? {
        Some(family) => Ok(Visit::Met(family)),
        None => {
            tell_dead(alloc, walk, asker, log)?;
            Ok(Visit::Past(false))
        }
    }
}

// Visits a node with a split pair that is left.
fn visit_inner<L: TreeLog>(
    alloc: Global,
    walk: &NodePath,
    asker: &mut Asker,
    log: &mut L,
) -> Result<Visit, StepFault>
    requires shape { asker.old.shape ≡ shape_of walk.now.subject }
    requires walk { IsWalk walk.now }
    requires room { length walk.now.path < length (split_pairs walk.now.subject) }
    ensures found { IfOk result (IsVisit walk.now.subject walk.now.path) }
    ensures shape { asker.new.shape ≡ asker.old.shape }
    ensures keeps { KeepsTree walk.now.subject (L.lines log.old) (L.lines log.new) asker.old asker.new (Some walk.now.path) (visit_next walk.now.subject walk.now.path result) }
    ensures leads { KeepsLeading (L.lines log.old) (L.lines log.new) asker.old asker.new }
    ensures log { LogGoes L.drops L.lines L.faults L.steady L.quiet result log.old log.new }
{
    if asker.is_alive(walk.node(), &Position::new(alloc))? {
        tell_branch(alloc, walk, asker, log)?;
        return Ok(Visit::Past(true));
    }
    tell_dead(alloc, walk, asker, log)?;
    Ok(Visit::Past(false))
}

// Visits the node at which a walk stands.
fn visit_node<L: TreeLog>(
    alloc: Global,
    walk: &NodePath,
    asker: &mut Asker,
    log: &mut L,
) -> Result<Visit, StepFault>
    requires shape { asker.old.shape ≡ shape_of walk.now.subject }
    requires walk { IsWalk walk.now }
    ensures found { IfOk result (IsVisit walk.now.subject walk.now.path) }
    ensures shape { asker.new.shape ≡ asker.old.shape }
    ensures keeps { KeepsTree walk.now.subject (L.lines log.old) (L.lines log.new) asker.old asker.new (Some walk.now.path) (visit_next walk.now.subject walk.now.path result) }
    ensures leads { KeepsLeading (L.lines log.old) (L.lines log.new) asker.old asker.new }
    ensures log { LogGoes L.drops L.lines L.faults L.steady L.quiet result log.old log.new }
{
    if walk.is_full() {
        return visit_full(alloc, walk, asker, log);
    }
    visit_inner(alloc, walk, asker, log)
}

// Goes on from a node that is told of.
fn go_on(alloc: Global, walk: &mut NodePath, branches: bool) -> Result<VisitEnd, AllocError>
    requires walk { IsWalk walk.old }
    requires seen { IsVisit walk.old.subject walk.old.path (Past branches) }
    ensures walk { OnOk result (IsWalk walk.new) }
    ensures subject { OnOk result (walk.new.subject ≡ walk.old.subject) }
    ensures found { IfOk result (IsTurn walk.old.subject walk.old.path walk.new.path) }
    ensures next { IfOk result (λ turn. next_node walk.old.subject branches walk.old.path ≡ turn_next walk.old.path walk.new.path turn) }
{
    if walk.advance(alloc, branches)? {
        return Ok(VisitEnd::On);
    }
    Ok(VisitEnd::Done)
}

/// Visits the node at which a walk stands, and goes on to the next one unless a family is found.
pub(crate) fn take_turn<L: TreeLog>(
    alloc: Global,
    walk: &mut NodePath,
    asker: &mut Asker,
    log: &mut L,
) -> Result<VisitEnd, StepFault>
    requires shape { asker.old.shape ≡ shape_of walk.old.subject }
    requires walk { IsWalk walk.old }
    ensures walk { OnOk result (IsWalk walk.new) }
    ensures subject { OnOk result (walk.new.subject ≡ walk.old.subject) }
    ensures found { IfOk result (IsTurn walk.old.subject walk.old.path walk.new.path) }
    ensures shape { asker.new.shape ≡ asker.old.shape }
    ensures keeps { IfOk result (λ turn. KeepsTree walk.old.subject (L.lines log.old) (L.lines log.new) asker.old asker.new (Some walk.old.path) (turn_next walk.old.path walk.new.path turn)) }
    ensures err { OnErr result (KeepsAnywhere walk.old.subject (L.lines log.old) (L.lines log.new) asker.old asker.new walk.old.path) }
    ensures leads { KeepsLeading (L.lines log.old) (L.lines log.new) asker.old asker.new }
    ensures log { LogGoes L.drops L.lines L.faults L.steady L.quiet result log.old log.new }
{
    match visit_node(alloc, walk, asker, log)? {
        Visit::Met(family) => Ok(VisitEnd::Met(family)),
        Visit::Past(branches) => Ok(go_on(alloc, walk, branches)?),
    }
}
