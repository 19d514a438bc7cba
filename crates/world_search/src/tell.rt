//! Lines put in a log: those of the derivation that wait, and the line of a node behind them.
ghost use Rattle.std.specs.Prelude.{◌≡◌, ◌<◌, ◌≤◌, List, Option, None, [], All, length, OnOk, OnErr, IsTrue, true, false};
ghost use Rattle.rcc5_core.specs.declared.Rel.{Rel};
ghost use Rattle.world_model.specs.Problem.{Problem, pair_count};
ghost use Rattle.world_model.specs.Alive.{problem_at, IsAlive};
ghost use Rattle.world_model.specs.Family.{meets, table_of};
ghost use Rattle.constraint_set.specs.Shape.{shape_of};
ghost use Rattle.cert_text.specs.Lines.{IdsFromOne};
ghost use Rattle.cert_text.specs.Logs.{IsToldWith};
ghost use Rattle.cert_rules.specs.Trees.{is_branch};
ghost use Rattle.cert_rules.specs.Writing.{TellsOf};
ghost use Rattle.world_search.specs.Logging.{KeepsOn, KeepsPast, IsInnerOrDead};
ghost use Rattle.search_log.specs.Logging.{AreToldWith, LogGoes, IsSameButLines};

use crate::reasons::{branch_line, reason_line, world_line};
use cert_text::{CertLine, TreeLog};
use constraint_set::Problem;
use dead_nodes::Hints;
use point_query::Asker;
use rcc5_core::Position;
use search_log::{StepFault, put_one, put_waiting};
use set_family::Family;
use std::alloc::Global;

// Puts the line of a node behind the lines that wait.
fn put_node<L: TreeLog>(
    alloc: Global,
    asker: &mut Asker,
    log: &mut L,
    line: &CertLine,
) -> Result<(), StepFault>
    requires { IdsFromOne line.now }
    ensures same { IsSameButLines asker.old asker.new }
    ensures none_waits { OnOk result (asker.new.solver.waiting ≡ []) }
    ensures keeps { (p : Problem) (m : List Rel) → TellsOf p asker.old.solver.state m line.now →
        KeepsPast p result (L.lines log.old) (L.lines log.new) asker.old asker.new m (is_branch line.now) }
    ensures log { LogGoes L.drops L.lines L.faults L.steady L.quiet result log.old log.new }
{
    put_waiting(alloc, asker, log)?;
    put_one(log, line)
}

// Tells of a node that it branches.
fn tell_branch<L: TreeLog>(
    alloc: Global,
    problem: &Problem,
    asker: &mut Asker,
    log: &mut L,
    node: &Position,
) -> Result<(), StepFault>
    requires { IsInnerOrDead problem.now node.now true }
    ensures shape { asker.new.shape ≡ asker.old.shape }
    ensures keeps { KeepsPast problem.now result (L.lines log.old) (L.lines log.new) asker.old asker.new node.now true }
    ensures log { LogGoes L.drops L.lines L.faults L.steady L.quiet result log.old log.new }
{
    let line = branch_line(problem, node);
    put_node(alloc, asker, log, &line)
}

// Tells of a node why it is dead. Where nobody will read it, nothing is asked.
fn tell_dead<L: TreeLog>(
    alloc: Global,
    problem: &Problem,
    asker: &mut Asker,
    log: &mut L,
    hints: &mut Hints,
    node: &Position,
) -> Result<(), StepFault>
    requires shape { asker.old.shape ≡ shape_of problem.now }
    requires within { length node.now ≤ pair_count problem.now }
    requires dead { IsInnerOrDead problem.now node.now false }
    ensures shape { asker.new.shape ≡ asker.old.shape }
    ensures keeps { KeepsPast problem.now result (L.lines log.old) (L.lines log.new) asker.old asker.new node.now false }
    ensures log { LogGoes L.drops L.lines L.faults L.steady L.quiet result log.old log.new }
{
    if log.is_dropping() {
        asker.clear_lines();
        return Ok(());
    }
    let line = reason_line(problem, asker, hints, node)?;
    put_node(alloc, asker, log, &line)
}

/// Tells of a node that it branches, or why it is dead.
pub(crate) fn tell<L: TreeLog>(
    alloc: Global,
    problem: &Problem,
    asker: &mut Asker,
    log: &mut L,
    hints: &mut Hints,
    node: &Position,
    branches: bool,
) -> Result<(), StepFault>
    requires shape { asker.old.shape ≡ shape_of problem.now }
    requires within { length node.now ≤ pair_count problem.now }
    requires so { IsInnerOrDead problem.now node.now branches }
    ensures shape { asker.new.shape ≡ asker.old.shape }
    ensures keeps { KeepsPast problem.now result (L.lines log.old) (L.lines log.new) asker.old asker.new node.now branches }
    ensures log { LogGoes L.drops L.lines L.faults L.steady L.quiet result log.old log.new }
{
    if branches {
        tell_branch(alloc, problem, asker, log, node)
    } else {
        tell_dead(alloc, problem, asker, log, hints, node)
    }
}

/// Tells of a node that it is a world, which a family shows.
#[tactic(auto, using(search_log::proofs::Logs::cleared_same, search_log::proofs::Logs::unchanged_same))]
pub(crate) fn tell_world<L: TreeLog>(
    alloc: Global,
    problem: &Problem,
    asker: &mut Asker,
    log: &mut L,
    node: &Position,
    family: &Family,
) -> Result<(), StepFault>
    requires within { length node.now ≤ pair_count problem.now }
    requires met { IsTrue (meets problem.now family.now) }
    requires shown { table_of problem.now family.now ≡ node.now }
    ensures same { IsSameButLines asker.old asker.new }
    ensures none_waits { OnOk result (asker.new.solver.waiting ≡ []) }
    ensures keeps { KeepsPast problem.now result (L.lines log.old) (L.lines log.new) asker.old asker.new node.now false }
    ensures log { LogGoes L.drops L.lines L.faults L.steady L.quiet result log.old log.new }
{
    if log.is_dropping() {
        asker.clear_lines();
        return Ok(());
    }
    let line = world_line(alloc, problem, node, family)?;
    put_node(alloc, asker, log, &line)
}
