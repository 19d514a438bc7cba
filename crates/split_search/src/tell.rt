//! Lines of nodes put in a log.
ghost use Rattle.std.specs.Prelude.{◌≡◌, ◌<◌, true, false, List, [], length};
ghost use Rattle.rcc5_core.specs.declared.Rel.{Rel};
ghost use Rattle.world_model.specs.Problem.{Problem};
ghost use Rattle.world_model.specs.Alive.{IsAlive};
ghost use Rattle.constraint_set.specs.Shape.{shape_of};
ghost use Rattle.cert_text.specs.Lines.{IdsFromOne};
ghost use Rattle.cert_rules.specs.Trees.{node_problem, is_branch};
ghost use Rattle.cert_rules.specs.ClaimLists.{split_pairs};
ghost use Rattle.search_log.specs.Leading.{KeepsLeading, derivation_of};
ghost use Rattle.search_log.specs.Logging.{LogGoes};
ghost use Rattle.split_search.specs.Walking.{IsWalk, split_tree, TellsAlive, KeepsPast};

use crate::reason::reason_line;
use crate::walk::NodePath;
use cert_text::{CertLine, TreeLog};
use point_query::Asker;
use search_log::{StepFault, put_one, put_waiting};
use std::alloc::Global;

// Puts the line of a node behind the lines that wait.
fn put_node<L: TreeLog>(
    alloc: Global,
    asker: &mut Asker,
    log: &mut L,
    line: &CertLine,
) -> Result<(), StepFault>
    requires ids { IdsFromOne line.now }
    requires no_derivation { derivation_of line.now ≡ [] }
    ensures shape { asker.new.shape ≡ asker.old.shape }
    ensures keeps { (q : Problem) (m : List Rel) → TellsAlive (split_tree q) asker.old.solver.state m line.now →
        KeepsPast q result (L.lines log.old) (L.lines log.new) asker.old asker.new m (is_branch line.now) }
    ensures leads { KeepsLeading (L.lines log.old) (L.lines log.new) asker.old asker.new }
    ensures log { LogGoes L.drops L.lines L.faults L.steady L.quiet result log.old log.new }
{
    put_waiting(alloc, asker, log)?;
    put_one(log, line)
}

/// Tells of an alive node that it branches.
pub(crate) fn tell_branch<L: TreeLog>(
    alloc: Global,
    walk: &NodePath,
    asker: &mut Asker,
    log: &mut L,
) -> Result<(), StepFault>
    requires walk { IsWalk walk.now }
    requires alive { IsAlive (node_problem (split_tree walk.now.subject) walk.now.path) }
    requires room { length walk.now.path < length (split_pairs walk.now.subject) }
    ensures shape { asker.new.shape ≡ asker.old.shape }
    ensures keeps { KeepsPast walk.now.subject result (L.lines log.old) (L.lines log.new) asker.old asker.new walk.now.path true }
    ensures leads { KeepsLeading (L.lines log.old) (L.lines log.new) asker.old asker.new }
    ensures log { LogGoes L.drops L.lines L.faults L.steady L.quiet result log.old log.new }
{
    let line = CertLine::Branch {
        depth: walk.depth(),
        last: walk.last(),
    };
    put_node(alloc, asker, log, &line)
}

/// Tells of a node why it is dead. Where nobody will read it, nothing is asked.
pub(crate) fn tell_dead<L: TreeLog>(
    alloc: Global,
    walk: &NodePath,
    asker: &mut Asker,
    log: &mut L,
) -> Result<(), StepFault>
    requires shape { asker.old.shape ≡ shape_of walk.now.subject }
    requires walk { IsWalk walk.now }
    requires dead { IsAlive (node_problem (split_tree walk.now.subject) walk.now.path) → ⊥ }
    ensures shape { asker.new.shape ≡ asker.old.shape }
    ensures keeps { KeepsPast walk.now.subject result (L.lines log.old) (L.lines log.new) asker.old asker.new walk.now.path false }
    ensures leads { KeepsLeading (L.lines log.old) (L.lines log.new) asker.old asker.new }
    ensures log { LogGoes L.drops L.lines L.faults L.steady L.quiet result log.old log.new }
{
    if log.is_dropping() {
        asker.clear_lines();
        return Ok(());
    }
    let line = reason_line(alloc, walk, asker)?;
    put_node(alloc, asker, log, &line)
}
