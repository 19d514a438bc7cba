//! The lines of nodes.
ghost use Rattle.std.specs.Prelude.{◌≡◌, ◌≤◌, true, false, length, IfOk, IsTrue};
ghost use Rattle.world_model.specs.Problem.{pair_count};
ghost use Rattle.world_model.specs.Family.{meets, table_of};
ghost use Rattle.constraint_set.specs.Shape.{shape_of};
ghost use Rattle.lits_core.specs.Derivation.{State};
ghost use Rattle.point_query.specs.Asking.{AskerGoes};
ghost use Rattle.cert_text.specs.Lines.{IdsFromOne};
ghost use Rattle.cert_rules.specs.Trees.{last_of, is_branch};
ghost use Rattle.cert_rules.specs.Writing.{TellsOf};
ghost use Rattle.world_search.specs.Logging.{IsInnerOrDead};

use cert_text::CertLine;
use constraint_set::Problem;
use dead_nodes::{Hints, WhyDead, why_dead};
use point_query::Asker;
use rcc5_core::{Position, Rel};
use search_log::raw_family;
use set_family::Family;
use std::alloc::{AllocError, Global};

// The depth of a node.
fn depth_of(problem: &Problem, node: &Position) -> u32
    requires { length node.now ≤ pair_count problem.now }
    ensures { result ≡ length node.now }
{
    problem.facts();
    node.len() as u32
}

// The last relation on the way to a node, which the root lacks.
fn last_rel(node: &Position) -> Option<Rel>
    ensures { result ≡ last_of node.now }
{
    if node.is_empty() {
        return None;
    }
    Some(node.at(node.len() - 1))
}

/// The line of a node that branches.
pub(crate) fn branch_line(problem: &Problem, node: &Position) -> CertLine
    requires { IsInnerOrDead problem.now node.now true }
    ensures tells { (state : State) → TellsOf problem.now state node.now result }
    ensures branches { is_branch result ≡ true }
    ensures ids { IdsFromOne result }
{
    CertLine::Branch {
        depth: depth_of(problem, node),
        last: last_rel(node),
    }
}

/// The line of a dead node, with why it is dead.
pub(crate) fn reason_line(
    problem: &Problem,
    asker: &mut Asker,
    hints: &mut Hints,
    node: &Position,
) -> Result<CertLine, AllocError>
    requires shape { asker.old.shape ≡ shape_of problem.now }
    requires within { length node.now ≤ pair_count problem.now }
    requires dead { IsInnerOrDead problem.now node.now false }
    ensures kept { AskerGoes asker.old asker.new }
    ensures tells { IfOk result (TellsOf problem.now asker.new.solver.state node.now) }
    ensures leaf { IfOk result (λ line. is_branch line ≡ false) }
    ensures ids { IfOk result IdsFromOne }
{
    let depth = depth_of(problem, node);
    let last = last_rel(node);
    let why = why_dead(problem, asker, hints, node)?;
    match why {
        WhyDead::NoRelation(pair) => Ok(CertLine::NoRelation { depth, last, pair }),
        WhyDead::NoPoint(reason) => Ok(CertLine::NoPoint {
            depth,
            last,
            need: reason.need,
            clause: reason.clause,
        }),
    }
}

/// The line of a world, which a family shows.
pub(crate) fn world_line(
    alloc: Global,
    problem: &Problem,
    node: &Position,
    family: &Family,
) -> Result<CertLine, AllocError>
    requires within { length node.now ≤ pair_count problem.now }
    requires met { IsTrue (meets problem.now family.now) }
    requires shown { table_of problem.now family.now ≡ node.now }
    ensures tells { IfOk result (λ line. (state : State) → TellsOf problem.now state node.now line) }
    ensures leaf { IfOk result (λ line. is_branch line ≡ false) }
    ensures ids { IfOk result IdsFromOne }
{
    problem.facts();
    Ok(CertLine::World {
        depth: depth_of(problem, node),
        last: last_rel(node),
        family: raw_family(alloc, family)?,
    })
}
