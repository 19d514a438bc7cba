//! Why a node is dead.
ghost use Rattle.std.specs.Prelude.{◌≡◌, false, [], IfOk};
ghost use Rattle.world_model.specs.Alive.{IsAlive};
ghost use Rattle.constraint_set.specs.Shape.{shape_of};
ghost use Rattle.point_query.specs.Asking.{AskerGoes};
ghost use Rattle.cert_text.specs.Lines.{IdsFromOne};
ghost use Rattle.cert_rules.specs.Trees.{node_problem, is_branch};
ghost use Rattle.cert_rules.specs.ClaimWriting.{TellsWithin};
ghost use Rattle.search_log.specs.Leading.{derivation_of};
ghost use Rattle.split_search.specs.Walking.{IsWalk, split_tree};

use crate::walk::NodePath;
use cert_text::CertLine;
use point_encode::need_number;
use point_query::{Asker, Probe};
use rcc5_core::Position;
use std::alloc::{AllocError, Global};

/// The line of a dead node, with what the asker says of it.
pub(crate) fn reason_line(
    alloc: Global,
    walk: &NodePath,
    asker: &mut Asker,
) -> Result<CertLine, AllocError>
    requires shape { asker.old.shape ≡ shape_of walk.now.subject }
    requires walk { IsWalk walk.now }
    requires dead { IsAlive (node_problem (split_tree walk.now.subject) walk.now.path) → ⊥ }
    ensures kept { AskerGoes asker.old asker.new }
    ensures tells { IfOk result (TellsWithin (split_tree walk.now.subject) asker.new.solver.state walk.now.path) }
    ensures leaf { IfOk result (λ line. is_branch line ≡ false) }
    ensures no_derivation { IfOk result (λ line. derivation_of line ≡ []) }
    ensures ids { IfOk result IdsFromOne }
{
    let depth = walk.depth();
    let last = walk.last();
    let node = walk.node();
    let probe = asker.probe(node, &Position::new(alloc))?;
    asker.facts();
    match probe {
        Probe::EmptyPair(pair) => Ok(CertLine::NoRelation { depth, last, pair }),
        Probe::Closed(need, clause) => Ok(CertLine::NoPoint {
            depth,
            last,
            need: u64::from(need_number(node, need)),
            clause,
        }),
        Probe::Alive => unreachable!(),
    }
}
