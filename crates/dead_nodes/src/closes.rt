//! Whether a live clause closes a need of a node: its literals are read.
ghost use Rattle.std.specs.Prelude.{◌≤◌, length, IsTrue, MatchOption};
ghost use Rattle.lits_core.specs.Derivation.{live_clause};
ghost use Rattle.world_model.specs.Problem.{pair_count};
ghost use Rattle.point_encode.specs.Model.Forced.{IsClosedAt};
ghost use Rattle.point_encode.specs.Needs.{IsInRange, need_seen};

use constraint_set::Problem;
use lits_core::Lit;
use point_encode::{Need, is_asked};
use point_query::Asker;
use rcc5_core::Position;

/// Whether the live clause with an id closes a need at a node: it has only negations of what must be true of a point there.
///
/// Nothing is asked for it, and the asker's points stay where they are.
pub(crate) fn closes(problem: &Problem, asker: &Asker, node: &Position, need: Need, id: u64) -> bool
    requires within { length node.now ≤ pair_count problem.now }
    requires range { IsInRange problem.now need }
    ensures { IsTrue result → MatchOption (live_clause asker.now.solver.state id) ⊥ (IsClosedAt problem.now node.now (need_seen problem.now need)) }
{
    let Some(lits) = asker.clause(id) else {
        return false;
    };
    for place in 0..lits.count() {
        if !is_asked(problem, node, need, lits.lit(place).negate()) {
            return false;
        }
    }
    true
}

// Whether a clause with these literals would close a need at a node.
pub(crate) fn may_close(problem: &Problem, node: &Position, need: Need, lits: &[Lit]) -> bool
    requires within { length node.now ≤ pair_count problem.now }
    requires range { IsInRange problem.now need }
{
    for lit in lits {
        if !is_asked(problem, node, need, lit.negate()) {
            return false;
        }
    }
    true
}
