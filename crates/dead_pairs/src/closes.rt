//! Whether a live clause closes a need where one pair is narrowed: its literals are read.
ghost use Rattle.std.specs.Prelude.{◌<◌, [], Contains, IsTrue, MatchOption};
ghost use Rattle.lits_core.specs.Derivation.{live_clause};
ghost use Rattle.world_model.specs.Problem.{pair_count};
ghost use Rattle.point_encode.specs.Model.Forced.{IsClosedAt, asked_of, selectors_of};
ghost use Rattle.point_encode.specs.Needs.{IsInRange, need_seen};
ghost use Rattle.dead_pairs.specs.Lone.{lone_problem};

use crate::lone::{Lone, forced_at};
use constraint_set::Problem;
use lits_core::Lit;
use point_encode::{Need, Selector, is_empty, is_need_lit, is_sum_kept, selector_of};
use point_query::Asker;

/// Whether the live clause with an id has only negations of what must be true of a point in a need.
pub(crate) fn closes(problem: &Problem, asker: &Asker, lone: Lone, need: Need, id: u64) -> bool
    requires lone { lone.pair < pair_count problem.now }
    requires range { IsInRange problem.now need }
    ensures { IsTrue result → MatchOption (live_clause asker.now.solver.state id) ⊥ (IsClosedAt (lone_problem problem.now lone) [] (need_seen problem.now need)) }
{
    let Some(lits) = asker.clause(id) else {
        return false;
    };
    for place in 0..lits.count() {
        if !is_asked(problem, lone, need, lits.lit(place).negate()) {
            return false;
        }
    }
    true
}

// Whether a literal must be true of a point in a need.
fn is_asked(problem: &Problem, lone: Lone, need: Need, lit: Lit) -> bool
    requires lone { lone.pair < pair_count problem.now }
    requires range { IsInRange problem.now need }
    ensures { IsTrue result → Contains (asked_of (lone_problem problem.now lone) [] (need_seen problem.now need)) lit }
{
    if is_selector(problem, lone, lit) {
        return true;
    }
    is_need_lit(problem, need, lit)
}

// Whether a literal is a selector that is true.
fn is_selector(problem: &Problem, lone: Lone, lit: Lit) -> bool
    requires { lone.pair < pair_count problem.now }
    ensures { IsTrue result → Contains (selectors_of (lone_problem problem.now lone) []) lit }
{
    match selector_of(problem, lit) {
        Some(Selector::Empty { pair, part }) => is_empty(forced_at(problem, lone, pair), part),
        Some(Selector::Kept(sum)) => is_sum_kept(problem, sum),
        None => false,
    }
}
