//! Whether a clause closes a need: its literals are read.
ghost use Rattle.point_encode.specs.Model.Forced.{IsClosedAt, asked_of, need_at, need_count, selectors_of};
ghost use Rattle.lits_core.specs.Derivation.{live_clause};
ghost use Rattle.std.specs.Prelude.{Contains, IsTrue, MatchOption, ◌<◌, ◌≡◌};

use learn_solver::Solver;
use lits_core::Lit;
use point_encode::{Selector, is_empty, is_need_lit, is_sum_kept, need_at, selector_of};
use point_pool::Cursor;

// Whether a clause closes the need with a number: it has only negations of what must be true of a point in it.
pub(crate) fn closes(solver: &Solver, cursor: &Cursor, number: u32, id: u64) -> bool
    requires { number < need_count cursor.now.problem }
    ensures { IsTrue result → MatchOption (live_clause solver.now.state id) ⊥ (IsClosedAt cursor.now.problem cursor.now.path (need_at cursor.now.problem number)) }
{
    let Some(lits) = solver.clause(id) else {
        return false;
    };
    for place in 0..lits.count() {
        if !is_asked(cursor, number, lits.lit(place).negate()) {
            return false;
        }
    }
    true
}

// Whether a literal must be true of a point in the need with a number.
fn is_asked(cursor: &Cursor, number: u32, lit: Lit) -> bool
    requires { number < need_count cursor.now.problem }
    ensures { IsTrue result → Contains (asked_of cursor.now.problem cursor.now.path (need_at cursor.now.problem number)) lit }
{
    if is_selector(cursor, lit) {
        return true;
    }
    let problem = cursor.problem();
    is_need_lit(problem, need_at(problem, number), lit)
}

// Whether a literal is a selector that the prefix makes true.
fn is_selector(cursor: &Cursor, lit: Lit) -> bool
    ensures { IsTrue result → Contains (selectors_of cursor.now.problem cursor.now.path) lit }
{
    let problem = cursor.problem();
    match selector_of(problem, lit) {
        Some(Selector::Empty { pair, part }) => is_empty(cursor.forced_at(pair), part),
        Some(Selector::Kept(sum)) => is_sum_kept(problem, sum),
        None => false,
    }
}
