//! Why a problem is dead where one pair is narrowed to a relation.
ghost use Rattle.std.specs.Prelude.{◌≡◌, ◌<◌, IfOk, IfSome};
ghost use Rattle.world_model.specs.Problem.{pair_count};
ghost use Rattle.constraint_set.specs.Shape.{shape_of};
ghost use Rattle.point_query.specs.Asking.{AskerGoes};
ghost use Rattle.dead_pairs.specs.Lone.{IsClosing};

use crate::closes::closes;
use crate::hints::Hints;
use crate::lone::{Lone, is_forced};
use crate::show::shown;
use constraint_set::Problem;
use lits_core::law_literals_are_sets;
use point_encode::{clauses_are_points, need_of, needs_are_literals};
use point_query::Asker;
use search_log::tidy_by_turns;
use std::alloc::AllocError;

/// A need, by its number, and the id of a clause that leaves it no point.
#[derive(Clone, Copy)]
pub struct Closing {
    pub need: u64,
    pub clause: u64,
}

// A need and a clause, if the need is forced where the pair is narrowed, and the clause leaves it no point.
fn held(problem: &Problem, asker: &Asker, lone: Lone, number: u64, clause: u64) -> Option<Closing>
    requires shape { asker.now.shape ≡ shape_of problem.now }
    requires within { lone.pair < pair_count problem.now }
    ensures { IfSome result (IsClosing problem.now asker.now.solver.state lone) }
{
    problem.facts();
    asker.facts();
    clauses_are_points();
    needs_are_literals();
    law_literals_are_sets();
    let Some(need) = need_of(problem, number) else {
        return None;
    };
    if clause < 1 || !is_forced(problem, lone, need) {
        return None;
    }
    if closes(problem, asker, lone, need, clause) {
        Some(Closing {
            need: number,
            clause,
        })
    } else {
        None
    }
}

/// A need without a point where a pair is narrowed to a relation, with a clause that shows it, if the hints lead to one.
///
/// The problem itself is asked, whose points the asker keeps; nothing is asked where the hints say that each need has a point. Now and
/// then the asker's idle clauses are forgotten.
#[tactic(auto, using(search_log::proofs::Logs::asker_stays, search_log::proofs::Logs::asker_joins))]
pub fn why_dead(
    problem: &Problem,
    asker: &mut Asker,
    hints: &mut Hints,
    lone: Lone,
) -> Result<Option<Closing>, AllocError>
    requires shape { asker.old.shape ≡ shape_of problem.now }
    requires within { lone.pair < pair_count problem.now }
    ensures kept { AskerGoes asker.old asker.new }
    ensures closing { IfOk result (λ found. IfSome found (IsClosing problem.now asker.new.solver.state lone)) }
{
    hints.turns = tidy_by_turns(asker, hints.turns)?;
    let Some(table) = &hints.table else {
        return Ok(None);
    };
    let Some(lost) = table.lost(problem, lone) else {
        return Ok(None);
    };
    match shown(problem, asker, hints, table, lone, lost)? {
        Some(clause) => Ok(held(problem, asker, lone, lost.number, clause)),
        None => Ok(None),
    }
}
