//! Asking the solver for one point.
ghost use Rattle.point_encode.specs.Model.Forced.{need_lits};
ghost use Rattle.point_encode.specs.Needs.{IsInRange, lits_there, need_seen};
ghost use Rattle.point_pool.specs.Cursors.{AreSelectors};
ghost use Rattle.point_query.specs.Answers.{IsFound};
ghost use Rattle.point_query.specs.Queries.{IsSolverOf, KeepsSolver, asker_with};
ghost use Rattle.std.specs.Prelude.{IfOk, None, OnOk, ◌++◌, ◌+◌, ◌≡◌};

use crate::answers::Found;
use constraint_set::Problem;
use learn_solver::{Answer, Solver};
use lits_core::{Lit, law_derived_clauses_follow, law_literals_are_sets};
use point_encode::{Need, clauses_are_points, need_lits, needs_are_literals};
use point_pool::front;
use rcc5_core::Rel;
use std::alloc::{AllocError, Global};

/// A point of the prefix in the need, or the clause that shows that there is none. The literals are the prefix's selectors.
pub fn query(
    alloc: Global,
    solver: &mut Solver,
    problem: &Problem,
    prefix: &[Rel],
    selectors: &[Lit],
    need: Need,
) -> Result<Found, AllocError>
    requires solver { IsSolverOf problem.now solver.old }
    requires selectors { AreSelectors problem.now prefix.now selectors.now }
    requires range { IsInRange problem.now need }
    ensures solver { KeepsSolver problem.now solver.old solver.new }
    ensures found { IfOk result (IsFound (asker_with problem.now solver.new) problem.now prefix.now (need_seen problem.now need)) }
{
    problem.facts();
    clauses_are_points();
    needs_are_literals();
    law_derived_clauses_follow();
    law_literals_are_sets();
    let more = lits_of(alloc, problem, need)?;
    match solver.solve(selectors, &more)? {
        Answer::Bits(bits) => {
            let point = front(alloc, &bits, problem.concept_count() as usize)?;
            Ok(Found::Point(point))
        }
        Answer::Refuted(id) => Ok(Found::Closed(id)),
    }
}

// The literals of a need.
fn lits_of(alloc: Global, problem: &Problem, need: Need) -> Result<Vec<Lit>, AllocError>
    requires { IsInRange problem.now need }
    ensures { IfOk result (λ lits. lits.items ≡ need_lits (need_seen problem.now need)) }
{
    let mut lits = Vec::new(alloc);
    let [first, second] = need_lits(problem, need);
    push_there(&mut lits, first)?;
    push_there(&mut lits, second)?;
    Ok(lits)
}

// Adds a literal, if there is one.
fn push_there(all: &mut Vec<Lit>, lit: Option<Lit>) -> Result<(), AllocError>
    ensures { OnOk result (all.new.items ≡ all.old.items ++ lits_there lit None) }
{
    match lit {
        Some(lit) => {
            all.push(lit)?;
            Ok(())
        }
        None => Ok(()),
    }
}
