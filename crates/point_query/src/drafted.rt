//! Adding clauses that were drafted: each is shown by its hints, or it is not added.
ghost use Rattle.point_query.specs.Queries.{IsSolverOf, KeepsSolver};

use constraint_set::Problem;
use learn_solver::Solver;
use lits_core::{law_derived_clauses_follow, law_literals_are_sets};
use point_draft::{Hint, Step};
use std::alloc::{AllocError, Global};

// Adds the clauses of some steps in turn, those that count, and answers the id of the last one.
pub(crate) fn add_steps(
    alloc: Global,
    problem: &Problem,
    solver: &mut Solver,
    steps: &[Step],
) -> Result<Option<u64>, AllocError>
    requires solver { IsSolverOf problem.now solver.old }
    ensures solver { KeepsSolver problem.now solver.old solver.new }
{
    law_literals_are_sets();
    let mut ids = Vec::with_capacity(alloc, steps.len())?;
    let mut last = None;
    for step in steps {
        last = add_if_it_counts(alloc, problem, solver, step, &ids)?;
        ids.push(last.unwrap_or(0))?;
    }
    Ok(last)
}

// Adds the clause of a step, if it counts. The ids are those of the steps before it.
fn add_if_it_counts(
    alloc: Global,
    problem: &Problem,
    solver: &mut Solver,
    step: &Step,
    ids: &[u64],
) -> Result<Option<u64>, AllocError>
    requires solver { IsSolverOf problem.now solver.old }
    ensures solver { KeepsSolver problem.now solver.old solver.new }
{
    if !step.counts {
        return Ok(None);
    }
    let hints = ids_of(alloc, &step.hints, ids)?;
    law_derived_clauses_follow();
    solver.derive(&step.lits, &hints)
}

// The ids of hints.
fn ids_of(alloc: Global, hints: &[Hint], ids: &[u64]) -> Result<Vec<u64>, AllocError> {
    let mut named = Vec::with_capacity(alloc, hints.len())?;
    for hint in hints {
        named.push(id_of(*hint, ids))?;
    }
    Ok(named)
}

// The id of a hint, or 0, which is none.
fn id_of(hint: Hint, ids: &[u64]) -> u64 {
    match hint {
        Hint::Given(id) => id,
        Hint::Step(number) => ids.get(number).copied().unwrap_or(0),
    }
}
