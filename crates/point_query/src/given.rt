//! A solver over the given clauses of a problem.
ghost use Rattle.point_encode.specs.Model.Clauses.{given_clauses, variable_count};
ghost use Rattle.lits_core.specs.Derivation.{SameState, first_state};
ghost use Rattle.point_query.specs.Asking.{IsNewAsker};
ghost use Rattle.point_query.specs.Queries.{asker_with};
ghost use Rattle.std.specs.Prelude.{IfOk, OnOk, [], ◌≡◌};

use constraint_set::Problem;
use learn_solver::Solver;
use lits_core::Clause;
use point_encode::{given_clauses, variable_count};
use std::alloc::{AllocError, Global};

/// A solver to which the given clauses of a problem are added, and which was asked nothing yet.
pub fn solver_of(alloc: Global, problem: &Problem) -> Result<Solver, AllocError>
    ensures { IfOk result (λ solver. IsNewAsker problem.now (asker_with problem.now solver)) }
{
    let clauses = given_clauses(alloc, problem)?;
    let mut solver = Solver::new(alloc, variable_count(problem))?;
    add_each(&mut solver, problem, &clauses)?;
    Ok(solver)
}

// Adds each of a problem's given clauses.
fn add_each(solver: &mut Solver, problem: &Problem, clauses: &[Clause]) -> Result<(), AllocError>
    requires variables { solver.old.variables ≡ variable_count problem.now }
    requires all { clauses.now ≡ given_clauses problem.now }
    requires first { solver.old.state ≡ first_state [] }
    requires quiet { solver.old.waiting ≡ [] }
    ensures variables { OnOk result (solver.new.variables ≡ solver.old.variables) }
    ensures given { OnOk result (SameState (first_state clauses.now) solver.new.state) }
    ensures quiet { OnOk result (solver.new.waiting ≡ []) }
    ensures idle { OnOk result (solver.new.idle ≡ solver.old.idle) }
{
    problem.facts();
    for clause in clauses {
        solver.add(clause.lits())?;
    }
    Ok(())
}
