//! A solver that forgets its idle clauses now and then, beside one that keeps them all.
ghost use Rattle.std.specs.Prelude.{◌≡◌};

use crate::solver_and_book::{PIGEONS, REGIONS, accept_all, book_of, solve, solver_of};
use learn_solver::{Answer, Solver};
use proof_check::Book;
use std::alloc::{AllocError, Global};
use std::test::Fail;

/// How many questions are asked, and after how many of them the idle clauses are forgotten.
const QUESTIONS: u32 = 10_000;

const TIDIED_AFTER: u32 = 100;

/// One of the 22 variables, by its number.
fn variable_of(number: u32) -> i32 {
    (number % 22) as i32 + 1
}

/// The variables of a question: three of the 22, in any order, and no two questions have the same.
fn variables_of(question: u32) -> [i32; 3] {
    [
        variable_of(question),
        variable_of(question / 22),
        variable_of(question / 484),
    ]
}

/// Whether there are bits where three variables are assumed.
fn has_bits(solver: &mut Solver, numbers: [i32; 3]) -> Result<bool, AllocError>
    requires { solver.old.variables ≡ 22 }
    ensures { solver.new.variables ≡ 22 }
{
    match solve(solver, numbers)? {
        Answer::Bits(_) => Ok(true),
        Answer::Refuted(_) => Ok(false),
    }
}

/// Forgets the idle clauses, and gives the lines to a book. How many were forgotten, if it accepts them.
fn forget(solver: &mut Solver, book: &mut Book) -> Result<Option<u64>, AllocError>
    requires { solver.old.variables ≡ 22 }
    ensures { solver.new.variables ≡ 22 }
{
    let forgotten = solver.idle();
    solver.tidy()?;
    if accept_all(book, solver.lines()).is_err() {
        return Ok(None);
    }
    solver.clear_lines();
    Ok(Some(forgotten))
}

/// Forgets the idle clauses after each hundredth question, and none after the others.
fn forget_in_turn(
    question: u32,
    solver: &mut Solver,
    book: &mut Book,
) -> Result<Option<u64>, AllocError>
    requires { solver.old.variables ≡ 22 }
    ensures { solver.new.variables ≡ 22 }
{
    if question % TIDIED_AFTER != 0 {
        return Ok(Some(0));
    }
    forget(solver, book)
}

/// How many clauses a solver has forgotten that answers each question as one that forgets none; none where they differ or a line
/// is not accepted.
fn forgotten_alike(
    tidied: &mut Solver,
    keeping: &mut Solver,
    book: &mut Book,
) -> Result<Option<u64>, AllocError>
    requires tidied { tidied.old.variables ≡ 22 }
    requires keeping { keeping.old.variables ≡ 22 }
{
    let mut forgotten: u64 = 0;
    for question in 0..QUESTIONS {
        let numbers = variables_of(question);
        if has_bits(tidied, numbers)? != has_bits(keeping, numbers)? {
            return Ok(None);
        }
        match forget_in_turn(question, tidied, book)? {
            Some(count) => forgotten = forgotten.saturating_add(count),
            None => return Ok(None),
        }
    }
    Ok(Some(forgotten))
}

// No `?` comes after a solver or a book is made: each would be one more place that lets it go, and proving those is dear.
fn with_both(
    alloc: Global,
    clauses: &str,
    tidied: &mut Solver,
    keeping: &mut Solver,
) -> Result<Option<u64>, AllocError>
    requires tidied { tidied.old.variables ≡ 22 }
    requires keeping { keeping.old.variables ≡ 22 }
{
    let mut book = book_of(alloc, clauses)?;
    forgotten_alike(tidied, keeping, &mut book)
}

fn with_tidied(alloc: Global, clauses: &str, tidied: &mut Solver) -> Result<Option<u64>, AllocError>
    requires { tidied.old.variables ≡ 22 }
{
    let mut keeping = solver_of(alloc, clauses)?;
    with_both(alloc, clauses, tidied, &mut keeping)
}

fn forgotten(alloc: Global, clauses: &str) -> Result<Option<u64>, AllocError> {
    let mut tidied = solver_of(alloc, clauses)?;
    with_tidied(alloc, clauses, &mut tidied)
}

fn is_many(forgotten: Option<u64>) -> bool {
    matches!(forgotten, Some(count) if count > 100)
}

#[test]
fn a_solver_that_forgets_answers_alike(rt: HostRuntime) -> Result<(), Fail> {
    assert!(rt; is_many(forgotten(rt.alloc(), REGIONS)?));
    assert!(rt; is_many(forgotten(rt.alloc(), PIGEONS)?));
    Ok(())
}
