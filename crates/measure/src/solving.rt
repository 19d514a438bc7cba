//! A formula in the DIMACS form, given to the solver.

ghost use Rattle.std.specs.Prelude.{◌≡◌, ◌<◌, ◌≤◌, [], IfOk, OnOk, IfSome};
ghost use Rattle.lits_core.specs.Literals.{variable_of};
ghost use Rattle.watch_arena.specs.Trails.{AreInRange};
ghost use Rattle.learn_solver.specs.Solving.{AreConsistent};
ghost use Rattle.measure.specs.Solving.{AreByPlace};

use crate::files::bytes_of;
use learn_solver::{Answer, Solver};
use lits_core::Lit;
use outer_store::{Store, StoreFault};
use std::alloc::{AllocError, Global};

const MOST_VARIABLES: u32 = 1_000_000;

/// No more variables are assumed, each in both ways.
const MOST_SPLITS: u32 = 16;

/// No more clauses are idle where the next variables are assumed.
const MOST_IDLE: u64 = 2_048;

// The literal with a number as DIMACS writes it, whose variable is counted from 1. None for 0 and for other variables.
fn literal(number: i32, variables: u32) -> Option<Lit>
    ensures { IfSome result (λ lit. variable_of lit < variables) }
{
    let variable = number.unsigned_abs();
    if variable == 0 || variable > variables || variable > MOST_VARIABLES {
        return None;
    }
    Some(Lit::new(variable - 1, number < 0))
}

// Adds the clauses, each of them the numbers up to the next 0. What is no literal ends a clause as 0 does.
//
// Here and below a call of the solver that finds no memory is made once more: it must then answer as if it were the first.
fn add_clauses(
    solver: &mut Solver,
    alloc: Global,
    numbers: &[&str],
    variables: u32,
) -> Result<(), AllocError>
    requires variables { solver.old.variables ≡ variables }
    requires first { solver.old.state.derived ≡ [] }
    requires quiet { solver.old.waiting ≡ [] }
    ensures { OnOk result (solver.new.variables ≡ variables) }
{
    let mut lits = Vec::new(alloc);
    'numbers: for word in numbers {
        match literal(word.parse().unwrap_or(0), variables) {
            Some(lit) => lits.push(lit)?,
            None => {
                match solver.add(&lits) {
                    Ok(_id) => {}
                    Err(_) => {
                        solver.add(&lits)?;
                    }
                }
                lits.clear();
            }
        }
    }
    Ok(())
}

// The literals of the first variables by the bits of a number, which say which of them are false. Its highest bit speaks of
// the first variable, so that the literals by one number and by the next mostly begin alike.
fn literals_by(alloc: Global, splits: u32, number: u32) -> Result<Vec<Lit>, AllocError>
    requires { splits ≤ 16 }
    ensures { IfOk result (λ lits. AreByPlace splits lits.items) }
{
    let mut lits = Vec::new(alloc);
    for variable in 0..splits {
        let bit = number / (1 << (splits - 1 - variable)) % 2;
        lits.push(Lit::new(variable, bit == 1))?;
    }
    Ok(lits)
}

// What the solver says of assumptions.
fn asked(solver: &mut Solver, lits: &[Lit]) -> Result<Answer, AllocError>
    requires range { AreInRange lits.now solver.old.variables }
    requires consistent { AreConsistent lits.now }
    ensures { solver.new.variables ≡ solver.old.variables }
{
    match solver.solve(lits, &[]) {
        Ok(answer) => Ok(answer),
        Err(_) => solver.solve(lits, &[]),
    }
}

// Whether there are bits by which the first variables are as the number says, and how many clauses were learnt. Idle clauses
// are forgotten afterwards, where they are many.
fn solve_by(
    solver: &mut Solver,
    alloc: Global,
    splits: u32,
    number: u32,
) -> Result<(bool, usize), AllocError>
    requires few { splits ≤ 16 }
    requires within { splits ≤ solver.old.variables }
    ensures { solver.new.variables ≡ solver.old.variables }
{
    let lits = literals_by(alloc, splits, number)?;
    let answer = asked(solver, &lits)?;
    let learnt = solver.lines().len();
    if solver.idle() > MOST_IDLE {
        match solver.tidy() {
            Ok(()) => {}
            Err(_) => solver.tidy()?,
        }
    }
    solver.clear_lines();
    Ok((matches!(answer, Answer::Bits(_)), learnt))
}

// Whether there are bits, and how many clauses were learnt. The first variables are assumed in each way, one after the other.
fn search(solver: &mut Solver, alloc: Global, splits: u32) -> Result<(bool, usize), AllocError>
    requires few { splits ≤ 16 }
    requires within { splits ≤ solver.old.variables }
{
    let mut learnt: usize = 0;
    for number in 0..1 << splits {
        let (found, more) = solve_by(solver, alloc, splits, number)?;
        learnt = learnt.saturating_add(more);
        if found {
            return Ok((true, learnt));
        }
    }
    Ok((false, learnt))
}

// The answer for the formula that these words are.
fn answer(alloc: Global, words: &[&str], splits: u32) -> Result<Option<(bool, usize)>, AllocError> {
    let ["p", "cnf", variables, _, numbers @ ..] = words else {
        return Ok(None);
    };
    let variables: u32 = variables.parse().unwrap_or(0);
    if splits > variables || splits > MOST_SPLITS {
        return Ok(None);
    }
    let mut solver = Solver::new(alloc, variables)?;
    add_clauses(&mut solver, alloc, numbers, variables)?;
    Ok(Some(search(&mut solver, alloc, splits)?))
}

/// What came of the formula in a file, with so many of its variables assumed.
pub fn solve<S: Store>(
    alloc: Global,
    store: &mut S,
    name: &str,
    splits: u32,
) -> Result<String, AllocError> {
    let bytes = match bytes_of(alloc, store, name) {
        Ok(bytes) => bytes,
        Err(StoreFault::Failed) => return format!(in alloc; "failed"),
        Err(StoreFault::NoMemory) => return Err(AllocError),
    };
    let Ok(text) = std::str::from_utf8(&bytes) else {
        return format!(in alloc; "refused");
    };
    let words: Vec<&str> = text.split_whitespace().collect(alloc)?;
    match answer(alloc, &words, splits)? {
        Some((true, learnt)) => format!(in alloc; "bits after {learnt}"),
        Some((false, learnt)) => format!(in alloc; "none after {learnt}"),
        None => format!(in alloc; "refused"),
    }
}
