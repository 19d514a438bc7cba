//! Clauses that are derived by hints, and what waits after an answer.
ghost use Rattle.std.specs.Prelude.{◌≡◌};

use crate::solver_and_book::{REGIONS, ask, digit, lit, sign, solver_of};
use learn_solver::Solver;
use lits_core::Line;
use std::alloc::{AllocError, Global};
use std::test::Fail;

/// Whether hints derive that "B", "B is in D" and "D is in C" do not go together, as clause 23.
fn is_derived(solver: &mut Solver, hints: &[u64]) -> Result<bool, AllocError>
    requires { solver.old.variables ≡ 22 }
    ensures { solver.new.variables ≡ 22 }
{
    let id = solver.derive(&[lit(-2), lit(-8), lit(-13)], hints)?;
    Ok(id == Some(23))
}

/// Puts whether hints derive it.
fn derive(text: &mut String, solver: &mut Solver, hints: &[u64]) -> Result<(), AllocError>
    requires { solver.old.variables ≡ 22 }
    ensures { solver.new.variables ≡ 22 }
{
    text.push(sign(is_derived(solver, hints)?))
}

/// Puts how many hints each waiting line has.
fn put_lines(text: &mut String, solver: &Solver) -> Result<(), AllocError> {
    for line in solver.lines() {
        match line {
            Line::Derive { hints, .. } => text.push(digit(hints.list().len() as u64))?,
            Line::Forget { .. } => text.push('k')?,
        }
    }
    text.push(';')
}

fn fail_to_derive(alloc: Global, solver: &mut Solver) -> Result<String, AllocError>
    requires { solver.old.variables ≡ 22 }
{
    let mut text = String::new(alloc);
    derive(&mut text, solver, &[8, 13])?;
    derive(&mut text, solver, &[13, 8, 3])?;
    derive(&mut text, solver, &[8, 40, 3])?;
    put_lines(&mut text, solver)?;
    Ok(text)
}

fn failures(alloc: Global) -> Result<String, AllocError> {
    let mut solver = solver_of(alloc, REGIONS)?;
    fail_to_derive(alloc, &mut solver)
}

// Hints that end too soon, a clause that comes too early and an id of no clause derive nothing.
#[test]
fn not_derived(rt: HostRuntime) -> Result<(), Fail> {
    let text = failures(rt.alloc())?;
    assert_eq!(rt; text.as_str(), "---;");
    Ok(())
}

fn derive_and_ask(alloc: Global, solver: &mut Solver) -> Result<String, AllocError>
    requires { solver.old.variables ≡ 22 }
{
    let mut text = String::new(alloc);
    derive(&mut text, solver, &[8, 13, 3, 40])?;
    put_lines(&mut text, solver)?;
    ask(&mut text, solver, [2, 8, 13])?;
    put_lines(&mut text, solver)?;
    Ok(text)
}

fn derived(alloc: Global) -> Result<String, AllocError> {
    let mut solver = solver_of(alloc, REGIONS)?;
    derive_and_ask(alloc, &mut solver)
}

// The clauses "B is in D", "D is in C" and "B and C are apart" derive it, in this order, and a hint after them is dropped. The
// solver then answers by it.
#[test]
fn derived_by_hints(rt: HostRuntime) -> Result<(), Fail> {
    let text = derived(rt.alloc())?;
    assert_eq!(rt; text.as_str(), "+3;23 3;");
    Ok(())
}

fn ask_and_clear(alloc: Global, solver: &mut Solver) -> Result<String, AllocError>
    requires { solver.old.variables ≡ 22 }
{
    let mut text = String::new(alloc);
    ask(&mut text, solver, [2, 8, 13])?;
    put_lines(&mut text, solver)?;
    text.push(digit(solver.idle()))?;
    solver.clear_lines();
    ask(&mut text, solver, [2, 8, 10])?;
    put_lines(&mut text, solver)?;
    Ok(text)
}

fn cleared(alloc: Global) -> Result<String, AllocError> {
    let mut solver = solver_of(alloc, REGIONS)?;
    ask_and_clear(alloc, &mut solver)
}

// "B", "B is in D" and "D is in C" are refuted, since B and C are apart: the clause waits with its hints, also after the
// lines were dropped and "D is in B" was asked, which has bits.
#[test]
fn refuted_then_bits(rt: HostRuntime) -> Result<(), Fail> {
    let text = cleared(rt.alloc())?;
    assert_eq!(rt; text.as_str(), "23 3;1++ ;");
    Ok(())
}
