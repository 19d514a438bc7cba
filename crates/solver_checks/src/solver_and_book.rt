//! The lines that the solver makes, given to a book of the checker.

ghost use Rattle.std.specs.Prelude.{◌≡◌, ◌<◌, [], false, IfOk};
ghost use Rattle.lits_core.specs.Literals.{variable_of, is_negative};

use learn_solver::{Answer, Solver};
use lits_core::{Bits, Clause, Line, LineFault, Lit};
use proof_check::Book;
use std::alloc::{AllocError, Global};
use std::str::SplitWhitespace;
use std::test::Fail;

/// A literal by its number, from 1 to 22; it is negative with `-`.
pub(crate) fn lit(number: i32) -> Lit
    ensures { variable_of result < 22 }
{
    Lit::new(number.unsigned_abs().wrapping_sub(1) % 22, number < 0)
}

/// A variable's literal, by its number.
fn variable(number: i32) -> Lit
    ensures variable { variable_of result < 22 }
    ensures positive { is_negative result ≡ false }
{
    Lit::new(number.unsigned_abs().wrapping_sub(1) % 22, false)
}

/// A over B and C, and D: B and C are in A and apart, and A is in B or C. Then for each pair of concepts three selectors,
/// each of which rules out one of their regions. A clause a line; a short one repeats a literal.
pub(crate) const REGIONS: &str = "-2 1 1\n-3 1 1\n-2 -3 -3\n-1 2 3\n\
    -5 -1 4\n-6 -1 -4\n-7 1 -4\n-8 -2 4\n\
    -9 -2 -4\n-10 2 -4\n-11 -3 4\n-12 -3 -4\n\
    -13 3 -4\n-14 -1 2\n-15 -1 -2\n-16 1 -2\n\
    -17 -1 3\n-18 -1 -3\n-19 1 -3\n-20 -2 3\n\
    -21 -2 -3\n-22 2 -3";

/// Four pigeons in three holes: the pigeons' clauses, and then for each hole no two of them. Variable `3 * p + h + 1` puts
/// pigeon `p` into hole `h`.
pub(crate) const PIGEONS: &str = "1 2 3\n4 5 6\n7 8 9\n10 11 12\n\
    -1 -4 -4\n-1 -7 -7\n-1 -10 -10\n-4 -7 -7\n\
    -4 -10 -10\n-7 -10 -10\n-2 -5 -5\n-2 -8 -8\n\
    -2 -11 -11\n-5 -8 -8\n-5 -11 -11\n-8 -11 -11\n\
    -3 -6 -6\n-3 -9 -9\n-3 -12 -12\n-6 -9 -9\n\
    -6 -12 -12\n-9 -12 -12";

/// The literal of the next word.
fn next_lit(words: &mut SplitWhitespace<'_>) -> Lit
    ensures { variable_of result < 22 }
{
    match words.next() {
        Some(word) => lit(word.parse().unwrap_or(1)),
        None => lit(1),
    }
}

/// Adds the clause of a line.
fn add(solver: &mut Solver, line: &str) -> Result<(), AllocError>
    requires variables { solver.old.variables ≡ 22 }
    requires first { solver.old.state.derived ≡ [] }
    requires quiet { solver.old.waiting ≡ [] }
    ensures variables { IfOk result (λ _. solver.new.variables ≡ 22) }
    ensures first { IfOk result (λ _. solver.new.state.derived ≡ []) }
    ensures quiet { IfOk result (λ _. solver.new.waiting ≡ []) }
{
    let mut words = line.split_whitespace();
    let first = next_lit(&mut words);
    let second = next_lit(&mut words);
    let third = next_lit(&mut words);
    solver.add(&[first, second, third])?;
    Ok(())
}

/// Adds the clauses of all lines.
fn add_all(solver: &mut Solver, clauses: &str) -> Result<(), AllocError>
    requires variables { solver.old.variables ≡ 22 }
    requires first { solver.old.state.derived ≡ [] }
    requires quiet { solver.old.waiting ≡ [] }
    ensures { IfOk result (λ _. solver.new.variables ≡ 22) }
{
    for line in clauses.lines() {
        add(solver, line)?;
    }
    Ok(())
}

pub(crate) fn solver_of(alloc: Global, clauses: &str) -> Result<Solver, AllocError>
    ensures { IfOk result (λ solver. solver.variables ≡ 22) }
{
    let mut solver = Solver::new(alloc, 22)?;
    add_all(&mut solver, clauses)?;
    Ok(solver)
}

fn clause_of(alloc: Global, line: &str) -> Result<Clause, AllocError> {
    let mut words = line.split_whitespace();
    let first = next_lit(&mut words);
    let second = next_lit(&mut words);
    let third = next_lit(&mut words);
    Clause::from_lits(alloc, &[first, second, third])
}

pub(crate) fn book_of(alloc: Global, clauses: &str) -> Result<Book, AllocError> {
    let mut given = Vec::new(alloc);
    for line in clauses.lines() {
        given.push(clause_of(alloc, line)?)?;
    }
    Book::new(alloc, given)
}

pub(crate) fn accept_all(book: &mut Book, lines: &[Line]) -> Result<(), LineFault> {
    for line in lines {
        book.add_line(line)?;
    }
    Ok(())
}

/// Solves with three variables assumed, each by its number.
pub(crate) fn solve(solver: &mut Solver, numbers: [i32; 3]) -> Result<Answer, AllocError>
    requires { solver.old.variables ≡ 22 }
    ensures { solver.new.variables ≡ 22 }
{
    let [a, b, c] = numbers;
    solver.solve(&[variable(a), variable(b), variable(c)], &[])
}

/// Whether bits say that a variable holds, given by its number.
pub(crate) fn is_true(bits: &Bits, number: i32) -> bool {
    let lit = variable(number);
    (lit.variable() as usize) < bits.len() && lit.true_in(bits)
}

/// Whether a literal is the negation of one of these variables.
fn is_ruled_out(lit: Lit, numbers: &[i32]) -> bool {
    numbers
        .iter()
        .any(|number| lit == variable(*number).negate())
}

pub(crate) fn sign(holds: bool) -> char {
    if holds { '+' } else { '-' }
}

/// The last digit of a number.
pub(crate) fn digit(number: u64) -> char {
    char::from_digit((number % 10) as u32, 10).unwrap_or('?')
}

/// Adds the id of the refuting clause, of two digits, or a sign for each of two variables that are to hold in the bits.
pub(crate) fn put_answer(
    text: &mut String,
    answer: &Answer,
    holding: [i32; 2],
) -> Result<(), AllocError> {
    match answer {
        Answer::Refuted(id) => {
            text.push(digit(*id / 10))?;
            text.push(digit(*id))
        }
        Answer::Bits(bits) => {
            text.push(sign(is_true(bits, holding[0])))?;
            text.push(sign(is_true(bits, holding[1])))
        }
    }
}

/// Asks with three variables assumed, and puts the answer: in bits, "B" and "D" are to hold.
pub(crate) fn ask(
    text: &mut String,
    solver: &mut Solver,
    numbers: [i32; 3],
) -> Result<(), AllocError>
    requires { solver.old.variables ≡ 22 }
    ensures { solver.new.variables ≡ 22 }
{
    let answer = solve(solver, numbers)?;
    put_answer(text, &answer, [2, 4])?;
    text.push(' ')
}

/// Puts how many lines wait, and whether a book accepts them.
fn put_lines(text: &mut String, solver: &Solver, book: &mut Book) -> Result<(), AllocError> {
    text.push(digit(solver.lines().len() as u64))?;
    text.push(sign(accept_all(book, solver.lines()).is_ok()))?;
    text.push(' ')
}

/// Whether a book has a live clause of this id, each literal of which is ruled out by these variables.
fn is_live(book: &Book, id: u64, numbers: &[i32]) -> bool {
    match book.live(id) {
        Some(lits) => lits.iter().all(|lit| is_ruled_out(*lit, numbers)),
        None => false,
    }
}

// "B", "B is in D" and "D is in C" are refuted, and "D is in B" in place of the last is not.
fn refute(alloc: Global, solver: &mut Solver, book: &mut Book) -> Result<String, AllocError>
    requires { solver.old.variables ≡ 22 }
{
    let mut text = String::new(alloc);
    ask(&mut text, solver, [2, 8, 13])?;
    ask(&mut text, solver, [2, 8, 10])?;
    put_lines(&mut text, solver, book)?;
    text.push(sign(is_live(book, 23, &[2, 8, 13])))?;
    Ok(text)
}

// Here and below no `?` comes after a solver or a book is made: each would be one more place that lets it go, and proving those
// is dear.
fn refute_with_book(alloc: Global, solver: &mut Solver) -> Result<String, AllocError>
    requires { solver.old.variables ≡ 22 }
{
    let mut book = book_of(alloc, REGIONS)?;
    refute(alloc, solver, &mut book)
}

fn refutation(alloc: Global) -> Result<String, AllocError> {
    let mut solver = solver_of(alloc, REGIONS)?;
    refute_with_book(alloc, &mut solver)
}

// One line waits after both questions.
#[test]
fn a_book_accepts_the_lines_of_a_refutation(rt: HostRuntime) -> Result<(), Fail> {
    let text = refutation(rt.alloc())?;
    assert_eq!(rt; text.as_str(), "23 ++ 1+ +");
    Ok(())
}

// A refutation where the clauses that are idle are forgotten after the first answer.
fn forget(alloc: Global, solver: &mut Solver, book: &mut Book) -> Result<String, AllocError>
    requires { solver.old.variables ≡ 22 }
{
    let mut text = String::new(alloc);
    ask(&mut text, solver, [2, 8, 13])?;
    solver.tidy()?;
    text.push(digit(solver.idle()))?;
    ask(&mut text, solver, [2, 8, 10])?;
    text.push(sign(accept_all(book, solver.lines()).is_ok()))?;
    Ok(text)
}

fn forget_with_book(alloc: Global, solver: &mut Solver) -> Result<String, AllocError>
    requires { solver.old.variables ≡ 22 }
{
    let mut book = book_of(alloc, REGIONS)?;
    forget(alloc, solver, &mut book)
}

fn forgetting(alloc: Global) -> Result<String, AllocError> {
    let mut solver = solver_of(alloc, REGIONS)?;
    forget_with_book(alloc, &mut solver)
}

#[test]
fn an_answer_stands_after_forgetting(rt: HostRuntime) -> Result<(), Fail> {
    let text = forgetting(rt.alloc())?;
    assert_eq!(rt; text.as_str(), "23 0++ +");
    Ok(())
}

/// Whether a solver refutes its clauses, by more than one line, and a book accepts the lines and then has the clause with no
/// literals.
fn is_refuted(solver: &mut Solver, book: &mut Book) -> Result<bool, AllocError> {
    match solver.solve(&[], &[])? {
        Answer::Refuted(id) => Ok(
            solver.lines().len() > 1
                && accept_all(book, solver.lines()).is_ok()
                && matches!(book.live(id), Some([])),
        ),
        Answer::Bits(_) => Ok(false),
    }
}

fn pigeons_with_book(alloc: Global, solver: &mut Solver) -> Result<bool, AllocError> {
    let mut book = book_of(alloc, PIGEONS)?;
    is_refuted(solver, &mut book)
}

fn pigeons(alloc: Global) -> Result<bool, AllocError> {
    let mut solver = solver_of(alloc, PIGEONS)?;
    pigeons_with_book(alloc, &mut solver)
}

// No pigeon is left out: the lines lead to the clause with no literals.
#[test]
fn a_book_accepts_the_lines_of_pigeons(rt: HostRuntime) -> Result<(), Fail> {
    assert!(rt; pigeons(rt.alloc())?);
    Ok(())
}
