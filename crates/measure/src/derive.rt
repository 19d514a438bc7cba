//! A long derivation over ten given clauses: each line derives the same clause anew, by ten hints of
//! five literals each, of which nine are unit in turn and the last is false.

ghost use Rattle.std.specs.Prelude.{◌<◌};

use lits_core::{Clause, Ids, Line, LineFault, Lit};
use proof_check::Book;
use std::alloc::{AllocError, Global};

// The given clause with a number from 0 to 9: the first says `y0` under the four assumptions, the
// further ones lead from each `y` to the next, and the last denies the last `y`.
fn given(alloc: Global, number: u32) -> Result<Clause, AllocError>
    requires { number < 10 }
{
    let fourth = if number == 0 || number == 9 {
        Lit::new(3, true)
    } else {
        Lit::new(3 + number, true)
    };
    let last = if number == 9 {
        Lit::new(12, true)
    } else {
        Lit::new(4 + number, false)
    };
    Clause::from_lits(
        alloc,
        &[
            Lit::new(0, true),
            Lit::new(1, true),
            Lit::new(2, true),
            fourth,
            last,
        ],
    )
}

fn book(alloc: Global) -> Result<Book, AllocError> {
    let mut clauses = Vec::new(alloc);
    for number in 0..10u32 {
        clauses.push(given(alloc, number)?)?;
    }
    Book::new(alloc, clauses)
}

fn line(alloc: Global, id: u64) -> Result<Line, AllocError> {
    let lits = Clause::from_lits(
        alloc,
        &[
            Lit::new(0, true),
            Lit::new(1, true),
            Lit::new(2, true),
            Lit::new(3, true),
        ],
    )?;
    let hints = Ids::new(Vec::from_slice(alloc, &[1, 2, 3, 4, 5, 6, 7, 8, 9, 10])?);
    Ok(Line::Derive { id, lits, hints })
}

fn check_lines(alloc: Global, lines: u32) -> Result<u32, LineFault> {
    let mut book = book(alloc)?;
    for number in 0..lines {
        book.add_line(&line(alloc, 11 + u64::from(number))?)?;
    }
    Ok(lines)
}

/// What came of checking so many lines.
pub fn check(alloc: Global, lines: u32) -> Result<String, AllocError> {
    match check_lines(alloc, lines) {
        Ok(lines) => format!(in alloc; "checked {lines}"),
        Err(LineFault::NoMemory) => Err(AllocError),
        Err(fault) => format!(in alloc; "{fault}"),
    }
}
