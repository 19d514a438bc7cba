//! A small program for benchmarks and for tries on devices, which stand outside the gate. It prints what came of its words,
//! which are one or more triples:
//!
//! - `read FILE PIECES` reads pieces of 64 KiB, so many at most, up to the file's end;
//! - `write FILE PIECES` makes the file of so many pieces;
//! - `derive lines LINES` checks a derivation of so many lines, each with ten hints of five literals;
//! - `problem FILE 1` reads the problem in the file;
//! - `family FILE TIMES` asks so many times whether a family of 1,000 elements meets the problem in the file and has its table;
//! - `chain TIMES VARIABLES` propagates so many times along a chain of so many variables, each of which implies the next;
//! - `random TIMES VARIABLES` assumes random literals over random clauses until one is false, so many times;
//! - `solve FILE SPLITS` gives the solver the formula in the file, which is in the DIMACS form. So many of its first variables
//!   are assumed, in each way one after the other, and idle clauses are forgotten in between.
#![tactic(auto)]

mod derive;
mod families;
mod files;
mod propagation;
mod solving;

use outer_store::FileStore;
use std::alloc::AllocError;
use std::env;

// The words after the program's name.
fn words(rt: &HostRuntime) -> Option<Vec<String>> {
    let mut words = Vec::new(rt.alloc());
    for word in env::args(rt).ok()? {
        words.push(word).ok()?;
    }
    Some(words)
}

// What a command answers, as the line to print.
fn answer(rt: &HostRuntime, command: &str, name: &str, count: &str) -> Result<String, AllocError> {
    let alloc = rt.alloc();
    let count = files::number(count);
    match command {
        "read" => files::read(alloc, &mut FileStore::new(alloc, rt), name, count),
        "write" => files::write(alloc, &mut FileStore::new(alloc, rt), name, count),
        "derive" => derive::check(alloc, count),
        "problem" => families::read(alloc, &mut FileStore::new(alloc, rt), name),
        "family" => families::meet(alloc, &mut FileStore::new(alloc, rt), name, count),
        "chain" => propagation::follow_chain(alloc, files::number(name), count),
        "random" => propagation::follow_random(alloc, files::number(name), count),
        "solve" => solving::solve(alloc, &mut FileStore::new(alloc, rt), name, count),
        _ => format!(in alloc; "unknown"),
    }
}

fn main(rt: HostRuntime) -> Result<(), std::io::Error> {
    let Some(words) = words(&rt) else {
        return Ok(());
    };
    let mut rest: &[String] = match words.as_slice() {
        [_, after @ ..] => after,
        [] => &[],
    };
    'commands: while let [command, name, count, after @ ..] = rest {
        match answer(&rt, command.as_str(), name.as_str(), count.as_str()) {
            Ok(line) => println!(rt; "{line}")?,
            Err(_) => println!(rt; "no memory")?,
        }
        rest = after;
    }
    Ok(())
}
