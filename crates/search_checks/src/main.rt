//! Sets the searches and the askers beside plain ones that know nothing of them, for tests. The words are triples:
//!
//! - `askers FILE SWITCHES`: the asker that keeps points and clauses, beside a new plain asker at each node of the problem in the file;
//! - `turns FILE SWITCHES`: one such asker in turn at all problems that keep some of two articulations, whole or with the first pair
//!   narrowed, beside the plain walk;
//! - `search FILE SWITCHES`: a search with a table of all points and one without, beside the plain walk: at once, by ones, twos and sevens
//!   of nodes, and with no node left right behind each world; and where it stops at each count of nodes;
//! - `ways FILE SWITCHES`: the two ways of a search beside each other, node by node;
//! - `span FILE FROM:TO`: what a search meets from a position on and below another; a minus for no end.
//!
//! SWITCHES is `all`, or the one switch that is off: `nonempty`, `sibling` or `coverage`.
#![tactic(auto)]

mod asker;
mod askers;
mod nodes;
mod problems;
mod searches;
mod spans;
mod turns;

use problems::switches_of;
use std::alloc::AllocError;
use std::{env, fs, io};

// What comes of a triple of words.
fn answer(rt: &HostRuntime, what: &str, text: &str, how: &str) -> Result<String, AllocError> {
    let alloc = rt.alloc();
    match what {
        "askers" => askers::compared(alloc, text, switches_of(how)),
        "turns" => turns::compared(alloc, text, switches_of(how)),
        "search" => searches::compared(alloc, text, switches_of(how)),
        "ways" => spans::both_ways(alloc, text, switches_of(how)),
        _ => spans::met_between(alloc, text, how),
    }
}

fn tell(rt: &HostRuntime, what: &str, name: &str, how: &str) -> io::Result<()> {
    let text = fs::read_to_string(rt, name)?;
    let said = answer(rt, what, text.as_str(), how)?;
    println!(rt; "{what} {name} {how}: {said}")
}

// The words after the program's name.
fn words(rt: &HostRuntime) -> io::Result<Vec<String>> {
    let mut words = Vec::new(rt.alloc());
    for word in env::args(rt)?.skip(1) {
        words.push(word)?;
    }
    Ok(words)
}

fn main(rt: HostRuntime) -> Result<(), io::Error> {
    for triple in words(&rt)?.chunks(3) {
        if let [what, name, how] = triple {
            tell(&rt, what.as_str(), name.as_str(), how.as_str())?;
        }
    }
    Ok(())
}
