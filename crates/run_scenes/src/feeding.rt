//! Tables that are fed to watchers with no run around them, until a watcher refuses one.

ghost use Rattle.std.specs.Prelude.{◌≡◌, length, IfOk, IfSome};
ghost use Rattle.world_model.specs.Problem.{pair_count};
ghost use Rattle.merge_print.specs.Json.{HasUtf8Names};

use super::stop_watcher::StopWatcher;
use cleantax_text::read_problem;
use constraint_set::Problem;
use merge_print::read_names_are_utf8;
use rcc5_core::{Position, Rel};
use std::alloc::{AllocError, Global};
use world_model::Switches;
use world_watch::{CountWatcher, WorldWatcher, feed};

// The problem that a text says, if it says one.
fn problem_of(alloc: Global, text: &[u8]) -> Option<Problem>
    ensures { IfSome result (λ problem. HasUtf8Names problem) }
{
    read_names_are_utf8();
    let switches = Switches {
        nonempty: true,
        sibling: true,
        coverage: true,
    };
    match read_problem(alloc, text, switches) {
        Ok(problem) => Some(problem),
        Err(_) => None,
    }
}

// The table that letters say, if they say a relation for each pair of the problem.
fn table_of(alloc: Global, problem: &Problem, letters: &str) -> Result<Option<Position>, AllocError>
    ensures { IfOk result (λ found. IfSome found (λ table. length table ≡ pair_count problem.now)) }
{
    let mut table = Position::new(alloc);
    for letter in letters.bytes() {
        let Some(rel) = Rel::from_letter(letter) else {
            return Ok(None);
        };
        table.push(rel)?;
    }
    if table.len() != problem.pair_count() as usize {
        return Ok(None);
    }
    Ok(Some(table))
}

// Feeds tables to watchers until a watcher refuses one, and counts those before it. A word that says no table of the problem ends it, too.
fn feed_tables(
    alloc: Global,
    problem: &Problem,
    tables: &str,
    watchers: &mut Vec<Box<dyn WorldWatcher>>,
) -> Result<u64, AllocError>
    requires { HasUtf8Names problem.now }
{
    let mut count: u64 = 0;
    for letters in tables.split_whitespace() {
        let Some(table) = table_of(alloc, problem, letters)? else {
            return Ok(count);
        };
        if feed(watchers, problem, &table).is_err() {
            return Ok(count);
        }
        count = count.saturating_add(1);
    }
    Ok(count)
}

// Adds a name, a blank, and what a watcher reports of the problem.
fn tell_report(
    lines: &mut Vec<u8>,
    alloc: Global,
    problem: &Problem,
    name: &str,
    watcher: &Box<dyn WorldWatcher>,
) -> Result<(), AllocError>
    requires { HasUtf8Names problem.now }
{
    let report = watcher.report(alloc, problem)?;
    lines.extend_from_slice(name.as_bytes())?;
    lines.push(b' ')?;
    lines.extend_from_slice(&report)
}

fn lines_of(alloc: Global, problem: &Problem, tables: &str) -> Result<Vec<u8>, AllocError>
    requires { HasUtf8Names problem.now }
{
    let mut watchers: Vec<Box<dyn WorldWatcher>> = Vec::new(alloc);
    watchers.push(Box::new(alloc, CountWatcher::new(alloc))?)?;
    watchers.push(Box::new(alloc, StopWatcher::new(alloc, 2))?)?;
    let count = feed_tables(alloc, problem, tables, &mut watchers)?;
    let fed = format!(in alloc; "fed {count}\n")?;
    let mut lines = Vec::from_slice(alloc, fed.as_bytes())?;
    for (watcher, name) in watchers.iter().zip(["count", "stop"].iter()) {
        tell_report(&mut lines, alloc, problem, name, watcher)?;
    }
    Ok(lines)
}

/// Feeds tables of the problem that a text says to a watcher that counts and to one that finds no memory at the third, until one of the
/// two refuses. Lines tell how many tables both took, and what each of the two then reports.
pub fn fed_lines(alloc: Global, text: &[u8], tables: &str) -> Result<Vec<u8>, AllocError> {
    match problem_of(alloc, text) {
        Some(problem) => lines_of(alloc, &problem, tables),
        None => Vec::from_slice(alloc, b"no problem\n"),
    }
}
