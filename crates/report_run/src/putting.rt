//! The lines of reports.
ghost use Rattle.std.specs.Prelude.{◌≡◌, ◌++◌, [], codes, flat_map, map, IfOk};
ghost use Rattle.merge_print.specs.Json.{HasUtf8Names};
ghost use Rattle.run_ends.specs.Ends.{line_of, in_lines};
ghost use Rattle.run_ends.specs.Runs.{LeavesPiece};
ghost use Rattle.report_run.specs.Reporting.{watched, report_of};

use command_line::Word;
use constraint_set::Problem;
use outer_store::{Sink, StoreFault};
use run_ends::{put_line, put_lines};
use std::alloc::{AllocError, Global};
use world_watch::WorldWatcher;

// The words of the line above a report.
fn heading(alloc: Global, kind: &Word) -> Result<Vec<u8>, AllocError>
    ensures { IfOk result (λ words. words.items ≡ codes "report " ++ kind.now) }
{
    let mut words = Vec::from_slice(alloc, b"report ")?;
    words.extend_from_slice(kind.text().as_bytes())?;
    Ok(words)
}

fn put_heading<W: Sink>(alloc: Global, out: &mut W, kind: &Word) -> Result<(), StoreFault>
    ensures { LeavesPiece result (line_of (codes "report " ++ kind.now)) (W.state out.old) (W.state out.new) }
{
    let words = heading(alloc, kind)?;
    put_line(alloc, out, &words)
}

// Puts what a watcher reports of a problem.
fn put_told<W: Sink>(
    alloc: Global,
    out: &mut W,
    problem: &Problem,
    watcher: &Box<dyn WorldWatcher>,
) -> Result<(), StoreFault>
    requires { HasUtf8Names problem.now }
    ensures { LeavesPiece result (in_lines (text watcher.now problem.now [])) (W.state out.old) (W.state out.new) }
{
    let report = watcher.report(alloc, problem)?;
    put_lines(alloc, out, &report)
}

// Puts what a watcher reports, under its heading.
fn put_report<W: Sink>(
    alloc: Global,
    out: &mut W,
    problem: &Problem,
    kind: &Word,
    watcher: &Box<dyn WorldWatcher>,
) -> Result<(), StoreFault>
    requires { HasUtf8Names problem.now }
    ensures { LeavesPiece result (line_of (codes "report " ++ kind.now) ++ in_lines (text watcher.now problem.now [])) (W.state out.old) (W.state out.new) }
{
    put_heading(alloc, out, kind)?;
    put_told(alloc, out, problem, watcher)
}

/// Puts what watchers report of a problem, each under the name of its kind.
pub(crate) fn put_reports<W: Sink>(
    alloc: Global,
    out: &mut W,
    problem: &Problem,
    kinds: &[Word],
    watchers: &[Box<dyn WorldWatcher>],
) -> Result<(), StoreFault>
    requires utf8 { HasUtf8Names problem.now }
    requires named { map name watchers.now ≡ kinds.now }
    ensures { LeavesPiece result (flat_map (report_of problem.now []) (watched name text watchers.now)) (W.state out.old) (W.state out.new) }
{
    for place in 0..watchers.len() {
        put_report(alloc, out, problem, &kinds[place], &watchers[place])?;
    }
    Ok(())
}
