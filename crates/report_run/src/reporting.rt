//! A report: its problem is read, the watchers see all worlds, and what they report is put.
ghost use Rattle.std.specs.Prelude.{◌≡◌, ◌++◌, [], map, flat_map, IfOk};
ghost use Rattle.merge_print.specs.Json.{HasUtf8Names};
ghost use Rattle.run_ends.specs.Ends.{complete_line};
ghost use Rattle.run_ends.specs.Runs.{LeavesPiece, IsRunOf};
ghost use Rattle.report_run.specs.Reporting.{watched, asked, AreKinds, report_of, report_text, report_status, IsReportAnswer, report_names};
ghost use Rattle.report_run.specs.Steps.{all_worlds, status_at};

use crate::asked::asked_for;
use crate::putting::put_reports;
use crate::showing::show_all;
use command_line::Word;
use constraint_set::Problem;
use merge_print::read_names_are_utf8;
use outer_store::{Sink, Store, StoreFault};
use run_ends::{Status, problem_under, put_complete, put_end};
use std::alloc::Global;
use world_model::Switches;
use world_watch::WorldWatcher;

// A good end by the number of worlds.
fn status_of(count: u64) -> Status
    ensures { result ≡ status_at count }
{
    if count == 0 {
        Status::NoWorld
    } else {
        Status::Done
    }
}

// Puts what watchers report that have seen all worlds, drops them, and puts how many worlds there are.
fn put_answer<W: Sink>(
    alloc: Global,
    out: &mut W,
    problem: &Problem,
    kinds: &[Word],
    watchers: Vec<Box<dyn WorldWatcher>>,
    count: u64,
) -> Result<(), StoreFault>
    requires utf8 { HasUtf8Names problem.now }
    requires named { map name watchers.items ≡ kinds.now }
    ensures { LeavesPiece result (flat_map (report_of problem.now []) (watched name text watchers.items) ++ complete_line count) (W.state out.old) (W.state out.new) }
{
    put_reports(alloc, out, problem, kinds, &watchers)?;
    drop(watchers);
    put_complete(alloc, out, count)
}

// Reports on a problem.
fn report<W: Sink>(
    alloc: Global,
    out: &mut W,
    problem: &Problem,
    kinds: &[Word],
    watchers: Vec<Box<dyn WorldWatcher>>,
) -> Result<Status, StoreFault>
    requires utf8 { HasUtf8Names problem.now }
    requires kinds { AreKinds (watched name text watchers.items) kinds.now }
    ensures status { IfOk result (λ status. status ≡ report_status (all_worlds problem.now)) }
    ensures put { LeavesPiece result (report_text problem.now (all_worlds problem.now) (asked (watched name text watchers.items) kinds.now)) (W.state out.old) (W.state out.new) }
{
    let mut asked = asked_for(alloc, kinds, watchers)?;
    let count = show_all(alloc, problem, &mut asked)?;
    put_answer(alloc, out, problem, kinds, asked, count)?;
    Ok(status_of(count))
}

/// Lets the watchers of the kinds that are asked for see all worlds of the problem under a name, puts what they report, in the
/// order of the kinds, and answers how the run ended. Of watchers with one name the first stands for it.
pub fn run_report<S: Store, W: Sink>(
    alloc: Global,
    store: &mut S,
    out: &mut W,
    input: &str,
    kinds: &[Word],
    switches: Switches,
    watchers: Vec<Box<dyn WorldWatcher>>,
) -> Status
    requires { AreKinds (watched name text watchers.items) kinds.now }
    ensures { IsRunOf (report_names input.now) (IsReportAnswer input.now kinds.now switches (watched name text watchers.items)) result (S.state store.old) (S.state store.new) (W.state out.old) (W.state out.new) }
{
    read_names_are_utf8();
    let problem = match problem_under(alloc, store, input, switches) {
        Ok(problem) => problem,
        Err(status) => return put_end(alloc, out, status),
    };
    problem.facts();
    match report(alloc, out, &problem, kinds, watchers) {
        Ok(status) => status,
        Err(StoreFault::Failed) => Status::WriteFault,
        Err(StoreFault::NoMemory) => put_end(alloc, out, Status::NoMemory),
    }
}
