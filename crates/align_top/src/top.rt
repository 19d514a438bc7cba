//! All that the program does with its words, a store and a sink.
ghost use Rattle.std.specs.Prelude.{◌≡◌, List, map, string_bytes, true, Ok};
ghost use Rattle.command_line.specs.Requests.{IsMade};
ghost use Rattle.report_run.specs.Reporting.{Watched, watched};
ghost use Rattle.align_top.specs.Output.{IsRunFor, IsRun};
ghost use Rattle.align_top.specs.Steps.{IsPlain, is_report};

use crate::words::read_words;
use check_run::{run_check, run_join};
use claims_run::{Question, run_claims, run_explain};
use command_line::{Request, WordsFault};
use listing_run::{run_listing, run_part, run_parts};
use outer_store::{Sink, Store};
use report_run::run_report;
use run_ends::{Status, put_end};
use std::alloc::Global;
use trial_run::run_trial;
use world_watch::WorldWatcher;

// Whether a request asks for a report.
fn is_report(request: &Request) -> bool
    ensures { result ≡ is_report request.now }
{
    matches!(request, Request::Report(_))
}

// Does what a request asks for that asks for no report.
fn run_plain<S: Store, W: Sink>(
    alloc: Global,
    store: &mut S,
    out: &mut W,
    request: Request,
) -> Status
    requires { IsPlain request }
    ensures { (watchers : List Watched) → IsRunFor watchers (Ok request) result (S.state store.old) (S.state store.new) (W.state out.old) (W.state out.new) }
{
    match request {
        Request::Align(args) => run_listing(alloc, store, out, &args),
        Request::Check(args) => run_check(
            alloc,
            store,
            out,
            args.input.text(),
            args.cert.text(),
            args.switches,
        ),
        Request::Mir(args) => run_claims(alloc, store, out, Question::Relations, &args),
        Request::Conflict(args) => run_claims(alloc, store, out, Question::Conflicts, &args),
        Request::Lattice(args) => run_claims(alloc, store, out, Question::Lattice, &args),
        Request::Explain(args) => run_explain(alloc, store, out, &args),
        Request::Parts(args) => run_parts(alloc, store, out, &args),
        Request::Part(args) => run_part(alloc, store, out, &args),
        Request::Join(args) => run_join(alloc, store, out, &args),
        Request::Trial(args) => run_trial(alloc, out, args.seed, args.size),
        Request::Report(_) => unreachable!(),
    }
}

// Does what a request asks for that asks for a report.
fn run_reporting<S: Store, W: Sink>(
    alloc: Global,
    store: &mut S,
    out: &mut W,
    request: Request,
    watchers: Vec<Box<dyn WorldWatcher>>,
) -> Status
    requires report { is_report request ≡ true }
    requires made { IsMade (map name watchers.items) request }
    ensures { IsRunFor (watched name text watchers.items) (Ok request) result (S.state store.old) (S.state store.new) (W.state out.old) (W.state out.new) }
{
    let Request::Report(args) = request else {
        unreachable!()
    };
    run_report(
        alloc,
        store,
        out,
        args.input.text(),
        args.kinds.list(),
        args.switches,
        watchers,
    )
}

// Does what a request asks for. Where no report is asked for, the watchers go first.
fn run_request<S: Store, W: Sink>(
    alloc: Global,
    store: &mut S,
    out: &mut W,
    request: Request,
    watchers: Vec<Box<dyn WorldWatcher>>,
) -> Status
    requires { IsMade (map name watchers.items) request }
    ensures { IsRunFor (watched name text watchers.items) (Ok request) result (S.state store.old) (S.state store.new) (W.state out.old) (W.state out.new) }
{
    if is_report(&request) {
        return run_reporting(alloc, store, out, request, watchers);
    }
    drop(watchers);
    run_plain(alloc, store, out, request)
}

/// Does what the words ask for, and answers how the run ended. The watchers are those that a report may ask for.
#[tactic(auto, using(crate::proofs::RunLemmas::words_rules))]
pub fn run<S: Store, W: Sink>(
    alloc: Global,
    words: &[String],
    store: &mut S,
    out: &mut W,
    watchers: Vec<Box<dyn WorldWatcher>>,
) -> Status
    ensures { IsRun (watched name text watchers.items) (map string_bytes words.now) result (S.state store.old) (S.state store.new) (W.state out.old) (W.state out.new) }
{
    match read_words(alloc, words, &watchers) {
        Ok(request) => run_request(alloc, store, out, request, watchers),
        Err(WordsFault::Usage(kind)) => put_end(alloc, out, Status::Usage(kind)),
        Err(WordsFault::NoMemory) => put_end(alloc, out, Status::NoMemory),
    }
}
