//! Parts, from their words to their status.
ghost use Rattle.std.specs.Prelude.{◌≤◌, IfOk};
ghost use Rattle.command_line.specs.Requests.{IsParts};
ghost use Rattle.listing_run.specs.Parts.Beginnings.{AreBeginnings};
ghost use Rattle.listing_run.specs.Parts.Answering.{IsPartsRun};

use crate::parts::finding::beginnings;
use crate::parts::putting::put_parts;
use command_line::PartsArgs;
use constraint_set::Problem;
use outer_store::{Sink, Store, StoreFault};
use point_query::Asker;
use rcc5_core::Position;
use run_ends::{Status, problem_under, put_end};
use std::alloc::{AllocError, Global};

// Where the parts begin.
fn beginnings_of(alloc: Global, problem: &Problem, count: u64) -> Result<Vec<Position>, AllocError>
    requires { 1 ≤ count }
    ensures { IfOk result (λ positions. AreBeginnings problem.now count positions.items) }
{
    let mut asker = Asker::new(alloc, problem)?;
    beginnings(alloc, problem, &mut asker, count)
}

/// Finds where the parts of the listing of the problem under a name begin, writes a token for each and puts its line, and answers
/// how the run ended.
pub fn run_parts<S: Store, W: Sink>(
    alloc: Global,
    store: &mut S,
    out: &mut W,
    args: &PartsArgs,
) -> Status
    requires { IsParts args.now }
    ensures { IsPartsRun args.now result (S.state store.old) (S.state store.new) (W.state out.old) (W.state out.new) }
{
    let problem = match problem_under(alloc, store, args.input.text(), args.switches) {
        Ok(problem) => problem,
        Err(status) => return put_end(alloc, out, status),
    };
    let positions = match beginnings_of(alloc, &problem, args.count) {
        Ok(positions) => positions,
        Err(AllocError) => return put_end(alloc, out, Status::NoMemory),
    };
    match put_parts(alloc, store, out, &problem, args, &positions) {
        Ok(status) => status,
        Err(StoreFault::Failed) => Status::WriteFault,
        Err(StoreFault::NoMemory) => put_end(alloc, out, Status::NoMemory),
    }
}
