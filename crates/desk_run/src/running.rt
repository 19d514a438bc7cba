//! A run of the desk, from its files to its status.
ghost use Rattle.command_line.specs.Requests.{desk_names};
ghost use Rattle.run_ends.specs.Runs.{IsRunBy};
ghost use Rattle.desk_run.specs.Ends.{desk_ending_of};
ghost use Rattle.desk_run.specs.Answering.{IsDeskAnswer};

use crate::asked::{Asked, asked_of};
use crate::serving::serve_all;
use crate::{DeskArgs, DeskStatus, put_desk_end};
use outer_store::{Sink, Store, StoreFault};
use std::alloc::Global;

/// Serves the script in one file at the desk of the problem in another: puts the reply to each request, and answers how the run ended.
pub fn run_desk<S: Store, W: Sink>(
    alloc: Global,
    store: &mut S,
    out: &mut W,
    args: &DeskArgs,
) -> DeskStatus
    ensures { IsRunBy (desk_ending_of result) (desk_names args.now) (IsDeskAnswer args.now) result (S.state store.old) (S.state store.new) (W.state out.old) (W.state out.new) }
{
    let Asked { problem, requests } = match asked_of(alloc, store, args) {
        Ok(asked) => asked,
        Err(status) => return put_desk_end(alloc, out, status),
    };
    match serve_all(alloc, out, problem, &requests) {
        Ok(()) => DeskStatus::Done,
        Err(StoreFault::Failed) => DeskStatus::WriteFault,
        Err(StoreFault::NoMemory) => put_desk_end(alloc, out, DeskStatus::NoMemory),
    }
}
