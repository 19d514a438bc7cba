//! A part from its words to its end.
ghost use Rattle.command_line.specs.Requests.{IsPart};
ghost use Rattle.run_ends.specs.Runs.{IsRunOf};
ghost use Rattle.listing_run.specs.Part.Answering.{part_names, IsPartAnswer};

use crate::part::putting::put_part;
use crate::part::reading::plan_of;
use command_line::PartArgs;
use outer_store::{Sink, Store, StoreFault};
use run_ends::{Status, put_end};
use std::alloc::Global;

/// Lists the worlds of the problem under a name from the position of one token up to that of another, or from the beginning or to
/// the end where none is given, writes their certificate, and answers how the run ended.
pub fn run_part<S: Store, W: Sink>(
    alloc: Global,
    store: &mut S,
    out: &mut W,
    args: &PartArgs,
) -> Status
    requires { IsPart args.now }
    ensures { IsRunOf (part_names args.now) (IsPartAnswer args.now) result (S.state store.old) (S.state store.new) (W.state out.old) (W.state out.new) }
{
    let plan = match plan_of(alloc, store, args) {
        Ok(plan) => plan,
        Err(status) => return put_end(alloc, out, status),
    };
    match put_part(alloc, store, out, &plan, args.cert.text()) {
        Ok(status) => status,
        Err(StoreFault::Failed) => Status::WriteFault,
        Err(StoreFault::NoMemory) => put_end(alloc, out, Status::NoMemory),
    }
}
