//! A listing from its words to its end.
ghost use Rattle.run_ends.specs.Runs.{IsRunOf};
ghost use Rattle.command_line.specs.Requests.{IsAlign};
ghost use Rattle.listing_run.specs.Output.{listing_names, IsListingAnswer};

use crate::carry::carry_out;
use crate::reading::plan_of;
use command_line::AlignArgs;
use outer_store::{Sink, Store, StoreFault};
use run_ends::{Status, put_end};
use std::alloc::Global;

/// Lists what is asked for: the worlds from the start on, up to the cut of the budget, with the token of the cut and the certificate
/// where names for them are given.
pub fn run_listing<S: Store, W: Sink>(
    alloc: Global,
    store: &mut S,
    out: &mut W,
    args: &AlignArgs,
) -> Status
    requires { IsAlign args.now }
    ensures { IsRunOf (listing_names args.now) (IsListingAnswer args.now) result (S.state store.old) (S.state store.new) (W.state out.old) (W.state out.new) }
{
    let plan = match plan_of(alloc, store, args) {
        Ok(plan) => plan,
        Err(status) => return put_end(alloc, out, status),
    };
    match carry_out(alloc, store, out, &plan, &args.cert, &args.token) {
        Ok(status) => status,
        Err(StoreFault::Failed) => Status::WriteFault,
        Err(StoreFault::NoMemory) => put_end(alloc, out, Status::NoMemory),
    }
}
