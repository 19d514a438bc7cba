//! A join, from its words to its status.
ghost use Rattle.run_ends.specs.Runs.{IsRunOf};
ghost use Rattle.check_run.specs.Join.Answering.{IsJoinAnswer, join_names};

use crate::join::joining::joined_of;
use crate::join::putting::put_joined;
use command_line::JoinArgs;
use outer_store::{Sink, Store, StoreFault};
use run_ends::{Status, put_end};
use std::alloc::Global;

/// Joins the certificates of parts of the listing of a problem, puts all its possible worlds, and answers how the run ended.
pub fn run_join<S: Store, W: Sink>(
    alloc: Global,
    store: &mut S,
    out: &mut W,
    args: &JoinArgs,
) -> Status
    ensures { IsRunOf (join_names args.now) (IsJoinAnswer args.now) result (S.state store.old) (S.state store.new) (W.state out.old) (W.state out.new) }
{
    let joined = match joined_of(alloc, store, args) {
        Ok(joined) => joined,
        Err(status) => return put_end(alloc, out, status),
    };
    match put_joined(alloc, out, &joined) {
        Ok(status) => status,
        Err(StoreFault::Failed) => Status::WriteFault,
        Err(StoreFault::NoMemory) => put_end(alloc, out, Status::NoMemory),
    }
}
