//! An explanation, from its words to its status.
ghost use Rattle.std.specs.Prelude.{[], ◌∷◌};
ghost use Rattle.run_ends.specs.Runs.{IsRunOf};
ghost use Rattle.claims_run.specs.Explain.Answering.{IsExplainAnswer};

use crate::explain::putting::put_reason;
use crate::explain::reasoning::answer;
use command_line::ExplainArgs;
use outer_store::{Sink, Store, StoreFault};
use run_ends::{Status, problem_under, put_end};
use std::alloc::Global;

/// Finds the least statements of the problem under a name from which it follows that the relation of two concepts is one of a set,
/// puts them, and answers how the run ended.
pub fn run_explain<S: Store, W: Sink>(
    alloc: Global,
    store: &mut S,
    out: &mut W,
    args: &ExplainArgs,
) -> Status
    ensures { IsRunOf (record { read = args.now.input ∷ []; written = [] }) (IsExplainAnswer args.now) result (S.state store.old) (S.state store.new) (W.state out.old) (W.state out.new) }
{
    let problem = match problem_under(alloc, store, args.input.text(), args.switches) {
        Ok(problem) => problem,
        Err(status) => return put_end(alloc, out, status),
    };
    let kept = match answer(alloc, &problem, args) {
        Ok(kept) => kept,
        Err(status) => return put_end(alloc, out, status),
    };
    match put_reason(alloc, out, &problem, kept.list()) {
        Ok(()) => Status::Done,
        Err(StoreFault::Failed) => Status::WriteFault,
        Err(StoreFault::NoMemory) => put_end(alloc, out, Status::NoMemory),
    }
}
