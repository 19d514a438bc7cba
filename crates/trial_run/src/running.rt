//! A trial, from its seed to its status.
ghost use Rattle.std.specs.Prelude.{◌≡◌, IfOk};
ghost use Rattle.trial_run.specs.Made.{IsSize};
ghost use Rattle.outer_store.specs.States.{StoreState};
ghost use Rattle.run_ends.specs.Runs.{LeavesPiece, IsRunOf};
ghost use Rattle.trial_run.specs.Trials.{IsSummary, IsTrialAnswer, trial_names};

use crate::checked::checked_worlds;
use crate::making::make_problem;
use crate::summary::summary;
use outer_store::{Sink, StoreFault};
use run_ends::{Status, put_end, put_lines};
use std::alloc::{AllocError, Global};

// The summary of a trial.
fn trial_text(alloc: Global, seed: u64, size: u32) -> Result<Vec<u8>, AllocError>
    requires { IsSize size }
    ensures { IfOk result (λ text. IsSummary seed size text.items) }
{
    let problem = make_problem(alloc, seed, size)?;
    let (found, worlds) = checked_worlds(alloc, &problem)?;
    summary(alloc, seed, size, &problem, found, worlds.list())
}

// Puts a summary, a line in each put.
fn put_summary<W: Sink>(
    alloc: Global,
    out: &mut W,
    seed: u64,
    size: u32,
    text: &[u8],
) -> Result<(), StoreFault>
    requires { IsSummary seed size text.now }
    ensures { LeavesPiece result text.now (W.state out.old) (W.state out.new) }
{
    put_lines(alloc, out, text)
}

/// Makes the problem of a seed and a size, lists its worlds with a certificate, checks that certificate, and puts how many worlds
/// there are by both. It answers how the run ended, and reads and writes no store.
pub fn run_trial<W: Sink>(alloc: Global, out: &mut W, seed: u64, size: u32) -> Status
    requires { IsSize size }
    ensures { (store : StoreState) → IsRunOf trial_names (IsTrialAnswer seed size) result store store (W.state out.old) (W.state out.new) }
{
    let text = match trial_text(alloc, seed, size) {
        Ok(text) => text,
        Err(AllocError) => return put_end(alloc, out, Status::NoMemory),
    };
    match put_summary(alloc, out, seed, size, &text) {
        Ok(()) => Status::Done,
        Err(StoreFault::Failed) => Status::WriteFault,
        Err(StoreFault::NoMemory) => put_end(alloc, out, Status::NoMemory),
    }
}
