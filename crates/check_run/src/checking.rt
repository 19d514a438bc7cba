//! A check: its problem and its certificate are read, and what the certificate says is put.
ghost use Rattle.std.specs.Prelude.{◌≡◌, IfOk, IfErr, OnOk};
ghost use Rattle.cert_check.specs.Answers.{verdict_of};
ghost use Rattle.outer_store.specs.States.{IsQuiet};
ghost use Rattle.run_ends.specs.Runs.{IsEarlyEnd, IsRunOf};
ghost use Rattle.check_run.specs.Checking.{IsCheckAnswer, check_names};
ghost use Rattle.check_run.specs.Steps.{status_of, IsAccepted, IsNotAccepted, IsVerdictOf, IsPutAnswer};

use crate::verdict::put_verdict;
use cert_check::{Accepted, CheckFault, check};
use constraint_set::Problem;
use outer_store::{Sink, Store, StoreFault, StoreReader};
use run_ends::{Status, problem_under, put_end};
use std::alloc::Global;
use world_model::Switches;

// How a run ends whose certificate is not accepted.
fn status_of(fault: CheckFault) -> Status
    ensures { result ≡ status_of fault }
{
    match fault {
        CheckFault::Text { line, kind } => Status::RefusedCert { line, kind },
        CheckFault::Rejected { line, kind } => Status::Rejected { line, kind },
        CheckFault::ReadFault => Status::ReadFault,
        CheckFault::NoMemory => Status::NoMemory,
    }
}

// What the certificate under a name says, or how the run ends without it.
fn accepted_under<S: Store>(
    alloc: Global,
    store: &mut S,
    problem: &Problem,
    cert: &str,
) -> Result<Accepted, Status>
    ensures accepted { IfOk result (λ accepted. IsAccepted problem.now ((S.state store.old).held cert.now) (verdict_of accepted)) }
    ensures quiet { OnOk result (IsQuiet (S.state store.old) (S.state store.new)) }
    ensures ended { IfErr result (λ status. IsNotAccepted problem.now cert.now status (S.state store.old) (S.state store.new)) }
    ensures kept { (S.state store.new).held ≡ (S.state store.old).held }
{
    let mut reader = StoreReader::new(store, cert);
    match check(alloc, problem, &mut reader) {
        Ok(accepted) => Ok(accepted),
        Err(fault) => Err(status_of(fault)),
    }
}

// What the certificate under a name says of the problem under another, or how the run ends without it.
fn accepted_of<S: Store>(
    alloc: Global,
    store: &mut S,
    input: &str,
    cert: &str,
    switches: Switches,
) -> Result<Accepted, Status>
    ensures accepted { IfOk result (λ accepted. IsVerdictOf input.now cert.now switches (S.state store.old).held (verdict_of accepted)) }
    ensures quiet { OnOk result (IsQuiet (S.state store.old) (S.state store.new)) }
    ensures ended { IfErr result (λ status. IsEarlyEnd (check_names input.now cert.now) (IsCheckAnswer input.now cert.now switches) status (S.state store.old) (S.state store.new)) }
    ensures kept { (S.state store.new).held ≡ (S.state store.old).held }
{
    let problem = problem_under(alloc, store, input, switches)?;
    accepted_under(alloc, store, &problem, cert)
}

// Puts what an accepted certificate says.
fn put_answer<W: Sink>(
    alloc: Global,
    out: &mut W,
    accepted: &Accepted,
) -> Result<Status, StoreFault>
    ensures { IsPutAnswer result (verdict_of accepted.now) (W.state out.old) (W.state out.new) }
{
    put_verdict(alloc, out, accepted)?;
    Ok(Status::Done)
}

/// Checks the certificate under one name for the problem under another, and answers how the run ended.
pub fn run_check<S: Store, W: Sink>(
    alloc: Global,
    store: &mut S,
    out: &mut W,
    input: &str,
    cert: &str,
    switches: Switches,
) -> Status
    ensures { IsRunOf (check_names input.now cert.now) (IsCheckAnswer input.now cert.now switches) result (S.state store.old) (S.state store.new) (W.state out.old) (W.state out.new) }
{
    let accepted = match accepted_of(alloc, store, input, cert, switches) {
        Ok(accepted) => accepted,
        Err(status) => return put_end(alloc, out, status),
    };
    match put_answer(alloc, out, &accepted) {
        Ok(status) => status,
        Err(StoreFault::Failed) => Status::WriteFault,
        Err(StoreFault::NoMemory) => put_end(alloc, out, Status::NoMemory),
    }
}
