//! What is asked: a problem, and a script for its desk.
ghost use Rattle.std.specs.Prelude.{◌≡◌, Ok, All, IfOk, IfErr, OnOk};
ghost use Rattle.outer_store.specs.States.{IsQuiet};
ghost use Rattle.desk_run.specs.Script.Requests.{IsRequest};
ghost use Rattle.desk_run.specs.Script.Script.{script_result};
ghost use Rattle.run_ends.specs.Reads.{AreFront};
ghost use Rattle.desk_run.specs.Ends.{desk_status_of};
ghost use Rattle.desk_run.specs.Steps.{IsProblemOf, IsAsked, AreRequestsOf, IsUnread, IsScriptEnd, IsWithoutScript, IsEarlyDeskEnd};

use crate::script::{DeskRequest, ScriptFault, read_script};
use crate::{DeskArgs, DeskStatus};
use constraint_set::Problem;
use outer_store::{Store, StoreFault};
use run_ends::{Status, TEXT_LIMIT, problem_under, read_front};
use std::alloc::Global;

/// A problem, and the requests to its desk.
#[derive(Drop)]
pub(crate) struct Asked {
    pub(crate) problem: Problem,
    pub(crate) requests: Vec<DeskRequest>,
}

// How a run ends that has no problem.
fn desk_status(status: Status) -> DeskStatus
    ensures { result ≡ desk_status_of status }
{
    match status {
        Status::RefusedText { line, kind } => DeskStatus::RefusedText { line, kind },
        Status::ReadFault => DeskStatus::ReadFault,
        _ => DeskStatus::NoMemory,
    }
}

// The problem in its file, or how the run ends without it.
fn problem_of<S: Store>(
    alloc: Global,
    store: &mut S,
    args: &DeskArgs,
) -> Result<Problem, DeskStatus>
    ensures problem { IfOk result (IsProblemOf args.now (S.state store.old).held) }
    ensures quiet { OnOk result (IsQuiet (S.state store.old) (S.state store.new)) }
    ensures ended { IfErr result (λ status. IsEarlyDeskEnd args.now status (S.state store.old) (S.state store.new)) }
    ensures kept { (S.state store.new).held ≡ (S.state store.old).held }
{
    match problem_under(alloc, store, args.input.text(), args.switches) {
        Ok(problem) => Ok(problem),
        Err(status) => Err(desk_status(status)),
    }
}

// The bytes under a name: as many as a script may have, and one more.
fn script_bytes<S: Store>(alloc: Global, store: &mut S, name: &str) -> Result<Vec<u8>, DeskStatus>
    ensures front { IfOk result (λ bytes. AreFront (S.state store.old).held name.now bytes.items) }
    ensures quiet { OnOk result (IsQuiet (S.state store.old) (S.state store.new)) }
    ensures ended { IfErr result (λ status. IsUnread name.now status (S.state store.old) (S.state store.new)) }
    ensures kept { (S.state store.new).held ≡ (S.state store.old).held }
{
    match read_front(alloc, store, name, TEXT_LIMIT) {
        Ok(bytes) => Ok(bytes),
        Err(StoreFault::Failed) => Err(DeskStatus::ReadFault),
        Err(StoreFault::NoMemory) => Err(DeskStatus::NoMemory),
    }
}

// The requests of a script, or how the run ends whose script is refused.
fn requests_in(
    alloc: Global,
    problem: &Problem,
    script: &[u8],
) -> Result<Vec<DeskRequest>, DeskStatus>
    ensures requests { IfOk result (λ requests. script_result problem.now script.now ≡ Ok requests.items) }
    ensures fit { IfOk result (λ requests. All (IsRequest problem.now) requests.items) }
    ensures ended { IfErr result (IsScriptEnd (script_result problem.now script.now)) }
{
    match read_script(alloc, problem, script) {
        Ok(requests) => Ok(requests),
        Err(ScriptFault::Refused { line, kind }) => Err(DeskStatus::RefusedScript { line, kind }),
        Err(ScriptFault::NoMemory) => Err(DeskStatus::NoMemory),
    }
}

// The requests of the script in a file, or how the run ends without them.
fn requests_under<S: Store>(
    alloc: Global,
    store: &mut S,
    problem: &Problem,
    name: &str,
) -> Result<Vec<DeskRequest>, DeskStatus>
    ensures requests { IfOk result (λ requests. AreRequestsOf problem.now ((S.state store.old).held name.now) requests.items) }
    ensures fit { IfOk result (λ requests. All (IsRequest problem.now) requests.items) }
    ensures quiet { OnOk result (IsQuiet (S.state store.old) (S.state store.new)) }
    ensures ended { IfErr result (λ status. IsWithoutScript problem.now name.now status (S.state store.old) (S.state store.new)) }
    ensures kept { (S.state store.new).held ≡ (S.state store.old).held }
{
    let script = script_bytes(alloc, store, name)?;
    match requests_in(alloc, problem, &script) {
        Ok(requests) => Ok(requests),
        Err(status) => Err(status),
    }
}

/// The problem and the requests, or how the run ends without them. The script is read only where there is a problem.
pub(crate) fn asked_of<S: Store>(
    alloc: Global,
    store: &mut S,
    args: &DeskArgs,
) -> Result<Asked, DeskStatus>
    ensures asked { IfOk result (λ asked. IsAsked args.now (S.state store.old).held asked.problem asked.requests.items) }
    ensures fit { IfOk result (λ asked. All (IsRequest asked.problem) asked.requests.items) }
    ensures quiet { OnOk result (IsQuiet (S.state store.old) (S.state store.new)) }
    ensures ended { IfErr result (λ status. IsEarlyDeskEnd args.now status (S.state store.old) (S.state store.new)) }
    ensures kept { (S.state store.new).held ≡ (S.state store.old).held }
{
    let problem = problem_of(alloc, store, args)?;
    match requests_under(alloc, store, &problem, args.script.text()) {
        Ok(requests) => Ok(Asked { problem, requests }),
        Err(status) => Err(status),
    }
}
