//! The problem that a store holds under a name.
ghost use Rattle.std.specs.Prelude.{◌≡◌, ◌≢◌, ◌⊎◌, Ok, IfOk, IfErr, OnOk};
ghost use Rattle.cleantax_text.specs.declared.TextKind.TheVariants as text;
ghost use Rattle.constraint_set.specs.Facts.{IsAsRead};
ghost use Rattle.run_ends.specs.declared.Status.TheVariants as status;
ghost use Rattle.outer_store.specs.States.{IsQuiet};
ghost use Rattle.run_ends.specs.Reads.{AreFront, problem_in, IsRefused, ComesOf, IsUnread, IsWithout};

use crate::{Status, TEXT_LIMIT, read_front};
use cleantax_text::{TextFault, TextKind, read_problem};
use constraint_set::Problem;
use outer_store::{Store, StoreFault};
use std::alloc::Global;
use world_model::Switches;

/// The bytes under a name: as many as a text or a token may have, and one more.
pub fn bytes_under<S: Store>(alloc: Global, store: &mut S, name: &str) -> Result<Vec<u8>, Status>
    ensures front { IfOk result (λ bytes. AreFront (S.state store.old).held name.now bytes.items) }
    ensures quiet { OnOk result (IsQuiet (S.state store.old) (S.state store.new)) }
    ensures ended { IfErr result (λ status. IsUnread name.now status (S.state store.old) (S.state store.new)) }
    ensures kept { (S.state store.new).held ≡ (S.state store.old).held }
{
    match read_front(alloc, store, name, TEXT_LIMIT) {
        Ok(bytes) => Ok(bytes),
        Err(StoreFault::Failed) => Err(Status::ReadFault),
        Err(StoreFault::NoMemory) => Err(Status::NoMemory),
    }
}

// How a run ends whose text is no problem.
fn text_end(fault: TextFault) -> Status
    ensures { (result ≡ status.NoMemory) ⊎ ((fault.kind ≢ text.NoMemory) × (result ≡ status.RefusedText fault.line fault.kind)) }
{
    match fault.kind {
        TextKind::NoMemory => Status::NoMemory,
        kind => Status::RefusedText {
            line: fault.line,
            kind,
        },
    }
}

// The problem that a text says, or how the run ends without it.
#[tactic(auto, using(crate::proofs::ReadLemmas::text_rules))]
fn problem_of_text(alloc: Global, bytes: &[u8], switches: Switches) -> Result<Problem, Status>
    ensures problem { IfOk result (λ p. problem_in switches bytes.now ≡ Ok p) }
    ensures as_read { IfOk result (λ p. IsAsRead p) }
    ensures ended { IfErr result (λ status. IsRefused (problem_in switches bytes.now) status) }
{
    match read_problem(alloc, bytes, switches) {
        Ok(problem) => Ok(problem),
        Err(fault) => Err(text_end(fault)),
    }
}

/// The problem in a file, or how the run ends without it.
#[tactic(auto, using(crate::proofs::ReadLemmas::file_rules))]
pub fn problem_under<S: Store>(
    alloc: Global,
    store: &mut S,
    name: &str,
    switches: Switches,
) -> Result<Problem, Status>
    ensures problem { IfOk result (λ p. ComesOf (S.state store.old).held name.now (problem_in switches) (Ok p)) }
    ensures as_read { IfOk result (λ p. IsAsRead p) }
    ensures quiet { OnOk result (IsQuiet (S.state store.old) (S.state store.new)) }
    ensures ended { IfErr result (λ status. IsWithout name.now (problem_in switches) status (S.state store.old) (S.state store.new)) }
    ensures kept { (S.state store.new).held ≡ (S.state store.old).held }
{
    let bytes = bytes_under(alloc, store, name)?;
    match problem_of_text(alloc, &bytes, switches) {
        Ok(problem) => Ok(problem),
        Err(status) => Err(status),
    }
}
