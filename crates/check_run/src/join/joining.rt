//! The worlds that the certificates under some names list together.
ghost use Rattle.std.specs.Prelude.{◌≡◌, map, string_bytes, IfOk, IfErr, OnOk};
ghost use Rattle.outer_store.specs.States.{IsQuiet};
ghost use Rattle.run_ends.specs.Runs.{IsEarlyEnd};
ghost use Rattle.check_run.specs.Join.Answering.{IsJoinAnswer, join_names};
ghost use Rattle.check_run.specs.Join.Steps.{status_of, AreJoined, IsNotJoined, AreWorldsOf};

use command_line::{JoinArgs, Word};
use constraint_set::Problem;
use outer_store::Store;
use part_join::{JoinFault, Joined, join};
use run_ends::{Status, problem_under};
use std::alloc::{AllocError, Global};

// How a run ends whose parts are not joined.
fn status_of(fault: JoinFault) -> Status
    ensures { result ≡ status_of fault }
{
    match fault {
        JoinFault::PartRefused { part, line, kind } => Status::PartRefused { part, line, kind },
        JoinFault::Gap { from, to } => Status::Gap { from, to },
        JoinFault::ReadFault => Status::ReadFault,
        JoinFault::NoMemory => Status::NoMemory,
    }
}

// Words as names of files.
fn names_of(alloc: Global, words: &[Word]) -> Result<Vec<String>, AllocError>
    ensures { IfOk result (λ names. map string_bytes names.items ≡ words.now) }
{
    let mut names = Vec::with_capacity(alloc, words.len())?;
    for word in words {
        names.push(String::from_str(alloc, word.text())?)?;
    }
    Ok(names)
}

// The worlds of the certificates under some names, or how the run ends without them.
fn joined_under<S: Store>(
    alloc: Global,
    store: &mut S,
    problem: &Problem,
    certs: &[Word],
) -> Result<Joined, Status>
    ensures joined { IfOk result (AreJoined problem.now certs.now (S.state store.old).held) }
    ensures quiet { OnOk result (IsQuiet (S.state store.old) (S.state store.new)) }
    ensures ended { IfErr result (λ status. IsNotJoined problem.now certs.now status (S.state store.old) (S.state store.new)) }
    ensures kept { (S.state store.new).held ≡ (S.state store.old).held }
{
    let Ok(names) = names_of(alloc, certs) else {
        return Err(Status::NoMemory);
    };
    match join(alloc, problem, store, &names) {
        Ok(joined) => Ok(joined),
        Err(fault) => Err(status_of(fault)),
    }
}

/// The worlds of the certificates of parts of a problem's listing, or how the run ends without them.
pub(crate) fn joined_of<S: Store>(
    alloc: Global,
    store: &mut S,
    args: &JoinArgs,
) -> Result<Joined, Status>
    ensures joined { IfOk result (AreWorldsOf args.now (S.state store.old).held) }
    ensures quiet { OnOk result (IsQuiet (S.state store.old) (S.state store.new)) }
    ensures ended { IfErr result (λ status. IsEarlyEnd (join_names args.now) (IsJoinAnswer args.now) status (S.state store.old) (S.state store.new)) }
    ensures kept { (S.state store.new).held ≡ (S.state store.old).held }
{
    let problem = problem_under(alloc, store, args.input.text(), args.switches)?;
    joined_under(alloc, store, &problem, args.certs.list())
}
