//! The position of the token that a store holds under a name.
ghost use Rattle.std.specs.Prelude.{◌≡◌, ◌≤◌, length, Ok, IfOk, IfErr, IfSome, OnOk};
ghost use Rattle.world_model.specs.Problem.{pair_count};
ghost use Rattle.constraint_set.specs.Facts.{IsAsRead};
ghost use Rattle.outer_store.specs.States.{IsQuiet};
ghost use Rattle.run_ends.specs.Token.Token.{kind_of};
ghost use Rattle.run_ends.specs.Reads.{token_in, token_end, IsRefused, ComesOf, IsWithout, IsGiven, IsWithoutGiven};

use crate::token::{TokenFault, read_token};
use crate::{Status, bytes_under};
use command_line::Word;
use constraint_set::Problem;
use outer_store::Store;
use rcc5_core::Position;
use std::alloc::Global;

// How a run ends whose token is refused.
fn token_end(fault: TokenFault) -> Status
    ensures { result ≡ token_end (kind_of fault) }
{
    match fault.kind() {
        Some(kind) => Status::RefusedToken(kind),
        None => Status::NoMemory,
    }
}

// The position of a token, or how the run ends without it.
#[tactic(auto, using(crate::proofs::TokenLemmas::token_rules))]
fn position_of_token(alloc: Global, problem: &Problem, bytes: &[u8]) -> Result<Position, Status>
    requires { IsAsRead problem.now }
    ensures position { IfOk result (λ position. token_in problem.now bytes.now ≡ Ok position) }
    ensures within { IfOk result (λ position. length position ≤ pair_count problem.now) }
    ensures ended { IfErr result (λ status. IsRefused (token_in problem.now bytes.now) status) }
{
    match read_token(alloc, problem, bytes) {
        Ok(position) => Ok(position),
        Err(fault) => Err(token_end(fault)),
    }
}

/// The position of the token in a file, or how the run ends without it.
#[tactic(auto, using(crate::proofs::ReadLemmas::file_rules))]
pub fn position_under<S: Store>(
    alloc: Global,
    store: &mut S,
    problem: &Problem,
    name: &str,
) -> Result<Position, Status>
    requires { IsAsRead problem.now }
    ensures position { IfOk result (λ position. ComesOf (S.state store.old).held name.now (token_in problem.now) (Ok position)) }
    ensures within { IfOk result (λ position. length position ≤ pair_count problem.now) }
    ensures quiet { OnOk result (IsQuiet (S.state store.old) (S.state store.new)) }
    ensures ended { IfErr result (λ status. IsWithout name.now (token_in problem.now) status (S.state store.old) (S.state store.new)) }
    ensures kept { (S.state store.new).held ≡ (S.state store.old).held }
{
    let bytes = bytes_under(alloc, store, name)?;
    match position_of_token(alloc, problem, &bytes) {
        Ok(position) => Ok(position),
        Err(status) => Err(status),
    }
}

/// The position of the token in a file, where a name for one is given, or how the run ends without it.
pub fn position_given<S: Store>(
    alloc: Global,
    store: &mut S,
    problem: &Problem,
    name: &Option<Word>,
) -> Result<Option<Position>, Status>
    requires { IsAsRead problem.now }
    ensures given { IfOk result (IsGiven (S.state store.old).held problem.now name.now) }
    ensures within { IfOk result (λ found. IfSome found (λ position. length position ≤ pair_count problem.now)) }
    ensures quiet { OnOk result (IsQuiet (S.state store.old) (S.state store.new)) }
    ensures ended { IfErr result (λ status. IsWithoutGiven problem.now name.now status (S.state store.old) (S.state store.new)) }
    ensures kept { (S.state store.new).held ≡ (S.state store.old).held }
{
    match name {
        None => Ok(None),
        Some(name) => Ok(Some(position_under(alloc, store, problem, name.text())?)),
    }
}
