//! A token judged for a problem.
ghost use Rattle.std.specs.Prelude.{◌≡◌, ◌==◌, length, Ok, Err, bytes_eq, IfOk, IfErr, IfSome};
ghost use Rattle.world_model.specs.Problem.{pair_count};
ghost use Rattle.constraint_set.specs.Facts.{IsAsRead};
ghost use Rattle.run_ends.specs.Token.Contents.{meant};
ghost use Rattle.run_ends.specs.Token.Token.{digest_of, are_of, is_if_told, contents_result, token_result, kind_of};

use crate::token::TokenFault;
use crate::token::contents::{Contents, contents_of};
use crate::token::digest::digest_of;
use crate::token::position::position_for;
use constraint_set::Problem;
use rcc5_core::Position;
use std::alloc::{AllocError, Global};

// Whether a number is this one, where it is told.
fn is_if_told(told: Option<u64>, count: u64) -> bool
    ensures { result ≡ is_if_told told count }
{
    match told {
        None => true,
        Some(told) => told == count,
    }
}

fn has_digest(alloc: Global, problem: &Problem, digest: &[u8]) -> Result<bool, AllocError>
    requires { IsAsRead problem.now }
    ensures { IfOk result (λ has. has ≡ bytes_eq digest.now (digest_of problem.now)) }
{
    let own = digest_of(alloc, problem)?;
    Ok(digest == own.as_bytes())
}

// Whether contents are of this problem.
fn are_of(alloc: Global, problem: &Problem, contents: Contents<'_>) -> Result<bool, AllocError>
    requires { IsAsRead problem.now }
    ensures { IfOk result (λ are. are ≡ are_of problem.now (meant contents.entry)) }
{
    let taxonomies = contents.taxonomies == u64::from(problem.taxonomy_count());
    let pairs = is_if_told(contents.pairs, u64::from(problem.pair_count()));
    let digest = has_digest(alloc, problem, contents.digest)?;
    Ok(digest && taxonomies && pairs)
}

// The position of contents that are of a token.
fn position_of_contents(
    alloc: Global,
    problem: &Problem,
    contents: Contents<'_>,
) -> Result<Position, TokenFault>
    requires { IsAsRead problem.now }
    ensures position { IfOk result (λ position. contents_result problem.now (Some (meant contents.entry)) ≡ Ok position) }
    ensures fault { IfErr result (λ fault. IfSome (kind_of fault) (λ kind. contents_result problem.now (Some (meant contents.entry)) ≡ Err kind)) }
{
    if !are_of(alloc, problem, contents)? {
        return Err(TokenFault::OtherProblem);
    }
    position_for(alloc, problem, contents.position)?.ok_or(TokenFault::BadPosition)
}

/// The position that bytes have for a problem, or their first fault.
pub(crate) fn position_of_token(
    alloc: Global,
    problem: &Problem,
    bytes: &[u8],
) -> Result<Position, TokenFault>
    requires { IsAsRead problem.now }
    ensures position { IfOk result (λ position. token_result problem.now bytes.now ≡ Ok position) }
    ensures fault { IfErr result (λ fault. IfSome (kind_of fault) (λ kind. token_result problem.now bytes.now ≡ Err kind)) }
{
    match contents_of(bytes) {
        Some(contents) => position_of_contents(alloc, problem, contents),
        None => Err(TokenFault::BadToken),
    }
}
