//! Tokens: at which position a listing goes on, and of which problem.

ghost use Rattle.std.specs.Prelude.{◌≡◌, ◌≤◌, length, Ok, Err, IfOk, IfErr, IfSome};
ghost use Rattle.world_model.specs.Problem.{pair_count};
ghost use Rattle.constraint_set.specs.Facts.{IsAsRead};
ghost use Rattle.run_ends.specs.Token.Token.{token_text, token_result, kind_of, PrintingReadsBack};
ghost use Rattle.run_ends.specs.declared.token.TokenFault.TheVariants.{NoMemory};

mod contents;
mod digest;
mod judging;
mod position;
mod printing;

use constraint_set::Problem;
pub use printing::Tokens;
use rcc5_core::Position;
use std::alloc::{AllocError, Global};
use thiserror::Error;
use world_model::pairs_stand_once;

/// What is wrong with a token.
#[derive(Clone, Copy, Debug, PartialEq, Eq, Error)]
pub enum TokenKind {
    #[error("the bytes are no token")]
    BadToken,
    #[error("the token is of another problem")]
    OtherProblem,
    #[error("the token's position is none of the problem")]
    BadPosition,
}

/// Why a token gave no position.
#[derive(Clone, Copy, Debug, PartialEq, Eq, Error)]
pub enum TokenFault {
    #[error("the bytes are no token")]
    BadToken,
    #[error("the token is of another problem")]
    OtherProblem,
    #[error("the token's position is none of the problem")]
    BadPosition,
    #[error("out of memory")]
    NoMemory,
}

impl TokenFault {
    /// What is wrong with the token, and nothing where memory was wanting.
    pub fn kind(self) -> Option<TokenKind>
        ensures { result ≡ kind_of self }
    {
        match self {
            TokenFault::BadToken => Some(TokenKind::BadToken),
            TokenFault::OtherProblem => Some(TokenKind::OtherProblem),
            TokenFault::BadPosition => Some(TokenKind::BadPosition),
            TokenFault::NoMemory => None,
        }
    }
}

impl From<AllocError> for TokenFault {
    ghost from_gives = { λ _ fault. fault ≡ NoMemory };

    fn from(_refused: AllocError) -> TokenFault {
        TokenFault::NoMemory
    }
}

/// The token of a problem and a position, by which a listing goes on there.
pub fn print_token(
    alloc: Global,
    problem: &Problem,
    position: &Position,
) -> Result<Vec<u8>, AllocError>
    requires problem { IsAsRead problem.now }
    requires position { length position.now ≤ pair_count problem.now }
    ensures text { IfOk result (λ token. token.items ≡ token_text problem.now position.now) }
    ensures reads_back { IfOk result (λ token. token_result problem.now token.items ≡ Ok position.now) }
{
    Tokens::new(alloc, problem)?.text(position)
}

/// The position that a token has for a problem.
///
/// Bytes that are no token are told first, then a token of another problem, then a position that the problem lacks.
pub fn read_token(alloc: Global, problem: &Problem, bytes: &[u8]) -> Result<Position, TokenFault>
    requires { IsAsRead problem.now }
    ensures position { IfOk result (λ position. token_result problem.now bytes.now ≡ Ok position) }
    ensures fault { IfErr result (λ fault. IfSome (kind_of fault) (λ kind. token_result problem.now bytes.now ≡ Err kind)) }
{
    judging::position_of_token(alloc, problem, bytes)
}

/// Reading the token of a problem and a position gives the position.
pub fn printing_reads_back()
    ensures { PrintingReadsBack }
{
    pairs_stand_once();
}
