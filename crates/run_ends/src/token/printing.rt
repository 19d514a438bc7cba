//! The texts of tokens.
ghost use Rattle.std.specs.Prelude.{◌≡◌, ◌≤◌, [], ◌∷◌, ◌++◌, length, decimal, Ok, IfOk, OnOk};
ghost use Rattle.world_model.specs.Problem.{pair_count};
ghost use Rattle.proof_text.specs.Words.{position_word};
ghost use Rattle.constraint_set.specs.Facts.{IsAsRead};
ghost use Rattle.run_ends.specs.Token.Token.{token_text, token_result};
ghost use Rattle.run_ends.specs.Token.Printing.{words_behind};

use crate::token::digest::digest_of;
use crate::token::printing_reads_back;
use constraint_set::Problem;
use proof_text::{print_number, print_position};
use rcc5_core::Position;
use std::alloc::{AllocError, Global};
use std::marker::Model;

/// The tokens of one problem, whose text is hashed once for them all.
#[derive(Drop)]
pub struct Tokens<'a> {
    problem: &'a Problem,
    digest: String,
    alloc: Global,
}

impl<'a> Model for Tokens<'a> {
    ghost use Rattle.std.specs.Prelude.{◌≡◌, string_bytes};
    ghost use Rattle.world_model.specs.Problem.{Problem};

    ghost Value = { Problem };

    ghost use Rattle.run_ends.specs.Token.Token.{digest_of};

    ghost view = { λ tokens. tokens.problem.now };

    ghost invariant = { λ tokens. string_bytes tokens.digest ≡ digest_of tokens.problem.now };
}

impl<'a> Tokens<'a> {
    /// Of a problem as it was read.
    pub fn new(alloc: Global, problem: &'a Problem) -> Result<Tokens<'a>, AllocError>
        requires { IsAsRead problem.now }
        ensures { IfOk result (λ tokens. tokens ≡ problem.now) }
    {
        let digest = digest_of(alloc, problem)?;
        Ok(Tokens {
            problem,
            digest,
            alloc,
        })
    }

    /// The token of the problem and a position, by which a listing goes on there.
    pub fn text(&self, position: &Position) -> Result<Vec<u8>, AllocError>
        requires { length position.now ≤ pair_count self.now }
        ensures text { IfOk result (λ token. token.items ≡ token_text self.now position.now) }
        ensures reads_back { IfOk result (λ token. token_result self.now token.items ≡ Ok position.now) }
    {
        printing_reads_back();
        let problem = self.problem;
        problem.facts();
        let mut token = Vec::from_slice(self.alloc, b"token 2 ")?;
        put_words(&mut token, problem, self.digest.as_bytes(), position)?;
        Ok(token)
    }
}

// The words behind the version's number, with one space between, and the line end.
fn put_words(
    out: &mut Vec<u8>,
    problem: &Problem,
    digest: &[u8],
    position: &Position,
) -> Result<(), AllocError>
    ensures { OnOk result (out.new.items ≡ out.old.items ++ words_behind problem.now digest.now position.now) }
{
    put_number(out, u64::from(problem.taxonomy_count()))?;
    put_number(out, u64::from(problem.pair_count()))?;
    out.extend_from_slice(digest)?;
    put_position(out, position)
}

// Puts a number, and a space behind it.
fn put_number(out: &mut Vec<u8>, number: u64) -> Result<(), AllocError>
    ensures { OnOk result (out.new.items ≡ out.old.items ++ decimal number ++ 32 ∷ []) }
{
    print_number(out, number)?;
    out.push(b' ')?;
    Ok(())
}

// Puts a position, with a space before it and a line end behind it.
fn put_position(out: &mut Vec<u8>, position: &Position) -> Result<(), AllocError>
    ensures { OnOk result (out.new.items ≡ out.old.items ++ 32 ∷ position_word position.now ++ 10 ∷ []) }
{
    out.push(b' ')?;
    print_position(out, position)?;
    out.push(b'\n')?;
    Ok(())
}
