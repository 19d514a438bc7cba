//! Positions read from words.
ghost use Rattle.std.specs.Prelude.{◌≡◌, bytes_eq, codes, IfOk};
ghost use Rattle.run_ends.specs.Token.Token.{rels_of, position_in, position_for};

use constraint_set::Problem;
use rcc5_core::{Position, Rel};
use std::alloc::{AllocError, Global};

// The relations that letters stand for, if each stands for one.
#[tactic(auto, using(crate::proofs::token::PositionLemmas::rels_rules))]
fn rels_of(alloc: Global, letters: &[u8]) -> Result<Option<Position>, AllocError>
    ensures { IfOk result (λ found. found ≡ rels_of letters.now) }
{
    let mut position = Position::new(alloc);
    let mut rest = letters;
    while let [letter, after @ ..] = rest {
        let Some(rel) = Rel::from_letter(*letter) else {
            return Ok(None);
        };
        position.push(rel)?;
        rest = after;
    }
    Ok(Some(position))
}

fn position_in(alloc: Global, word: &[u8]) -> Result<Option<Position>, AllocError>
    ensures { IfOk result (λ found. found ≡ position_in word.now) }
{
    if word == b".".as_slice() {
        return Ok(Some(Position::new(alloc)));
    }
    rels_of(alloc, word)
}

/// The position that a word is, if it has no more letters than the problem has pairs.
pub(crate) fn position_for(
    alloc: Global,
    problem: &Problem,
    word: &[u8],
) -> Result<Option<Position>, AllocError>
    ensures { IfOk result (λ found. found ≡ position_for problem.now word.now) }
{
    match position_in(alloc, word)? {
        Some(position) if position.len() <= problem.pair_count() as usize => Ok(Some(position)),
        _ => Ok(None),
    }
}
