//! Parts that were found: the token of each is written, and its line put.
ghost use Rattle.std.specs.Prelude.{◌≡◌, ◌≤◌, ◌++◌, length, codes, decimal, string_bytes, IfOk};
ghost use Rattle.world_model.specs.Problem.{pair_count};
ghost use Rattle.constraint_set.specs.Facts.{IsAsRead};
ghost use Rattle.listing_run.specs.Parts.Beginnings.{AreBeginnings};
ghost use Rattle.run_ends.specs.Runs.{LeavesPiece, IsCarriedOut};
ghost use Rattle.listing_run.specs.Parts.Answering.{part_line, parts_line, token_names, AreParts};
ghost use Rattle.listing_run.specs.Parts.Steps.{IsPartPut};

use crate::parts::finding::facts_of_beginnings;
use cert_text::put_position;
use command_line::PartsArgs;
use constraint_set::Problem;
use outer_store::{Sink, Store, StoreFault};
use rcc5_core::Position;
use run_ends::{Status, Tokens, put_line, write_file};
use std::alloc::{AllocError, Global};

// The name of the file of a part's token.
fn token_name(alloc: Global, token: &str, number: u64) -> Result<String, AllocError>
    ensures { IfOk result (λ name. string_bytes name ≡ token.now ++ decimal number) }
{
    format!(in alloc; "{token}{number}")
}

fn part_words(alloc: Global, number: u64) -> Result<String, AllocError>
    ensures { IfOk result (λ words. string_bytes words ≡ codes "part " ++ decimal number) }
{
    format!(in alloc; "part {number}")
}

// The line of a part.
fn part_line(alloc: Global, number: u64, position: &Position) -> Result<Vec<u8>, AllocError>
    ensures { IfOk result (λ line. line.items ≡ part_line (number, position.now)) }
{
    let words = part_words(alloc, number)?;
    let mut line = Vec::from_slice(alloc, words.as_bytes())?;
    put_position(&mut line, position)?;
    line.push(b'\n')?;
    Ok(line)
}

// Writes the token of a part, and then puts its line.
fn put_part<S: Store, W: Sink>(
    alloc: Global,
    store: &mut S,
    out: &mut W,
    tokens: &Tokens<'_>,
    token: &str,
    number: u64,
    position: &Position,
) -> Result<(), StoreFault>
    requires { length position.now ≤ pair_count tokens.now }
    ensures { IsPartPut result tokens.now token.now (number, position.now) (S.state store.old) (S.state store.new) (W.state out.old) (W.state out.new) }
{
    let text = tokens.text(position)?;
    let name = token_name(alloc, token, number)?;
    write_file(store, &name, &text)?;
    let line = part_line(alloc, number, position)?;
    out.put(&line)
}

fn parts_words(alloc: Global, count: usize) -> Result<String, AllocError>
    ensures { IfOk result (λ words. string_bytes words ≡ codes "parts " ++ decimal count) }
{
    format!(in alloc; "parts {count}")
}

// Puts the last line.
fn put_count<W: Sink>(alloc: Global, out: &mut W, count: usize) -> Result<(), StoreFault>
    ensures { LeavesPiece result (parts_line count) (W.state out.old) (W.state out.new) }
{
    let words = parts_words(alloc, count)?;
    put_line(alloc, out, words.as_bytes())
}

/// Writes the token of each part and puts its line, one part after the other, and then puts how many they are.
pub(crate) fn put_parts<S: Store, W: Sink>(
    alloc: Global,
    store: &mut S,
    out: &mut W,
    problem: &Problem,
    args: &PartsArgs,
    positions: &[Position],
) -> Result<Status, StoreFault>
    requires problem { IsAsRead problem.now }
    requires begin { AreBeginnings problem.now args.now.count positions.now }
    ensures { IsCarriedOut (AreParts problem.now args.now) result (token_names args.now.token positions.now) (S.state store.old) (S.state store.new) (W.state out.old) (W.state out.new) }
{
    facts_of_beginnings();
    let tokens = Tokens::new(alloc, problem)?;
    'parts: for (place, position) in positions.iter().enumerate() {
        put_part(
            alloc,
            store,
            out,
            &tokens,
            args.token.text(),
            place as u64 + 1,
            position,
        )?;
    }
    put_count(alloc, out, positions.len())?;
    Ok(Status::Done)
}
