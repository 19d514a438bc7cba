//! The lines of what an accepted certificate says.
ghost use Rattle.std.specs.Prelude.{◌≡◌, ◌++◌, ◌∷◌, [], length, codes, flat_map, string_bytes, OnOk, IfOk};
ghost use Rattle.proof_text.specs.Words.{position_word};
ghost use Rattle.cert_text.specs.Lines.{end_word};
ghost use Rattle.cert_check.specs.Answers.{verdict_of};
ghost use Rattle.run_ends.specs.Ends.{line_of, world_line};
ghost use Rattle.run_ends.specs.Runs.{LeavesPiece};
ghost use Rattle.check_run.specs.Checking.{claim_line, claim_word, accepted_line, verdict_text};

use cert_check::{Accepted, Claim};
use cert_text::{put_position, put_subject};
use outer_store::{Sink, StoreFault};
use rcc5_core::Position;
use run_ends::put_worlds;
use std::alloc::{AllocError, Global};

// The line that says where a listing begins.
fn from_line(alloc: Global, from: &Position) -> Result<Vec<u8>, AllocError>
    ensures { IfOk result (λ line. line.items ≡ line_of (codes "from " ++ position_word from.now)) }
{
    let mut line = Vec::from_slice(alloc, b"from")?;
    put_position(&mut line, from)?;
    line.push(b'\n')?;
    Ok(line)
}

fn put_end(line: &mut Vec<u8>, to: &Option<Position>) -> Result<(), AllocError>
    ensures { OnOk result (line.new.items ≡ line.old.items ++ 32 ∷ end_word to.now) }
{
    match to {
        None => line.extend_from_slice(b" -"),
        Some(to) => put_position(line, to),
    }
}

// The line that says where it ends.
fn to_line(alloc: Global, to: &Option<Position>) -> Result<Vec<u8>, AllocError>
    ensures { IfOk result (λ line. line.items ≡ line_of (codes "to " ++ end_word to.now)) }
{
    let mut line = Vec::from_slice(alloc, b"to")?;
    put_end(&mut line, to)?;
    line.push(b'\n')?;
    Ok(line)
}

fn claim_word(holds: bool) -> &'static str
    ensures { result.now ≡ claim_word holds }
{
    if holds { "some" } else { "none" }
}

// The line of a claim.
fn claim_line(alloc: Global, claim: &Claim) -> Result<Vec<u8>, AllocError>
    ensures { IfOk result (λ line. line.items ≡ claim_line claim.now) }
{
    let mut line = Vec::from_slice(alloc, claim_word(claim.holds).as_bytes())?;
    put_subject(&mut line, &claim.subject)?;
    line.push(b'\n')?;
    Ok(line)
}

fn accepted_line(alloc: Global, count: usize) -> Result<String, AllocError>
    ensures { IfOk result (λ line. string_bytes line ≡ accepted_line count) }
{
    format!(in alloc; "accepted {count}\n")
}

fn put_claims<W: Sink>(alloc: Global, out: &mut W, claims: &[Claim]) -> Result<(), StoreFault>
    ensures { LeavesPiece result (flat_map claim_line claims.now) (W.state out.old) (W.state out.new) }
{
    'claims: for claim in claims {
        let line = claim_line(alloc, claim)?;
        out.put(&line)?;
    }
    Ok(())
}

fn put_accepted<W: Sink>(alloc: Global, out: &mut W, count: usize) -> Result<(), StoreFault>
    ensures { LeavesPiece result (accepted_line count) (W.state out.old) (W.state out.new) }
{
    let line = accepted_line(alloc, count)?;
    out.put(line.as_bytes())
}

// Puts where a listing ends, and how many worlds it has.
fn put_last<W: Sink>(
    alloc: Global,
    out: &mut W,
    to: &Option<Position>,
    count: usize,
) -> Result<(), StoreFault>
    ensures { LeavesPiece result (line_of (codes "to " ++ end_word to.now) ++ accepted_line count) (W.state out.old) (W.state out.new) }
{
    let line = to_line(alloc, to)?;
    out.put(&line)?;
    put_accepted(alloc, out, count)
}

// Puts the worlds of a listing and what comes behind them.
fn put_listed<W: Sink>(
    alloc: Global,
    out: &mut W,
    to: &Option<Position>,
    worlds: &[Position],
) -> Result<(), StoreFault>
    ensures { LeavesPiece result (flat_map world_line worlds.now ++ (line_of (codes "to " ++ end_word to.now) ++ accepted_line (length worlds.now))) (W.state out.old) (W.state out.new) }
{
    put_worlds(alloc, out, worlds)?;
    put_last(alloc, out, to, worlds.len())
}

// Puts where a listing begins, and all that comes behind it.
fn put_listing<W: Sink>(
    alloc: Global,
    out: &mut W,
    from: &Position,
    to: &Option<Position>,
    worlds: &[Position],
) -> Result<(), StoreFault>
    ensures { LeavesPiece result (line_of (codes "from " ++ position_word from.now) ++ (flat_map world_line worlds.now ++ (line_of (codes "to " ++ end_word to.now) ++ accepted_line (length worlds.now)))) (W.state out.old) (W.state out.new) }
{
    let line = from_line(alloc, from)?;
    out.put(&line)?;
    put_listed(alloc, out, to, worlds)
}

// Puts the claims, and how many they are.
fn put_all_claims<W: Sink>(alloc: Global, out: &mut W, claims: &[Claim]) -> Result<(), StoreFault>
    ensures { LeavesPiece result (flat_map claim_line claims.now ++ accepted_line (length claims.now)) (W.state out.old) (W.state out.new) }
{
    put_claims(alloc, out, claims)?;
    put_accepted(alloc, out, claims.len())
}

/// Puts what an accepted certificate says, a line each.
pub(crate) fn put_verdict<W: Sink>(
    alloc: Global,
    out: &mut W,
    accepted: &Accepted,
) -> Result<(), StoreFault>
    ensures { LeavesPiece result (verdict_text (verdict_of accepted.now)) (W.state out.old) (W.state out.new) }
{
    match accepted {
        Accepted::Listing { from, to, worlds } => {
            put_listing(alloc, out, from, to, worlds.list())
        }
        Accepted::Claims(claims) => put_all_claims(alloc, out, claims.list()),
    }
}
