//! Lines on a sink.
ghost use Rattle.std.specs.Prelude.{◌≡◌, ◌≤◌, ◌++◌, [], ◌∷◌, codes, decimal, string_bytes, IfOk, OnOk, OnErr};
ghost use Rattle.outer_store.specs.Bytes.{GrownInPart, added};
ghost use Rattle.outer_store.specs.Faults.{Rose, IfFailed};
ghost use Rattle.cert_text.specs.Lines.{end_word};
ghost use Rattle.run_ends.specs.Ends.{line_of, refused_words, usage_words, token_words, cert_words, rejected_words, pair_words, part_words, gap_line, complete_line, end_line, IsLastPut};
ghost use Rattle.run_ends.specs.Runs.{LeavesPiece};

use crate::token::TokenKind;
use crate::{
    PairKind, Status, cert_name, pair_name, part_name, reject_name, text_name, token_name,
};
use cert_reader::CertTextKind;
use cert_rules::{PartKind, RejectKind};
use cert_text::put_position;
use cleantax_text::TextKind;
use command_line::UsageKind;
use outer_store::{Sink, StoreFault};
use rcc5_core::Position;
use std::alloc::{AllocError, Global};

/// Puts a line, its words and its end, in one put.
pub fn put_line<W: Sink>(alloc: Global, out: &mut W, words: &[u8]) -> Result<(), StoreFault>
    ensures { LeavesPiece result (line_of words.now) (W.state out.old) (W.state out.new) }
{
    let line = whole_line(alloc, words)?;
    out.put(&line)
}

/// Puts the last line of a listing that was not cut: how many worlds there are.
pub fn put_complete<W: Sink>(alloc: Global, out: &mut W, count: u64) -> Result<(), StoreFault>
    ensures { LeavesPiece result (complete_line count) (W.state out.old) (W.state out.new) }
{
    let words = complete_words(alloc, count)?;
    put_line(alloc, out, words.as_bytes())
}

fn complete_words(alloc: Global, count: u64) -> Result<String, AllocError>
    ensures { IfOk result (λ words. string_bytes words ++ 10 ∷ [] ≡ complete_line count) }
{
    format!(in alloc; "complete {count}")
}

fn whole_line(alloc: Global, words: &[u8]) -> Result<Vec<u8>, AllocError>
    ensures { IfOk result (λ line. line.items ≡ line_of words.now) }
{
    let mut line = Vec::from_slice(alloc, words)?;
    line.push(b'\n')?;
    Ok(line)
}

fn put_refused<W: Sink>(
    alloc: Global,
    out: &mut W,
    line: u32,
    kind: TextKind,
) -> Result<(), StoreFault>
    ensures { LeavesPiece result (line_of (refused_words line kind)) (W.state out.old) (W.state out.new) }
{
    let words = refused_words(alloc, line, kind)?;
    put_line(alloc, out, words.as_bytes())
}

fn put_usage<W: Sink>(alloc: Global, out: &mut W, kind: UsageKind) -> Result<(), StoreFault>
    ensures { LeavesPiece result (line_of (usage_words kind)) (W.state out.old) (W.state out.new) }
{
    let words = usage_words(alloc, kind)?;
    put_line(alloc, out, words.as_bytes())
}

fn refused_words(alloc: Global, line: u32, kind: TextKind) -> Result<String, AllocError>
    ensures { IfOk result (λ words. string_bytes words ≡ refused_words line kind) }
{
    let name = text_name(kind);
    format!(in alloc; "refused {line} {name}")
}

fn usage_words(alloc: Global, kind: UsageKind) -> Result<String, AllocError>
    ensures { IfOk result (λ words. string_bytes words ≡ usage_words kind) }
{
    let name = kind.name();
    format!(in alloc; "usage {name}")
}

fn put_token_fault<W: Sink>(alloc: Global, out: &mut W, kind: TokenKind) -> Result<(), StoreFault>
    ensures { LeavesPiece result (line_of (token_words kind)) (W.state out.old) (W.state out.new) }
{
    let words = token_words(alloc, kind)?;
    put_line(alloc, out, words.as_bytes())
}

fn token_words(alloc: Global, kind: TokenKind) -> Result<String, AllocError>
    ensures { IfOk result (λ words. string_bytes words ≡ token_words kind) }
{
    let name = token_name(kind);
    format!(in alloc; "token {name}")
}

fn put_cert_fault<W: Sink>(
    alloc: Global,
    out: &mut W,
    line: u64,
    kind: CertTextKind,
) -> Result<(), StoreFault>
    ensures { LeavesPiece result (line_of (cert_words line kind)) (W.state out.old) (W.state out.new) }
{
    let words = cert_words(alloc, line, kind)?;
    put_line(alloc, out, words.as_bytes())
}

fn cert_words(alloc: Global, line: u64, kind: CertTextKind) -> Result<String, AllocError>
    ensures { IfOk result (λ words. string_bytes words ≡ cert_words line kind) }
{
    let name = cert_name(kind);
    format!(in alloc; "certificate {line} {name}")
}

fn put_rejected<W: Sink>(
    alloc: Global,
    out: &mut W,
    line: u64,
    kind: RejectKind,
) -> Result<(), StoreFault>
    ensures { LeavesPiece result (line_of (rejected_words line kind)) (W.state out.old) (W.state out.new) }
{
    let words = rejected_words(alloc, line, kind)?;
    put_line(alloc, out, words.as_bytes())
}

fn rejected_words(alloc: Global, line: u64, kind: RejectKind) -> Result<String, AllocError>
    ensures { IfOk result (λ words. string_bytes words ≡ rejected_words line kind) }
{
    let name = reject_name(kind);
    format!(in alloc; "rejected {line} {name}")
}

fn put_pair_fault<W: Sink>(alloc: Global, out: &mut W, kind: PairKind) -> Result<(), StoreFault>
    ensures { LeavesPiece result (line_of (pair_words kind)) (W.state out.old) (W.state out.new) }
{
    let words = pair_words(alloc, kind)?;
    put_line(alloc, out, words.as_bytes())
}

fn pair_words(alloc: Global, kind: PairKind) -> Result<String, AllocError>
    ensures { IfOk result (λ words. string_bytes words ≡ pair_words kind) }
{
    let name = pair_name(kind);
    format!(in alloc; "pair {name}")
}

fn put_part_fault<W: Sink>(
    alloc: Global,
    out: &mut W,
    part: u64,
    line: u64,
    kind: PartKind,
) -> Result<(), StoreFault>
    ensures { LeavesPiece result (line_of (part_words part line kind)) (W.state out.old) (W.state out.new) }
{
    let words = part_words(alloc, part, line, kind)?;
    put_line(alloc, out, words.as_bytes())
}

fn part_words(alloc: Global, part: u64, line: u64, kind: PartKind) -> Result<String, AllocError>
    ensures { IfOk result (λ words. string_bytes words ≡ part_words part line kind) }
{
    let name = part_name(kind);
    format!(in alloc; "refused part {part} {line} {name}")
}

// The end of a gap, behind a space.
fn put_gap_end(line: &mut Vec<u8>, to: &Option<Position>) -> Result<(), AllocError>
    ensures { OnOk result (line.new.items ≡ line.old.items ++ 32 ∷ end_word to.now) }
{
    match to {
        None => line.extend_from_slice(b" -"),
        Some(to) => put_position(line, to),
    }
}

fn gap_line(alloc: Global, from: &Position, to: &Option<Position>) -> Result<Vec<u8>, AllocError>
    ensures { IfOk result (λ line. line.items ≡ gap_line from.now to.now) }
{
    let mut line = Vec::from_slice(alloc, b"gap")?;
    put_position(&mut line, from)?;
    put_gap_end(&mut line, to)?;
    line.push(b'\n')?;
    Ok(line)
}

fn put_gap<W: Sink>(
    alloc: Global,
    out: &mut W,
    from: &Position,
    to: &Option<Position>,
) -> Result<(), StoreFault>
    ensures { LeavesPiece result (gap_line from.now to.now) (W.state out.old) (W.state out.new) }
{
    let line = gap_line(alloc, from, to)?;
    out.put(&line)
}

// A line that is known beforehand takes no memory.
fn put_end_line<W: Sink>(alloc: Global, out: &mut W, status: &Status) -> Result<(), StoreFault>
    ensures { LeavesPiece result (end_line status.now) (W.state out.old) (W.state out.new) }
{
    match status {
        Status::Done | Status::NoWorld | Status::WriteFault | Status::Cut(_) | Status::Consistent =>
            Ok(()),
        Status::RefusedText { line, kind } => put_refused(alloc, out, *line, *kind),
        Status::RefusedToken(kind) => put_token_fault(alloc, out, *kind),
        Status::RefusedCert { line, kind } => put_cert_fault(alloc, out, *line, *kind),
        Status::Rejected { line, kind } => put_rejected(alloc, out, *line, *kind),
        Status::Usage(kind) => put_usage(alloc, out, *kind),
        Status::ReadFault => out.put(b"read fault\n"),
        Status::NoMemory => out.put(b"no memory\n"),
        Status::RefusedPair(kind) => put_pair_fault(alloc, out, *kind),
        Status::TooMany => out.put(b"too many\n"),
        Status::NotEntailed => out.put(b"not entailed\n"),
        Status::EmptyPart => out.put(b"empty part\n"),
        Status::PartRefused { part, line, kind } => put_part_fault(alloc, out, *part, *line, *kind),
        Status::Gap { from, to } => put_gap(alloc, out, from, to),
    }
}

/// Puts the last line of a status, and answers how the run ends. After `Done`, `NoWorld`,
/// `Cut` and `Consistent` the command has put its last line itself, and after `WriteFault` nothing further is put.
pub fn put_end<W: Sink>(alloc: Global, out: &mut W, status: Status) -> Status
    ensures put { IsLastPut status result (end_line status) (W.state out.old) (W.state out.new) }
    ensures later { (W.state out.old).faults ≤ (W.state out.new).faults }
{
    match put_end_line(alloc, out, &status) {
        Ok(()) => status,
        Err(StoreFault::Failed) => Status::WriteFault,
        Err(StoreFault::NoMemory) => Status::NoMemory,
    }
}
