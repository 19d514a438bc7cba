//! The last line of a run.
ghost use Rattle.std.specs.Prelude.{◌≡◌, ◌≤◌, string_bytes, IfOk};
ghost use Rattle.run_ends.specs.Ends.{line_of, refused_words, usage_words};
ghost use Rattle.run_ends.specs.Runs.{LeavesPiece};
ghost use Rattle.desk_run.specs.Ends.{script_words, desk_end_line, IsDeskLastPut};

use crate::DeskStatus;
use crate::script::ScriptKind;
use cleantax_text::TextKind;
use command_line::UsageKind;
use outer_store::{Sink, StoreFault};
use run_ends::{put_line, text_name};
use std::alloc::{AllocError, Global};

fn refused_words(alloc: Global, line: u32, kind: TextKind) -> Result<String, AllocError>
    ensures { IfOk result (λ words. string_bytes words ≡ refused_words line kind) }
{
    let name = text_name(kind);
    format!(in alloc; "refused {line} {name}")
}

fn usage_words(alloc: Global, kind: UsageKind) -> Result<String, AllocError>
    ensures { IfOk result (λ words. string_bytes words ≡ usage_words kind) }
{
    let name = kind.name();
    format!(in alloc; "usage {name}")
}

fn script_words(alloc: Global, line: u32, kind: ScriptKind) -> Result<String, AllocError>
    ensures { IfOk result (λ words. string_bytes words ≡ script_words line kind) }
{
    let name = kind.name();
    format!(in alloc; "script {line} {name}")
}

fn put_refused<W: Sink>(
    alloc: Global,
    out: &mut W,
    line: u32,
    kind: TextKind,
) -> Result<(), StoreFault>
    ensures { LeavesPiece result (line_of (refused_words line kind)) (W.state out.old) (W.state out.new) }
{
    let words = refused_words(alloc, line, kind)?;
    put_line(alloc, out, words.as_bytes())
}

fn put_usage<W: Sink>(alloc: Global, out: &mut W, kind: UsageKind) -> Result<(), StoreFault>
    ensures { LeavesPiece result (line_of (usage_words kind)) (W.state out.old) (W.state out.new) }
{
    let words = usage_words(alloc, kind)?;
    put_line(alloc, out, words.as_bytes())
}

fn put_script_fault<W: Sink>(
    alloc: Global,
    out: &mut W,
    line: u32,
    kind: ScriptKind,
) -> Result<(), StoreFault>
    ensures { LeavesPiece result (line_of (script_words line kind)) (W.state out.old) (W.state out.new) }
{
    let words = script_words(alloc, line, kind)?;
    put_line(alloc, out, words.as_bytes())
}

// A line that is known beforehand takes no memory.
fn put_end_line<W: Sink>(alloc: Global, out: &mut W, status: DeskStatus) -> Result<(), StoreFault>
    ensures { LeavesPiece result (desk_end_line status) (W.state out.old) (W.state out.new) }
{
    match status {
        DeskStatus::Done | DeskStatus::WriteFault => Ok(()),
        DeskStatus::RefusedText { line, kind } => put_refused(alloc, out, line, kind),
        DeskStatus::Usage(kind) => put_usage(alloc, out, kind),
        DeskStatus::ReadFault => out.put(b"read fault\n"),
        DeskStatus::RefusedScript { line, kind } => put_script_fault(alloc, out, line, kind),
        DeskStatus::NoMemory => out.put(b"no memory\n"),
    }
}

/// Puts the last line of a status, and answers how the run ends. After `Done` the number of requests stands there already,
/// and after `WriteFault` nothing further is put.
pub fn put_desk_end<W: Sink>(alloc: Global, out: &mut W, status: DeskStatus) -> DeskStatus
    ensures put { IsDeskLastPut status result (desk_end_line status) (W.state out.old) (W.state out.new) }
    ensures later { (W.state out.old).faults ≤ (W.state out.new).faults }
{
    match put_end_line(alloc, out, status) {
        Ok(()) => status,
        Err(StoreFault::Failed) => DeskStatus::WriteFault,
        Err(StoreFault::NoMemory) => DeskStatus::NoMemory,
    }
}
