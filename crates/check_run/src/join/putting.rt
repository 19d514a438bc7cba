//! The lines of worlds that were joined.
ghost use Rattle.std.specs.Prelude.{◌≡◌, length, string_bytes, IfOk};
ghost use Rattle.run_ends.specs.Runs.{LeavesPiece};
ghost use Rattle.check_run.specs.Join.Answering.{joined_line, joined_text, joined_status};
ghost use Rattle.check_run.specs.Join.Steps.{IsPutAnswer};

use outer_store::{Sink, StoreFault};
use part_join::Joined;
use rcc5_core::Position;
use run_ends::{Status, put_worlds};
use std::alloc::{AllocError, Global};

fn joined_line(alloc: Global, count: usize) -> Result<String, AllocError>
    ensures { IfOk result (λ line. string_bytes line ≡ joined_line count) }
{
    format!(in alloc; "joined {count}\n")
}

fn put_count<W: Sink>(alloc: Global, out: &mut W, count: usize) -> Result<(), StoreFault>
    ensures { LeavesPiece result (joined_line count) (W.state out.old) (W.state out.new) }
{
    let line = joined_line(alloc, count)?;
    out.put(line.as_bytes())
}

// Puts the worlds, a line each, and how many they are.
fn put_text<W: Sink>(alloc: Global, out: &mut W, worlds: &[Position]) -> Result<(), StoreFault>
    ensures { LeavesPiece result (joined_text worlds.now) (W.state out.old) (W.state out.new) }
{
    put_worlds(alloc, out, worlds)?;
    put_count(alloc, out, worlds.len())
}

// How a run ends that joined so many worlds.
fn joined_status(count: usize) -> Status
    ensures { result ≡ joined_status count }
{
    if count == 0 {
        Status::NoWorld
    } else {
        Status::Done
    }
}

/// Puts the worlds that were joined, and answers how the run ends.
pub(crate) fn put_joined<W: Sink>(
    alloc: Global,
    out: &mut W,
    joined: &Joined,
) -> Result<Status, StoreFault>
    ensures { IsPutAnswer result joined.now (W.state out.old) (W.state out.new) }
{
    let worlds = joined.worlds();
    put_text(alloc, out, worlds)?;
    Ok(joined_status(worlds.len()))
}
