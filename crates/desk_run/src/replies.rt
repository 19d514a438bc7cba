//! The lines of replies.
ghost use Rattle.std.specs.Prelude.{◌≡◌, ◌++◌, ◌∷◌, decimal, string_bytes, IfOk};
ghost use Rattle.desk_run.specs.declared.desk.reply.Reply.TheVariants.{World};
ghost use Rattle.run_ends.specs.Ends.{line_of};
ghost use Rattle.run_ends.specs.Runs.{LeavesPiece};
ghost use Rattle.desk_run.specs.Answering.{reply_words, reply_line, served_line};

use crate::desk::Reply;
use crate::script::DeskRequest;
use outer_store::{Sink, StoreFault};
use proof_text::put_letters;
use rcc5_core::Position;
use std::alloc::{AllocError, Global};

// The line of a slot and a word.
fn word_line(alloc: Global, slot: u32, word: &str) -> Result<Vec<u8>, AllocError>
    ensures { IfOk result (λ line. line.items ≡ line_of (decimal slot ++ 32 ∷ word.now)) }
{
    Ok(format!(in alloc; "{slot} {word}\n")?.into_bytes())
}

// The line of a slot and a world.
fn world_line(alloc: Global, slot: u32, table: &Position) -> Result<Vec<u8>, AllocError>
    ensures { IfOk result (λ line. line.items ≡ line_of (decimal slot ++ 32 ∷ reply_words (World table.now))) }
{
    let mut line = format!(in alloc; "{slot} world ")?.into_bytes();
    put_letters(&mut line, table.rels())?;
    line.push(b'\n')?;
    Ok(line)
}

fn reply_line(alloc: Global, request: &DeskRequest, reply: &Reply) -> Result<Vec<u8>, AllocError>
    ensures { IfOk result (λ line. line.items ≡ reply_line (record { request = request.now; reply = reply.now })) }
{
    match reply {
        Reply::Opened => word_line(alloc, request.slot, "opened"),
        Reply::Kept => word_line(alloc, request.slot, "kept"),
        Reply::Narrowed => word_line(alloc, request.slot, "narrowed"),
        Reply::World(table) => world_line(alloc, request.slot, table),
        Reply::NoneLeft => word_line(alloc, request.slot, "none"),
        Reply::Closed => word_line(alloc, request.slot, "closed"),
        Reply::SlotOpen => word_line(alloc, request.slot, "SlotOpen"),
        Reply::SlotClosed => word_line(alloc, request.slot, "SlotClosed"),
        Reply::NoMemory => word_line(alloc, request.slot, "NoMemory"),
    }
}

/// Puts the line of a reply in one put.
pub(crate) fn put_reply<W: Sink>(
    alloc: Global,
    out: &mut W,
    request: &DeskRequest,
    reply: &Reply,
) -> Result<(), StoreFault>
    ensures { LeavesPiece result (reply_line (record { request = request.now; reply = reply.now })) (W.state out.old) (W.state out.new) }
{
    let line = reply_line(alloc, request, reply)?;
    out.put(&line)
}

fn served_line(alloc: Global, count: usize) -> Result<String, AllocError>
    ensures { IfOk result (λ line. string_bytes line ≡ served_line count) }
{
    format!(in alloc; "served {count}\n")
}

/// Puts the line of how many requests there were.
pub(crate) fn put_served<W: Sink>(
    alloc: Global,
    out: &mut W,
    count: usize,
) -> Result<(), StoreFault>
    ensures { LeavesPiece result (served_line count) (W.state out.old) (W.state out.new) }
{
    let line = served_line(alloc, count)?;
    out.put(line.as_bytes())
}
