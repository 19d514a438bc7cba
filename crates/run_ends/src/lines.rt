//! Texts of several lines.
ghost use Rattle.std.specs.Prelude.{◌<◌, length};
ghost use Rattle.run_ends.specs.Ends.{in_lines, IsLineEnd};
ghost use Rattle.run_ends.specs.Runs.{LeavesPiece};

use crate::put_line;
use outer_store::{Sink, StoreFault};
use std::alloc::Global;

// Where the line ends that begins at a place.
fn line_end(text: &[u8], from: usize) -> usize
    requires { from < length text.now }
    ensures { IsLineEnd text.now from result }
{
    for place in from..text.len() {
        if text[place] == b'\n' {
            return place + 1;
        }
    }
    text.len()
}

// Puts a piece of a text that has no line feed but at its end, as a line.
fn put_piece<W: Sink>(alloc: Global, out: &mut W, piece: &[u8]) -> Result<(), StoreFault>
    requires { 0 < length piece.now }
    ensures { LeavesPiece result (in_lines piece.now) (W.state out.old) (W.state out.new) }
{
    if piece[piece.len() - 1] == b'\n' {
        out.put(piece)
    } else {
        put_line(alloc, out, piece)
    }
}

/// Puts a text, a line in each put. Where its last byte is no line feed, one is put behind it.
pub fn put_lines<W: Sink>(alloc: Global, out: &mut W, text: &[u8]) -> Result<(), StoreFault>
    ensures { LeavesPiece result (in_lines text.now) (W.state out.old) (W.state out.new) }
{
    let mut from = 0;
    'lines: while from < text.len() {
        let to = line_end(text, from);
        put_piece(alloc, out, &text[from..to])?;
        from = to;
    }
    Ok(())
}
