//! The frame after a step of a path.
ghost use Rattle.std.specs.Prelude.{IfOk};
ghost use Rattle.bit_rows.specs.Rows.{has_bit};
ghost use Rattle.point_frames.specs.Frames.{IsNarrowed};

use bit_rows::Sides;
use point_frames::{Frame, narrowed};
use rcc5_core::Regions;
use std::alloc::{AllocError, Global};

/// The frame after words were said of two sets, beside the one before.
// It is the new frame that is tested for being stale: made anew here, it serves all that come of it, while those that come of
// a stale one would each be made anew.
pub(crate) fn next_frame(
    alloc: Global,
    frame: &Frame,
    sides: &Sides,
    words: Regions,
    most: usize,
) -> Result<Frame, AllocError>
    ensures { IfOk result (λ next. IsNarrowed frame.now next (has_bit sides.now.left.now) (has_bit sides.now.right.now) words) }
{
    let next = frame.after(alloc, sides, words, most)?;
    if next.is_stale() {
        return narrowed(alloc, frame, sides, words, most);
    }
    Ok(next)
}
