//! What a slot replies.

use rcc5_core::Position;

/// A reply to a request.
#[derive(Drop)]
pub enum Reply {
    /// The slot was closed, and is open now with the problem as it was read.
    Opened,
    /// Other statements are kept now.
    Kept,
    /// A pair is narrowed now.
    Narrowed,
    /// The next world.
    World(Position),
    /// No world is left above the last one.
    NoneLeft,
    /// The slot was open, and is closed now.
    Closed,
    /// The slot was open already.
    SlotOpen,
    /// The slot is closed.
    SlotClosed,
    /// Memory was wanting, and all is as before.
    NoMemory,
}
