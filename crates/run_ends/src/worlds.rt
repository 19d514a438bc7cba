//! The lines of worlds.
ghost use Rattle.std.specs.Prelude.{◌≡◌, flat_map, IfOk};
ghost use Rattle.run_ends.specs.Ends.{world_line};
ghost use Rattle.run_ends.specs.Runs.{LeavesPiece};

use outer_store::{Sink, StoreFault};
use rcc5_core::Position;
use std::alloc::{AllocError, Global};

fn world_line(alloc: Global, world: &Position) -> Result<Vec<u8>, AllocError>
    ensures { IfOk result (λ line. line.items ≡ world_line world.now) }
{
    let mut line: Vec<u8> = world.rels().iter().map(|rel| rel.letter()).collect(alloc)?;
    line.push(b'\n')?;
    Ok(line)
}

/// Puts the line of a world, its letters, in one put.
pub fn put_world<W: Sink>(alloc: Global, out: &mut W, world: &Position) -> Result<(), StoreFault>
    ensures { LeavesPiece result (world_line world.now) (W.state out.old) (W.state out.new) }
{
    let line = world_line(alloc, world)?;
    out.put(&line)
}

/// Puts the lines of worlds, each in one put.
pub fn put_worlds<W: Sink>(
    alloc: Global,
    out: &mut W,
    worlds: &[Position],
) -> Result<(), StoreFault>
    ensures { LeavesPiece result (flat_map world_line worlds.now) (W.state out.old) (W.state out.new) }
{
    'worlds: for world in worlds {
        put_world(alloc, out, world)?;
    }
    Ok(())
}
