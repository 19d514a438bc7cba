//! Stretches of a path, along each of which one frame is in force.
ghost use Rattle.std.specs.Prelude.{◌≡◌, ◌<◌, length};
ghost use Rattle.point_ladder.specs.Stretches.{stretch_at, IsCutBack, IsInForce};

use point_frames::Frame;

/// The length of the path from which on a frame is in force, and the frame.
#[derive(Drop)]
pub(crate) struct Stretch {
    pub(crate) from: usize,
    pub(crate) frame: Frame,
}

// Drops those that begin past a length.
pub(crate) fn cut(stretches: &mut Vec<Stretch>, len: usize)
    ensures { IsCutBack stretches.old.items stretches.new.items len }
{
    while stretches.len() > 0 {
        let last = stretches.len() - 1;
        if stretches[last].from <= len {
            return;
        }
        stretches.pop();
    }
}

// The number of the stretch that is in force at a length.
pub(crate) fn in_force(stretches: &[Stretch], len: usize) -> usize
    requires some { 0 < length stretches.now }
    requires first { (stretch_at stretches.now 0).from ≡ 0 }
    ensures { IsInForce stretches.now len result }
{
    let mut last = stretches.len() - 1;
    while stretches[last].from > len {
        last -= 1;
    }
    last
}
