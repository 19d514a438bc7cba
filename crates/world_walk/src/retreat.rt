//! A retreat from a path with which no world begins, to before a short prefix with which none begins either.
ghost use Rattle.std.specs.Prelude.{◌≡◌, ◌<◌, take, true, false, None, IfOk, IfSome};
ghost use Rattle.world_model.specs.Alive.{problem_at, IsAlive};
ghost use Rattle.point_ladder.specs.Ladders.{BeginsNone};
ghost use Rattle.world_model.specs.Listing.{Begins};
ghost use Rattle.world_walk.specs.Ways.{problem_of, IsWay, left_of, WentOn};
ghost use Rattle.world_walk.specs.declared.way.Stage.TheVariants.{Standing};

use crate::path::AlivePath;
use crate::way::{Way, turn_off};
use std::alloc::AllocError;

/// How long a way goes on without a world before it asks whether its path leads to one: a hint. A retreat asks about a prefix for
/// each time that the path's length may be halved, so that one after some steps adds little.
#[derive(Clone, Copy, PartialEq, Eq)]
pub(crate) struct Patience {
    /// The steps since the last world or retreat.
    pub(crate) steps: usize,
    /// How many these may be.
    pub(crate) most: usize,
}

impl Patience {
    pub(crate) fn new(most: usize) -> Patience {
        Patience { steps: 0, most }
    }
}

// How many of the path's first relations are enough that no world begins with them, if that is shown of the whole path. The number is
// looked for from `kept` on, and need not be the least.
fn barren_len(along: &mut AlivePath, kept: usize) -> Result<Option<usize>, AllocError>
    requires { IsAlive (problem_at along.old.problem along.old.path) }
    ensures same { along.new ≡ along.old }
    ensures barren { IfOk result (λ found. IfSome found (λ len. BeginsNone along.old.problem (take len along.old.path))) }
{
    let mut high = along.path().len();
    if !along.is_barren(high)? {
        return Ok(None);
    }
    let mut low = kept;
    while low < high {
        let mid = low + (high - low) / 2;
        if along.is_barren(mid)? {
            high = mid;
        } else {
            low = mid + 1;
        }
    }
    Ok(Some(high))
}

// Drops the levels that lie behind the path's first relations, so many, with which no world begins.
fn drop_levels(way: &mut Way, len: usize)
    requires way { IsWay way.old }
    requires standing { way.old.stage ≡ Standing }
    requires ready { way.old.waiting ≡ None }
    requires barren { BeginsNone (problem_of way.old) (take len way.old.along.path) }
    ensures along { way.new.along ≡ way.old.along }
    ensures waiting { way.new.waiting ≡ way.old.waiting }
    ensures stage { way.new.stage ≡ way.old.stage }
    ensures way { IsWay way.new }
{
    while way.levels.len() > 0 {
        let last = way.levels.len() - 1;
        if way.levels[last].depth < len {
            return;
        }
        way.levels.pop();
    }
}

/// Leaves the path, if it is shown that no world begins with it, and with it all others that begin with a short prefix of it with
/// which none begins either. Whether it left it. It asks of no prefix shorter than `kept`, since a world is known to begin with those.
pub(crate) fn retreat(way: &mut Way, kept: usize) -> Result<bool, AllocError>
    requires way { IsWay way.old }
    requires standing { way.old.stage ≡ Standing }
    requires ready { way.old.waiting ≡ None }
    ensures went { WentOn way.old way.new }
    ensures shorter { Begins way.new.along.path way.old.along.path }
    ensures less { IfOk result (λ moved. moved ≡ true → left_of way.new < left_of way.old) }
    ensures stayed { IfOk result (λ moved. moved ≡ false → way.new ≡ way.old) }
{
    let Some(len) = barren_len(&mut way.along, kept)? else {
        return Ok(false);
    };
    drop_levels(way, len);
    turn_off(way);
    Ok(true)
}
