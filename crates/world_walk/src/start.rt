//! The start of a way, at any position.
ghost use Rattle.std.specs.Prelude.{◌≡◌, ◌<◌, ◌≤◌, [], length, Some, None, IfOk, OnOk, IsTrue};
ghost use Rattle.world_model.specs.Problem.{pair_count, is_problem};
ghost use Rattle.world_walk.specs.Ways.{problem_of, place, IsWay, told_of, AreNext, HasBegun, Follows};
ghost use Rattle.world_walk.specs.declared.way.Stage.TheVariants.{Standing};

use crate::path::AlivePath;
use crate::way::{Stage, Way, add_waiting, go_on, next_set, turn_off};
use rcc5_core::{Position, Rel, RelSet};
use std::alloc::{AllocError, Global};

// Goes along with a relation, if it is one of those that lead on; else to the next later place. Whether it went along.
fn follow(way: &mut Way, set: RelSet, rel: Rel) -> Result<bool, AllocError>
    requires way { IsWay way.old }
    requires standing { way.old.stage ≡ Standing }
    requires ready { way.old.waiting ≡ None }
    requires short { length way.old.along.path < pair_count (problem_of way.old) }
    requires next { AreNext (problem_of way.old) way.old.along.path set }
    ensures problem { problem_of way.new ≡ problem_of way.old }
    ensures way { OnOk result (IsWay way.new) }
    ensures untold { OnOk result (told_of way.new ≡ []) }
    ensures follows { IfOk result (Follows way.old way.new rel) }
{
    if set.has(rel) {
        go_on(way, set, rel)?;
        return Ok(true);
    }
    match set.after(rel) {
        Some(next) => go_on(way, set, next)?,
        None => turn_off(way),
    }
    Ok(false)
}

// Goes from the empty path to the first place from a position on.
fn go_to(way: &mut Way, from: &Position) -> Result<(), AllocError>
    requires way { IsWay way.old }
    requires standing { way.old.stage ≡ Standing }
    requires empty { place way.old ≡ [] }
    requires within { length from.now ≤ pair_count (problem_of way.old) }
    ensures { OnOk result (HasBegun (problem_of way.old) from.now way.new) }
{
    for rel in from.rels() {
        add_waiting(way)?;
        let set = next_set(way)?;
        if !follow(way, set, *rel)? {
            return Ok(());
        }
    }
    Ok(())
}

/// A way that stands at the first place from a position on.
pub fn way_from(alloc: Global, mut along: AlivePath, from: &Position) -> Result<Way, AllocError>
    requires valid { IsTrue (is_problem along.problem) }
    requires empty { along.path ≡ [] }
    requires within { length from.now ≤ pair_count along.problem }
    ensures { IfOk result (HasBegun along.problem from.now) }
{
    let alive = along.is_alive()?;
    let mut way = Way {
        along,
        waiting: None,
        levels: Vec::new(alloc),
        stage: Stage::Past,
    };
    if alive {
        way.stage = Stage::Standing;
        go_to(&mut way, from)?;
    }
    Ok(way)
}
