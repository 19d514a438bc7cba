//! Parts are taken one by one where they go on from what was joined before.

ghost use Rattle.std.specs.Prelude.{◌≡◌, not, ◌&&◌, ◌<◌, List, [], ◌∷◌, ◌++◌, length, filter, IfSome, IfOk, OnOk, IfNone, All, IsTrue, slice_index_or};
ghost use Rattle.world_model.specs.Problem.{Problem};
ghost use Rattle.world_model.specs.Listing.{is_below, is_before_end};
ghost use Rattle.part_join.specs.Parts.{Part, covers, is_covered, IsListed, IsNextBeginning};
ghost use Rattle.part_join.specs.Sweeping.{IsTaken, IsGapAfter, IsSweepOf};

use crate::fault::JoinFault;
use crate::joining::Joined;
use crate::part::{Part, is_before_end, is_below};
use rcc5_core::Position;
use std::alloc::{AllocError, Global};

// The place of the first part that covers a position.
fn place_covering(parts: &[Part], reach: &Position) -> Option<usize>
    ensures found { IfSome result (λ k. (d : Part) → IsTrue (covers reach.now (slice_index_or parts.now k d))) }
    ensures within { IfSome result (λ k. k < length parts.now) }
    ensures none { IfNone result (IsTrue (not (is_covered parts.now reach.now))) }
{
    for (place, part) in parts.iter().enumerate() {
        if part.covers(reach) {
            return Some(place);
        }
    }
    None
}

// Takes the first part that covers a position.
fn take_covering(left: &mut Vec<Part>, reach: &Position) -> Option<Part>
    ensures taken { IfSome result (λ q. IsTaken q left.old.items left.new.items) }
    ensures covers { IfSome result (λ q. IsTrue (covers reach.now q)) }
    ensures none { IfNone result (IsTrue (not (is_covered left.old.items reach.now))) }
    ensures kept { IfNone result (left.new.items ≡ left.old.items) }
{
    let place = place_covering(left, reach)?;
    Some(left.remove(place))
}

// Puts the worlds that are not below a position behind others.
fn append_from(
    worlds: &mut Vec<Position>,
    reach: &Position,
    mut more: Vec<Position>,
) -> Result<(), AllocError>
    ensures { OnOk result (worlds.new.items ≡ worlds.old.items ++ filter (λ t. not (is_below t reach.now)) more.items) }
{
    more.retain(|world| !is_below(world, reach));
    worlds.append(&mut more)
}

// Whether a part begins above a position and before an end.
fn begins_between(part: &Part, reach: &Position, end: &Option<Position>) -> bool
    ensures { result ≡ (is_below reach.now part.now.from && is_before_end part.now.from end.now) }
{
    is_below(reach, &part.from) && is_before_end(&part.from, end)
}

// The less of the least beginning above a position and that of one more part.
fn lower(
    alloc: Global,
    reach: &Position,
    least: Option<Position>,
    part: &Part,
) -> Result<Option<Position>, AllocError>
    ensures { IfOk result (λ lower. (parts : List Part) → IsNextBeginning parts reach.now least → IsNextBeginning (parts ++ part.now ∷ []) reach.now lower) }
{
    if begins_between(part, reach, &least) {
        return Ok(Some(part.from.copy(alloc)?));
    }
    Ok(least)
}

// The least beginning above a position, if a part begins above it.
fn next_beginning(
    alloc: Global,
    parts: &[Part],
    reach: &Position,
) -> Result<Option<Position>, AllocError>
    ensures { IfOk result (IsNextBeginning parts.now reach.now) }
{
    let mut least = None;
    for part in parts {
        least = lower(alloc, reach, least, part)?;
    }
    Ok(least)
}

// The gap from where no part that is left goes on.
fn gap_from(alloc: Global, left: &[Part], reach: Position) -> JoinFault
    ensures { IsGapAfter left.now reach result }
{
    match next_beginning(alloc, left, &reach) {
        Ok(to) => JoinFault::Gap { from: reach, to },
        Err(_) => JoinFault::NoMemory,
    }
}

/// All worlds, where the parts reach the end of all; else the first gap.
pub(crate) fn sweep(alloc: Global, parts: Vec<Part>) -> Result<Joined, JoinFault>
    ensures { (p : Problem) → All (IsListed p) parts.items → IsSweepOf p parts.items result }
{
    let mut left = parts;
    let mut reach = Position::new(alloc);
    let mut worlds = Vec::new(alloc);
    loop {
        let Some(part) = take_covering(&mut left, &reach) else {
            return Err(gap_from(alloc, &left, reach));
        };
        let Part {
            from: _,
            to,
            worlds: more,
        } = part;
        append_from(&mut worlds, &reach, more)?;
        match to {
            Some(to) => reach = to,
            None => return Ok(Joined::new(worlds)),
        }
    }
}
