//! A way along the prefixes that lead to worlds, from one world to the next.
ghost use Rattle.std.specs.Prelude.{◌≡◌, ◌<◌, ◌≤◌, [], length, Some, None, IfOk, IfSome, IfNone, OnOk, OnErr, IsTrue};
ghost use Rattle.world_model.specs.Problem.{pair_count};
ghost use Rattle.rcc5_core.specs.RelationSet.{has, next_of};
ghost use Rattle.world_model.specs.Listing.{rel_at, Begins};
ghost use Rattle.world_walk.specs.Ahead.{Lists, BeginAlike, IsPast, IsAhead, level_at, room};
ghost use Rattle.world_walk.specs.Ways.{problem_of, place, IsUnderWay, IsWay, at_of, told_of, told_table, AreNext, left_by, left_of, WentOn};
ghost use Rattle.world_walk.specs.declared.way.Stage.TheVariants.{Standing, Told, Past};

use crate::path::AlivePath;
use crate::retreat::{Patience, retreat};
use rcc5_core::{Rel, RelSet};
use std::alloc::AllocError;

/// How far a way is.
#[derive(Clone, Copy, PartialEq, Eq)]
pub enum Stage {
    /// It stands at a prefix that is alive.
    Standing,
    /// It stands at a world that was told.
    Told,
    /// All worlds are passed.
    Past,
}

/// A place on a path at which other relations than the one there may lead on.
#[derive(Clone, Copy, PartialEq, Eq)]
pub struct Level {
    pub depth: usize,
    /// All relations that lead on there.
    pub set: RelSet,
}

/// A path of alive prefixes, and the levels at which other relations lead on.
#[derive(Drop)]
pub struct Way {
    pub along: AlivePath,
    /// The relation that is to be added to its path next.
    pub waiting: Option<Rel>,
    pub levels: Vec<Level>,
    pub stage: Stage,
}

/// Adds the relation that waits to the path.
pub(crate) fn add_waiting(way: &mut Way) -> Result<(), AllocError>
    requires way { IsWay way.old }
    requires standing { way.old.stage ≡ Standing }
    ensures went { WentOn way.old way.new }
    ensures stands { way.new.stage ≡ Standing }
    ensures place { place way.new ≡ place way.old }
    ensures ready { OnOk result (way.new.waiting ≡ None) }
    ensures longer { Begins way.old.along.path way.new.along.path }
{
    if let Some(rel) = way.waiting {
        way.along.push(rel)?;
        way.waiting = None;
    }
    Ok(())
}

// Goes along the pairs that have one relation left.
fn go_along(way: &mut Way)
    requires way { IsWay way.old }
    requires standing { way.old.stage ≡ Standing }
    requires ready { way.old.waiting ≡ None }
    ensures went { WentOn way.old way.new }
    ensures stands { way.new.stage ≡ Standing }
    ensures ready { way.new.waiting ≡ None }
    ensures longer { Begins way.old.along.path way.new.along.path }
    ensures no_more { left_of way.new ≤ left_of way.old }
{
    way.along.skip();
}

// The next relation that is left at a level, if there is one.
fn next_at(way: &Way, number: usize) -> Option<Rel>
    requires way { IsAhead (problem_of way.now) way.now.along.path way.now.levels.items }
    requires within { number < length way.now.levels.items }
    ensures { result ≡ next_of (level_at way.now.levels.items number).set (rel_at way.now.along.path (level_at way.now.levels.items number).depth) }
{
    let level = way.levels[number];
    level.set.after(way.along.path()[level.depth])
}

/// Leaves the path: it turns off at the deepest level at which another relation is left.
pub(crate) fn turn_off(way: &mut Way)
    requires way { IsWay way.old }
    requires under_way { IsUnderWay way.old }
    requires ready { way.old.waiting ≡ None }
    ensures problem { problem_of way.new ≡ problem_of way.old }
    ensures way { IsWay way.new }
    ensures past { IsPast (problem_of way.old) (place way.old) (at_of way.new) }
    ensures untold { told_of way.new ≡ [] }
    ensures shorter { Begins way.new.along.path way.old.along.path }
    ensures less { left_by (problem_of way.new) (place way.new) way.new.stage < room (pair_count (problem_of way.old)) (place way.old) }
{
    while way.levels.len() > 0 {
        let last = way.levels.len() - 1;
        if let Some(next) = next_at(way, last) {
            way.along.back_to(way.levels[last].depth);
            way.waiting = Some(next);
            way.stage = Stage::Standing;
            return;
        }
        way.levels.pop();
    }
    way.stage = Stage::Past;
}

/// Goes on by one of the relations that lead on, and keeps a level where later ones do.
pub(crate) fn go_on(way: &mut Way, set: RelSet, rel: Rel) -> Result<(), AllocError>
    requires way { IsWay way.old }
    requires standing { way.old.stage ≡ Standing }
    requires ready { way.old.waiting ≡ None }
    requires short { length way.old.along.path < pair_count (problem_of way.old) }
    requires next { AreNext (problem_of way.old) way.old.along.path set }
    requires among { IsTrue (has set rel) }
    ensures along { way.new.along ≡ way.old.along }
    ensures way { IsWay way.new }
    ensures stands { way.new.stage ≡ Standing }
    ensures waiting { OnOk result (way.new.waiting ≡ Some rel) }
    ensures err { OnErr result (way.new.waiting ≡ None) }
{
    if set.after(rel).is_some() {
        way.levels.push(Level {
            depth: way.along.path().len(),
            set,
        })?;
    }
    way.waiting = Some(rel);
    Ok(())
}

/// The relations that lead on.
pub(crate) fn next_set(way: &mut Way) -> Result<RelSet, AllocError>
    requires way { IsWay way.old }
    requires standing { way.old.stage ≡ Standing }
    requires ready { way.old.waiting ≡ None }
    requires short { length way.old.along.path < pair_count (problem_of way.old) }
    ensures same { way.new ≡ way.old }
    ensures next { IfOk result (AreNext (problem_of way.old) way.old.along.path) }
{
    way.along.leads_on()
}

// Goes on from an alive prefix that is not full, by the first of the relations that lead on.
fn enter(way: &mut Way, set: RelSet) -> Result<(), AllocError>
    requires way { IsWay way.old }
    requires standing { way.old.stage ≡ Standing }
    requires ready { way.old.waiting ≡ None }
    requires short { length way.old.along.path < pair_count (problem_of way.old) }
    requires next { AreNext (problem_of way.old) way.old.along.path set }
    ensures went { WentOn way.old way.new }
    ensures shorter { Begins way.new.along.path way.old.along.path }
    ensures less { OnOk result (left_of way.new < left_of way.old) }
{
    let Some(rel) = set.first() else {
        // The pair at which it fails here is tried first where a retreat looks for the reason.
        let pair = u32::try_from(way.along.path().len()).unwrap_or(u32::MAX);
        way.along.promote(pair);
        turn_off(way);
        return Ok(());
    };
    go_on(way, set, rel)
}

// Whether one relation and no other is in a set.
fn is_single(set: RelSet) -> bool {
    match set.first() {
        Some(rel) => set.after(rel).is_none(),
        None => false,
    }
}

// Takes a step from an alive prefix that is not full: a retreat, if many steps led to no world and none begins with the path, else on.
// Where one relation is left there is no choice, so that is not counted.
fn step(way: &mut Way, kept: usize, patience: &mut Patience) -> Result<(), AllocError>
    requires way { IsWay way.old }
    requires standing { way.old.stage ≡ Standing }
    requires ready { way.old.waiting ≡ None }
    requires short { length way.old.along.path < pair_count (problem_of way.old) }
    ensures went { WentOn way.old way.new }
    ensures shorter { Begins way.new.along.path way.old.along.path }
    ensures less { OnOk result (left_of way.new < left_of way.old) }
{
    let set = next_set(way)?;
    if is_single(set) {
        return enter(way, set);
    }
    patience.steps = patience.steps.saturating_add(1);
    if patience.steps > patience.most {
        patience.steps = 0;
        if retreat(way, kept)? {
            return Ok(());
        }
        // There may be a world behind the path, so it goes on for longer before it asks again.
        patience.most = patience.most.saturating_mul(2);
    }
    enter(way, set)
}

// Leaves the table that was told, if there is one. How many of its relations are still on the path.
fn leave(way: &mut Way) -> usize
    requires { IsWay way.old }
    ensures problem { problem_of way.new ≡ problem_of way.old }
    ensures way { IsWay way.new }
    ensures passed { Lists (problem_of way.old) (at_of way.old) (at_of way.new) (told_of way.old) }
    ensures untold { told_of way.new ≡ [] }
    ensures kept { BeginAlike (told_table (told_of way.old)) way.new.along.path result }
{
    match way.stage {
        Stage::Told => {
            turn_off(way);
            way.along.path().len()
        }
        Stage::Standing | Stage::Past => 0,
    }
}

/// Goes to the next world, if there is one, among so many pairs. How many relations of the world that was told last have stayed on the path.
pub fn next_world(way: &mut Way, pairs: usize) -> Result<Option<usize>, AllocError>
    requires way { IsWay way.old }
    requires pairs { pairs ≡ pair_count (problem_of way.old) }
    ensures problem { problem_of way.new ≡ problem_of way.old }
    ensures way { IsWay way.new }
    ensures passed { Lists (problem_of way.old) (at_of way.old) (at_of way.new) (told_of way.old) }
    ensures world { IfOk result (λ found. IfSome found (λ _. way.new.stage ≡ Told)) }
    ensures kept { IfOk result (λ found. IfSome found (BeginAlike (told_table (told_of way.old)) (told_table (told_of way.new)))) }
    ensures past { IfOk result (λ found. IfNone found (way.new.stage ≡ Past)) }
    ensures err { OnErr result (told_of way.new ≡ []) }
{
    let mut kept = leave(way);
    let mut patience = Patience::new(way.along.patience());
    while way.stage == Stage::Standing {
        add_waiting(way)?;
        go_along(way);
        if way.along.path().len() == pairs {
            way.stage = Stage::Told;
            return Ok(Some(kept));
        }
        step(way, kept, &mut patience)?;
        kept = kept.min(way.along.path().len());
    }
    Ok(None)
}
