//! The search: picks are tried, and what clashes is not picked again.
ghost use Rattle.constraint_set.specs.Shape.{shape_of};
ghost use Rattle.pick_search.specs.Picking.{AreClashes, IsKnown, IsPartOf, IsTurn};
ghost use Rattle.point_query.specs.Asking.{AskerGoes};
ghost use Rattle.set_family.specs.Meeting.{IsMetBy};
ghost use Rattle.split_search.specs.Choosing.{IsChoice, IsTidy};
ghost use Rattle.std.specs.Bool.{OnTrue};
ghost use Rattle.std.specs.Prelude.{All, IfNone, IfOk, IfSome, IsTrue, OnOk, [], length, ◌<◌, ◌≡◌, ◌≤◌};
ghost use Rattle.world_model.specs.Alive.{IsAlive, all_whole};
ghost use Rattle.world_model.specs.Problem.{pair_count};

use crate::known::{Known, note_clash};
use crate::picks::{Clash, picked};
use crate::rules::next_picks;
use cert_text::NoLog;
use constraint_set::{MAX_PAIRS, Problem};
use point_query::Asker;
use rcc5_core::Position;
use search_log::tidy;
use set_family::Family;
use split_search::{Choice, choose};
use std::alloc::{AllocError, Global};
use world_model::whole_sets_are_decided;

/// So many times picks are tried at most: by then all clashes are given to a new solver at each turn for minutes.
const MOST_TURNS: usize = 100_000;

/// Between two looks at how many clauses of the asker are idle there are so many turns, since a look goes over all of them.
const TIDY_TURNS: usize = 64;

/// What a turn comes to.
#[derive(Drop)]
pub(crate) enum RoundEnd {
    /// A family meets the problem, or none does.
    Done(Choice),
    /// Something more clashes.
    On,
    /// A pair is left a set that is not whole, so this is no way to decide.
    Lost,
}

/// Whether each pair allows a whole set.
pub fn are_whole(problem: &Problem) -> bool
    ensures { OnTrue result (IsTrue (all_whole problem.now)) }
{
    for pair in 0..problem.pair_count() {
        if !problem.allowed(pair).is_whole() {
            return false;
        }
    }
    true
}

// A family that meets a problem where all sets are whole, if it is alive.
fn family_of(
    alloc: Global,
    problem: &Problem,
    asker: &mut Asker,
) -> Result<Option<Family>, AllocError>
    requires shape { asker.old.shape ≡ shape_of problem.now }
    requires whole { IsTrue (all_whole problem.now) }
    ensures kept { AskerGoes asker.old asker.new }
    ensures some { IfOk result (λ found. IfSome found (IsMetBy problem.now)) }
    ensures none { IfOk result (λ found. IfNone found (IsAlive problem.now → ⊥)) }
{
    whole_sets_are_decided();
    problem.facts();
    match asker.serving(problem, &Position::new(alloc))? {
        None => Ok(None),
        Some(points) => {
            let family = Family::from_points(alloc, problem.concept_count(), points.list())?;
            Ok(Some(family))
        }
    }
}

// Tries the next picks.
fn try_next(
    alloc: Global,
    wide: &Problem,
    problem: &Problem,
    pairs: &[u32],
    known: &mut Vec<Clash>,
    own: &mut Vec<Clash>,
    asker: &mut Asker,
) -> Result<RoundEnd, AllocError>
    requires shape { asker.old.shape ≡ shape_of problem.now }
    requires part { IsPartOf problem.now wide.now }
    requires few { length pairs.now ≤ MAX_PAIRS }
    requires pairs { All (λ pair. pair < pair_count problem.now) pairs.now }
    requires known { AreClashes wide.now pairs.now known.old.items }
    requires own { AreClashes problem.now pairs.now own.old.items }
    ensures shape { asker.new.shape ≡ asker.old.shape }
    ensures known { OnOk result (AreClashes wide.now pairs.now known.new.items) }
    ensures own { OnOk result (AreClashes problem.now pairs.now own.new.items) }
    ensures turn { IfOk result (IsTurn problem.now) }
{
    let found = next_picks(alloc, problem, pairs, known, own)?;
    let Some(picks) = found else {
        return Ok(RoundEnd::Done(Choice::Refuted));
    };
    let node = picked(alloc, problem, pairs, &picks)?;
    if !are_whole(&node) {
        return Ok(RoundEnd::Lost);
    }
    let met = family_of(alloc, &node, asker)?;
    match met {
        Some(family) => Ok(RoundEnd::Done(Choice::Met(family))),
        None => {
            note_clash(alloc, wide, problem, pairs, picks, &node, known, own, asker)?;
            Ok(RoundEnd::On)
        }
    }
}

// Drops the lines of the asker, which nobody reads, and forgets its idle clauses where they are many.
fn clean(asker: &mut Asker) -> Result<(), AllocError>
    ensures shape { asker.new.shape ≡ asker.old.shape }
    ensures ready { OnOk result (IsTidy asker.new) }
{
    tidy(asker)?;
    asker.clear_lines();
    Ok(())
}

// Drops the lines before a turn, and at some turns forgets the idle clauses too.
fn clean_at(asker: &mut Asker, turn: usize) -> Result<(), AllocError>
    ensures { asker.new.shape ≡ asker.old.shape }
{
    if turn % TIDY_TURNS == TIDY_TURNS - 1 {
        return clean(asker);
    }
    asker.clear_lines();
    Ok(())
}

// Whether a family meets a part of a problem; no answer comes where that takes too many turns.
fn take_turns(
    alloc: Global,
    wide: &Problem,
    problem: &Problem,
    known: &mut Known,
    asker: &mut Asker,
) -> Result<Option<Choice>, AllocError>
    requires shape { asker.old.shape ≡ shape_of problem.now }
    requires part { IsPartOf problem.now wide.now }
    requires known { IsKnown wide.now known.old }
    ensures shape { asker.new.shape ≡ asker.old.shape }
    ensures known { OnOk result (IsKnown wide.now known.new) }
    ensures choice { IfOk result (λ found. IfSome found (IsChoice problem.now)) }
{
    wide.facts();
    let mut own = Vec::new(alloc);
    for turn in 0..MOST_TURNS {
        clean_at(asker, turn)?;
        let next = try_next(
            alloc,
            wide,
            problem,
            &known.pairs,
            &mut known.clashes,
            &mut own,
            asker,
        )?;
        match next {
            RoundEnd::Done(choice) => return Ok(Some(choice)),
            RoundEnd::On => {}
            RoundEnd::Lost => return Ok(None),
        }
    }
    Ok(None)
}

// The choice where all sets are whole: then no pair is picked for.
fn choose_at_once(alloc: Global, problem: &Problem, asker: &mut Asker) -> Result<Choice, AllocError>
    requires shape { asker.old.shape ≡ shape_of problem.now }
    requires whole { IsTrue (all_whole problem.now) }
    ensures shape { asker.new.shape ≡ asker.old.shape }
    ensures choice { IfOk result (IsChoice problem.now) }
{
    whole_sets_are_decided();
    let found = family_of(alloc, problem, asker)?;
    match found {
        Some(family) => Ok(Choice::Met(family)),
        None => Ok(Choice::Refuted),
    }
}

// The choice by a walk.
fn choose_by_walk(alloc: Global, problem: &Problem, asker: &mut Asker) -> Result<Choice, AllocError>
    requires shape { asker.old.shape ≡ shape_of problem.now }
    ensures shape { asker.new.shape ≡ asker.old.shape }
    ensures choice { IfOk result (IsChoice problem.now) }
{
    match choose(alloc, problem, asker, &mut NoLog::new()) {
        Ok(choice) => Ok(choice),
        Err(_fault) => Err(AllocError),
    }
}

// The choice by picks, and where these take too many turns by a walk.
fn decide(
    alloc: Global,
    wide: &Problem,
    problem: &Problem,
    known: &mut Known,
    asker: &mut Asker,
) -> Result<Choice, AllocError>
    requires shape { asker.old.shape ≡ shape_of problem.now }
    requires part { IsPartOf problem.now wide.now }
    requires known { IsKnown wide.now known.old }
    ensures shape { asker.new.shape ≡ asker.old.shape }
    ensures known { OnOk result (IsKnown wide.now known.new) }
    ensures choice { IfOk result (IsChoice problem.now) }
{
    if are_whole(problem) {
        return choose_at_once(alloc, problem, asker);
    }
    let found = take_turns(alloc, wide, problem, known, asker)?;
    match found {
        Some(choice) => Ok(choice),
        None => choose_by_walk(alloc, problem, asker),
    }
}

/// A family that meets a part of a problem, where one does. What clashes in all of the problem stays known.
pub fn choose_part(
    alloc: Global,
    wide: &Problem,
    problem: &Problem,
    known: &mut Known,
    asker: &mut Asker,
) -> Result<Choice, AllocError>
    requires shape { asker.old.shape ≡ shape_of problem.now }
    requires part { IsPartOf problem.now wide.now }
    requires known { IsKnown wide.now known.old }
    ensures shape { asker.new.shape ≡ asker.old.shape }
    ensures known { OnOk result (IsKnown wide.now known.new) }
    ensures choice { IfOk result (IsChoice problem.now) }
    ensures ready { OnOk result (IsTidy asker.new) }
{
    let choice = decide(alloc, wide, problem, known, asker)?;
    clean(asker)?;
    Ok(choice)
}

/// A family that meets the problem, where one does.
///
/// The lines that the asker derives meanwhile are dropped.
pub fn choose_by_picks(
    alloc: Global,
    problem: &Problem,
    asker: &mut Asker,
) -> Result<Choice, AllocError>
    requires shape { asker.old.shape ≡ shape_of problem.now }
    ensures shape { asker.new.shape ≡ asker.old.shape }
    ensures choice { IfOk result (IsChoice problem.now) }
    ensures ready { OnOk result (IsTidy asker.new) }
{
    let mut known = Known::new(alloc, problem)?;
    choose_part(alloc, problem, problem, &mut known, asker)
}
