//! The possible relations where nobody reads the claims.
ghost use Rattle.std.specs.Prelude.{◌≡◌, ◌<◌, ◌↔◌, length, IfOk, OnOk, IsTrue};
ghost use Rattle.world_model.specs.Problem.{cross_pairs};
ghost use Rattle.world_model.specs.Questions.{IsPossibleRelation};
ghost use Rattle.constraint_set.specs.Shape.{shape_of};
ghost use Rattle.set_family.specs.Meeting.{IsMetBy};
ghost use Rattle.mir_report.specs.Possible.{IsPossibleSet, ArePossibleSets};
ghost use Rattle.mir_report.specs.Steps.{AreCandidates, AreSeen, HasPossible, IsHelp};

use crate::found::put;
use crate::gather::gather;
use crate::possible::{MirSets, RELS};
use crate::seen::none_seen;
use crate::sight::{Help, choose_any, choose_with, new_help};
use constraint_set::Problem;
use pick_search::are_whole;
use point_ladder::{MOST_POINTS, MOST_TRIES, alive_alone};
use point_query::Asker;
use rcc5_core::{Rel, RelSet};
use set_family::Family;
use split_search::Choice;
use std::alloc::{AllocError, Global};

// What the pairs across taxonomies allow.
fn allowed_sets(alloc: Global, problem: &Problem) -> Result<Vec<RelSet>, AllocError>
    ensures { IfOk result (λ sets. AreCandidates problem.now (length (cross_pairs problem.now)) sets.items) }
{
    let mut sets = Vec::new(alloc);
    for pair in 0..problem.cross_count() {
        sets.push(problem.allowed(pair))?;
    }
    Ok(sets)
}

// Searches for a family that shows a relation at a pair. What one that is found shows at the other pairs is seen too.
fn ask_for(
    alloc: Global,
    problem: &Problem,
    pair: u32,
    rel: Rel,
    seen: &mut Vec<RelSet>,
    help: &mut Help,
    asker: &mut Asker,
) -> Result<bool, AllocError>
    requires shape { asker.old.shape ≡ shape_of problem.now }
    requires help { IsHelp problem.now help.old }
    requires cross { pair < length (cross_pairs problem.now) }
    requires seen { AreSeen problem.now (length (cross_pairs problem.now)) seen.old.items }
    ensures shape { asker.new.shape ≡ asker.old.shape }
    ensures help { OnOk result (IsHelp problem.now help.new) }
    ensures seen { OnOk result (AreSeen problem.now (length (cross_pairs problem.now)) seen.new.items) }
    ensures answer { IfOk result (λ some. IsTrue some ↔ IsPossibleRelation problem.now pair rel) }
{
    let narrowed = problem.narrowed(alloc, pair, RelSet::one(rel))?;
    let choice = choose_with(alloc, problem, &narrowed, pair, rel, seen, help, asker)?;
    match choice {
        Choice::Refuted => Ok(false),
        Choice::Met(family) => {
            gather(alloc, problem, pair, &family, seen, help)?;
            Ok(true)
        }
    }
}

// Whether a relation is possible at a pair, whose possible ones are among some.
fn ask_if_among(
    alloc: Global,
    problem: &Problem,
    pair: u32,
    among: RelSet,
    rel: Rel,
    seen: &mut Vec<RelSet>,
    help: &mut Help,
    asker: &mut Asker,
) -> Result<bool, AllocError>
    requires shape { asker.old.shape ≡ shape_of problem.now }
    requires help { IsHelp problem.now help.old }
    requires cross { pair < length (cross_pairs problem.now) }
    requires among { HasPossible problem.now pair among }
    requires seen { AreSeen problem.now (length (cross_pairs problem.now)) seen.old.items }
    ensures shape { asker.new.shape ≡ asker.old.shape }
    ensures help { OnOk result (IsHelp problem.now help.new) }
    ensures seen { OnOk result (AreSeen problem.now (length (cross_pairs problem.now)) seen.new.items) }
    ensures answer { IfOk result (λ some. IsTrue some ↔ IsPossibleRelation problem.now pair rel) }
{
    if !among.has(rel) {
        return Ok(false);
    }
    if seen[pair as usize].has(rel) {
        return Ok(true);
    }
    ask_for(alloc, problem, pair, rel, seen, help, asker)
}

// The possible relations of a pair, which are among some.
fn ask_pair(
    alloc: Global,
    problem: &Problem,
    pair: u32,
    among: RelSet,
    seen: &mut Vec<RelSet>,
    help: &mut Help,
    asker: &mut Asker,
) -> Result<RelSet, AllocError>
    requires shape { asker.old.shape ≡ shape_of problem.now }
    requires help { IsHelp problem.now help.old }
    requires cross { pair < length (cross_pairs problem.now) }
    requires among { HasPossible problem.now pair among }
    requires seen { AreSeen problem.now (length (cross_pairs problem.now)) seen.old.items }
    ensures shape { asker.new.shape ≡ asker.old.shape }
    ensures help { OnOk result (IsHelp problem.now help.new) }
    ensures seen { OnOk result (AreSeen problem.now (length (cross_pairs problem.now)) seen.new.items) }
    ensures answer { IfOk result (IsPossibleSet problem.now pair) }
{
    let mut set = RelSet::none();
    'rels: for rel in RELS {
        if ask_if_among(alloc, problem, pair, among, rel, seen, help, asker)? {
            set = set.with(rel);
        }
    }
    Ok(set)
}

// The possible relations of each pair, which are among some, where a family is found that meets the problem.
fn ask_all(
    alloc: Global,
    problem: &Problem,
    among: &[RelSet],
    family: Family,
    help: &mut Help,
    asker: &mut Asker,
) -> Result<MirSets, AllocError>
    requires shape { asker.old.shape ≡ shape_of problem.now }
    requires help { IsHelp problem.now help.old }
    requires met { IsMetBy problem.now family }
    requires among { AreCandidates problem.now (length (cross_pairs problem.now)) among.now }
    ensures shape { asker.new.shape ≡ asker.old.shape }
    ensures help { OnOk result (IsHelp problem.now help.new) }
    ensures sets { IfOk result (λ mir. ArePossibleSets problem.now mir.sets.items) }
{
    let mut seen = none_seen(alloc, problem)?;
    gather(alloc, problem, 0, &family, &mut seen, help)?;
    let mut sets = Vec::new(alloc);
    'pairs: for pair in 0..problem.cross_count() {
        let some = among[pair as usize];
        let set = ask_pair(alloc, problem, pair, some, &mut seen, help, asker)?;
        put(&mut sets, set)?;
    }
    Ok(MirSets { sets })
}

// The possible relations of each pair, which are among some. Where no family meets the problem, none is possible.
fn ask_among(
    alloc: Global,
    problem: &Problem,
    among: &[RelSet],
    few_points: bool,
    asker: &mut Asker,
) -> Result<MirSets, AllocError>
    requires shape { asker.old.shape ≡ shape_of problem.now }
    requires among { AreCandidates problem.now (length (cross_pairs problem.now)) among.now }
    ensures shape { asker.new.shape ≡ asker.old.shape }
    ensures sets { IfOk result (λ mir. ArePossibleSets problem.now mir.sets.items) }
{
    let mut help = new_help(alloc, problem, among, few_points)?;
    let choice = choose_any(alloc, problem, &mut help, asker)?;
    match choice {
        Choice::Refuted => {
            let sets = none_seen(alloc, problem)?;
            Ok(MirSets { sets })
        }
        Choice::Met(family) => ask_all(alloc, problem, among, family, &mut help, asker),
    }
}

/// The possible relations of each pair across taxonomies. By a table of all points, where there is one, just those are asked for with
/// which the problem stays alive; and none where all pairs allow whole sets, since these are then possible.
pub(crate) fn bare_sets(
    alloc: Global,
    problem: &Problem,
    asker: &mut Asker,
) -> Result<MirSets, AllocError>
    requires shape { asker.old.shape ≡ shape_of problem.now }
    ensures shape { asker.new.shape ≡ asker.old.shape }
    ensures sets { IfOk result (λ mir. ArePossibleSets problem.now mir.sets.items) }
{
    problem.facts();
    let Some(alive) = alive_alone(
        alloc,
        problem,
        problem.cross_count(),
        MOST_POINTS,
        MOST_TRIES,
    )?
    else {
        let among = allowed_sets(alloc, problem)?;
        return ask_among(alloc, problem, &among, false, asker);
    };
    if are_whole(problem) {
        return Ok(MirSets { sets: alive });
    }
    ask_among(alloc, problem, &alive, true, asker)
}
