//! What is known to clash.
ghost use Rattle.constraint_set.specs.Shape.{shape_of};
ghost use Rattle.pick_search.specs.Picking.{AreClashes, IsClash, IsKnown, IsPartOf, IsPicked};
ghost use Rattle.std.specs.Prelude.{All, IfOk, IsTrue, OnOk, length, ◌<◌, ◌≡◌, ◌≤◌};
ghost use Rattle.world_model.specs.Alive.{IsAlive};
ghost use Rattle.world_model.specs.Problem.{pair_count};

use crate::blame::{Blame, blamed};
use crate::picks::{Clash, Pick, picked};
use constraint_set::Problem;
use point_query::Asker;
use rcc5_core::Position;
use std::alloc::{AllocError, Global};
use world_model::whole_sets_are_decided;

/// Picks that are known to clash, from question to question about parts of one problem.
#[derive(Drop)]
pub struct Known {
    /// The pairs that allow neither none nor a whole set.
    pub(crate) pairs: Vec<u32>,
    pub(crate) clashes: Vec<Clash>,
}

// The pairs that allow neither none nor a whole set, by their numbers.
fn split_pairs(alloc: Global, problem: &Problem) -> Result<Vec<u32>, AllocError>
    ensures few { IfOk result (λ pairs. length pairs.items ≤ pair_count problem.now) }
    ensures within { IfOk result (λ pairs. All (λ pair. pair < pair_count problem.now) pairs.items) }
{
    let mut pairs = Vec::new(alloc);
    for pair in 0..problem.pair_count() {
        let set = problem.allowed(pair);
        if !set.is_empty() && !set.is_whole() {
            pairs.push(pair)?;
        }
    }
    Ok(pairs)
}

impl Known {
    /// Nothing is known yet of a problem.
    pub fn new(alloc: Global, problem: &Problem) -> Result<Known, AllocError>
        ensures { IfOk result (IsKnown problem.now) }
    {
        let pairs = split_pairs(alloc, problem)?;
        Ok(Known {
            pairs,
            clashes: Vec::new(alloc),
        })
    }
}

// Whether picks make a problem dead.
fn is_dead_with(
    alloc: Global,
    problem: &Problem,
    pairs: &[u32],
    picks: &[Pick],
    asker: &mut Asker,
) -> Result<bool, AllocError>
    requires shape { asker.old.shape ≡ shape_of problem.now }
    requires pairs { All (λ pair. pair < pair_count problem.now) pairs.now }
    ensures shape { asker.new.shape ≡ asker.old.shape }
    ensures clash { IfOk result (λ dead. IsTrue dead → IsClash problem.now pairs.now picks.now) }
{
    whole_sets_are_decided();
    let node = picked(alloc, problem, pairs, picks)?;
    let alive = asker.is_alive(&node, &Position::new(alloc))?;
    Ok(!alive)
}

// Whether picks are dead together, where they may be; else it is not asked.
fn is_dead_if(
    alloc: Global,
    may_be: bool,
    problem: &Problem,
    pairs: &[u32],
    picks: &[Pick],
    asker: &mut Asker,
) -> Result<bool, AllocError>
    requires shape { asker.old.shape ≡ shape_of problem.now }
    requires pairs { All (λ pair. pair < pair_count problem.now) pairs.now }
    ensures shape { asker.new.shape ≡ asker.old.shape }
    ensures clash { IfOk result (λ dead. IsTrue dead → IsClash problem.now pairs.now picks.now) }
{
    if !may_be {
        return Ok(false);
    }
    is_dead_with(alloc, problem, pairs, picks, asker)
}

/// Notes what of some picks clashes that make a problem dead: the few that are to blame, if they do, and else all. What clashes
/// whatever else is asked of the wider problem is known for good.
pub(crate) fn note_clash(
    alloc: Global,
    wide: &Problem,
    problem: &Problem,
    pairs: &[u32],
    picks: Vec<Pick>,
    node: &Problem,
    known: &mut Vec<Clash>,
    own: &mut Vec<Clash>,
    asker: &mut Asker,
) -> Result<(), AllocError>
    requires shape { asker.old.shape ≡ shape_of problem.now }
    requires part { IsPartOf problem.now wide.now }
    requires pairs { All (λ pair. pair < pair_count problem.now) pairs.now }
    requires node { IsPicked problem.now pairs.now picks.items node.now }
    requires dead { IsAlive node.now → ⊥ }
    requires known { AreClashes wide.now pairs.now known.old.items }
    requires own { AreClashes problem.now pairs.now own.old.items }
    ensures shape { asker.new.shape ≡ asker.old.shape }
    ensures known { OnOk result (AreClashes wide.now pairs.now known.new.items) }
    ensures own { OnOk result (AreClashes problem.now pairs.now own.new.items) }
{
    whole_sets_are_decided();
    let blame = blamed(alloc, wide, node, pairs, &picks, asker)?;
    let Blame {
        picks: few,
        is_theirs,
    } = blame;
    if is_dead_if(alloc, is_theirs, wide, pairs, &few, asker)? {
        known.push(Clash { picks: few })?;
        return Ok(());
    }
    if is_dead_with(alloc, problem, pairs, &few, asker)? {
        own.push(Clash { picks: few })?;
        return Ok(());
    }
    own.push(Clash { picks })?;
    Ok(())
}
