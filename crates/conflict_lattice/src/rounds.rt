//! The rounds: each finds a minimal conflict or a maximal consistent set, until of all sets of articulations it is known whether they
//! hold together.
//!
//! The way of the rounds is that of MARCO (Liffiton, Previti, Malik and Marques-Silva, *Fast, flexible MUS enumeration*, 2016).
ghost use Rattle.conflict_lattice.specs.Lattice.{IsLattice, IsMaximalConsistent, IsMinimalConflict};
ghost use Rattle.conflict_lattice.specs.Rounds.{IsFoundSoFar, IsJudge, is_open, subsets_of, unexplored};
ghost use Rattle.constraint_set.specs.Shape.{shape_of};
ghost use Rattle.std.specs.Prelude.{Bool, IfOk, IsTrue, List, OnOk, false, length, ◌<◌, ◌≡◌};
ghost use Rattle.world_model.specs.Questions.{HasFlags};

use crate::decide::{Judge, Judged, decide};
use crate::grow::grow;
use crate::insert::insert;
use crate::seeds::next_seed;
use crate::shrink::shrink;
use crate::subset::{Lattice, Subset};
use constraint_set::Problem;
use point_query::Asker;
use std::alloc::{AllocError, Global};

/// The minimal conflicts and the maximal consistent sets that were found, each list ascending.
#[derive(Drop)]
pub(crate) struct Found {
    pub(crate) conflicts: Vec<Subset>,
    pub(crate) consistent: Vec<Subset>,
}

// From open articulations, which are in conflict or not, to one find more.
fn find_from(
    alloc: Global,
    problem: &Problem,
    seed: &[bool],
    found: &mut Found,
    judge: &mut Judge,
    asker: &mut Asker,
) -> Result<(), AllocError>
    requires shape { asker.old.shape ≡ shape_of problem.now }
    requires judge { IsJudge problem.now judge.old }
    requires found { IsFoundSoFar problem.now (subsets_of found.old) }
    requires flags { HasFlags problem.now seed.now }
    requires open { IsTrue (is_open (subsets_of found.old) seed.now) }
    ensures shape { asker.new.shape ≡ asker.old.shape }
    ensures judge { IsJudge problem.now judge.new }
    ensures found { OnOk result (IsFoundSoFar problem.now (subsets_of found.new)) }
    ensures less { OnOk result (unexplored (length problem.now.articulations) (subsets_of found.new) < unexplored (length problem.now.articulations) (subsets_of found.old)) }
{
    match decide(alloc, problem, seed, judge, asker)? {
        Judged::Clash(core) => {
            let conflict = shrink(alloc, problem, core, judge, asker)?;
            insert(&mut found.conflicts, conflict)?;
            Ok(())
        }
        Judged::Met(family) => {
            let set = grow(
                alloc,
                problem,
                seed,
                &family,
                &found.conflicts,
                judge,
                asker,
            )?;
            insert(&mut found.consistent, set)?;
            Ok(())
        }
    }
}

// One round, if something is open.
fn take_round(
    alloc: Global,
    problem: &Problem,
    found: &mut Found,
    judge: &mut Judge,
    asker: &mut Asker,
) -> Result<bool, AllocError>
    requires shape { asker.old.shape ≡ shape_of problem.now }
    requires judge { IsJudge problem.now judge.old }
    requires found { IsFoundSoFar problem.now (subsets_of found.old) }
    ensures shape { asker.new.shape ≡ asker.old.shape }
    ensures judge { IsJudge problem.now judge.new }
    ensures found { OnOk result (IsFoundSoFar problem.now (subsets_of found.new)) }
    ensures less { IfOk result (λ more. IsTrue more → unexplored (length problem.now.articulations) (subsets_of found.new) < unexplored (length problem.now.articulations) (subsets_of found.old)) }
    ensures none { IfOk result (λ more. more ≡ false → (kept : List Bool) → HasFlags problem.now kept → is_open (subsets_of found.new) kept ≡ false) }
{
    problem.facts();
    let count = problem.articulation_count();
    let Some(seed) = next_seed(alloc, count, &found.conflicts, &found.consistent)? else {
        return Ok(false);
    };
    find_from(alloc, problem, &seed, found, judge, asker)?;
    Ok(true)
}

/// All minimal conflicts, and all maximal consistent sets.
pub(crate) fn all_rounds(
    alloc: Global,
    problem: &Problem,
    judge: &mut Judge,
    asker: &mut Asker,
) -> Result<Lattice, AllocError>
    requires shape { asker.old.shape ≡ shape_of problem.now }
    requires judge { IsJudge problem.now judge.old }
    ensures shape { asker.new.shape ≡ asker.old.shape }
    ensures judge { IsJudge problem.now judge.new }
    ensures answer { IfOk result (IsLattice problem.now) }
{
    let mut found = Found {
        conflicts: Vec::new(alloc),
        consistent: Vec::new(alloc),
    };
    loop {
        if !take_round(alloc, problem, &mut found, judge, asker)? {
            return Ok(Lattice::new(found.conflicts, found.consistent));
        }
    }
}
