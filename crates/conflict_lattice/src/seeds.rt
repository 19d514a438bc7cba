//! Which articulations a round begins with: some of which nothing that was found says whether they hold together.
//!
//! A solver has a variable for each articulation, which says that it is left out, and a clause for each find: of a conflict something is
//! left out, and of what lies outside a consistent set something is not. It tries first to leave nothing out, so seeds are large.
ghost use Rattle.conflict_lattice.specs.Rounds.{IsMap, Says, holds_none, is_open, is_part};
ghost use Rattle.std.specs.Prelude.{All, Bool, IfNone, IfOk, IfSome, IsTrue, List, OnOk, false, length, map, not, slice_index_or, take, ◌+◌, ◌<◌, ◌^◌, ◌≡◌, ◌≤◌};
ghost use Rattle.watch_arena.specs.Trails.{AreInRange};

use crate::subset::Subset;
use learn_solver::{Answer, Solver};
use lits_core::{Bits, Lit, law_derived_clauses_follow, law_literals_are_sets};
use std::alloc::{AllocError, Global};

// A flag, or false behind the last one.
fn flag_at(flags: &[bool], place: usize) -> bool
    ensures { result ≡ slice_index_or flags.now place false }
{
    place < flags.len() && flags[place]
}

/// Whether one list has all that another has.
pub(crate) fn is_part(few: &[bool], more: &[bool]) -> bool
    ensures { result ≡ is_part few.now more.now }
{
    for place in 0..few.len() {
        if flag_at(few, place) && !flag_at(more, place) {
            return false;
        }
    }
    true
}

// That something of a conflict is left out.
fn clause_of_conflict(alloc: Global, conflict: &[bool]) -> Result<Vec<Lit>, AllocError>
    requires few { length conflict.now ≤ 2 ^ 31 }
    ensures says { IfOk result (λ lits. Says (length conflict.now) lits.items (λ kept. not (is_part conflict.now kept))) }
    ensures range { IfOk result (λ lits. AreInRange lits.items (length conflict.now)) }
{
    let mut lits = Vec::new(alloc);
    for place in 0..conflict.len() {
        if conflict[place] {
            lits.push(Lit::new(place as u32, false))?;
        }
    }
    Ok(lits)
}

// That something is not left out which lies outside a consistent set.
fn clause_of_set(alloc: Global, set: &[bool]) -> Result<Vec<Lit>, AllocError>
    requires few { length set.now ≤ 2 ^ 31 }
    ensures says { IfOk result (λ lits. Says (length set.now) lits.items (λ kept. not (is_part kept set.now))) }
    ensures range { IfOk result (λ lits. AreInRange lits.items (length set.now)) }
{
    let mut lits = Vec::new(alloc);
    for place in 0..set.len() {
        if !set[place] {
            lits.push(Lit::new(place as u32, true))?;
        }
    }
    Ok(lits)
}

// Gives a solver that something of a conflict is left out.
fn give_conflict(
    alloc: Global,
    solver: &mut Solver,
    count: u32,
    conflicts: &[Subset],
    place: usize,
) -> Result<(), AllocError>
    requires few { count ≤ 2 ^ 31 }
    requires counted { All (λ flags. length flags ≡ count) conflicts.now }
    requires place { place < length conflicts.now }
    requires map { IsMap count (holds_none (take place conflicts.now)) solver.old }
    ensures { OnOk result (IsMap count (holds_none (take (place + 1) conflicts.now)) solver.new) }
{
    law_literals_are_sets();
    let lits = clause_of_conflict(alloc, conflicts[place].flags())?;
    solver.add(&lits)?;
    Ok(())
}

// Gives a solver that something is not left out which lies outside a consistent set.
fn give_set(
    alloc: Global,
    solver: &mut Solver,
    count: u32,
    conflicts: &[Subset],
    sets: &[Subset],
    place: usize,
) -> Result<(), AllocError>
    requires few { count ≤ 2 ^ 31 }
    requires counted { All (λ flags. length flags ≡ count) sets.now }
    requires place { place < length sets.now }
    requires map { IsMap count (is_open (record { conflicts = conflicts.now; consistent = take place sets.now })) solver.old }
    ensures { OnOk result (IsMap count (is_open (record { conflicts = conflicts.now; consistent = take (place + 1) sets.now })) solver.new) }
{
    law_literals_are_sets();
    let lits = clause_of_set(alloc, sets[place].flags())?;
    solver.add(&lits)?;
    Ok(())
}

// A solver of what was found.
fn map_of(
    alloc: Global,
    count: u32,
    conflicts: &[Subset],
    sets: &[Subset],
) -> Result<Solver, AllocError>
    requires few { count ≤ 2 ^ 31 }
    requires conflicts { All (λ flags. length flags ≡ count) conflicts.now }
    requires sets { All (λ flags. length flags ≡ count) sets.now }
    ensures { IfOk result (IsMap count (is_open (record { conflicts = conflicts.now; consistent = sets.now }))) }
{
    let mut solver = Solver::new(alloc, count)?;
    for place in 0..conflicts.len() {
        give_conflict(alloc, &mut solver, count, conflicts, place)?;
    }
    for place in 0..sets.len() {
        give_set(alloc, &mut solver, count, conflicts, sets, place)?;
    }
    Ok(solver)
}

// What is not left out.
fn kept_of(alloc: Global, left_out: &Bits) -> Result<Vec<bool>, AllocError>
    ensures { IfOk result (λ kept. kept.items ≡ map not left_out.now) }
{
    let mut kept = Vec::new(alloc);
    for place in 0..left_out.len() {
        kept.push(!left_out.get(place))?;
    }
    Ok(kept)
}

/// Articulations of which nothing that was found says whether they hold together, if there are such.
pub(crate) fn next_seed(
    alloc: Global,
    count: u32,
    conflicts: &[Subset],
    sets: &[Subset],
) -> Result<Option<Vec<bool>>, AllocError>
    requires few { count ≤ 2 ^ 31 }
    requires conflicts { All (λ flags. length flags ≡ count) conflicts.now }
    requires sets { All (λ flags. length flags ≡ count) sets.now }
    ensures counted { IfOk result (λ found. IfSome found (λ seed. length seed.items ≡ count)) }
    ensures open { IfOk result (λ found. IfSome found (λ seed. IsTrue (is_open (record { conflicts = conflicts.now; consistent = sets.now }) seed.items))) }
    ensures none { IfOk result (λ found. IfNone found ((kept : List Bool) → length kept ≡ count → is_open (record { conflicts = conflicts.now; consistent = sets.now }) kept ≡ false)) }
{
    law_literals_are_sets();
    law_derived_clauses_follow();
    let mut solver = map_of(alloc, count, conflicts, sets)?;
    match solver.solve(&[], &[])? {
        Answer::Refuted(_id) => Ok(None),
        Answer::Bits(bits) => {
            let seed = kept_of(alloc, &bits)?;
            Ok(Some(seed))
        }
    }
}
