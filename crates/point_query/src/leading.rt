//! Which relations lead on from an alive prefix to an alive one.
ghost use Rattle.point_pool.specs.Pools.{AreSeen, IsPool};
ghost use Rattle.point_query.specs.Queries.{AllLeadOn, AreLeading, IsSolverOf, KeepsSolver};
ghost use Rattle.rcc5_core.specs.RelationSet.{has};
ghost use Rattle.rcc5_core.specs.declared.Rel.{Rel};
ghost use Rattle.std.specs.Prelude.{IfOk, IsTrue, OnOk, [], length, ◌++◌, ◌+◌, ◌<◌, ◌↔◌, ◌∷◌, ◌≡◌};
ghost use Rattle.world_model.specs.Alive.{IsAlive, all_allow, allowed, problem_at};
ghost use Rattle.world_model.specs.Node.{pair_at};
ghost use Rattle.world_model.specs.Problem.{pair_count};

use crate::bearing::bears;
use crate::closer::Closer;
use crate::settle::{serve, settle};
use lits_core::law_literals_are_sets;
use point_encode::word_of;
use point_pool::{Pool, Seen};
use rcc5_core::{Occupancy, Position, Rel, RelSet};
use std::alloc::AllocError;
use world_model::positions_narrow;

// The relations, the last first.
const LAST_FIRST: [Rel; 5] = [
    Rel::Disjoint,
    Rel::Overlaps,
    Rel::IncludedIn,
    Rel::Includes,
    Rel::Equals,
];

// The relations that lead on from an alive prefix to an alive one.
pub(crate) fn alive_after(
    pool: &mut Pool,
    solver: &mut Closer,
    prefix: &Position,
) -> Result<RelSet, AllocError>
    requires pool { IsPool pool.old }
    requires short { length prefix.now < pair_count pool.old.cursor.problem }
    requires alive { IsAlive (problem_at pool.old.cursor.problem prefix.now) }
    requires solver { IsSolverOf pool.old.cursor.problem solver.old }
    ensures solver { KeepsSolver pool.old.cursor.problem solver.old solver.new }
    ensures pool { OnOk result (IsPool pool.new) }
    ensures problem { OnOk result (pool.new.cursor.problem ≡ pool.old.cursor.problem) }
    ensures each { IfOk result (AreLeading pool.old.cursor.problem prefix.now) }
{
    match pool.go_to(prefix)? {
        None => each_told(pool, solver),
        Some(_) => Ok(RelSet::none()),
    }
}

// Tells of each relation, where the pool stands at an alive prefix: first by the points that serve its needs.
fn each_told(pool: &mut Pool, solver: &mut Closer) -> Result<RelSet, AllocError>
    requires pool { IsPool pool.old }
    requires within { length pool.old.cursor.path < pair_count pool.old.cursor.problem }
    requires alive { IsAlive (problem_at pool.old.cursor.problem pool.old.cursor.path) }
    requires solver { IsSolverOf pool.old.cursor.problem solver.old }
    ensures solver { KeepsSolver pool.old.cursor.problem solver.old solver.new }
    ensures pool { OnOk result (IsPool pool.new) }
    ensures cursor { OnOk result (pool.new.cursor ≡ pool.old.cursor) }
    ensures each { IfOk result (AreLeading pool.old.cursor.problem pool.old.cursor.path) }
{
    law_literals_are_sets();
    let shown = shown_here(pool, solver)?;
    each_tried(pool, solver, shown)
}

// The relations of which the points that serve the needs of the pool's prefix show that they lead on.
fn shown_here(pool: &mut Pool, solver: &mut Closer) -> Result<RelSet, AllocError>
    requires pool { IsPool pool.old }
    requires within { length pool.old.cursor.path < pair_count pool.old.cursor.problem }
    requires allow { IsTrue (all_allow (problem_at pool.old.cursor.problem pool.old.cursor.path)) }
    requires solver { IsSolverOf pool.old.cursor.problem solver.old }
    ensures solver { KeepsSolver pool.old.cursor.problem solver.old solver.new }
    ensures pool { OnOk result (IsPool pool.new) }
    ensures cursor { OnOk result (pool.new.cursor ≡ pool.old.cursor) }
    ensures shown { IfOk result (AllLeadOn pool.old.cursor.problem pool.old.cursor.path) }
{
    match settle(pool, solver)? {
        None => Ok(all_shown(pool)),
        Some(_) => Ok(RelSet::none()),
    }
}

// Those, where no need waits.
fn all_shown(pool: &Pool) -> RelSet
    requires pool { IsPool pool.now }
    requires settled { pool.now.waiting ≡ [] }
    requires within { length pool.now.cursor.path < pair_count pool.now.cursor.problem }
    requires allow { IsTrue (all_allow (problem_at pool.now.cursor.problem pool.now.cursor.path)) }
    ensures { AllLeadOn pool.now.cursor.problem pool.now.cursor.path result }
{
    let seen = pool.seen();
    let mut shown = RelSet::none();
    for rel in LAST_FIRST {
        shown = with_if_shown(pool, seen, shown, rel);
    }
    shown
}

// One relation more, if it is one of them.
fn with_if_shown(pool: &Pool, seen: Seen, shown: RelSet, rel: Rel) -> RelSet
    requires pool { IsPool pool.now }
    requires seen { AreSeen pool.now seen }
    requires settled { pool.now.waiting ≡ [] }
    requires within { length pool.now.cursor.path < pair_count pool.now.cursor.problem }
    requires allow { IsTrue (all_allow (problem_at pool.now.cursor.problem pool.now.cursor.path)) }
    requires shown { AllLeadOn pool.now.cursor.problem pool.now.cursor.path shown }
    ensures { AllLeadOn pool.now.cursor.problem pool.now.cursor.path result }
{
    if !pool.next_set().has(rel) {
        return shown;
    }
    if !pool.shows(seen, rel) {
        return shown;
    }
    shown.with(rel)
}

// Tries each relation but those that are known to lead on, where the pool stands at an alive prefix.
fn each_tried(pool: &mut Pool, solver: &mut Closer, known: RelSet) -> Result<RelSet, AllocError>
    requires known { AllLeadOn pool.old.cursor.problem pool.old.cursor.path known }
    requires pool { IsPool pool.old }
    requires within { length pool.old.cursor.path < pair_count pool.old.cursor.problem }
    requires alive { IsAlive (problem_at pool.old.cursor.problem pool.old.cursor.path) }
    requires solver { IsSolverOf pool.old.cursor.problem solver.old }
    ensures solver { KeepsSolver pool.old.cursor.problem solver.old solver.new }
    ensures pool { OnOk result (IsPool pool.new) }
    ensures cursor { OnOk result (pool.new.cursor ≡ pool.old.cursor) }
    ensures each { IfOk result (AreLeading pool.old.cursor.problem pool.old.cursor.path) }
{
    law_literals_are_sets();
    let mut alive = RelSet::none();
    for rel in LAST_FIRST {
        if is_known_or_leads_on(pool, solver, known, rel)? {
            alive = alive.with(rel);
        }
    }
    Ok(alive)
}

// Whether a relation leads on from an alive prefix, at which the pool stands, to an alive one: tries it unless that is known.
fn is_known_or_leads_on(
    pool: &mut Pool,
    solver: &mut Closer,
    known: RelSet,
    rel: Rel,
) -> Result<bool, AllocError>
    requires pool { IsPool pool.old }
    requires within { length pool.old.cursor.path < pair_count pool.old.cursor.problem }
    requires alive { IsAlive (problem_at pool.old.cursor.problem pool.old.cursor.path) }
    requires solver { IsSolverOf pool.old.cursor.problem solver.old }
    requires known { IsTrue (has known rel) → IsAlive (problem_at pool.old.cursor.problem (pool.old.cursor.path ++ rel ∷ [])) }
    ensures solver { KeepsSolver pool.old.cursor.problem solver.old solver.new }
    ensures pool { OnOk result (IsPool pool.new) }
    ensures cursor { OnOk result (pool.new.cursor ≡ pool.old.cursor) }
    ensures alive { IfOk result (λ yes. IsTrue yes ↔ IsAlive (problem_at pool.old.cursor.problem (pool.old.cursor.path ++ rel ∷ []))) }
{
    if known.has(rel) {
        return Ok(true);
    }
    leads_on(pool, solver, rel)
}

// Whether a relation leads on from an alive prefix, at which the pool stands, to an alive one.
fn leads_on(pool: &mut Pool, solver: &mut Closer, rel: Rel) -> Result<bool, AllocError>
    requires pool { IsPool pool.old }
    requires within { length pool.old.cursor.path < pair_count pool.old.cursor.problem }
    requires alive { IsAlive (problem_at pool.old.cursor.problem pool.old.cursor.path) }
    requires solver { IsSolverOf pool.old.cursor.problem solver.old }
    ensures solver { KeepsSolver pool.old.cursor.problem solver.old solver.new }
    ensures pool { OnOk result (IsPool pool.new) }
    ensures cursor { OnOk result (pool.new.cursor ≡ pool.old.cursor) }
    ensures alive { IfOk result (λ yes. IsTrue yes ↔ IsAlive (problem_at pool.old.cursor.problem (pool.old.cursor.path ++ rel ∷ []))) }
{
    law_literals_are_sets();
    if !pool.next_set().has(rel) {
        return Ok(false);
    }
    let dead = is_ruled_out(pool, solver, rel)?;
    if dead {
        return Ok(false);
    }
    tried(pool, solver, rel)
}

// The same of a relation that the problem allows the next pair, by a try.
fn tried(pool: &mut Pool, solver: &mut Closer, rel: Rel) -> Result<bool, AllocError>
    requires pool { IsPool pool.old }
    requires within { length pool.old.cursor.path < pair_count pool.old.cursor.problem }
    requires alive { IsAlive (problem_at pool.old.cursor.problem pool.old.cursor.path) }
    requires allowed { IsTrue (has (allowed pool.old.cursor.problem (pair_at pool.old.cursor.problem (length pool.old.cursor.path))) rel) }
    requires solver { IsSolverOf pool.old.cursor.problem solver.old }
    ensures solver { KeepsSolver pool.old.cursor.problem solver.old solver.new }
    ensures pool { OnOk result (IsPool pool.new) }
    ensures cursor { OnOk result (pool.new.cursor ≡ pool.old.cursor) }
    ensures alive { IfOk result (λ yes. IsTrue yes ↔ IsAlive (problem_at pool.old.cursor.problem (pool.old.cursor.path ++ rel ∷ []))) }
{
    law_literals_are_sets();
    match settle(pool, solver)? {
        None => bears(pool, solver, rel),
        Some(_) => Ok(false),
    }
}

// Whether it shows at once that a relation doesn't lead on, with no point struck out.
fn is_ruled_out(pool: &mut Pool, solver: &mut Closer, rel: Rel) -> Result<bool, AllocError>
    requires pool { IsPool pool.old }
    requires within { length pool.old.cursor.path < pair_count pool.old.cursor.problem }
    requires allowed { IsTrue (has (allowed pool.old.cursor.problem (pair_at pool.old.cursor.problem (length pool.old.cursor.path))) rel) }
    requires solver { IsSolverOf pool.old.cursor.problem solver.old }
    ensures solver { KeepsSolver pool.old.cursor.problem solver.old solver.new }
    ensures pool { OnOk result (IsPool pool.new) }
    ensures cursor { OnOk result (pool.new.cursor ≡ pool.old.cursor) }
    ensures dead { IfOk result (λ dead. IsTrue dead → IsAlive (problem_at pool.old.cursor.problem (pool.old.cursor.path ++ rel ∷ [])) → ⊥) }
{
    let again = is_dead_again(pool, solver, rel)?;
    if again {
        return Ok(true);
    }
    lacks_point(pool, solver, rel)
}

// Whether what closed a need the last time that a relation was tried at the next pair closes it again.
fn is_dead_again(pool: &mut Pool, solver: &Closer, rel: Rel) -> Result<bool, AllocError>
    requires within { length pool.old.cursor.path < pair_count pool.old.cursor.problem }
    requires allowed { IsTrue (has (allowed pool.old.cursor.problem (pair_at pool.old.cursor.problem (length pool.old.cursor.path))) rel) }
    requires solver { IsSolverOf pool.old.cursor.problem solver.now }
    ensures same { OnOk result (pool.new ≡ pool.old) }
    ensures dead { IfOk result (λ dead. IsTrue dead → IsAlive (problem_at pool.old.cursor.problem (pool.old.cursor.path ++ rel ∷ [])) → ⊥) }
{
    let pair = pool.cursor.len();
    let Some(closing) = solver.last_closing(pair, rel) else {
        return Ok(false);
    };
    pool.cursor.push(rel)?;
    let dead = solver.is_closed_again(&pool.cursor, closing);
    pool.cursor.back_to(pair as usize);
    Ok(dead)
}

// Whether a relation occupies a region of the next pair in which no point of the prefix is, so that none is there below it either.
fn lacks_point(pool: &mut Pool, solver: &mut Closer, rel: Rel) -> Result<bool, AllocError>
    requires pool { IsPool pool.old }
    requires within { length pool.old.cursor.path < pair_count pool.old.cursor.problem }
    requires allowed { IsTrue (has (allowed pool.old.cursor.problem (pair_at pool.old.cursor.problem (length pool.old.cursor.path))) rel) }
    requires solver { IsSolverOf pool.old.cursor.problem solver.old }
    ensures solver { KeepsSolver pool.old.cursor.problem solver.old solver.new }
    ensures pool { OnOk result (IsPool pool.new) }
    ensures cursor { OnOk result (pool.new.cursor ≡ pool.old.cursor) }
    ensures dead { IfOk result (λ bare. IsTrue bare → IsAlive (problem_at pool.old.cursor.problem (pool.old.cursor.path ++ rel ∷ [])) → ⊥) }
{
    law_literals_are_sets();
    for part in 0..3 {
        let bare = is_bare(pool, solver, rel, part)?;
        if bare {
            return Ok(true);
        }
    }
    Ok(false)
}

// Whether one region is bare there, by its number among the three.
fn is_bare(pool: &mut Pool, solver: &mut Closer, rel: Rel, part: u32) -> Result<bool, AllocError>
    requires pool { IsPool pool.old }
    requires within { length pool.old.cursor.path < pair_count pool.old.cursor.problem }
    requires allowed { IsTrue (has (allowed pool.old.cursor.problem (pair_at pool.old.cursor.problem (length pool.old.cursor.path))) rel) }
    requires part { part < 3 }
    requires solver { IsSolverOf pool.old.cursor.problem solver.old }
    ensures solver { KeepsSolver pool.old.cursor.problem solver.old solver.new }
    ensures pool { OnOk result (IsPool pool.new) }
    ensures cursor { OnOk result (pool.new.cursor ≡ pool.old.cursor) }
    ensures dead { IfOk result (λ bare. IsTrue bare → IsAlive (problem_at pool.old.cursor.problem (pool.old.cursor.path ++ rel ∷ [])) → ⊥) }
{
    positions_narrow();
    pool.cursor.facts();
    let Occupancy::Occupied = word_of(rel.row(), part) else {
        return Ok(false);
    };
    pool.cursor.problem().facts();
    let pair = pool.cursor.len();
    let number = 3 * pair + part;
    if pool.is_served(number) {
        return Ok(false);
    }
    let closed = serve(pool, solver, number)?;
    if let Some(_id) = closed {
        pool.waiting.push(number)?;
        return Ok(true);
    }
    Ok(false)
}
