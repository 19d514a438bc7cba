//! Whether a prefix bears one more relation: each need that the relation may leave without its point is to have another. Nothing
//! is struck out meanwhile, so a relation that turns out to be dead has cost the needs before it no more than a look.
ghost use Rattle.point_encode.specs.Model.Forced.{need_at, need_count};
ghost use Rattle.point_encode.specs.Numbers.{is_needed};
ghost use Rattle.point_pool.specs.Pools.{IsPool};
ghost use Rattle.point_query.specs.Answers.{IsFound};
ghost use Rattle.point_query.specs.Closing.{IsKeptAfter};
ghost use Rattle.point_query.specs.Queries.{IsSolverOf, KeepsSolver, asker_with};
ghost use Rattle.rcc5_core.specs.RelationSet.{has};
ghost use Rattle.std.specs.Prelude.{IfNone, IfOk, IfSome, IsTrue, OnOk, [], length, ◌++◌, ◌<◌, ◌↔◌, ◌∷◌, ◌≡◌, false};
ghost use Rattle.world_model.specs.Alive.{HasPoint, IsAlive, all_allow, allowed, problem_at};
ghost use Rattle.world_model.specs.Node.{pair_at};
ghost use Rattle.world_model.specs.Problem.{pair_count};

use crate::answers::Found;
use crate::closer::Closer;
use crate::settle::found;
use crate::stuck::Closing;
use lits_core::law_literals_are_sets;
use point_draft::Draft;
use point_encode::count_needs;
use point_pool::Pool;
use rcc5_core::Rel;
use std::alloc::AllocError;
use world_model::positions_narrow;

// Whether a relation leads on from the pool's prefix to an alive one.
pub(crate) fn bears(pool: &mut Pool, solver: &mut Closer, rel: Rel) -> Result<bool, AllocError>
    requires pool { IsPool pool.old }
    requires settled { pool.old.waiting ≡ [] }
    requires within { length pool.old.cursor.path < pair_count pool.old.cursor.problem }
    requires allow { IsTrue (all_allow (problem_at pool.old.cursor.problem pool.old.cursor.path)) }
    requires allowed { IsTrue (has (allowed pool.old.cursor.problem (pair_at pool.old.cursor.problem (length pool.old.cursor.path))) rel) }
    requires solver { IsSolverOf pool.old.cursor.problem solver.old }
    ensures solver { KeepsSolver pool.old.cursor.problem solver.old solver.new }
    ensures pool { OnOk result (IsPool pool.new) }
    ensures cursor { OnOk result (pool.new.cursor ≡ pool.old.cursor) }
    ensures alive { IfOk result (λ yes. IsTrue yes ↔ IsAlive (problem_at pool.old.cursor.problem (pool.old.cursor.path ++ rel ∷ []))) }
{
    law_literals_are_sets();
    let numbers = pool.at_risk(rel)?;
    for number in &numbers {
        let kept = keeps_point(pool, solver, rel, *number)?;
        if !kept {
            return Ok(false);
        }
    }
    Ok(true)
}

// Whether the need with a number has a point where the relation is added, if it is one there. If not, what closes it is noted.
fn keeps_point(
    pool: &mut Pool,
    solver: &mut Closer,
    rel: Rel,
    number: u32,
) -> Result<bool, AllocError>
    requires pool { IsPool pool.old }
    requires within { length pool.old.cursor.path < pair_count pool.old.cursor.problem }
    requires allowed { IsTrue (has (allowed pool.old.cursor.problem (pair_at pool.old.cursor.problem (length pool.old.cursor.path))) rel) }
    requires solver { IsSolverOf pool.old.cursor.problem solver.old }
    ensures solver { KeepsSolver pool.old.cursor.problem solver.old solver.new }
    ensures pool { OnOk result (IsPool pool.new) }
    ensures cursor { OnOk result (pool.new.cursor ≡ pool.old.cursor) }
    ensures kept { IfOk result (λ yes. IsTrue yes → IsKeptAfter pool.old.cursor rel number) }
    ensures dead { IfOk result (λ yes. yes ≡ false → IsAlive (problem_at pool.old.cursor.problem (pool.old.cursor.path ++ rel ∷ [])) → ⊥) }
{
    if number >= count_needs(pool.cursor.problem()) {
        return Ok(true);
    }
    if pool.leaves_one(rel, number) {
        return Ok(true);
    }
    let needed = is_needed_after(pool, rel, number)?;
    if !needed {
        return Ok(true);
    }
    let closed = closed_after(pool, solver, rel, number)?;
    if let Some(id) = closed {
        solver.note_closing(pool.cursor.len(), rel, Closing { number, id });
        return Ok(false);
    }
    Ok(true)
}

// Whether a number is that of a need where the relation is added.
fn is_needed_after(pool: &mut Pool, rel: Rel, number: u32) -> Result<bool, AllocError>
    requires number { number < need_count pool.old.cursor.problem }
    requires within { length pool.old.cursor.path < pair_count pool.old.cursor.problem }
    requires allowed { IsTrue (has (allowed pool.old.cursor.problem (pair_at pool.old.cursor.problem (length pool.old.cursor.path))) rel) }
    ensures same { OnOk result (pool.new ≡ pool.old) }
    ensures needed { IfOk result (λ needed. needed ≡ is_needed (problem_at pool.old.cursor.problem (pool.old.cursor.path ++ rel ∷ [])) number) }
{
    let pair = pool.cursor.len() as usize;
    pool.cursor.push(rel)?;
    let needed = pool.cursor.is_needed(number);
    pool.cursor.back_to(pair);
    Ok(needed)
}

// The clause that shows that no point is in the need with a number where the relation is added; or one is there, and in the pool.
fn closed_after(
    pool: &mut Pool,
    solver: &mut Closer,
    rel: Rel,
    number: u32,
) -> Result<Option<u64>, AllocError>
    requires pool { IsPool pool.old }
    requires number { number < need_count pool.old.cursor.problem }
    requires within { length pool.old.cursor.path < pair_count pool.old.cursor.problem }
    requires allowed { IsTrue (has (allowed pool.old.cursor.problem (pair_at pool.old.cursor.problem (length pool.old.cursor.path))) rel) }
    requires solver { IsSolverOf pool.old.cursor.problem solver.old }
    ensures solver { KeepsSolver pool.old.cursor.problem solver.old solver.new }
    ensures pool { OnOk result (IsPool pool.new) }
    ensures cursor { OnOk result (pool.new.cursor ≡ pool.old.cursor) }
    ensures none { IfOk result (λ closed. IfNone closed (HasPoint (problem_at pool.old.cursor.problem (pool.old.cursor.path ++ rel ∷ [])) (need_at pool.old.cursor.problem number))) }
    ensures some { IfOk result (λ closed. IfSome closed (λ id. HasPoint (problem_at pool.old.cursor.problem (pool.old.cursor.path ++ rel ∷ [])) (need_at pool.old.cursor.problem number) → ⊥)) }
{
    positions_narrow();
    pool.cursor.facts();
    let known = known_after(pool, solver, rel, number)?;
    if let Some(id) = known {
        return Ok(Some(id));
    }
    let draft = pool.draft_after(rel, number)?;
    match found_after(pool, solver, rel, number, draft)? {
        Found::Point(bits) => {
            pool.add(bits)?;
            Ok(None)
        }
        Found::Closed(id) => Ok(Some(id)),
    }
}

// A clause that shows that, among those that closed the need before.
fn known_after(
    pool: &mut Pool,
    solver: &Closer,
    rel: Rel,
    number: u32,
) -> Result<Option<u64>, AllocError>
    requires number { number < need_count pool.old.cursor.problem }
    requires within { length pool.old.cursor.path < pair_count pool.old.cursor.problem }
    requires allowed { IsTrue (has (allowed pool.old.cursor.problem (pair_at pool.old.cursor.problem (length pool.old.cursor.path))) rel) }
    requires solver { IsSolverOf pool.old.cursor.problem solver.now }
    ensures same { OnOk result (pool.new ≡ pool.old) }
    ensures closed { IfOk result (λ known. IfSome known (λ id. HasPoint (problem_at pool.old.cursor.problem (pool.old.cursor.path ++ rel ∷ [])) (need_at pool.old.cursor.problem number) → ⊥)) }
{
    let pair = pool.cursor.len() as usize;
    pool.cursor.push(rel)?;
    let known = solver.known(&pool.cursor, number);
    pool.cursor.back_to(pair);
    Ok(known)
}

// A point in the need with a number where the relation is added, or the clause that shows that there is none.
fn found_after(
    pool: &mut Pool,
    solver: &mut Closer,
    rel: Rel,
    number: u32,
    draft: Draft,
) -> Result<Found, AllocError>
    requires number { number < need_count pool.old.cursor.problem }
    requires within { length pool.old.cursor.path < pair_count pool.old.cursor.problem }
    requires allowed { IsTrue (has (allowed pool.old.cursor.problem (pair_at pool.old.cursor.problem (length pool.old.cursor.path))) rel) }
    requires solver { IsSolverOf pool.old.cursor.problem solver.old }
    ensures solver { KeepsSolver pool.old.cursor.problem solver.old solver.new }
    ensures same { OnOk result (pool.new ≡ pool.old) }
    ensures found { IfOk result (IsFound (asker_with pool.old.cursor.problem solver.new) pool.old.cursor.problem (pool.old.cursor.path ++ rel ∷ []) (need_at pool.old.cursor.problem number)) }
{
    let pair = pool.cursor.len() as usize;
    pool.cursor.push(rel)?;
    let found = found(&pool.cursor, solver, number, draft)?;
    pool.cursor.back_to(pair);
    Ok(found)
}
