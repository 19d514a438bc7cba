//! Sees to it that the needs of a pool's prefix have points.
ghost use Rattle.point_encode.specs.Model.Forced.{need_at, need_count};
ghost use Rattle.point_pool.specs.Pools.{HasWitness, IsPool, IsPoolBut};
ghost use Rattle.point_query.specs.Answers.{IsFound};
ghost use Rattle.point_query.specs.Closing.{IsClosedNow, IsFirstStuck, IsStuck};
ghost use Rattle.point_query.specs.Queries.{IsSolverOf, KeepsSolver, asker_with};
ghost use Rattle.std.specs.Prelude.{IfNone, IfOk, IfSome, OnOk, [], ◌+◌, ◌<◌, ◌≡◌};

use crate::answers::Found;
use crate::closer::Closer;
use lits_core::law_literals_are_sets;
use point_draft::Draft;
use point_encode::count_needs;
use point_pool::{Cursor, Pool};
use std::alloc::AllocError;

// A point of the prefix in the need with a number, or the clause that shows that there is none: what is drafted is tried first.
pub(crate) fn found(
    cursor: &Cursor,
    solver: &mut Closer,
    number: u32,
    draft: Draft,
) -> Result<Found, AllocError>
    requires within { number < need_count cursor.now.problem }
    requires solver { IsSolverOf cursor.now.problem solver.old }
    ensures solver { KeepsSolver cursor.now.problem solver.old solver.new }
    ensures found { IfOk result (IsFound (asker_with cursor.now.problem solver.new) cursor.now.problem cursor.now.path (need_at cursor.now.problem number)) }
{
    if let Some(bits) = cursor.drafted(number, &draft)? {
        return Ok(Found::Point(bits));
    }
    solver.ask(cursor, number, draft)
}

// Sees to it that a need has a witness, or answers the clause that shows that it has no point.
pub(crate) fn serve(
    pool: &mut Pool,
    solver: &mut Closer,
    number: u32,
) -> Result<Option<u64>, AllocError>
    requires pool { IsPoolBut pool.old number (number + 1) }
    requires within { number < need_count pool.old.cursor.problem }
    requires solver { IsSolverOf pool.old.cursor.problem solver.old }
    ensures solver { KeepsSolver pool.old.cursor.problem solver.old solver.new }
    ensures cursor { OnOk result (pool.new.cursor ≡ pool.old.cursor) }
    ensures waiting { OnOk result (pool.new.waiting ≡ pool.old.waiting) }
    ensures served { IfOk result (λ closed. IfNone closed (IsPool pool.new × HasWitness pool.new number)) }
    ensures closed { IfOk result (λ closed. IfSome closed (λ id. IsPoolBut pool.new number (number + 1) × IsClosedNow pool.new solver.new number id)) }
{
    if let Some(place) = pool.find(number) {
        pool.assign(number, place)?;
        return Ok(None);
    }
    if let Some(id) = solver.known(&pool.cursor, number) {
        return Ok(Some(id));
    }
    let draft = pool.draft(number)?;
    match found(&pool.cursor, solver, number, draft)? {
        Found::Point(bits) => {
            let place = pool.add(bits)?;
            pool.assign(number, place)?;
            Ok(None)
        }
        Found::Closed(id) => Ok(Some(id)),
    }
}

// Sees to it that a number waits no more: it is no need, or served; or answers the clause that shows that it has no point.
fn settle_one(pool: &mut Pool, solver: &mut Closer, number: u32) -> Result<Option<u64>, AllocError>
    requires pool { IsPoolBut pool.old number (number + 1) }
    requires solver { IsSolverOf pool.old.cursor.problem solver.old }
    ensures solver { KeepsSolver pool.old.cursor.problem solver.old solver.new }
    ensures cursor { OnOk result (pool.new.cursor ≡ pool.old.cursor) }
    ensures waiting { OnOk result (pool.new.waiting ≡ pool.old.waiting) }
    ensures settled { IfOk result (λ closed. IfNone closed (IsPool pool.new)) }
    ensures closed { IfOk result (λ closed. IfSome closed (IsStuck pool.new solver.new number)) }
{
    if number >= count_needs(pool.cursor.problem()) {
        return Ok(None);
    }
    if !pool.cursor.is_needed(number) {
        return Ok(None);
    }
    if pool.is_served(number) {
        return Ok(None);
    }
    serve(pool, solver, number)
}

// Sees to it that each need has a witness, or answers the first need without a point and the clause that shows it.
pub(crate) fn settle(pool: &mut Pool, solver: &mut Closer) -> Result<Option<(u32, u64)>, AllocError>
    requires pool { IsPool pool.old }
    requires solver { IsSolverOf pool.old.cursor.problem solver.old }
    ensures solver { KeepsSolver pool.old.cursor.problem solver.old solver.new }
    ensures pool { OnOk result (IsPool pool.new) }
    ensures cursor { OnOk result (pool.new.cursor ≡ pool.old.cursor) }
    ensures settled { IfOk result (λ closed. IfNone closed (pool.new.waiting ≡ [])) }
    ensures closed { IfOk result (λ closed. IfSome closed (λ c. IsFirstStuck pool.new solver.new c.0 c.1)) }
{
    law_literals_are_sets();
    while let Some(number) = pool.waiting.pop() {
        if let Some(id) = settle_one(pool, solver, number)? {
            pool.waiting.push(number)?;
            return Ok(Some((number, id)));
        }
    }
    Ok(None)
}
