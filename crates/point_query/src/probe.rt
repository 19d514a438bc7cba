//! What is answered of a prefix: the pool goes there, and each need is to have a point.
ghost use Rattle.point_encode.specs.Needs.{IsInRange, need_seen};
ghost use Rattle.point_pool.specs.Pools.{IsPool};
ghost use Rattle.point_query.specs.Answers.{IsAliveAnswer, IsFound, IsProbeAnswer, IsServedByFew};
ghost use Rattle.point_query.specs.Queries.{IsSolverOf, KeepsSolver, asker_with};
ghost use Rattle.std.specs.Prelude.{IfNone, IfOk, IfSome, OnOk, length, ◌≡◌, ◌≤◌};
ghost use Rattle.world_model.specs.Alive.{IsAlive, problem_at};
ghost use Rattle.world_model.specs.Problem.{pair_count};

use crate::answers::{Alive, Found, Points, Probe};
use crate::closer::Closer;
use crate::settle::{serve, settle};
use point_encode::{Need, need_at, need_number};
use point_pool::Pool;
use rcc5_core::Position;
use std::alloc::AllocError;

// Whether a prefix is alive.
pub(crate) fn probe(
    pool: &mut Pool,
    solver: &mut Closer,
    prefix: &Position,
) -> Result<Probe, AllocError>
    requires pool { IsPool pool.old }
    requires prefix { length prefix.now ≤ pair_count pool.old.cursor.problem }
    requires solver { IsSolverOf pool.old.cursor.problem solver.old }
    ensures solver { KeepsSolver pool.old.cursor.problem solver.old solver.new }
    ensures pool { OnOk result (IsPool pool.new) }
    ensures problem { OnOk result (pool.new.cursor.problem ≡ pool.old.cursor.problem) }
    ensures answer { IfOk result (IsProbeAnswer (asker_with pool.old.cursor.problem solver.new) pool.old.cursor.problem prefix.now) }
{
    if let Some(pair) = pool.go_to(prefix)? {
        return Ok(Probe::EmptyPair(pair));
    }
    if let Some((number, id)) = settle(pool, solver)? {
        return Ok(Probe::Closed(need_at(pool.cursor.problem(), number), id));
    }
    Ok(Probe::Alive)
}

// Whether a prefix is alive, with a point for each need.
pub(crate) fn alive(
    pool: &mut Pool,
    solver: &mut Closer,
    prefix: &Position,
) -> Result<Alive, AllocError>
    requires pool { IsPool pool.old }
    requires prefix { length prefix.now ≤ pair_count pool.old.cursor.problem }
    requires solver { IsSolverOf pool.old.cursor.problem solver.old }
    ensures solver { KeepsSolver pool.old.cursor.problem solver.old solver.new }
    ensures pool { OnOk result (IsPool pool.new) }
    ensures problem { OnOk result (pool.new.cursor.problem ≡ pool.old.cursor.problem) }
    ensures answer { IfOk result (IsAliveAnswer (asker_with pool.old.cursor.problem solver.new) pool.old.cursor.problem prefix.now) }
{
    if let Some(pair) = pool.go_to(prefix)? {
        return Ok(Alive::EmptyPair(pair));
    }
    if let Some((number, id)) = settle(pool, solver)? {
        return Ok(Alive::Closed(need_at(pool.cursor.problem(), number), id));
    }
    let points = pool.witnesses()?;
    Ok(Alive::Points(Points::new(points)))
}

// Points that serve a prefix, no more than its needs, if it is alive.
pub(crate) fn serving(
    pool: &mut Pool,
    solver: &mut Closer,
    prefix: &Position,
) -> Result<Option<Points>, AllocError>
    requires pool { IsPool pool.old }
    requires prefix { length prefix.now ≤ pair_count pool.old.cursor.problem }
    requires solver { IsSolverOf pool.old.cursor.problem solver.old }
    ensures solver { KeepsSolver pool.old.cursor.problem solver.old solver.new }
    ensures pool { OnOk result (IsPool pool.new) }
    ensures problem { OnOk result (pool.new.cursor.problem ≡ pool.old.cursor.problem) }
    ensures some { IfOk result (λ found. IfSome found (IsServedByFew (problem_at pool.old.cursor.problem prefix.now))) }
    ensures none { IfOk result (λ found. IfNone found (IsAlive (problem_at pool.old.cursor.problem prefix.now) → ⊥)) }
{
    if let Some(_) = pool.go_to(prefix)? {
        return Ok(None);
    }
    if let Some(_) = settle(pool, solver)? {
        return Ok(None);
    }
    let points = pool.gathered()?;
    Ok(Some(Points::new(points)))
}

// A point of a prefix in a need, or the clause that shows that there is none.
pub(crate) fn ask(
    pool: &mut Pool,
    solver: &mut Closer,
    prefix: &Position,
    need: Need,
) -> Result<Found, AllocError>
    requires pool { IsPool pool.old }
    requires prefix { length prefix.now ≤ pair_count pool.old.cursor.problem }
    requires range { IsInRange pool.old.cursor.problem need }
    requires solver { IsSolverOf pool.old.cursor.problem solver.old }
    ensures solver { KeepsSolver pool.old.cursor.problem solver.old solver.new }
    ensures pool { OnOk result (IsPool pool.new) }
    ensures problem { OnOk result (pool.new.cursor.problem ≡ pool.old.cursor.problem) }
    ensures found { IfOk result (IsFound (asker_with pool.old.cursor.problem solver.new) pool.old.cursor.problem prefix.now (need_seen pool.old.cursor.problem need)) }
{
    match pool.go_to(prefix)? {
        None => ask_here(pool, solver, need),
        Some(_) => solver.ask_at(pool.cursor.problem(), prefix, need),
    }
}

// A point of the pool's prefix in a need, or the clause that shows that there is none.
fn ask_here(pool: &mut Pool, solver: &mut Closer, need: Need) -> Result<Found, AllocError>
    requires pool { IsPool pool.old }
    requires range { IsInRange pool.old.cursor.problem need }
    requires solver { IsSolverOf pool.old.cursor.problem solver.old }
    ensures solver { KeepsSolver pool.old.cursor.problem solver.old solver.new }
    ensures pool { OnOk result (IsPool pool.new) }
    ensures problem { OnOk result (pool.new.cursor.problem ≡ pool.old.cursor.problem) }
    ensures found { IfOk result (IsFound (asker_with pool.old.cursor.problem solver.new) pool.old.cursor.problem pool.old.cursor.path (need_seen pool.old.cursor.problem need)) }
{
    let number = need_number(pool.cursor.problem(), need);
    if let Some(id) = serve(pool, solver, number)? {
        pool.waiting.push(number)?;
        return Ok(Found::Closed(id));
    }
    let point = pool.witness(number)?;
    Ok(Found::Point(point))
}
