//! Points for all needs of a prefix.
ghost use Rattle.point_encode.specs.Needs.{IsInRange, need_seen};
ghost use Rattle.point_pool.specs.Cursors.{AreSelectors, IsFirstEmpty};
ghost use Rattle.point_query.specs.Queries.{ArePoints, IsSolverOf, KeepsSolver, asker_with};
ghost use Rattle.search_checks.specs.Asker.Seeking.{IsFront, IsPlaced, IsSought};
ghost use Rattle.std.specs.Prelude.{All, IfNone, IfOk, IfSome, IsTrue, [], length, map, slice_index_or, ◌<◌, ◌≡◌, ◌≤◌};
ghost use Rattle.world_model.specs.Alive.{all_allow, is_in_need, needs, problem_at};
ghost use Rattle.world_model.specs.Problem.{concept_count, pair_count};

use constraint_set::Problem;
use learn_solver::Solver;
use lits_core::{Bits, Lit, law_literals_are_sets};
use point_encode::{Need, allowed_at, lies_in};
use point_query::{Found, query};
use rcc5_core::{Position, Rel};
use std::alloc::{AllocError, Global};

// For each need, in order, the place of a point in it; or the first need without a point, and the clause that shows it.
#[derive(Drop)]
pub(crate) enum Sought {
    Points {
        found: Vec<Bits>,
        places: Vec<usize>,
    },
    Closed(Need, u64),
}

// Of a need: the place of a point in it, or the clause that shows that there is none.
enum Placed {
    At(usize),
    Closed(u64),
}

// The first pair that allows nothing at a prefix.
pub(crate) fn first_empty(problem: &Problem, prefix: &Position) -> Option<u32>
    requires { length prefix.now ≤ pair_count problem.now }
    ensures none { IfNone result (IsTrue (all_allow (problem_at problem.now prefix.now))) }
    ensures some { IfSome result (IsFirstEmpty (problem_at problem.now prefix.now)) }
{
    for pair in 0..problem.pair_count() {
        if allowed_at(problem, prefix, pair).is_empty() {
            return Some(pair);
        }
    }
    None
}

// Looks for a point for each need in turn, among those found before and then by the solver.
pub(crate) fn points_for_all(
    alloc: Global,
    solver: &mut Solver,
    problem: &Problem,
    prefix: &[Rel],
    selectors: &[Lit],
    wanted: &[Need],
) -> Result<Sought, AllocError>
    requires solver { IsSolverOf problem.now solver.old }
    requires selectors { AreSelectors problem.now prefix.now selectors.now }
    requires wanted { map (need_seen problem.now) wanted.now ≡ needs (problem_at problem.now prefix.now) }
    requires range { All (IsInRange problem.now) wanted.now }
    ensures solver { KeepsSolver problem.now solver.old solver.new }
    ensures sought { IfOk result (IsSought (asker_with problem.now solver.new) problem.now prefix.now wanted.now) }
{
    law_literals_are_sets();
    let mut found = Vec::new(alloc);
    let mut places = Vec::new(alloc);
    for need in wanted {
        match place_of(alloc, solver, problem, prefix, selectors, &mut found, *need)? {
            Placed::At(place) => places.push(place)?,
            Placed::Closed(id) => return Ok(Sought::Closed(*need, id)),
        }
    }
    Ok(Sought::Points { found, places })
}

// The place of a point in the need among those found, to which it is added where it is new.
fn place_of(
    alloc: Global,
    solver: &mut Solver,
    problem: &Problem,
    prefix: &[Rel],
    selectors: &[Lit],
    found: &mut Vec<Bits>,
    need: Need,
) -> Result<Placed, AllocError>
    requires solver { IsSolverOf problem.now solver.old }
    requires selectors { AreSelectors problem.now prefix.now selectors.now }
    requires range { IsInRange problem.now need }
    requires points { ArePoints (problem_at problem.now prefix.now) found.old.items }
    ensures solver { KeepsSolver problem.now solver.old solver.new }
    ensures points { ArePoints (problem_at problem.now prefix.now) found.new.items }
    ensures grown { IsFront found.old.items found.new.items }
    ensures placed { IfOk result (IsPlaced (asker_with problem.now solver.new) problem.now prefix.now found.new.items (need_seen problem.now need)) }
{
    if let Some(place) = place_in(found, problem, need) {
        return Ok(Placed::At(place));
    }
    match query(alloc, solver, problem, prefix, selectors, need)? {
        Found::Point(bits) => {
            let place = found.len();
            found.push(bits)?;
            Ok(Placed::At(place))
        }
        Found::Closed(id) => Ok(Placed::Closed(id)),
    }
}

// The place of the first of some points that is in the need.
fn place_in(points: &[Bits], problem: &Problem, need: Need) -> Option<usize>
    requires range { IsInRange problem.now need }
    requires counted { All (λ bits. length bits ≡ concept_count problem.now) points.now }
    ensures within { IfSome result (λ place. place < length points.now) }
    ensures in_need { IfSome result (λ place. IsTrue (is_in_need (need_seen problem.now need) (slice_index_or points.now place []))) }
{
    for (place, bits) in points.iter().enumerate() {
        if is_in_need(problem, need, bits) {
            return Some(place);
        }
    }
    None
}

// Whether a point is in a need.
fn is_in_need(problem: &Problem, need: Need, bits: &Bits) -> bool
    requires range { IsInRange problem.now need }
    requires counted { length bits.now ≡ concept_count problem.now }
    ensures { result ≡ is_in_need (need_seen problem.now need) bits.now }
{
    match need {
        Need::Concept(concept) => bits.get(concept as usize),
        Need::Region { pair, part } => {
            let (x, y) = problem.pair_at(pair);
            lies_in(u32::from(part), bits.get(x as usize), bits.get(y as usize))
        }
    }
}
