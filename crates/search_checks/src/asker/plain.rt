//! The plain asker: nothing is kept from call to call.
ghost use Rattle.constraint_set.specs.Shape.{shape_of};
ghost use Rattle.point_encode.specs.Needs.{IsInRange, need_seen};
ghost use Rattle.point_query.specs.Answers.{IsAliveAnswer, IsFound, IsProbeAnswer};
ghost use Rattle.point_query.specs.Asking.{AskerGoes, IsNewAsker};
ghost use Rattle.search_checks.specs.Asker.Seeking.{IsSoughtAt, chosen};
ghost use Rattle.std.specs.Prelude.{All, Contains, IfOk, length, ◌<◌, ◌≡◌, ◌≤◌};
ghost use Rattle.world_model.specs.Alive.{needs, problem_at};
ghost use Rattle.world_model.specs.Problem.{pair_count};

use crate::asker::each_need::{Sought, first_empty, points_for_all};
use constraint_set::Problem;
use learn_solver::Solver;
use lits_core::Bits;
use point_encode::{Need, needs_of, selectors_of};
use point_pool::copy;
use point_query::{Alive, Found, Points, Probe, query, solver_of};
use rcc5_core::Position;
use std::alloc::{AllocError, Global};
use std::marker::Model;

/// An asker that asks for each need anew, and answers as `Asker` does: there to be compared with it.
#[derive(Drop)]
pub struct PlainAsker {
    shape: Problem,
    solver: Solver,
    alloc: Global,
}

impl Model for PlainAsker {
    ghost use Rattle.point_query.specs.Asking.{AskerState};
    ghost use Rattle.point_query.specs.Queries.{IsSolverOf, asker_with};

    ghost Value = { AskerState };

    ghost view = { λ s. asker_with s.shape s.solver };

    ghost invariant = { λ s. IsSolverOf s.shape s.solver };
}

impl PlainAsker {
    /// For problems of the shape of this one.
    pub fn new(alloc: Global, problem: &Problem) -> Result<PlainAsker, AllocError>
        ensures { IfOk result (IsNewAsker problem.now) }
    {
        let solver = solver_of(alloc, problem)?;
        let shape = problem.copy()?;
        Ok(PlainAsker {
            shape,
            solver,
            alloc,
        })
    }

    /// A point of the prefix in a need that it forces, or the clause that shows that there is none.
    pub fn ask(
        &mut self,
        problem: &Problem,
        prefix: &Position,
        need: Need,
    ) -> Result<Found, AllocError>
        requires shape { self.old.shape ≡ shape_of problem.now }
        requires prefix { length prefix.now ≤ pair_count problem.now }
        requires range { IsInRange problem.now need }
        requires forced { Contains (needs (problem_at problem.now prefix.now)) (need_seen problem.now need) }
        ensures kept { AskerGoes self.old self.new }
        ensures found { IfOk result (IsFound self.new problem.now prefix.now (need_seen problem.now need)) }
    {
        let selectors = selectors_of(self.alloc, problem, prefix)?;
        query(
            self.alloc,
            &mut self.solver,
            problem,
            prefix.rels(),
            &selectors,
            need,
        )
    }

    /// Whether the prefix is alive, with a point for each need.
    pub fn alive(&mut self, problem: &Problem, prefix: &Position) -> Result<Alive, AllocError>
        requires shape { self.old.shape ≡ shape_of problem.now }
        requires prefix { length prefix.now ≤ pair_count problem.now }
        ensures kept { AskerGoes self.old self.new }
        ensures answer { IfOk result (IsAliveAnswer self.new problem.now prefix.now) }
    {
        if let Some(pair) = first_empty(problem, prefix) {
            return Ok(Alive::EmptyPair(pair));
        }
        match self.points_for_all(problem, prefix)? {
            Sought::Points { found, places } => {
                let points = copies(self.alloc, &found, &places)?;
                Ok(Alive::Points(points))
            }
            Sought::Closed(need, id) => Ok(Alive::Closed(need, id)),
        }
    }

    /// Whether the prefix is alive.
    pub fn probe(&mut self, problem: &Problem, prefix: &Position) -> Result<Probe, AllocError>
        requires shape { self.old.shape ≡ shape_of problem.now }
        requires prefix { length prefix.now ≤ pair_count problem.now }
        ensures kept { AskerGoes self.old self.new }
        ensures answer { IfOk result (IsProbeAnswer self.new problem.now prefix.now) }
    {
        if let Some(pair) = first_empty(problem, prefix) {
            return Ok(Probe::EmptyPair(pair));
        }
        match self.points_for_all(problem, prefix)? {
            Sought::Points { .. } => Ok(Probe::Alive),
            Sought::Closed(need, id) => Ok(Probe::Closed(need, id)),
        }
    }

    // Points for all needs of a prefix, or the first need without a point.
    fn points_for_all(&mut self, problem: &Problem, prefix: &Position) -> Result<Sought, AllocError>
        requires shape { self.old.shape ≡ shape_of problem.now }
        requires prefix { length prefix.now ≤ pair_count problem.now }
        ensures kept { AskerGoes self.old self.new }
        ensures sought { IfOk result (IsSoughtAt self.new problem.now prefix.now) }
    {
        let selectors = selectors_of(self.alloc, problem, prefix)?;
        let needs = needs_of(self.alloc, problem, prefix)?;
        points_for_all(
            self.alloc,
            &mut self.solver,
            problem,
            prefix.rels(),
            &selectors,
            &needs,
        )
    }
}

// The points at some places.
fn copies(alloc: Global, points: &[Bits], places: &[usize]) -> Result<Points, AllocError>
    requires { All (λ place. place < length points.now) places.now }
    ensures { IfOk result (λ list. list ≡ chosen points.now places.now) }
{
    let mut list = Vec::with_capacity(alloc, places.len())?;
    for place in places {
        list.push(copy(alloc, &points[*place])?)?;
    }
    Ok(Points::new(list))
}
