//! The asker, as its users see it.
ghost use Rattle.constraint_set.specs.Shape.{shape_of};
ghost use Rattle.learn_solver.specs.Solving.{IsTidied};
ghost use Rattle.lits_core.specs.Derivation.{live_clause};
ghost use Rattle.point_encode.specs.Needs.{IsInRange, need_seen};
ghost use Rattle.point_pool.specs.Pools.{IsPoolAt};
ghost use Rattle.point_query.specs.Answers.{IsAliveAnswer, IsFound, IsProbeAnswer, IsServedByFew};
ghost use Rattle.point_query.specs.Asking.{AskerGoes, IsAsker, IsNewAsker};
ghost use Rattle.learn_solver.specs.Hints.{IsDerived, IsShown};
ghost use Rattle.rcc5_core.specs.RelationSet.{has};
ghost use Rattle.rcc5_core.specs.declared.Rel.{Rel};
ghost use Rattle.std.specs.Prelude.{IfNone, IfOk, IfSome, IsTrue, MatchOption, OnErr, OnOk, [], length, nat_lt, ◌++◌, ◌+◌, ◌<◌, ◌↔◌, ◌∷◌, ◌≡◌, ◌≤◌};
ghost use Rattle.world_model.specs.Alive.{IsAlive, problem_at};
ghost use Rattle.world_model.specs.Problem.{pair_count};

use crate::answers::{Alive, Found, Points, Probe};
use crate::closer::Closer;
use crate::given::solver_of;
use crate::leading::alive_after;
use crate::probe::{alive, ask, probe, serving};
use constraint_set::Problem;
use learn_solver::Literals;
use lits_core::{Line, Lit, law_derived_clauses_follow};
use point_encode::Need;
use point_pool::Pool;
use rcc5_core::{Position, RelSet};
use std::alloc::{AllocError, Global};
use std::marker::Model;

/// Asks for points of the prefixes of problems of one shape. Points that were found are kept, and the last prefix with a point
/// for each of its needs: one that differs by a relation costs a look at the points and at the needs that lost theirs. Another
/// problem of the shape keeps the points that meet it.
pub struct Asker {
    shape: Problem,
    solver: Closer,
    pool: Option<Pool>,
    alloc: Global,
}

// Written out, so that letting one go is a call.
impl Drop for Asker {
    fn drop(self) {
        let Asker {
            shape: _,
            solver: _,
            pool: _,
            alloc: _,
        } = self;
    }
}

impl Model for Asker {
    ghost use Rattle.point_query.specs.Asking.{AskerState};
    ghost use Rattle.point_query.specs.Queries.{asker_with};

    ghost Value = { AskerState };

    ghost use Rattle.point_query.specs.Closing.{IsKeptAsker};

    ghost view = { λ s. asker_with s.shape s.solver };

    ghost invariant = { λ s. IsKeptAsker s.shape s.solver s.pool };
}

impl Asker {
    /// For problems of the shape of this one.
    pub fn new(alloc: Global, problem: &Problem) -> Result<Asker, AllocError>
        ensures { IfOk result (IsNewAsker problem.now) }
    {
        let solver = solver_of(alloc, problem)?;
        let solver = Closer::new(alloc, solver, problem)?;
        let shape = problem.copy()?;
        Ok(Asker {
            shape,
            solver,
            pool: None,
            alloc,
        })
    }

    /// A point of the prefix in a need, forced or not, or the clause that shows that there is none.
    pub fn ask(
        &mut self,
        problem: &Problem,
        prefix: &Position,
        need: Need,
    ) -> Result<Found, AllocError>
        requires shape { self.old.shape ≡ shape_of problem.now }
        requires prefix { length prefix.now ≤ pair_count problem.now }
        requires range { IsInRange problem.now need }
        ensures kept { AskerGoes self.old self.new }
        ensures found { IfOk result (IsFound self.new problem.now prefix.now (need_seen problem.now need)) }
    {
        let mut pool = self.take_pool(problem)?;
        let found = ask(&mut pool, &mut self.solver, prefix, need)?;
        self.pool = Some(pool);
        Ok(found)
    }

    /// Whether the prefix is alive, with a point for each need.
    pub fn alive(&mut self, problem: &Problem, prefix: &Position) -> Result<Alive, AllocError>
        requires shape { self.old.shape ≡ shape_of problem.now }
        requires prefix { length prefix.now ≤ pair_count problem.now }
        ensures kept { AskerGoes self.old self.new }
        ensures answer { IfOk result (IsAliveAnswer self.new problem.now prefix.now) }
    {
        let mut pool = self.take_pool(problem)?;
        let answer = alive(&mut pool, &mut self.solver, prefix)?;
        self.pool = Some(pool);
        Ok(answer)
    }

    /// Points that serve the prefix, no more than the needs, if it is alive: the witnesses, of which one often serves many needs.
    pub fn serving(
        &mut self,
        problem: &Problem,
        prefix: &Position,
    ) -> Result<Option<Points>, AllocError>
        requires shape { self.old.shape ≡ shape_of problem.now }
        requires prefix { length prefix.now ≤ pair_count problem.now }
        ensures kept { AskerGoes self.old self.new }
        ensures some { IfOk result (λ found. IfSome found (IsServedByFew (problem_at problem.now prefix.now))) }
        ensures none { IfOk result (λ found. IfNone found (IsAlive (problem_at problem.now prefix.now) → ⊥)) }
    {
        let mut pool = self.take_pool(problem)?;
        let points = serving(&mut pool, &mut self.solver, prefix)?;
        self.pool = Some(pool);
        Ok(points)
    }

    /// Whether the prefix is alive.
    pub fn probe(&mut self, problem: &Problem, prefix: &Position) -> Result<Probe, AllocError>
        requires shape { self.old.shape ≡ shape_of problem.now }
        requires prefix { length prefix.now ≤ pair_count problem.now }
        ensures kept { AskerGoes self.old self.new }
        ensures answer { IfOk result (IsProbeAnswer self.new problem.now prefix.now) }
    {
        let mut pool = self.take_pool(problem)?;
        let answer = probe(&mut pool, &mut self.solver, prefix)?;
        self.pool = Some(pool);
        Ok(answer)
    }

    /// Whether the prefix is alive, and no more: neither a need without a point nor a clause is named.
    pub fn is_alive(&mut self, problem: &Problem, prefix: &Position) -> Result<bool, AllocError>
        requires shape { self.old.shape ≡ shape_of problem.now }
        requires prefix { length prefix.now ≤ pair_count problem.now }
        ensures kept { AskerGoes self.old self.new }
        ensures alive { IfOk result (λ yes. IsTrue yes ↔ IsAlive (problem_at problem.now prefix.now)) }
    {
        match self.probe(problem, prefix)? {
            Probe::Alive => Ok(true),
            Probe::EmptyPair(_) => Ok(false),
            Probe::Closed(_, _) => Ok(false),
        }
    }

    /// The relations that lead on from an alive prefix to an alive one.
    pub fn alive_after(
        &mut self,
        problem: &Problem,
        prefix: &Position,
    ) -> Result<RelSet, AllocError>
        requires shape { self.old.shape ≡ shape_of problem.now }
        requires short { length prefix.now < pair_count problem.now }
        requires alive { IsAlive (problem_at problem.now prefix.now) }
        ensures kept { AskerGoes self.old self.new }
        ensures each { IfOk result (λ set. (rel : Rel) → IsTrue (has set rel) ↔ IsAlive (problem_at problem.now (prefix.now ++ rel ∷ []))) }
    {
        let mut pool = self.take_pool(problem)?;
        let set = alive_after(&mut pool, &mut self.solver, prefix)?;
        self.pool = Some(pool);
        Ok(set)
    }

    // The pool that was kept, brought to a problem. Until it is put back the asker keeps none.
    fn take_pool(&mut self, problem: &Problem) -> Result<Pool, AllocError>
        requires shape { self.old.shape ≡ shape_of problem.now }
        ensures same { self.new ≡ self.old }
        ensures pool { IfOk result (IsPoolAt problem.now) }
    {
        match self.pool.take() {
            Some(pool) => pool.moved_to(self.alloc, problem),
            None => new_pool(self.alloc, problem),
        }
    }

    /// The lines that wait.
    pub fn lines(&self) -> &[Line]
        ensures { result.now ≡ self.now.solver.waiting }
    {
        self.solver.lines()
    }

    /// Drops the lines that wait.
    pub fn clear_lines(&mut self)
        ensures { self.new ≡ record self.old { solver = record self.old.solver { waiting = [] } } }
    {
        self.solver.clear_lines();
    }

    /// Whether more clauses than so many are idle. Where no more are derived, none is looked at.
    pub fn has_more_idle(&self, most: u64) -> bool
        ensures { result ≡ nat_lt most (length self.now.solver.idle) }
    {
        self.solver.has_more_idle(most)
    }

    /// Forgets the clauses that are idle, with one line for them all, and remembers none of them.
    pub fn tidy(&mut self) -> Result<(), AllocError>
        ensures kept { AskerGoes self.old self.new }
        ensures ok { OnOk result (IsTidied self.old.solver self.new.solver) }
        ensures err { OnErr result (self.new ≡ self.old) }
    {
        law_derived_clauses_follow();
        self.solver.tidy()
    }

    /// The literals of the live clause with an id.
    pub fn clause(&self, id: u64) -> Option<Literals<'_>>
        ensures { result ≡ live_clause self.now.solver.state id }
    {
        self.solver.solver.clause(id)
    }

    /// Adds a clause that live clauses show, with its line, and answers its id; none exactly where a literal is of no variable of
    /// the problem, or the hints do not show it.
    pub fn derive(&mut self, lits: &[Lit], hints: &[u64]) -> Result<Option<u64>, AllocError>
        ensures kept { AskerGoes self.old self.new }
        ensures derived { IfOk result (λ o. IfSome o (IsDerived self.old.solver self.new.solver lits.now hints.now)) }
        ensures none { IfOk result (λ o. IfNone o (IsShown self.old.solver lits.now hints.now → ⊥)) }
        ensures same { IfOk result (λ o. IfNone o (self.new ≡ self.old)) }
        ensures err { OnErr result (self.new ≡ self.old) }
    {
        law_derived_clauses_follow();
        self.solver.derive(lits, hints)
    }

    /// What is so of an asker at any time, for a proof.
    pub fn facts(&self)
        ensures { IsAsker self.now }
    {
        self.solver.facts();
    }
}

// A pool at a problem, without points.
fn new_pool(alloc: Global, problem: &Problem) -> Result<Pool, AllocError>
    ensures { IfOk result (IsPoolAt problem.now) }
{
    Pool::new(alloc, problem.copy()?, Vec::new(alloc))
}
