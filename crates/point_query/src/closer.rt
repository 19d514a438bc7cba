//! The solver of an asker, with the clauses that closed needs before.
ghost use Rattle.point_encode.specs.Model.Forced.{IsClosedAt, need_at, need_count};
ghost use Rattle.learn_solver.specs.Solving.{GoesTo, IsSolver, IsTidied};
ghost use Rattle.lits_core.specs.Derivation.{live_clause};
ghost use Rattle.point_encode.specs.Needs.{IsInRange, need_seen};
ghost use Rattle.point_query.specs.Answers.{IsClosed, IsFound};
ghost use Rattle.learn_solver.specs.Hints.{IsDerived, IsShown};
ghost use Rattle.point_query.specs.Queries.{IsSolverOf, KeepsSolver, asker_with};
ghost use Rattle.std.specs.Prelude.{IfNone, IfOk, IfSome, IsTrue, MatchOption, OnErr, OnOk, [], length, nat_lt, ◌<◌, ◌≡◌, ◌≤◌};
ghost use Rattle.world_model.specs.Alive.{IsAlive, problem_at};
ghost use Rattle.world_model.specs.Problem.{pair_count};

use crate::answers::Found;
use crate::closes::closes;
use crate::closings::{Closings, forget_idle};
use crate::drafted::add_steps;
use crate::question::query;
use crate::stuck::{Closing, Stuck};
use constraint_set::Problem;
use learn_solver::Solver;
use lits_core::{Line, Lit, law_literals_are_sets};
use point_draft::Draft;
use point_encode::{
    Need, clauses_are_points, count_needs, need_at, needs_are_literals, selectors_of,
};
use point_pool::Cursor;
use rcc5_core::{Position, Rel};
use std::alloc::{AllocError, Global};
use std::marker::Model;

/// A solver, and the clauses that closed needs before: a need that one of them closes again costs no question, and a relation that
/// closed a need of its pair before is mostly ruled out again by a look at one of them.
pub(crate) struct Closer {
    pub(crate) solver: Solver,
    closings: Closings,
    stuck: Stuck,
    alloc: Global,
}

// Written out, so that letting one go is a call.
impl Drop for Closer {
    fn drop(self) {
        let Closer {
            solver: _,
            closings: _,
            stuck: _,
            alloc: _,
        } = self;
    }
}

impl Model for Closer {
    ghost use Rattle.learn_solver.specs.Solving.{SolverState};

    ghost Value = { SolverState };

    ghost view = { λ o. o.solver };
}

impl Closer {
    // A solver of the shape of a problem that was asked nothing yet.
    pub(crate) fn new(
        alloc: Global,
        solver: Solver,
        problem: &Problem,
    ) -> Result<Closer, AllocError>
        ensures { IfOk result (λ o. o ≡ solver) }
    {
        let closings = Closings::new(alloc, count_needs(problem))?;
        let stuck = Stuck::new(alloc, problem.pair_count())?;
        Ok(Closer {
            solver,
            closings,
            stuck,
            alloc,
        })
    }

    // A point of the prefix in the need with a number, or the clause that shows that there is none. What is drafted is tried first.
    pub(crate) fn ask(
        &mut self,
        cursor: &Cursor,
        number: u32,
        draft: Draft,
    ) -> Result<Found, AllocError>
        requires within { number < need_count cursor.now.problem }
        requires solver { IsSolverOf cursor.now.problem self.old }
        ensures solver { KeepsSolver cursor.now.problem self.old self.new }
        ensures found { IfOk result (IsFound (asker_with cursor.now.problem self.new) cursor.now.problem cursor.now.path (need_at cursor.now.problem number)) }
    {
        law_literals_are_sets();
        if let Some(id) = self.drafted(cursor, number, draft)? {
            return Ok(Found::Closed(id));
        }
        self.asked(cursor, number)
    }

    // A point of the prefix in the need with a number, or the clause that shows that there is none, by the solver; the clause is noted.
    fn asked(&mut self, cursor: &Cursor, number: u32) -> Result<Found, AllocError>
        requires within { number < need_count cursor.now.problem }
        requires solver { IsSolverOf cursor.now.problem self.old }
        ensures solver { KeepsSolver cursor.now.problem self.old self.new }
        ensures found { IfOk result (IsFound (asker_with cursor.now.problem self.new) cursor.now.problem cursor.now.path (need_at cursor.now.problem number)) }
    {
        let found = self.question(cursor, number)?;
        if let Found::Closed(id) = &found {
            self.closings.note(number, *id)?;
        }
        Ok(found)
    }

    // A clause that closes the need with a number, drafted and then added.
    fn drafted(
        &mut self,
        cursor: &Cursor,
        number: u32,
        draft: Draft,
    ) -> Result<Option<u64>, AllocError>
        requires within { number < need_count cursor.now.problem }
        requires solver { IsSolverOf cursor.now.problem self.old }
        ensures solver { KeepsSolver cursor.now.problem self.old self.new }
        ensures closed { IfOk result (λ found. IfSome found (IsClosed (asker_with cursor.now.problem self.new) cursor.now.problem cursor.now.path (need_at cursor.now.problem number))) }
    {
        let Draft::Empty(steps) = draft else {
            return Ok(None);
        };
        let Some(id) = add_steps(self.alloc, cursor.problem(), &mut self.solver, &steps)? else {
            return Ok(None);
        };
        if !closes(&self.solver, cursor, number, id) {
            return Ok(None);
        }
        self.closings.note(number, id)?;
        self.shows(cursor, number, id);
        Ok(Some(id))
    }

    // A point in a need, or a clause that closes it, by the solver alone.
    fn question(&mut self, cursor: &Cursor, number: u32) -> Result<Found, AllocError>
        requires within { number < need_count cursor.now.problem }
        requires solver { IsSolverOf cursor.now.problem self.old }
        ensures solver { KeepsSolver cursor.now.problem self.old self.new }
        ensures found { IfOk result (IsFound (asker_with cursor.now.problem self.new) cursor.now.problem cursor.now.path (need_at cursor.now.problem number)) }
    {
        let need = need_at(cursor.problem(), number);
        query(
            self.alloc,
            &mut self.solver,
            cursor.problem(),
            cursor.path(),
            cursor.selected(),
            need,
        )
    }

    // A point of a prefix in a need, by the solver, or the clause that shows that there is none.
    pub(crate) fn ask_at(
        &mut self,
        problem: &Problem,
        prefix: &Position,
        need: Need,
    ) -> Result<Found, AllocError>
        requires prefix { length prefix.now ≤ pair_count problem.now }
        requires range { IsInRange problem.now need }
        requires solver { IsSolverOf problem.now self.old }
        ensures solver { KeepsSolver problem.now self.old self.new }
        ensures found { IfOk result (IsFound (asker_with problem.now self.new) problem.now prefix.now (need_seen problem.now need)) }
    {
        let selectors = selectors_of(self.alloc, problem, prefix)?;
        query(
            self.alloc,
            &mut self.solver,
            problem,
            prefix.rels(),
            &selectors,
            need,
        )
    }

    // A clause that closes the need with a number, among those that closed it before.
    pub(crate) fn known(&self, cursor: &Cursor, number: u32) -> Option<u64>
        requires within { number < need_count cursor.now.problem }
        requires solver { IsSolverOf cursor.now.problem self.now }
        ensures { IfSome result (IsClosed (asker_with cursor.now.problem self.now) cursor.now.problem cursor.now.path (need_at cursor.now.problem number)) }
    {
        let id = self.closing(cursor, number)?;
        self.shows(cursor, number, id);
        Some(id)
    }

    // What a clause that closes a need shows.
    fn shows(&self, cursor: &Cursor, number: u32, id: u64)
        requires within { number < need_count cursor.now.problem }
        requires solver { IsSolverOf cursor.now.problem self.now }
        requires closes { MatchOption (live_clause self.now.state id) ⊥ (IsClosedAt cursor.now.problem cursor.now.path (need_at cursor.now.problem number)) }
        ensures { IsClosed (asker_with cursor.now.problem self.now) cursor.now.problem cursor.now.path (need_at cursor.now.problem number) id }
    {
        cursor.problem().facts();
        self.solver.facts();
        clauses_are_points();
        needs_are_literals();
        law_literals_are_sets();
    }

    // A clause that closes the need with a number, among those that closed it before.
    fn closing(&self, cursor: &Cursor, number: u32) -> Option<u64>
        requires within { number < need_count cursor.now.problem }
        ensures { IfSome result (λ id. MatchOption (live_clause self.now.state id) ⊥ (IsClosedAt cursor.now.problem cursor.now.path (need_at cursor.now.problem number))) }
    {
        for id in self.closings.of(number)? {
            if closes(&self.solver, cursor, number, *id) {
                return Some(*id);
            }
        }
        None
    }

    // What closed a need the last time that a relation was tried at a pair: a hint.
    pub(crate) fn last_closing(&self, pair: u32, rel: Rel) -> Option<Closing> {
        self.stuck.at(pair, rel)
    }

    // Notes what closes a need where a relation is tried at a pair.
    pub(crate) fn note_closing(&mut self, pair: u32, rel: Rel, closing: Closing)
        ensures { self.new ≡ self.old }
    {
        self.stuck.note(pair, rel, closing);
    }

    // Whether a closing of another prefix shows that this one is dead.
    pub(crate) fn is_closed_again(&self, cursor: &Cursor, closing: Closing) -> bool
        requires solver { IsSolverOf cursor.now.problem self.now }
        ensures { IsTrue result → IsAlive (problem_at cursor.now.problem cursor.now.path) → ⊥ }
    {
        if closing.number >= count_needs(cursor.problem()) {
            return false;
        }
        if !cursor.is_needed(closing.number) {
            return false;
        }
        if !closes(&self.solver, cursor, closing.number, closing.id) {
            return false;
        }
        self.shows(cursor, closing.number, closing.id);
        true
    }

    // The lines that wait.
    pub(crate) fn lines(&self) -> &[Line]
        ensures { result.now ≡ self.now.waiting }
    {
        self.solver.lines()
    }

    // Drops the lines that wait.
    pub(crate) fn clear_lines(&mut self)
        ensures { self.new ≡ record self.old { waiting = [] } }
    {
        self.solver.clear_lines();
    }

    // Whether more clauses than so many are idle.
    pub(crate) fn has_more_idle(&self, most: u64) -> bool
        ensures { result ≡ nat_lt most (length self.now.idle) }
    {
        self.solver.has_more_idle(most)
    }

    // Adds a clause that live clauses show.
    pub(crate) fn derive(&mut self, lits: &[Lit], hints: &[u64]) -> Result<Option<u64>, AllocError>
        ensures kept { GoesTo self.old self.new }
        ensures derived { IfOk result (λ o. IfSome o (IsDerived self.old self.new lits.now hints.now)) }
        ensures none { IfOk result (λ o. IfNone o (IsShown self.old lits.now hints.now → ⊥)) }
        ensures same { IfOk result (λ o. IfNone o (self.new ≡ self.old)) }
        ensures err { OnErr result (self.new ≡ self.old) }
    {
        self.solver.derive(lits, hints)
    }

    // Forgets the clauses that are idle.
    pub(crate) fn tidy(&mut self) -> Result<(), AllocError>
        ensures kept { GoesTo self.old self.new }
        ensures ok { OnOk result (IsTidied self.old self.new) }
        ensures err { OnErr result (self.new ≡ self.old) }
    {
        forget_idle(&mut self.solver, &mut self.closings)
    }

    // What is so of the solver at any time.
    pub(crate) fn facts(&self)
        ensures { IsSolver self.now }
    {
        self.solver.facts();
    }
}
