//! The solver, as its users see it.
ghost use Rattle.std.specs.Prelude.{◌≡◌, ◌≢◌, ◌+◌, ◌++◌, [], None, nat_lt, length, IfOk, OnOk, OnErr, IfSome, IfNone, IsTrue, ◌↔◌, MatchOption, MatchResult, ⊤};
ghost use Rattle.lits_core.specs.Derivation.{State, first_state, live_clause, hints_fault, SameLits};
ghost use Rattle.watch_arena.specs.Trails.{AreInRange};
ghost use Rattle.learn_solver.specs.Solving.{SolverState, GoesTo, IsSolver, AddsGiven, IsTidied, AreConsistent, IsModel, IsRefutation};
ghost use Rattle.learn_solver.specs.Hints.{IsDerived, IsShown};
ghost use Rattle.learn_solver.specs.Answers.{IsAnswer};

use crate::learner::Learner;
use crate::literals::Literals;
use lits_core::{Bits, Line, Lit};
use std::alloc::{AllocError, Global};
use std::marker::Model;

/// What the solver says of clauses and assumptions.
#[derive(Debug, Drop)]
pub enum Answer {
    /// These bits meet them all.
    Bits(Bits),
    /// No bits do: the live clause of this id has only negations of assumptions.
    Refuted(u64),
}

/// Clauses, and lines that wait to be taken.
///
/// Conflict-driven clause learning in the way of MiniSat (Eén and Sörensson, *An Extensible SAT-solver*, 2003), without
/// restarts. Each learnt clause has a line that shows it by reverse unit propagation (Goldberg and Novikov, 2003).
#[derive(Drop)]
pub struct Solver {
    learner: Learner,
}

impl Model for Solver {
    ghost use Rattle.learn_solver.specs.Solving.{SolverState};

    ghost Value = { SolverState };

    ghost use Rattle.learn_solver.specs.Learners.{solver_state, IsLearner};

    ghost view = { λ s. solver_state s.learner };

    ghost invariant = { λ s. IsLearner s.learner };
}

impl Solver {
    /// No clauses yet. Variables are the numbers below `variables`.
    pub fn new(alloc: Global, variables: u32) -> Result<Solver, AllocError>
        ensures { IfOk result (λ s. s ≡ record { variables = variables; state = first_state []; waiting = []; idle = []; assigned = [] }) }
    {
        let learner = Learner::new(alloc, variables)?;
        Ok(Solver { learner })
    }

    /// Adds a given clause and answers its id: 1, 2 and so on.
    pub fn add(&mut self, lits: &[Lit]) -> Result<u64, AllocError>
        requires range { AreInRange lits.now self.old.variables }
        requires first { self.old.state.derived ≡ [] }
        requires quiet { self.old.waiting ≡ [] }
        ensures id { IfOk result (λ id. id ≡ length self.old.state.given + 1) }
        ensures ok { OnOk result (AddsGiven self.old self.new lits.now) }
        ensures err { OnErr result (self.new ≡ self.old) }
    {
        self.learner.add(lits)
    }

    /// Bits that meet the given clauses and the assumptions, or the clause that shows that there are none.
    ///
    /// Assumptions may repeat. The trail is kept between calls as far as the assumptions agree, so give those that stay first.
    /// `more` stands behind the assumptions, so a caller that adds a few need not copy them.
    pub fn solve(&mut self, assumptions: &[Lit], more: &[Lit]) -> Result<Answer, AllocError>
        requires range { AreInRange (assumptions.now ++ more.now) self.old.variables }
        requires consistent { AreConsistent (assumptions.now ++ more.now) }
        ensures kept { GoesTo self.old self.new }
        ensures answer { IfOk result (IsAnswer self.new (assumptions.now ++ more.now)) }
    {
        self.learner.solve(assumptions, more)
    }

    /// Adds a clause that live clauses show, with its line, and answers its id; none exactly where a literal is of no variable of
    /// the solver, or the hints do not show it.
    ///
    /// The hints are ids, taken in turn with the clause's literals held false: each one's clause must be left at most one
    /// literal, which then holds, until one is left none. Hints after that one are dropped. After want of memory nothing has
    /// changed either.
    pub fn derive(&mut self, lits: &[Lit], hints: &[u64]) -> Result<Option<u64>, AllocError>
        ensures kept { GoesTo self.old self.new }
        ensures derived { IfOk result (λ o. IfSome o (IsDerived self.old self.new lits.now hints.now)) }
        ensures none { IfOk result (λ o. IfNone o (IsShown self.old lits.now hints.now → ⊥)) }
        ensures same { IfOk result (λ o. IfNone o (self.new ≡ self.old)) }
        ensures err { OnErr result (self.new ≡ self.old) }
    {
        if !are_in_range(lits, self.learner.variables) {
            return Ok(None);
        }
        self.learner.derive(lits, hints)
    }

    /// The literals of the live clause with this id.
    pub fn clause(&self, id: u64) -> Option<Literals<'_>>
        ensures { result ≡ live_clause self.now.state id }
    {
        let at = self.learner.find(id)?;
        Some(Literals::new(self.learner.trail.arena(), at))
    }

    /// The lines that wait.
    pub fn lines(&self) -> &[Line]
        ensures { result.now ≡ self.now.waiting }
    {
        self.learner.waiting.as_slice()
    }

    /// Drops the lines that wait.
    pub fn clear_lines(&mut self)
        ensures { self.new ≡ record self.old { waiting = [] } }
    {
        self.learner.waiting.clear();
    }

    /// Forgets the clauses that are idle, with one line for them all.
    ///
    /// It takes all its memory first: where that is wanting, nothing has changed.
    pub fn tidy(&mut self) -> Result<(), AllocError>
        ensures kept { GoesTo self.old self.new }
        ensures ok { OnOk result (IsTidied self.old self.new) }
        ensures err { OnErr result (self.new ≡ self.old) }
    {
        self.learner.tidy()
    }

    /// How many clauses are idle.
    pub fn idle(&self) -> u64
        ensures { result ≡ length self.now.idle }
    {
        self.learner.idle()
    }

    /// Whether more clauses than so many are idle. Where no more are derived, none is looked at.
    pub fn has_more_idle(&self, most: u64) -> bool
        ensures { result ≡ nat_lt most (length self.now.idle) }
    {
        self.learner.has_more_idle(most)
    }

    /// What is so of a solver at any time, for a proof.
    pub fn facts(&self)
        ensures { IsSolver self.now }
    {
        let _ = &self.learner;
    }
}

// Whether literals are of the first variables.
fn are_in_range(lits: &[Lit], variables: u32) -> bool
    ensures { IsTrue result ↔ AreInRange lits.now variables }
{
    lits.iter().all(|lit| lit.variable() < variables)
}
