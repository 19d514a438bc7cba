//! The parts of a solver.
ghost use Rattle.std.specs.Prelude.{◌≡◌, ◌+◌, ◌<◌, ◌≤◌, ℕ, true, false, [], length, slice_index_or, IfOk, OnOk, OnErr, Contains};
ghost use Rattle.std.specs.Vec.{vec_len, vec_capacity};
ghost use Rattle.lits_core.specs.Literals.{variable_of, is_negative};
ghost use Rattle.lits_core.specs.Derivation.{first_state};
ghost use Rattle.clause_arena.specs.Records.{record_at};
ghost use Rattle.watch_arena.specs.Trails.{IsTrail, AreInRange, Adds};
ghost use Rattle.conflict_clause.specs.Taught.{IsTaught};

use crate::assumptions::Assumptions;
use crate::order::Order;
use crate::tidying::FIRST_INTERVAL;
use clause_arena::Ref;
use conflict_clause::Analyzer;
use lits_core::{Clause, Ids, Line, Lit};
use std::alloc::{AllocError, Global};
use watch_arena::Trail;

// The parts of a solver. The first `given` records are the given clauses.
pub(crate) struct Learner {
    pub(crate) trail: Trail,
    pub(crate) analyzer: Analyzer,
    pub(crate) order: Order,
    pub(crate) variables: u32,
    pub(crate) given: usize,
    // The largest id that was ever given.
    pub(crate) last: u64,
    pub(crate) waiting: Vec<Line>,
    pub(crate) assumptions: Assumptions,
    // With so many clauses some are forgotten; and how many more are learnt then before that is done again.
    pub(crate) most: usize,
    pub(crate) interval: usize,
    pub(crate) alloc: Global,
}

// Written out, so that letting one go is a call.
impl Drop for Learner {
    fn drop(self) {
        let Learner {
            trail: _,
            analyzer: _,
            order: _,
            variables: _,
            given: _,
            last: _,
            waiting: _,
            assumptions: _,
            most: _,
            interval: _,
            alloc: _,
        } = self;
    }
}

impl Learner {
    ghost use Rattle.learn_solver.specs.Solving.{AddsGiven};
    ghost use Rattle.learn_solver.specs.Hints.{AddsLine};
    ghost use Rattle.learn_solver.specs.Learners.{solver_state, IsLearner, Steps, Backtracks, IsStored, KeepsPlaces, KeepsRest};

    pub(crate) fn new(alloc: Global, variables: u32) -> Result<Learner, AllocError>
        ensures sound { IfOk result (λ l. IsLearner l) }
        ensures empty { IfOk result (λ l. solver_state l ≡ record { variables = variables; state = first_state []; waiting = []; idle = []; assigned = [] }) }
    {
        Ok(Learner {
            trail: Trail::new(alloc, variables)?,
            analyzer: Analyzer::new(alloc, variables)?,
            order: Order::new(alloc, variables)?,
            variables,
            given: 0,
            last: 0,
            waiting: Vec::new(alloc),
            assumptions: Assumptions::new(alloc),
            most: 0,
            interval: FIRST_INTERVAL,
            alloc,
        })
    }

    // What is so of the trail.
    pub(crate) fn facts(&self)
        ensures { IsTrail self.now.trail }
    {
        self.trail.facts();
    }

    // Adds a given clause and answers its id. All memory is taken before anything changes.
    pub(crate) fn add(&mut self, lits: &[Lit]) -> Result<u64, AllocError>
        requires sound { IsLearner self.old }
        requires range { AreInRange lits.now self.old.trail.variables }
        requires first { (solver_state self.old).state.derived ≡ [] }
        ensures sound { IsLearner self.new }
        ensures id { IfOk result (λ id. id ≡ length (solver_state self.old).state.given + 1) }
        ensures ok { OnOk result (AddsGiven (solver_state self.old) (solver_state self.new) lits.now) }
        ensures err { OnErr result (solver_state self.new ≡ solver_state self.old) }
    {
        let id = next_id(self.given as u64)?;
        self.trail.add(lits, id)?;
        self.given = self.trail.arena().count();
        self.last = self.last.max(id);
        self.note_variables(lits);
        self.backtrack(0);
        Ok(id)
    }

    // Notes the variables that a clause has positively.
    fn note_variables(&mut self, lits: &[Lit])
        requires range { AreInRange lits.now (length self.old.order) }
        ensures same { self.new ≡ record self.old { order = self.new.order } }
        ensures count { length self.new.order ≡ length self.old.order }
        ensures kept { (v : ℕ) → slice_index_or self.old.order v false ≡ true → slice_index_or self.new.order v false ≡ true }
        ensures noted { (lit : ℕ) → Contains lits.now lit → is_negative lit ≡ false → slice_index_or self.new.order (variable_of lit) false ≡ true }
    {
        for lit in lits {
            if !lit.is_negative() {
                self.order.note(lit.variable());
            }
        }
    }

    // The trail goes back to a level.
    pub(crate) fn backtrack(&mut self, level: u32)
        requires sound { IsLearner self.old }
        requires level { level ≤ self.old.trail.level }
        ensures steps { Steps self.old self.new }
        ensures back { Backtracks self.old self.new level }
    {
        self.facts();
        self.cancel_until(level);
    }

    // The places above a level go, and what is known of the assumptions by them.
    pub(crate) fn cancel_until(&mut self, level: u32)
        requires level { level ≤ self.old.trail.level }
        requires counted { length self.old.assumptions.holding_before ≡ self.old.assumptions.guided }
        ensures { Backtracks self.old self.new level }
    {
        self.unassign_above(level);
        self.trail.undo_to(level);
        self.assumptions.lower(level);
    }

    // The variables above a level may be decided again.
    fn unassign_above(&mut self, level: u32)
        ensures { self.new ≡ self.old }
    {
        for place in (0..self.trail.place_count()).rev() {
            if self.trail.level_on(place) <= level {
                return;
            }
            self.order.unassign(self.trail.lit_on(place));
        }
    }

    // One derived clause more, with its line. All memory is taken before anything changes.
    pub(crate) fn add_derived(&mut self, lits: Clause, hints: Ids) -> Result<Ref, AllocError>
        requires sound { IsLearner self.old }
        requires taught { IsTaught self.old.trail lits hints }
        ensures steps { Steps self.old self.new }
        ensures kept { KeepsPlaces self.old.trail self.new.trail }
        ensures same { KeepsRest self.old self.new }
        ensures stored { IfOk result (λ at. IsStored self.new.trail lits at) }
        ensures line { IfOk result (λ at. AddsLine (solver_state self.old) (solver_state self.new) lits hints (record_at self.new.trail.records at).id) }
        ensures err { OnErr result (solver_state self.new ≡ solver_state self.old) }
    {
        let at = self.add_record(lits.lits())?;
        self.waiting.push_reserved(Line::Derive {
            id: self.last,
            lits,
            hints,
        });
        Ok(at)
    }

    // One record more, under the next id, and room for its line.
    fn add_record(&mut self, lits: &[Lit]) -> Result<Ref, AllocError>
        requires { AreInRange lits.now self.old.trail.variables }
        ensures same { KeepsRest self.old self.new }
        ensures waiting { self.new.waiting.items ≡ self.old.waiting.items }
        ensures room { OnOk result (vec_len self.new.waiting < vec_capacity self.new.waiting) }
        ensures last { OnOk result (self.new.last ≡ self.old.last + 1) }
        ensures at { IfOk result (λ at. at ≡ length self.old.trail.records) }
        ensures adds { OnOk result (Adds self.old.trail self.new.trail lits.now self.new.last) }
        ensures err { OnErr result ((self.new.trail ≡ self.old.trail) × (self.new.last ≡ self.old.last)) }
    {
        let id = next_id(self.last)?;
        self.waiting.reserve(1)?;
        let at = self.trail.add(lits, id)?;
        self.last = id;
        Ok(at)
    }
}

// The id after an id. Ids do not run out before memory does, which is what is answered then.
fn next_id(id: u64) -> Result<u64, AllocError>
    ensures { IfOk result (λ next. next ≡ id + 1) }
{
    id.checked_add(1).ok_or(AllocError)
}
