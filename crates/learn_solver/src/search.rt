//! The search for bits.
ghost use Rattle.std.specs.Prelude.{◌≡◌, ◌≢◌, ◌++◌, ◌<◌, ℕ, false, Some, None, length, IfOk, OnOk, IsTrue, MatchOption, Contains};
ghost use Rattle.lits_core.specs.Literals.{variable_of, negation_of};
ghost use Rattle.clause_arena.specs.Records.{record_at};
ghost use Rattle.watch_arena.specs.Places.{place_of, is_true, is_false, reason_of};
ghost use Rattle.watch_arena.specs.Trails.{Propagates, IsConflict, IsPropagated, AreInRange};
ghost use Rattle.conflict_clause.specs.Taught.{level_in};

use crate::learner::Learner;
use crate::solver::Answer;
use clause_arena::Ref;
use lits_core::{Bits, Lit};
use std::alloc::AllocError;

impl Learner {
    ghost use Rattle.learn_solver.specs.Solving.{GoesTo, AreConsistent};
    ghost use Rattle.learn_solver.specs.Answers.{IsAnswer};
    ghost use Rattle.learn_solver.specs.Guides.{IsNext};
    ghost use Rattle.learn_solver.specs.Learners.{solver_state, IsLearner, Steps, Backjumps, IsClosed, KeepsPlaces, KeepsRest, Serves, AreBits};

    // Learns from a conflict at a level, and goes back to where the learnt clause implies its first literal.
    fn learn(&mut self, at: Ref) -> Result<(), AllocError>
        requires sound { IsLearner self.old }
        requires conflict { IsConflict self.old.trail at }
        requires at_the_level { (lit : ℕ) × Contains (record_at self.old.trail.records at).lits lit × (level_in self.old.trail.places lit ≡ self.old.trail.level) }
        requires level { 0 < self.old.trail.level }
        ensures steps { Steps self.old self.new }
        ensures jumped { OnOk result (Backjumps self.old.trail self.new.trail) }
    {
        self.facts();
        let learnt = self.analyzer.analyze(&self.trail, at)?;
        self.order.bump(self.analyzer.seen());
        let first = learnt.lits.lits()[0];
        let back = learnt.back;
        let at = self.add_derived(learnt.lits, learnt.hints)?;
        self.backtrack(back);
        self.trail.imply(first, at);
        Ok(())
    }

    // The id of a clause that assumed literals make false, which a conflict shows.
    fn analyze_final(&mut self, at: Ref) -> Result<u64, AllocError>
        requires sound { IsLearner self.old }
        requires conflict { IsConflict self.old.trail at }
        ensures steps { Steps self.old self.new }
        ensures kept { KeepsPlaces self.old.trail self.new.trail }
        ensures same { KeepsRest self.old self.new }
        ensures closed { IfOk result (λ id. IsClosed self.new.trail None id) }
    {
        if self.is_closed(at, &None) {
            return Ok(self.trail.arena().id_of(at));
        }
        let closing = self.analyzer.analyze_final(&self.trail, at)?;
        self.order.bump(self.analyzer.seen());
        let noted = self.add_derived(closing.lits, closing.hints)?;
        Ok(self.trail.arena().id_of(noted))
    }

    // The id of a clause that assumed literals and this one, which is false, make false.
    fn analyze_final_lit(&mut self, lit: Lit) -> Result<u64, AllocError>
        requires sound { IsLearner self.old }
        requires false_there { IsTrue (is_false self.old.trail.places lit) }
        requires implied { reason_of self.old.trail.places (variable_of lit) ≢ None }
        ensures steps { Steps self.old self.new }
        ensures kept { KeepsPlaces self.old.trail self.new.trail }
        ensures same { KeepsRest self.old self.new }
        ensures closed { IfOk result (λ id. IsClosed self.new.trail (Some (negation_of lit)) id) }
    {
        self.facts();
        let stands = lit.negate();
        if let Some(at) = self.trail.reason(lit.variable()) {
            if self.is_closed(at, &Some(stands)) {
                return Ok(self.trail.arena().id_of(at));
            }
        }
        let closing = self.analyzer.analyze_final_lit(&self.trail, lit)?;
        self.order.bump(self.analyzer.seen());
        let noted = self.add_derived(closing.lits, closing.hints)?;
        Ok(self.trail.arena().id_of(noted))
    }

    // Looks into a conflict: learns from it, or answers where it rests on assumptions alone.
    fn resolve_conflict(&mut self, at: Ref) -> Result<Option<Answer>, AllocError>
        requires sound { IsLearner self.old }
        requires conflict { IsConflict self.old.trail at }
        ensures steps { Steps self.old self.new }
        ensures served { IfOk result (Serves self.old self.new) }
    {
        self.facts();
        let level = self.top_level(at);
        self.backtrack(level);
        self.facts();
        if self.assumptions.guided() < level {
            self.learn(at)?;
            return Ok(None);
        }
        let id = self.analyze_final(at)?;
        self.facts();
        Ok(Some(Answer::Refuted(id)))
    }

    // Unit propagation.
    fn propagate(&mut self) -> Option<Ref>
        requires { IsLearner self.old }
        ensures steps { Steps self.old self.new }
        ensures kept { Propagates self.old.trail self.new.trail }
        ensures found { MatchOption result (IsPropagated self.new.trail) (λ at. IsConflict self.new.trail at) }
    {
        self.trail.propagate()
    }

    // Counts the assumptions that hold, up to the first that does not, which it answers.
    fn next_open(&mut self) -> Option<Lit>
        requires sound { IsLearner self.old }
        requires range { AreInRange self.old.assumptions.lits self.old.trail.variables }
        ensures steps { Steps self.old self.new }
        ensures same { self.new ≡ record self.old { assumptions = record self.old.assumptions { holding = self.new.assumptions.holding } } }
        ensures open { MatchOption result (self.new.assumptions.holding ≡ length self.new.assumptions.lits) (λ lit. IsNext self.new.assumptions lit × (is_true self.new.trail.places lit ≡ false)) }
    {
        self.facts();
        while let Some(lit) = self.assumptions.next() {
            if !self.is_true(lit) {
                return Some(lit);
            }
            self.assumptions.hold_next();
        }
        None
    }

    // Makes the next assumption true on a level of its own.
    fn assume(&mut self, lit: Lit) -> Result<(), AllocError>
        requires sound { IsLearner self.old }
        requires range { variable_of lit < self.old.trail.variables }
        requires unassigned { place_of self.old.trail.places (variable_of lit) ≡ None }
        requires next { IsNext self.old.assumptions lit }
        ensures steps { Steps self.old self.new }
        ensures lighter { OnOk result (Serves self.old self.new None) }
    {
        self.facts();
        self.assumptions.assume(&mut self.trail, lit)?;
        self.facts();
        Ok(())
    }

    // The bits that the true literals are; all other variables are false.
    fn bits(&self) -> Result<Bits, AllocError>
        requires { self.now.variables ≡ self.now.trail.variables }
        ensures { IfOk result (λ bits. AreBits self.now.trail bits) }
    {
        self.facts();
        let mut bits = Bits::new(self.alloc, self.variables as usize)?;
        for place in 0..self.trail.place_count() {
            let lit = self.trail.lit_on(place);
            if !lit.is_negative() {
                bits.set(lit.variable() as usize, true);
            }
        }
        Ok(bits)
    }

    // Decides a variable where all assumptions are true, or answers bits where no variable is left that has to be decided.
    fn decide(&mut self) -> Result<Option<Answer>, AllocError>
        requires sound { IsLearner self.old }
        requires propagated { IsPropagated self.old.trail }
        requires holding { self.old.assumptions.holding ≡ length self.old.assumptions.lits }
        ensures steps { Steps self.old self.new }
        ensures served { IfOk result (Serves self.old self.new) }
    {
        self.facts();
        match self.order.pick(&self.trail) {
            Some(lit) => {
                self.trail.assume(lit);
                self.facts();
                Ok(None)
            }
            None => {
                let bits = self.bits()?;
                Ok(Some(Answer::Bits(bits)))
            }
        }
    }

    // Makes the next assumption true, or answers where it is false.
    fn assume_next(&mut self, lit: Lit) -> Result<Option<Answer>, AllocError>
        requires sound { IsLearner self.old }
        requires range { variable_of lit < self.old.trail.variables }
        requires next { IsNext self.old.assumptions lit }
        requires open { is_true self.old.trail.places lit ≡ false }
        requires consistent { AreConsistent self.old.assumptions.lits }
        ensures steps { Steps self.old self.new }
        ensures served { IfOk result (Serves self.old self.new) }
    {
        self.facts();
        if self.trail.value(lit.variable()).is_some() {
            let id = self.analyze_final_lit(lit)?;
            self.facts();
            return Ok(Some(Answer::Refuted(id)));
        }
        self.assume(lit)?;
        Ok(None)
    }

    // One step where no clause is false or unit: an assumption or a decision, or an answer.
    fn extend(&mut self) -> Result<Option<Answer>, AllocError>
        requires sound { IsLearner self.old }
        requires range { AreInRange self.old.assumptions.lits self.old.trail.variables }
        requires consistent { AreConsistent self.old.assumptions.lits }
        requires propagated { IsPropagated self.old.trail }
        ensures steps { Steps self.old self.new }
        ensures served { IfOk result (Serves self.old self.new) }
    {
        match self.next_open() {
            Some(lit) => self.assume_next(lit),
            None => self.decide(),
        }
    }

    // One step of the search, which goes on after None.
    fn advance(&mut self) -> Result<Option<Answer>, AllocError>
        requires sound { IsLearner self.old }
        requires range { AreInRange self.old.assumptions.lits self.old.trail.variables }
        requires consistent { AreConsistent self.old.assumptions.lits }
        ensures steps { Steps self.old self.new }
        ensures served { IfOk result (Serves self.old self.new) }
    {
        match self.propagate() {
            Some(at) => self.resolve_conflict(at),
            None => self.extend(),
        }
    }

    // One step, after clauses of little use are forgotten where they are many.
    fn step(&mut self) -> Result<Option<Answer>, AllocError>
        requires sound { IsLearner self.old }
        requires range { AreInRange self.old.assumptions.lits self.old.trail.variables }
        requires consistent { AreConsistent self.old.assumptions.lits }
        ensures steps { Steps self.old self.new }
        ensures served { IfOk result (Serves self.old self.new) }
    {
        self.reduce()?;
        self.advance()
    }

    // Searches for bits until there are some, or a clause shows that there are none.
    pub(crate) fn solve(&mut self, assumptions: &[Lit], more: &[Lit]) -> Result<Answer, AllocError>
        requires sound { IsLearner self.old }
        requires range { AreInRange (assumptions.now ++ more.now) self.old.trail.variables }
        requires consistent { AreConsistent (assumptions.now ++ more.now) }
        ensures sound { IsLearner self.new }
        ensures goes { GoesTo (solver_state self.old) (solver_state self.new) }
        ensures answer { IfOk result (IsAnswer (solver_state self.new) (assumptions.now ++ more.now)) }
    {
        self.ask(assumptions, more)?;
        loop {
            if let Some(answer) = self.step()? {
                return Ok(answer);
            }
        }
    }
}
