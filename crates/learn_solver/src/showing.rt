//! Clauses that are shown by hints from outside: each is checked before it is added.
ghost use Rattle.std.specs.Prelude.{◌≡◌, ◌≢◌, ◌<◌, ◌≤◌, None, length, take, IfOk, OnErr, IfSome, IfNone, MatchOption};
ghost use Rattle.lits_core.specs.Derivation.{live_clause, has_lit, open_lits, hint_of, hints_fault, SameLits};
ghost use Rattle.clause_arena.specs.Records.{record_at};
ghost use Rattle.watch_arena.specs.Trails.{AreInRange};
ghost use Rattle.conflict_clause.specs.Taught.{IsTaught};

use crate::learner::Learner;
use clause_arena::Ref;
use lits_core::{Clause, Hint, Ids, Lit};
use std::alloc::AllocError;

impl Learner {
    ghost use Rattle.learn_solver.specs.Learners.{solver_state, IsLearner, Steps};
    ghost use Rattle.learn_solver.specs.Hints.{Suffice, AddsLine, Derives};

    // Adds a clause that hints show, with its line, and answers its id; none where they do not show it.
    pub(crate) fn derive(&mut self, lits: &[Lit], hints: &[u64]) -> Result<Option<u64>, AllocError>
        requires sound { IsLearner self.old }
        requires range { AreInRange lits.now self.old.trail.variables }
        ensures steps { Steps self.old self.new }
        ensures derived { IfOk result (λ o. IfSome o (λ id. MatchOption (live_clause (solver_state self.new).state id) ⊥ (SameLits lits.now))) }
        ensures shown { IfOk result (λ o. IfSome o (λ _. hints_fault (solver_state self.old).state hints.now lits.now ≡ None)) }
        ensures fault { IfOk result (λ o. IfNone o (hints_fault (solver_state self.old).state hints.now lits.now ≢ None)) }
        ensures same { IfOk result (λ o. IfNone o (self.new ≡ self.old)) }
        ensures line { IfOk result (λ o. IfSome o (Derives (solver_state self.old) (solver_state self.new) lits.now hints.now)) }
        ensures err { OnErr result (solver_state self.new ≡ solver_state self.old) }
    {
        match self.shown_by(lits, hints)? {
            Some(count) => {
                let id = self.add_shown(lits, &hints[..count])?;
                Ok(Some(id))
            }
            None => Ok(None),
        }
    }

    // Adds a clause that hints show, with its line, and answers its id.
    fn add_shown(&mut self, lits: &[Lit], hints: &[u64]) -> Result<u64, AllocError>
        requires sound { IsLearner self.old }
        requires taught { IsTaught self.old.trail lits.now hints.now }
        ensures steps { Steps self.old self.new }
        ensures stored { IfOk result (λ id. MatchOption (live_clause (solver_state self.new).state id) ⊥ (SameLits lits.now)) }
        ensures line { IfOk result (AddsLine (solver_state self.old) (solver_state self.new) lits.now hints.now) }
        ensures err { OnErr result (solver_state self.new ≡ solver_state self.old) }
    {
        let ids = Ids::new(Vec::from_slice(self.alloc, hints)?);
        let clause = Clause::from_lits(self.alloc, lits)?;
        let at = self.add_derived(clause, ids)?;
        Ok(self.trail.arena().id_of(at))
    }

    // How many of the hints it takes to show a clause; none where they do not show it.
    fn shown_by(&self, lits: &[Lit], hints: &[u64]) -> Result<Option<usize>, AllocError>
        requires sound { IsLearner self.now }
        requires range { AreInRange lits.now self.now.trail.variables }
        ensures within { IfOk result (λ o. IfSome o (λ count. count ≤ length hints.now)) }
        ensures enough { IfOk result (λ o. IfSome o (Suffice (solver_state self.now).state lits.now hints.now)) }
        ensures taught { IfOk result (λ o. IfSome o (λ count. IsTaught self.now.trail lits.now (take count hints.now))) }
        ensures shown { IfOk result (λ o. IfSome o (λ _. hints_fault (solver_state self.now).state hints.now lits.now ≡ None)) }
        ensures fault { IfOk result (λ o. IfNone o (hints_fault (solver_state self.now).state hints.now lits.now ≢ None)) }
    {
        let mut falses = Vec::from_slice(self.alloc, lits)?;
        for place in 0..hints.len() {
            let Some(at) = self.find(hints[place]) else {
                return Ok(None);
            };
            match self.hint_of(&falses, at) {
                Hint::Falsified => return Ok(Some(place + 1)),
                Hint::Implies(lit) => falses.push(lit.negate())?,
                Hint::NotUnit => return Ok(None),
            }
        }
        Ok(None)
    }

    // What a clause does once some literals are held false.
    fn hint_of(&self, falses: &[Lit], at: Ref) -> Hint
        requires { at < length self.now.trail.records }
        ensures { result ≡ hint_of (open_lits falses.now (record_at self.now.trail.records at).lits) }
    {
        let mut open = None;
        for place in 0..self.trail.arena().len_of(at) {
            let lit = self.lit_of(at, place);
            if !has(falses, lit) {
                match open {
                    None => open = Some(lit),
                    Some(first) => {
                        if first != lit {
                            return Hint::NotUnit;
                        }
                    }
                }
            }
        }
        match open {
            None => Hint::Falsified,
            Some(lit) => Hint::Implies(lit),
        }
    }
}

// Whether a literal is in a list.
fn has(lits: &[Lit], lit: Lit) -> bool
    ensures { result ≡ has_lit lits.now lit }
{
    lits.iter().any(|other| *other == lit)
}
