//! What the search reads of the trail.
ghost use Rattle.std.specs.Prelude.{◌≡◌, ◌==◌, ◌<◌, ◌≤◌, ◌⊎◌, ◌↔◌, ℕ, nat_lt, false, not, Some, length, slice_index_or, IfSome, MatchOption, IsTrue, Contains};
ghost use Rattle.std.specs.Option.{option_map_or};
ghost use Rattle.lits_core.specs.Literals.{variable_of, negation_of};
ghost use Rattle.lits_core.specs.Derivation.{live_clause};
ghost use Rattle.clause_arena.specs.Records.{record_at};
ghost use Rattle.watch_arena.specs.Places.{place_at, place_of, is_true, reason_of};
ghost use Rattle.conflict_clause.specs.Taught.{level_in, is_decided, AreClosed};

use crate::learner::Learner;
use clause_arena::Ref;
use lits_core::Lit;

impl Learner {
    ghost use Rattle.learn_solver.specs.States.{is_reason};
    ghost use Rattle.learn_solver.specs.Learners.{solver_state, IsLearner};

    // The number of the place of a literal's variable; none where it is unassigned.
    pub(crate) fn place_of(&self, lit: Lit) -> Option<usize>
        requires { variable_of lit < self.now.trail.variables }
        ensures place { result ≡ place_of self.now.trail.places (variable_of lit) }
        ensures within { IfSome result (λ p. (p < length self.now.trail.places) × (variable_of (place_at self.now.trail.places p).lit ≡ variable_of lit)) }
    {
        self.trail.place_of(lit.variable())
    }

    // The level of a literal; 0 where it is unassigned.
    pub(crate) fn level_of(&self, lit: Lit) -> u32
        requires { variable_of lit < self.now.trail.variables }
        ensures level { result ≡ level_in self.now.trail.places lit }
        ensures within { result ≤ self.now.trail.level }
    {
        self.facts();
        match self.place_of(lit) {
            Some(place) => self.trail.level_on(place),
            None => 0,
        }
    }

    // A literal of a clause, by its place there.
    pub(crate) fn lit_of(&self, at: Ref, place: usize) -> Lit
        requires of_the_list { at < length self.now.trail.records }
        requires in_range { place < length (record_at self.now.trail.records at).lits }
        ensures is { result ≡ slice_index_or (record_at self.now.trail.records at).lits place 0 }
        ensures range { variable_of result < self.now.trail.variables }
    {
        self.facts();
        Lit::from_code(self.trail.arena().lit_at(at, place))
    }

    // The highest level of a clause's literals.
    pub(crate) fn top_level(&self, at: Ref) -> u32
        requires { at < length self.now.trail.records }
        ensures most { (lit : ℕ) → Contains (record_at self.now.trail.records at).lits lit → level_in self.now.trail.places lit ≤ result }
        ensures has { 0 < result → (lit : ℕ) × Contains (record_at self.now.trail.records at).lits lit × (level_in self.now.trail.places lit ≡ result) }
        ensures within { result ≤ self.now.trail.level }
    {
        self.facts();
        let mut top = 0;
        for place in 0..self.trail.arena().len_of(at) {
            top = top.max(self.level_of(self.lit_of(at, place)));
        }
        top
    }

    // Whether a literal is true.
    pub(crate) fn is_true(&self, lit: Lit) -> bool
        requires { variable_of lit < self.now.trail.variables }
        ensures { result ≡ is_true self.now.trail.places lit }
    {
        self.facts();
        match self.place_of(lit) {
            Some(place) => self.trail.lit_on(place) == lit,
            None => false,
        }
    }

    // Whether a literal is true and was assumed.
    pub(crate) fn is_assumed(&self, lit: Lit) -> bool
        requires { variable_of lit < self.now.trail.variables }
        ensures { IsTrue result → IsTrue (is_decided self.now.trail.places lit) }
    {
        let Some(place) = self.place_of(lit) else {
            return false;
        };
        if self.trail.lit_on(place) != lit {
            return false;
        }
        self.trail.reason_on(place).is_none()
    }

    // Whether a literal is the one that is let stand, or the negation of an assumed one.
    fn fits(&self, stands: &Option<Lit>, lit: Lit) -> bool
        requires { variable_of lit < self.now.trail.variables }
        ensures { IsTrue result → (stands.now ≡ Some lit) ⊎ IsTrue (is_decided self.now.trail.places (negation_of lit)) }
    {
        *stands == Some(lit) || self.is_assumed(lit.negate())
    }

    // Whether each literal of a clause is the negation of an assumed one, or the one that is let stand.
    pub(crate) fn is_closed(&self, at: Ref, stands: &Option<Lit>) -> bool
        requires { at < length self.now.trail.records }
        ensures { IsTrue result → AreClosed self.now.trail.places stands.now (record_at self.now.trail.records at).lits }
    {
        for place in 0..self.trail.arena().len_of(at) {
            let lit = self.lit_of(at, place);
            if !self.fits(stands, lit) {
                return false;
            }
        }
        true
    }

    // Whether the record of a number has an id before this one.
    fn is_before(&self, number: usize, id: u64) -> bool
        requires { number < length self.now.trail.records }
        ensures { IsTrue result ↔ ((record_at self.now.trail.records number).id < id) }
    {
        match self.trail.arena().nth(number) {
            Some(at) => self.trail.arena().id_of(at) < id,
            None => false,
        }
    }

    // The number of the first record whose id is this or a later one, by halving; the number of records where there is none.
    fn first_from(&self, id: u64) -> usize
        requires { IsLearner self.now }
        ensures within { result ≤ length self.now.trail.records }
        ensures before { (at : ℕ) → at < result → (record_at self.now.trail.records at).id < id }
        ensures from { (at : ℕ) → result ≤ at → at < length self.now.trail.records → id ≤ (record_at self.now.trail.records at).id }
    {
        let mut low = 0;
        let mut high = self.trail.arena().count();
        while low < high {
            let middle = low + (high - low) / 2;
            if self.is_before(middle, id) {
                low = middle + 1;
            } else {
                high = middle;
            }
        }
        low
    }

    // The record of the live clause with an id.
    pub(crate) fn find(&self, id: u64) -> Option<Ref>
        requires { IsLearner self.now }
        ensures clause { MatchOption result (live_clause (solver_state self.now).state id ≡ None) (λ at. (at < length self.now.trail.records) × (live_clause (solver_state self.now).state id ≡ Some (record_at self.now.trail.records at).lits)) }
        ensures named { IfSome result (λ at. (record_at self.now.trail.records at).id ≡ id) }
    {
        let at = self.trail.arena().nth(self.first_from(id))?;
        if self.trail.arena().id_of(at) == id {
            Some(at)
        } else {
            None
        }
    }

    // Whether a clause is the reason of a literal's variable.
    fn is_reason_of(&self, at: Ref, lit: Lit) -> bool
        requires { variable_of lit < self.now.trail.variables }
        ensures { result ≡ option_map_or (λ reason. reason == at) (reason_of self.now.trail.places (variable_of lit)) false }
    {
        match self.trail.reason(lit.variable()) {
            Some(reason) => reason == at,
            None => false,
        }
    }

    // Whether a clause is the reason of a literal, which is one of its own.
    pub(crate) fn is_reason(&self, at: Ref) -> bool
        requires { at < length self.now.trail.records }
        ensures { result ≡ is_reason self.now.trail.places at }
    {
        self.facts();
        for place in 0..self.trail.arena().len_of(at) {
            if self.is_reason_of(at, self.lit_of(at, place)) {
                return true;
            }
        }
        false
    }

    // Whether the clause of a number is a derived one, and the reason of no literal.
    fn is_idle(&self, at: Ref, number: usize) -> bool
        requires { at < length self.now.trail.records }
        ensures given { number < self.now.given → result ≡ false }
        ensures derived { self.now.given ≤ number → result ≡ not (is_reason self.now.trail.places at) }
    {
        number >= self.given && !self.is_reason(at)
    }

    // How many derived clauses are the reason of no literal.
    pub(crate) fn idle(&self) -> u64
        requires { IsLearner self.now }
        ensures { result ≡ length (solver_state self.now).idle }
    {
        let arena = self.trail.arena();
        let mut count = 0;
        let mut number = 0;
        let mut next = arena.first();
        while let Some(at) = next {
            count += u64::from(self.is_idle(at, number));
            number += 1;
            next = arena.after(at);
        }
        count
    }

    // Whether more derived clauses than so many are the reason of no literal. Where no more are there, none is looked at.
    pub(crate) fn has_more_idle(&self, most: u64) -> bool
        requires { IsLearner self.now }
        ensures { result ≡ nat_lt most (length (solver_state self.now).idle) }
    {
        self.facts();
        let derived = (self.trail.arena().count() - self.given) as u64;
        derived > most && self.idle() > most
    }
}
