//! A question is set beside the last one: the trail and what is known of the assumptions stay as far as the two agree.
ghost use Rattle.std.specs.Prelude.{◌≡◌, ◌++◌, ◌<◌, true, OnOk, IsTrue};
ghost use Rattle.lits_core.specs.Literals.{variable_of};
ghost use Rattle.watch_arena.specs.Places.{is_true};
ghost use Rattle.watch_arena.specs.Trails.{AreInRange, places_up_to};

use crate::learner::Learner;
use lits_core::Lit;
use std::alloc::AllocError;

impl Learner {
    ghost use Rattle.learn_solver.specs.Solving.{GoesTo};
    ghost use Rattle.learn_solver.specs.Guides.{IsMarked, IsNext};
    ghost use Rattle.learn_solver.specs.Learners.{solver_state, guide_of, IsLearner, Reuses};

    // Whether the next assumption is true by the levels that are known to begin with assumptions, or begins the next one.
    fn follows(&mut self, lit: Lit) -> bool
        requires range { variable_of lit < self.old.trail.variables }
        requires next { IsNext self.old.assumptions lit }
        requires marked { IsMarked (guide_of self.old) }
        ensures same { self.new ≡ record self.old { assumptions = self.new.assumptions } }
        ensures lits { self.new.assumptions.lits ≡ self.old.assumptions.lits }
        ensures holding { self.new.assumptions.holding ≡ self.old.assumptions.holding }
        ensures marked { IsMarked (guide_of self.new) }
        ensures followed { IsTrue result → is_true (places_up_to self.new.trail.places self.new.assumptions.guided) lit ≡ true }
    {
        self.facts();
        let Some(place) = self.place_of(lit) else {
            return false;
        };
        if self.trail.lit_on(place) != lit {
            return false;
        }
        let level = self.trail.level_on(place);
        let guided = self.assumptions.guided();
        if level <= guided {
            return true;
        }
        let next = level - guided == 1;
        if next && self.trail.reason_on(place).is_none() {
            return self.assumptions.begin(level).is_ok();
        }
        false
    }

    // Keeps the trail as far as it follows the assumptions, and goes back to the first that it does not.
    fn reuse_trail(&mut self)
        requires range { AreInRange self.old.assumptions.lits self.old.trail.variables }
        requires marked { IsMarked (guide_of self.old) }
        ensures { Reuses self.old self.new }
    {
        self.facts();
        while let Some(lit) = self.assumptions.next() {
            if !self.follows(lit) {
                let level = self.assumptions.guided();
                self.cancel_until(level);
                return;
            }
            self.assumptions.hold_next();
        }
    }

    // Takes up a question where the last one left the trail. What the two agree on is compared, and not followed again.
    pub(crate) fn ask(&mut self, assumptions: &[Lit], more: &[Lit]) -> Result<(), AllocError>
        requires sound { IsLearner self.old }
        requires range { AreInRange (assumptions.now ++ more.now) self.old.trail.variables }
        ensures sound { IsLearner self.new }
        ensures goes { GoesTo (solver_state self.old) (solver_state self.new) }
        ensures ok { OnOk result (self.new.assumptions.lits ≡ assumptions.now ++ more.now) }
    {
        let agreed = self.assumptions.agreed(assumptions, more);
        let level = self.assumptions.level_of_first(agreed);
        self.assumptions.lower(level);
        let noted = self.assumptions.set(assumptions, more, agreed);
        self.reuse_trail();
        noted
    }
}
