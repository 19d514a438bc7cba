//! The assumptions of the last call, and what is known of them.
ghost use Rattle.std.specs.Prelude.{◌≡◌, ◌+◌, ◌++◌, ◌∷◌, ◌<◌, ◌≤◌, ℕ, None, [], length, min, take, OnOk, OnErr, MatchOption};
ghost use Rattle.lits_core.specs.Literals.{variable_of};
ghost use Rattle.watch_arena.specs.Places.{place_of};
ghost use Rattle.learn_solver.specs.Guides.{IsNext, holding_by, lowered, begun};

use crate::alike::common_len;
use lits_core::Lit;
use std::alloc::{AllocError, Global};
use std::marker::Model;
use watch_arena::Trail;

// The assumptions of the last call, and what is known of them by the levels of the trail.
#[derive(Drop)]
pub(crate) struct Assumptions {
    lits: Vec<Lit>,
    // How many of the first are known to hold.
    holding: usize,
    // How many of the first levels begin with an assumption, and for each of these how many assumptions hold before it.
    guided: u32,
    holding_before: Vec<usize>,
}

impl Model for Assumptions {
    ghost use Rattle.learn_solver.specs.Guides.{AssumptionsState};

    ghost Value = { AssumptionsState };

    ghost view = { λ a. record { lits = a.lits.items; holding = a.holding; guided = a.guided; holding_before = a.holding_before.items } };
}

impl Assumptions {
    // No assumptions.
    pub(crate) fn new(alloc: Global) -> Assumptions
        ensures { result ≡ record { lits = []; holding = 0; guided = 0; holding_before = [] } }
    {
        Assumptions {
            lits: Vec::new(alloc),
            holding: 0,
            guided: 0,
            holding_before: Vec::new(alloc),
        }
    }

    // How many of the first levels begin with an assumption.
    pub(crate) fn guided(&self) -> u32
        ensures { result ≡ self.now.guided }
    {
        self.guided
    }

    // The first assumption that is not known to hold.
    pub(crate) fn next(&self) -> Option<Lit>
        ensures { MatchOption result (length self.now.lits ≤ self.now.holding) (IsNext self.now) }
    {
        if self.holding < self.lits.len() {
            Some(self.lits[self.holding])
        } else {
            None
        }
    }

    // The next assumption holds too.
    pub(crate) fn hold_next(&mut self)
        requires { self.old.holding < length self.old.lits }
        ensures { self.new ≡ record self.old { holding = self.old.holding + 1 } }
    {
        self.holding += 1;
    }

    // Notes that the next level begins with the next assumption.
    pub(crate) fn begin(&mut self, level: u32) -> Result<(), AllocError>
        requires { level ≡ self.old.guided + 1 }
        ensures ok { OnOk result (self.new ≡ begun self.old) }
        ensures err { OnErr result (self.new ≡ self.old) }
    {
        self.holding_before.push(self.holding)?;
        self.guided = level;
        Ok(())
    }

    // Makes the next assumption true on a level of its own, where each level begins with an assumption.
    pub(crate) fn assume(&mut self, trail: &mut Trail, lit: Lit) -> Result<(), AllocError>
        requires range { variable_of lit < trail.old.variables }
        requires unassigned { place_of trail.old.places (variable_of lit) ≡ None }
        requires all { self.old.guided ≡ trail.old.level }
        ensures ok { OnOk result (self.new ≡ begun self.old) }
        ensures assumed { OnOk result (trail.new ≡ record trail.old { places = trail.old.places ++ record { lit = lit; level = trail.old.level + 1; reason = None } ∷ []; level = trail.old.level + 1 }) }
        ensures err { OnErr result ((self.new ≡ self.old) × (trail.new ≡ trail.old)) }
    {
        self.holding_before.push(self.holding)?;
        trail.assume(lit);
        self.guided = trail.level();
        Ok(())
    }

    // Only that stays known which is so by the levels up to this one.
    pub(crate) fn lower(&mut self, level: u32)
        requires { length self.old.holding_before ≡ self.old.guided }
        ensures { self.new ≡ lowered self.old level }
    {
        if level < self.guided {
            self.holding = self.holding_before[level as usize];
            self.holding_before.truncate(level as usize);
            self.guided = level;
        }
    }

    // How many of the first assumptions are those of the last call.
    pub(crate) fn agreed(&self, assumptions: &[Lit], more: &[Lit]) -> usize
        ensures assumptions { result ≤ length self.now.lits }
        ensures within { result ≤ length (assumptions.now ++ more.now) }
        ensures same { take result self.now.lits ≡ take result (assumptions.now ++ more.now) }
    {
        let first = common_len(&self.lits, assumptions);
        if first < assumptions.len() {
            return first;
        }
        first + common_len(&self.lits[first..], more)
    }

    // How many of the first levels begin with one of the first assumptions.
    pub(crate) fn level_of_first(&self, agreed: usize) -> u32
        requires counted { length self.now.holding_before ≡ self.now.guided }
        requires rising { (a b : ℕ) → a ≤ b → holding_by self.now a ≤ holding_by self.now b }
        ensures within { result ≤ self.now.guided }
        ensures first { (level : ℕ) → level < result → holding_by self.now level < agreed }
    {
        let mut level = self.guided;
        while level > 0 && self.holding_before[(level - 1) as usize] >= agreed {
            level -= 1;
        }
        level
    }

    // These are the assumptions now, of which the first agree with those of the last call.
    pub(crate) fn set(
        &mut self,
        assumptions: &[Lit],
        more: &[Lit],
        agreed: usize,
    ) -> Result<(), AllocError>
        requires assumptions { agreed ≤ length self.old.lits }
        requires within { agreed ≤ length (assumptions.now ++ more.now) }
        requires same { take agreed self.old.lits ≡ take agreed (assumptions.now ++ more.now) }
        ensures same { self.new ≡ record self.old { lits = self.new.lits; holding = min self.old.holding agreed } }
        ensures agreed { (n : ℕ) × (agreed ≤ n) × (n ≤ length (assumptions.now ++ more.now)) × (self.new.lits ≡ take n (assumptions.now ++ more.now)) }
        ensures ok { OnOk result (self.new.lits ≡ assumptions.now ++ more.now) }
    {
        let first = agreed.min(assumptions.len());
        self.holding = self.holding.min(agreed);
        self.lits.truncate(agreed);
        self.lits.extend_from_slice(&assumptions[first..])?;
        self.lits.extend_from_slice(&more[agreed - first..])
    }
}
