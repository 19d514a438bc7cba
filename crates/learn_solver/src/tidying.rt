//! Clauses that are little use are forgotten, and the others move up.
ghost use Rattle.std.specs.Prelude.{◌≡◌, ◌<◌, ◌≤◌, ℕ, true, length, IfOk, OnOk, OnErr};

use crate::learner::Learner;
use clause_arena::Ref;
use lits_core::{Ids, Line};
use std::alloc::AllocError;

// How many more clauses each time are learnt before clauses are forgotten again, and how many at first.
const INTERVAL_STEP: usize = 10;

pub(crate) const FIRST_INTERVAL: usize = 300;

// Longer clauses count as so long.
const LONGEST: usize = 63;

impl Learner {
    ghost use Rattle.learn_solver.specs.Solving.{GoesTo, IsTidied};
    ghost use Rattle.learn_solver.specs.States.{is_reason};
    ghost use Rattle.learn_solver.specs.Learners.{solver_state, IsLearner, Steps, Forgets, AreKept, AreReasons, Clears, stays_by, gone_of, burden};

    // Whether a clause is a reason or shorter than this.
    fn is_needed(&self, at: Ref, long: usize) -> bool
        requires { at < length self.now.trail.records }
        ensures reason { is_reason self.now.trail.places at ≡ true → result ≡ true }
        ensures only { long ≡ 0 → result ≡ is_reason self.now.trail.places at }
    {
        self.trail.arena().len_of(at) < long || self.is_reason(at)
    }

    // Of each clause whether it stays: a given one, one from the number `young` on, a reason, or one that is shorter than `long`.
    fn kept(&self, long: usize, young: usize) -> Result<Vec<bool>, AllocError>
        ensures kept { IfOk result (λ kept. AreKept kept.items self.now.trail) }
        ensures only { long ≡ 0 → length self.now.trail.records ≤ young → IfOk result (λ kept. AreReasons kept.items self.now.trail self.now.given) }
    {
        let mut kept = Vec::new(self.alloc);
        for number in 0..self.trail.arena().count() {
            let stays = match self.trail.arena().nth(number) {
                Some(at) => number < self.given || number >= young || self.is_needed(at, long),
                None => true,
            };
            kept.push(stays)?;
        }
        Ok(kept)
    }

    // The ids of the derived clauses that don't stay.
    fn other_ids(&self, kept: &[bool]) -> Result<Ids, AllocError>
        requires { AreKept kept.now self.now.trail }
        ensures { IfOk result (λ ids. ids ≡ gone_of self.now kept.now) }
    {
        let mut ids = Vec::new(self.alloc);
        for number in self.given..self.trail.arena().count() {
            if let Some(at) = self.trail.arena().nth(number) {
                if !kept[number] {
                    ids.push(self.trail.arena().id_of(at))?;
                }
            }
        }
        Ok(Ids::new(ids))
    }

    // Those clauses are live no more.
    fn forget_others(&mut self, kept: &[bool])
        requires sound { IsLearner self.old }
        requires kept { AreKept kept.now self.old.trail }
        ensures same { self.new ≡ record self.old { trail = self.new.trail } }
        ensures forgets { Forgets self.old.trail self.new.trail self.old.given (stays_by kept.now) }
    {
        for number in self.given..self.trail.arena().count() {
            if let Some(at) = self.trail.arena().nth(number) {
                if !kept[number] {
                    self.trail.forget(at);
                }
            }
        }
    }

    // Keeps these clauses and forgets the others, with a line that says so. All memory is taken before anything changes.
    fn keep(&mut self, kept: &[bool]) -> Result<(), AllocError>
        requires sound { IsLearner self.old }
        requires kept { AreKept kept.now self.old.trail }
        ensures steps { Steps self.old self.new }
        ensures burden { burden self.new ≡ burden self.old }
        ensures ok { OnOk result (Clears self.old self.new kept.now) }
        ensures err { OnErr result (solver_state self.new ≡ solver_state self.old) }
    {
        self.facts();
        let ids = self.other_ids(kept)?;
        if ids.list().is_empty() {
            return Ok(());
        }
        self.waiting.reserve(1)?;
        self.trail.reserve()?;
        self.forget_others(kept);
        self.trail.compact();
        self.facts();
        self.waiting.push_reserved(Line::Forget { ids });
        Ok(())
    }

    // Forgets the idle clauses: of the derived ones just the reasons stay.
    pub(crate) fn tidy(&mut self) -> Result<(), AllocError>
        requires { IsLearner self.old }
        ensures sound { IsLearner self.new }
        ensures kept { GoesTo (solver_state self.old) (solver_state self.new) }
        ensures ok { OnOk result (IsTidied (solver_state self.old) (solver_state self.new)) }
        ensures err { OnErr result (solver_state self.new ≡ solver_state self.old) }
    {
        let kept = self.kept(0, self.trail.arena().count())?;
        self.keep(&kept)
    }

    // A length that half of the derived clauses before a number have at most.
    fn middle_length(&self, young: usize) -> usize {
        let mut counts: [usize; LONGEST + 1] = [0; LONGEST + 1];
        let mut left = 0;
        for number in self.given..young {
            if let Some(at) = self.trail.arena().nth(number) {
                let length = self.trail.arena().len_of(at).min(LONGEST);
                counts[length] = counts[length].saturating_add(1);
                left = number - self.given;
            }
        }
        left /= 2;
        for (length, count) in counts.iter().enumerate() {
            if *count > left {
                return length;
            }
            left -= *count;
        }
        LONGEST
    }

    // How many clauses are many: it is set when it is first asked.
    fn limit(&self, count: usize) -> usize {
        if self.most == 0 {
            count.saturating_add(self.interval)
        } else {
            self.most
        }
    }

    // Where clauses have become many, the longer ones among all but the last quarter are forgotten: each clause that is watched
    // takes time, and short ones say most. How many are many grows, so that what was learnt is lost less and less often
    // (Een and Soerensson 2003).
    pub(crate) fn reduce(&mut self) -> Result<(), AllocError>
        requires { IsLearner self.old }
        ensures steps { Steps self.old self.new }
        ensures burden { burden self.new ≡ burden self.old }
    {
        let count = self.trail.arena().count();
        self.most = self.limit(count);
        if count < self.most {
            return Ok(());
        }
        let young = count - (count - self.given) / 4;
        let long = self.middle_length(young).max(3);
        let kept = self.kept(long, young)?;
        self.keep(&kept)?;
        self.interval = self.interval.saturating_add(INTERVAL_STEP);
        self.most = self.trail.arena().count().saturating_add(self.interval);
        Ok(())
    }
}
