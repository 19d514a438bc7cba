//! A path whose prefixes an asker shows to be alive.
ghost use Rattle.std.specs.Prelude.{IfOk, IfSome, IsTrue, OnErr, OnOk, [], true, length, take, ◌++◌, ◌∷◌, ◌≡◌, ◌<◌, ◌≤◌, ◌↔◌};
ghost use Rattle.rcc5_core.specs.RelationSet.{has};
ghost use Rattle.rcc5_core.specs.declared.Rel.{Rel};
ghost use Rattle.world_model.specs.Alive.{IsAlive, problem_at};
ghost use Rattle.world_model.specs.Problem.{pair_count};
ghost use Rattle.point_ladder.specs.Ladders.{BeginsNone, IsPushed};
ghost use Rattle.world_walk.specs.Asked.{IsLooker};

use crate::narrowing::narrowed_by;
use constraint_set::Problem;
use pick_search::{Known, are_whole, choose_part};
use point_query::Asker;
use rcc5_core::{Position, Rel, RelSet};
use search_log::tidy_by_turns;
use split_search::Choice;
use std::alloc::{AllocError, Global};
use std::marker::Model;

/// What looks behind a path: an asker of its own, since the other's points stand along the path, and what is known to clash.
#[derive(Drop)]
pub(crate) struct Looker {
    pub(crate) asker: Asker,
    pub(crate) known: Known,
}

/// A problem, a path, and an asker for both.
pub(crate) struct Asked {
    problem: Problem,
    path: Position,
    asker: Asker,
    // Made when it is first asked whether a world begins with the path.
    looker: Option<Looker>,
    // Whether each pair allows a whole set: then a world begins with each alive path.
    whole: bool,
    turns: u32,
    alloc: Global,
}

// Written out, so that letting one go is a call.
impl Drop for Asked {
    fn drop(self) {
        let Asked {
            problem: _,
            path: _,
            asker: _,
            looker: _,
            whole: _,
            turns: _,
            alloc: _,
        } = self;
    }
}

impl Model for Asked {
    ghost use Rattle.point_ladder.specs.Ladders.{LadderState};

    ghost Value = { LadderState };

    ghost use Rattle.world_walk.specs.Asked.{IsAskedPath};

    ghost view = { λ s. record { problem = s.problem; path = s.path } };

    ghost invariant = { λ s. IsAskedPath s.problem s.path s.asker s.looker };
}

impl Asked {
    /// The empty path of a problem.
    pub(crate) fn new(alloc: Global, problem: &Problem) -> Result<Asked, AllocError>
        ensures { IfOk result (λ s. s ≡ record { problem = problem.now; path = [] }) }
    {
        let asker = Asker::new(alloc, problem)?;
        Ok(Asked {
            problem: problem.copy()?,
            path: Position::new(alloc),
            asker,
            looker: None,
            whole: are_whole(problem),
            turns: 0,
            alloc,
        })
    }

    // Drops the lines of the asker, which nobody reads, and now and then its idle clauses.
    fn clean(&mut self) -> Result<(), AllocError>
        ensures { self.new ≡ self.old }
    {
        self.turns = tidy_by_turns(&mut self.asker, self.turns)?;
        self.asker.clear_lines();
        Ok(())
    }

    /// Whether the path is alive.
    pub(crate) fn is_alive(&mut self) -> Result<bool, AllocError>
        ensures same { self.new ≡ self.old }
        ensures alive { IfOk result (λ alive. IsTrue alive ↔ IsAlive (problem_at self.old.problem self.old.path)) }
    {
        self.clean()?;
        let alive = self.asker.is_alive(&self.problem, &self.path)?;
        Ok(alive)
    }

    /// The relations that lead to an alive path.
    pub(crate) fn leads_on(&mut self) -> Result<RelSet, AllocError>
        requires alive { IsAlive (problem_at self.old.problem self.old.path) }
        requires short { length self.old.path < pair_count self.old.problem }
        ensures same { self.new ≡ self.old }
        ensures next { IfOk result (λ set. (rel : Rel) → IsTrue (has set rel) ↔ IsAlive (problem_at self.old.problem (self.old.path ++ rel ∷ []))) }
    {
        self.clean()?;
        let set = self.asker.alive_after(&self.problem, &self.path)?;
        Ok(set)
    }

    /// Puts a relation at the end of the path, if that leads to an alive one.
    pub(crate) fn push(&mut self, rel: Rel) -> Result<bool, AllocError>
        requires short { length self.old.path < pair_count self.old.problem }
        ensures pushed { IfOk result (IsPushed self.old self.new rel) }
        ensures err { OnErr result (self.new ≡ self.old) }
    {
        self.path.push(rel)?;
        let alive = self.asker.is_alive(&self.problem, &self.path);
        if alive != Ok(true) {
            let _ = self.path.pop();
        }
        alive
    }

    /// Whether a world begins with each alive path: a hint.
    pub(crate) fn leads_to_worlds(&self) -> bool {
        self.whole
    }

    /// Whether no world begins with the first relations.
    pub(crate) fn is_barren(&mut self, len: usize) -> Result<bool, AllocError>
        requires { len ≤ length self.old.path }
        ensures same { self.new ≡ self.old }
        ensures none { IfOk result (λ none. none ≡ true → BeginsNone self.old.problem (take len self.old.path)) }
    {
        let kept = self.looker.take();
        let mut looker = ready(self.alloc, &self.problem, kept)?;
        let none = lies_none(
            self.alloc,
            &self.problem,
            &self.path.rels()[..len],
            &mut looker,
        )?;
        self.looker = Some(looker);
        Ok(none)
    }

    /// Takes the path back to its first relations.
    pub(crate) fn back_to(&mut self, len: usize)
        requires { len ≤ length self.old.path }
        ensures { self.new ≡ record self.old { path = take len self.old.path } }
    {
        while self.path.len() > len {
            let _ = self.path.pop();
        }
    }

    /// The relations.
    pub(crate) fn path(&self) -> &[Rel]
        ensures { result.now ≡ self.now.path }
    {
        self.path.rels()
    }
}

// The looker that was kept, or a new one.
fn ready(alloc: Global, problem: &Problem, kept: Option<Looker>) -> Result<Looker, AllocError>
    requires { IfSome kept (IsLooker problem.now) }
    ensures { IfOk result (IsLooker problem.now) }
{
    if let Some(looker) = kept {
        return Ok(looker);
    }
    Ok(Looker {
        asker: Asker::new(alloc, problem)?,
        known: Known::new(alloc, problem)?,
    })
}

// Whether no world begins with a path.
fn lies_none(
    alloc: Global,
    problem: &Problem,
    path: &[Rel],
    looker: &mut Looker,
) -> Result<bool, AllocError>
    requires within { length path.now ≤ pair_count problem.now }
    requires looker { IsLooker problem.now looker.old }
    ensures looker { OnOk result (IsLooker problem.now looker.new) }
    ensures none { IfOk result (λ none. none ≡ true → BeginsNone problem.now path.now) }
{
    let node = narrowed_by(alloc, problem, path)?;
    let choice = choose_part(alloc, problem, &node, &mut looker.known, &mut looker.asker)?;
    match choice {
        Choice::Met(_) => Ok(false),
        Choice::Refuted => Ok(true),
    }
}
