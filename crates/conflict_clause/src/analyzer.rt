//! Conflicts looked into: which clause the reasons of the literals give.
ghost use Rattle.std.specs.Prelude.{◌≡◌, ◌≢◌, ◌<◌, ℕ, Some, None, IfOk, MatchOption, slice_get, IsTrue, Contains, All};
ghost use Rattle.clause_arena.specs.Records.{record_at};
ghost use Rattle.lits_core.specs.Literals.{negation_of, variable_of};
ghost use Rattle.watch_arena.specs.Places.{is_false, reason_of};
ghost use Rattle.watch_arena.specs.Trails.{IsConflict};
ghost use Rattle.conflict_clause.specs.Taught.{level_in, IsLearnt, IsClosing};

use crate::analysis::Analysis;
use clause_arena::Ref;
use lits_core::{Clause, Ids, Lit};
use std::alloc::{AllocError, Global};
use std::marker::Model;
use watch_arena::Trail;

/// A clause that implies its first literal once the trail goes back to the level `back`.
#[derive(Debug, Drop)]
pub struct Learnt {
    pub lits: Clause,
    pub hints: Ids,
    pub back: u32,
}

/// A clause that the assumed literals make false.
#[derive(Debug, Drop)]
pub struct Closing {
    pub lits: Clause,
    pub hints: Ids,
}

/// Looks into conflicts over so many variables, and keeps the room for it.
#[derive(Drop)]
pub struct Analyzer {
    analysis: Analysis,
    alloc: Global,
}

impl Model for Analyzer {
    ghost use Rattle.std.specs.Prelude.{ℕ, length};
    ghost use Rattle.conflict_clause.specs.Search.{IsClear};

    ghost Value = { ℕ };

    ghost view = { λ analyzer. length analyzer.analysis.marks };

    ghost invariant = { λ analyzer. IsClear analyzer.analysis (length analyzer.analysis.marks) };
}

impl Analyzer {
    /// For trails over so many variables.
    pub fn new(alloc: Global, variables: u32) -> Result<Analyzer, AllocError>
        ensures { IfOk result (λ analyzer. analyzer ≡ variables) }
    {
        let analysis = Analysis::new(alloc, variables)?;
        Ok(Analyzer { analysis, alloc })
    }

    /// The clause of the first unique implication point of a conflict at the current level
    /// (Marques-Silva and Sakallah, *GRASP*, 1996; Zhang, Madigan, Moskewicz and Malik, *Efficient
    /// Conflict Driven Learning*, 2001), without those of its literals that one reason implies from others: the local
    /// form of Sörensson and Biere, *Minimizing Learned Clauses*, 2009 (before it Beame, Kautz and Sabharwal, *Towards
    /// Understanding and Harnessing the Potential of Clause Learning*, 2004).
    ///
    /// Its second literal, if it has one, is one of the level `back`.
    pub fn analyze(&mut self, trail: &Trail, at: Ref) -> Result<Learnt, AllocError>
        requires variables { self.old ≡ trail.now.variables }
        requires conflict { IsConflict trail.now at }
        requires at_the_level { (lit : ℕ) × Contains (record_at trail.now.records at).lits lit × (level_in trail.now.places lit ≡ trail.now.level) }
        requires level { 0 < trail.now.level }
        ensures learnt { IfOk result (λ learnt. IsLearnt trail.now learnt.lits learnt.hints learnt.back) }
        ensures second { IfOk result (λ learnt. MatchOption (slice_get learnt.lits 1) (learnt.back ≡ 0) (λ lit. level_in trail.now.places lit ≡ learnt.back)) }
        ensures kept { self.new ≡ self.old }
    {
        let learnt = self.analysis.analyze(self.alloc, trail, at);
        self.analysis.clear();
        learnt
    }

    /// The clause of the assumed literals that a conflict rests on.
    pub fn analyze_final(&mut self, trail: &Trail, at: Ref) -> Result<Closing, AllocError>
        requires variables { self.old ≡ trail.now.variables }
        requires conflict { IsConflict trail.now at }
        ensures closing { IfOk result (λ closing. IsClosing trail.now None closing.lits closing.hints) }
        ensures kept { self.new ≡ self.old }
    {
        let closing = self.analysis.analyze_final(self.alloc, trail, at);
        self.analysis.clear();
        closing
    }

    /// The clause of the assumed literals that make an implied literal true, with that literal itself: here the negation of `lit`.
    pub fn analyze_final_lit(&mut self, trail: &Trail, lit: Lit) -> Result<Closing, AllocError>
        requires variables { self.old ≡ trail.now.variables }
        requires false_there { IsTrue (is_false trail.now.places lit) }
        requires implied { reason_of trail.now.places (variable_of lit) ≢ None }
        ensures closing { IfOk result (λ closing. IsClosing trail.now (Some (negation_of lit)) closing.lits closing.hints) }
        ensures kept { self.new ≡ self.old }
    {
        let closing = self.analysis.analyze_final_lit(self.alloc, trail, lit);
        self.analysis.clear();
        closing
    }

    /// The variables that the last call saw, for the choice of what to decide next.
    pub fn seen(&self) -> &[u32]
        ensures { All (λ variable. variable < self.now) result.now }
    {
        &self.analysis.seen
    }
}
