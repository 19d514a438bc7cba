//! A prefix of a problem, with what is forced of each pair there.
ghost use Rattle.point_encode.specs.Model.Forced.{pair_selectors};
ghost use Rattle.point_pool.specs.Cursors.{AreForced, AreSelectors, IsEmptyPair, IsOpen};
ghost use Rattle.world_model.specs.Points.{forced_at};
ghost use Rattle.point_encode.specs.Numbers.{is_needed};
ghost use Rattle.rcc5_core.specs.Region.{row_of};
ghost use Rattle.rcc5_core.specs.RelationSet.{has};
ghost use Rattle.std.specs.Prelude.{IfOk, IsTrue, OnErr, OnOk, [], length, take, ℕ, ◌*◌, ◌++◌, ◌+◌, ◌-◌, ◌<◌, ◌∷◌, ◌≡◌, ◌≤◌};
ghost use Rattle.world_model.specs.Alive.{allowed, problem_at};
ghost use Rattle.world_model.specs.Node.{pair_at};
ghost use Rattle.world_model.specs.Problem.{concept_count, pair_count};

use crate::selectors::{selected_alone, selected_at};
use constraint_set::Problem;
use lits_core::Lit;
use point_encode::word_of;
use rcc5_core::{Occupancy, Regions, Rel, forced};
use std::alloc::{AllocError, Global};
use std::marker::Model;
use world_model::positions_narrow;

/// A problem, and a prefix whose relations it allows: what the problem alone forces of each pair, what it forces at the
/// prefix, and the first pair that it leaves nothing.
pub struct Cursor {
    problem: Problem,
    path: Vec<Rel>,
    at_start: Vec<Regions>,
    at_path: Vec<Regions>,
    empty: Option<u32>,
    // The selectors that the prefix makes true: those that the problem alone makes true, then those of each relation in order.
    selected: Vec<Lit>,
    pub(crate) alloc: Global,
}

// Written out, so that letting one go is a call.
impl Drop for Cursor {
    fn drop(self) {
        let Cursor {
            problem: _,
            path: _,
            at_start: _,
            at_path: _,
            empty: _,
            selected: _,
            alloc: _,
        } = self;
    }
}

impl Model for Cursor {
    ghost use Rattle.point_pool.specs.Cursors.{CursorState, IsCursor};

    ghost Value = { CursorState };

    ghost view = { λ s. record { problem = s.problem; path = s.path.items } };

    ghost invariant = { λ s. IsCursor s.problem s.path.items s.at_start.items s.at_path.items s.empty s.selected.items };
}

impl Cursor {
    // The empty prefix.
    pub fn new(alloc: Global, problem: Problem) -> Result<Cursor, AllocError>
        ensures { IfOk result (λ s. s ≡ record { problem = problem; path = [] }) }
    {
        positions_narrow();
        let at_start = forced_alone(alloc, &problem)?;
        let at_path = Vec::from_slice(alloc, &at_start)?;
        let empty = first_empty(&problem);
        let selected = selected_alone(alloc, &problem, &at_start)?;
        Ok(Cursor {
            problem,
            path: Vec::new(alloc),
            at_start,
            at_path,
            empty,
            selected,
            alloc,
        })
    }

    pub fn problem(&self) -> &Problem
        ensures { result.now ≡ self.now.problem }
    {
        &self.problem
    }

    // The prefix.
    pub fn path(&self) -> &[Rel]
        ensures { result.now ≡ self.now.path }
    {
        &self.path
    }

    // What holds of every cursor. A call does nothing: it tells the prover.
    pub fn facts(&self)
        ensures { IsOpen self.now.problem self.now.path }
    {
        let _ = &self.path;
    }

    // How many relations the prefix has.
    pub fn len(&self) -> u32
        ensures { result ≡ length self.now.path }
    {
        self.problem.facts();
        self.path.len() as u32
    }

    // The first pair that the problem alone leaves nothing.
    pub fn empty(&self) -> Option<u32>
        ensures { IsEmptyPair self.now.problem result }
    {
        self.empty
    }

    // What is forced of a pair by the problem alone.
    pub fn start_at(&self, pair: u32) -> Regions
        requires { pair < pair_count self.now.problem }
        ensures { result ≡ forced_at self.now.problem pair }
    {
        self.at_start[pair as usize]
    }

    // What is forced of a pair at the prefix.
    pub fn forced_at(&self, pair: u32) -> Regions
        requires { pair < pair_count self.now.problem }
        ensures { result ≡ forced_at (problem_at self.now.problem self.now.path) pair }
    {
        self.at_path[pair as usize]
    }

    // Whether the need with this number is one at the prefix.
    pub fn is_needed(&self, number: u32) -> bool
        requires { number < 3 * pair_count self.now.problem + concept_count self.now.problem }
        ensures { result ≡ is_needed (problem_at self.now.problem self.now.path) number }
    {
        let pair = number as usize / 3;
        if pair < self.at_path.len() {
            word_of(self.at_path[pair], number % 3) == Occupancy::Occupied
        } else {
            self.problem.switches().nonempty
        }
    }

    // The selectors that the prefix makes true.
    pub fn selected(&self) -> &[Lit]
        ensures { AreSelectors self.now.problem self.now.path result.now }
    {
        positions_narrow();
        &self.selected
    }

    // Adds a relation that the problem allows the next pair.
    pub fn push(&mut self, rel: Rel) -> Result<(), AllocError>
        requires within { length self.old.path < pair_count self.old.problem }
        requires allowed { IsTrue (has (allowed self.old.problem (pair_at self.old.problem (length self.old.path))) rel) }
        ensures ok { OnOk result (self.new ≡ record self.old { path = self.old.path ++ rel ∷ [] }) }
        ensures err { OnErr result (self.new ≡ self.old) }
    {
        positions_narrow();
        let pair = self.path.len();
        self.problem.facts();
        let more = selected_at(self.alloc, &self.problem, pair as u32, rel.row())?;
        self.path.reserve(1)?;
        self.selected.extend_from_slice(&more)?;
        self.path.push_reserved(rel);
        self.at_path[pair] = rel.row();
        Ok(())
    }

    // Takes off the relations after the first ones.
    pub fn back_to(&mut self, count: usize)
        requires { count ≤ length self.old.path }
        ensures { self.new ≡ record self.old { path = take count self.old.path } }
    {
        while self.path().len() > count {
            self.pop();
        }
    }

    // Takes off the last relation.
    fn pop(&mut self)
        requires { 0 < length self.old.path }
        ensures { self.new ≡ record self.old { path = take (length self.old.path - 1) self.old.path } }
    {
        positions_narrow();
        let pair = self.path.len() - 1;
        let fewer = selected_count(self.path[pair]);
        let kept = self.selected.len().saturating_sub(fewer);
        self.selected.truncate(kept);
        self.path.truncate(pair);
        self.at_path[pair] = self.at_start[pair];
    }
}

// How many selectors a relation makes true.
fn selected_count(rel: Rel) -> usize
    ensures { (first : ℕ) → result ≡ length (pair_selectors first (row_of rel)) }
{
    match rel {
        Rel::Equals => 2,
        Rel::Includes | Rel::IncludedIn | Rel::Disjoint => 1,
        Rel::Overlaps => 0,
    }
}

// What the problem alone forces of each pair.
fn forced_alone(alloc: Global, problem: &Problem) -> Result<Vec<Regions>, AllocError>
    ensures { IfOk result (λ regions. AreForced problem.now regions.items) }
{
    let mut regions = Vec::with_capacity(alloc, problem.pair_count() as usize)?;
    for pair in 0..problem.pair_count() {
        regions.push(forced(problem.allowed(pair)))?;
    }
    Ok(regions)
}

// The first pair that the problem alone leaves nothing.
fn first_empty(problem: &Problem) -> Option<u32>
    ensures { IsEmptyPair problem.now result }
{
    for pair in 0..problem.pair_count() {
        if problem.allowed(pair).is_empty() {
            return Some(pair);
        }
    }
    None
}
