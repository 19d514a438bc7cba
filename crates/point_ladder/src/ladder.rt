//! The ladder: a path of relations, and what is left of the points at each of its prefixes.
ghost use Rattle.std.specs.Prelude.{◌≡◌, true, ◌<◌, ◌≤◌, ◌++◌, ◌∷◌, ◌↔◌, [], length, take, IfOk, OnErr, IfSome, IsTrue};
ghost use Rattle.rcc5_core.specs.declared.Rel.{Rel};
ghost use Rattle.rcc5_core.specs.RelationSet.{has, only};
ghost use Rattle.world_model.specs.Problem.{narrowed, pair_count};
ghost use Rattle.world_model.specs.Node.{pair_at};
ghost use Rattle.world_model.specs.Questions.{IsMet};
ghost use Rattle.world_model.specs.Alive.{problem_at, IsAlive};
ghost use Rattle.point_table.specs.Table.{AreRowsOf};
ghost use Rattle.point_ladder.specs.Ladders.{BeginsNone, IsBoundOf, IsAlong, IsPushed};
ghost use Rattle.point_ladder.specs.Bounds.{bound_to, AreBounds};

use crate::behind::{Effort, Ground, is_barren, move_all_to_front, move_to_front, new_effort};
use crate::bounds::{Bounds, bound, narrow_all};
use crate::next::next_frame;
use crate::sides::sides_of;
use crate::start::{begin, first_line, nexts_of, split_pairs};
use crate::stretches::{Stretch, cut, in_force};
use bit_rows::Rows;
use constraint_set::Problem;
use point_frames::MOST_COMPARED;
use rcc5_core::{Rel, RelSet};
use std::alloc::{AllocError, Global};
use std::marker::Model;

/// A problem and a path of relations for its first pairs, which tells which relations lead on.
///
/// The path is alive, unless it is empty.
#[derive(Drop)]
pub struct Ladder {
    problem: Problem,
    // How many pairs are narrowed to their bounds, and what all pairs allow then.
    bounds: usize,
    sets: Vec<RelSet>,
    rows: Rows,
    // A relation a pair: so many of the path, and then the one that is left, at each pair with one left.
    line: Vec<Rel>,
    len: usize,
    // For each pair the next one that has more relations left than the line's, from it on, or the end.
    nexts: Vec<u32>,
    stretches: Vec<Stretch>,
    // The pairs whose sets are not whole, those first at which a search failed of late: a hint.
    order: Vec<u32>,
    alive: bool,
    alloc: Global,
}

impl Model for Ladder {
    ghost use Rattle.std.specs.Prelude.{take};
    ghost use Rattle.point_ladder.specs.Ladders.{LadderState};
    ghost use Rattle.point_ladder.specs.Bounds.{bound_to};
    ghost use Rattle.point_ladder.specs.Stretches.{IsLadder};

    ghost Value = { LadderState };

    ghost view = { λ s. record { problem = bound_to s.problem s.sets.items s.bounds; path = take s.len s.line.items } };

    ghost invariant = { λ s. IsLadder s.problem (bound_to s.problem s.sets.items s.bounds) s.sets.items s.rows s.line.items s.len s.nexts.items s.stretches.items s.alive };
}

/// Frames with more words than so many for each pair, over all pairs that are to be tried, are too large for a look.
const MOST_WORDS_A_PAIR: usize = 200;

/// In such frames a search for a world behind a path takes so many steps at the most, since each takes as long as one of the walk.
const FEW_STEPS: usize = 10;

// The ladder at its start.
fn stand(alloc: Global, problem: Problem, rows: Rows, bounds: Bounds) -> Result<Ladder, AllocError>
    requires rows { AreRowsOf problem rows }
    requires bounds { AreBounds problem bounds }
    ensures { IfOk result (λ ladder. ladder ≡ record { problem = bound_to problem bounds.sets.items bounds.count; path = [] }) }
{
    problem.facts();
    let line = first_line(alloc, &bounds.sets)?;
    let nexts = nexts_of(alloc, &bounds.sets, &line)?;
    let order = split_pairs(alloc, &bounds.sets)?;
    let mut stretches = Vec::new(alloc);
    let Bounds {
        sets,
        count,
        alive,
        frame,
    } = bounds;
    stretches.push(Stretch { from: 0, frame })?;
    Ok(Ladder {
        problem,
        bounds: count,
        sets,
        rows,
        line,
        len: 0,
        nexts,
        stretches,
        order,
        alive,
        alloc,
    })
}

impl Ladder {
    /// The empty path, if the problem has at most so many points and a search finds them in so many tries.
    ///
    /// Both numbers are hints: nothing is said of when there is no ladder.
    pub fn new(
        alloc: Global,
        problem: &Problem,
        most: usize,
        tries: usize,
    ) -> Result<Option<Ladder>, AllocError>
        ensures { IfOk result (λ found. IfSome found (λ ladder. ladder ≡ record { problem = problem.now; path = [] })) }
    {
        let Some((rows, bounds)) = begin(alloc, problem, most, tries)? else {
            return Ok(None);
        };
        Ok(Some(stand(alloc, problem.copy()?, rows, bounds)?))
    }

    /// The empty path of a problem with just the same possible worlds, each pair of which is narrowed to the relations that it may have.
    /// None where `new` would give none.
    pub fn bounded(
        alloc: Global,
        problem: &Problem,
        most: usize,
        tries: usize,
    ) -> Result<Option<Ladder>, AllocError>
        ensures { IfOk result (λ found. IfSome found (IsBoundOf problem.now)) }
    {
        problem.facts();
        let Some((rows, bounds)) = begin(alloc, problem, most, tries)? else {
            return Ok(None);
        };
        let bounds = narrow_all(alloc, problem, &rows, bounds)?;
        Ok(Some(stand(alloc, problem.copy()?, rows, bounds)?))
    }

    /// Whether the path is alive.
    pub fn is_alive(&self) -> bool
        ensures { IsTrue result ↔ IsAlive (problem_at self.now.problem self.now.path) }
    {
        self.alive
    }

    // Whether a relation leads to an alive path.
    fn leads_to(&self, rel: Rel) -> bool
        requires alive { IsAlive (problem_at self.now.problem self.now.path) }
        requires short { length self.now.path < pair_count self.now.problem }
        ensures { IsTrue result ↔ IsAlive (problem_at self.now.problem (self.now.path ++ rel ∷ [])) }
    {
        self.problem.facts();
        let pair = self.len;
        if !self.sets[pair].has(rel) {
            return false;
        }
        let sides = sides_of(&self.problem, &self.rows, pair as u32);
        let last = self.stretches.len() - 1;
        self.stretches[last].frame.leads_on(&sides, rel.row())
    }

    /// The relations that lead to an alive path.
    pub fn leads_on(&self) -> RelSet
        requires alive { IsAlive (problem_at self.now.problem self.now.path) }
        requires short { length self.now.path < pair_count self.now.problem }
        ensures { (rel : Rel) → IsTrue (has result rel) ↔ IsAlive (problem_at self.now.problem (self.now.path ++ rel ∷ [])) }
    {
        self.problem.facts();
        let pair = self.len;
        let sides = sides_of(&self.problem, &self.rows, pair as u32);
        let last = self.stretches.len() - 1;
        bound(&self.stretches[last].frame, &sides, self.sets[pair])
    }

    /// The first region of the next pair that a relation needs a point in, and that has none left: a hint, by its number.
    pub fn bare_region(&self, rel: Rel) -> Option<u8> {
        self.problem.facts();
        if self.len >= self.problem.pair_count() as usize {
            return None;
        }
        let frame = &self.stretches.last()?.frame;
        let sides = sides_of(&self.problem, &self.rows, self.len as u32);
        frame.first_bare(&sides, rel.row())
    }

    /// Puts a relation at the end of the path, if that leads to an alive one.
    pub fn push(&mut self, rel: Rel) -> Result<bool, AllocError>
        requires alive { IsAlive (problem_at self.old.problem self.old.path) }
        requires short { length self.old.path < pair_count self.old.problem }
        ensures pushed { IfOk result (IsPushed self.old self.new rel) }
        ensures err { OnErr result (self.new ≡ self.old) }
    {
        if !self.leads_to(rel) {
            return Ok(false);
        }
        self.problem.facts();
        let pair = self.len;
        let sides = sides_of(&self.problem, &self.rows, pair as u32);
        let last = self.stretches.len() - 1;
        let frame = &self.stretches[last].frame;
        if !frame.is_same(&sides, rel.row()) {
            let frame = next_frame(self.alloc, frame, &sides, rel.row(), MOST_COMPARED)?;
            self.stretches.push(Stretch {
                from: pair + 1,
                frame,
            })?;
        }
        self.line[pair] = rel;
        self.len = pair + 1;
        Ok(true)
    }

    /// Goes along the pairs that have one relation left: to the next one that has more, or to the end.
    pub fn skip(&mut self)
        requires alive { IsAlive (problem_at self.old.problem self.old.path) }
        ensures { IsAlong self.old self.new }
    {
        self.problem.facts();
        if self.len < self.nexts.len() {
            self.len = self.nexts[self.len] as usize;
        }
    }

    // Whether it is shown that no world begins with the first relations, with so much effort.
    fn lies_none(&self, len: usize, effort: &mut Effort) -> Result<bool, AllocError>
        requires alive { IsAlive (problem_at self.now.problem self.now.path) }
        requires within { len ≤ length self.now.path }
        ensures { IfOk result (λ none. none ≡ true → BeginsNone self.now.problem (take len self.now.path)) }
    {
        self.problem.facts();
        let place = in_force(&self.stretches, len);
        let ground = Ground {
            alloc: self.alloc,
            problem: &self.problem,
            rows: &self.rows,
            sets: &self.sets,
            from: len,
            order: &self.order,
        };
        is_barren(&ground, 0, &self.stretches[place].frame, effort)
    }

    /// Whether it is shown that no world begins with the first relations. Nothing is said of when that is not shown.
    pub fn is_barren(&mut self, len: usize) -> Result<bool, AllocError>
        requires alive { IsAlive (problem_at self.old.problem self.old.path) }
        requires within { len ≤ length self.old.path }
        ensures same { self.new ≡ self.old }
        ensures none { IfOk result (λ none. none ≡ true → BeginsNone self.old.problem (take len self.old.path)) }
    {
        let mut effort = new_effort(self.alloc);
        if !self.is_small() {
            effort.left = FEW_STEPS;
        }
        let none = self.lies_none(len, &mut effort)?;
        move_all_to_front(&mut self.order, &effort.failed);
        Ok(none)
    }

    // Whether a look takes little beside asking for points one by one, which takes the longer the more pairs there are.
    fn is_small(&self) -> bool {
        let Some(first) = self.stretches.first() else {
            return false;
        };
        let words = first.frame.size();
        words.saturating_mul(self.order.len()) <= MOST_WORDS_A_PAIR.saturating_mul(self.sets.len())
    }

    /// Has a pair tried before others where it is next to be shown that no world begins with a path: a hint.
    pub fn promote(&mut self, pair: u32)
        ensures { self.new ≡ self.old }
    {
        move_to_front(&mut self.order, pair);
    }

    /// Takes the path back to its first relations.
    pub fn back_to(&mut self, len: usize)
        requires { len ≤ length self.old.path }
        ensures { self.new ≡ record self.old { path = take len self.old.path } }
    {
        self.len = len;
        cut(&mut self.stretches, len);
    }

    /// The relations.
    pub fn path(&self) -> &[Rel]
        ensures { result.now ≡ self.now.path }
    {
        &self.line[..self.len]
    }
}
