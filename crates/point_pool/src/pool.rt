//! Points that were found, kept along a prefix.
ghost use Rattle.constraint_set.specs.Shape.{SameShape};
ghost use Rattle.point_pool.specs.Cursors.{IsEmptyPair};
ghost use Rattle.point_encode.specs.Numbers.{is_needed};
ghost use Rattle.point_encode.specs.Model.Forced.{need_count};
ghost use Rattle.bit_rows.specs.Rows.{has_bit};
ghost use Rattle.point_pool.specs.Pools.{IsKept, IsListed, IsPlaceOf, IsPool, IsPoolAt};
ghost use Rattle.rcc5_core.specs.RelationSet.{has};
ghost use Rattle.std.specs.Prelude.{All, Contains, IfNone, IfOk, IsTrue, OnOk, [], length, slice_index_or, take, true, ℕ, ◌++◌, ◌+◌, ◌<◌, ◌∷◌, ◌≡◌, ◌≤◌, ◌⊎◌};
ghost use Rattle.world_model.specs.Alive.{allowed, problem_at, meets_trees};
ghost use Rattle.world_model.specs.Node.{pair_at};
ghost use Rattle.world_model.specs.Problem.{concept_count, pair_count};

use crate::alike::common_len;
use crate::copies::is_same;
use crate::cursor::Cursor;
use crate::start::{gathered_places, strike_others};
use crate::waiting::{Numbers, Waiting};
use constraint_set::Problem;
use lits_core::Bits;
use point_draft::Drafts;
use point_encode::count_needs;
use point_table::Places;
use rcc5_core::{Position, Rel, RelSet};
use std::alloc::{AllocError, Global};
use std::mem;
use world_model::positions_narrow;

/// Points, of which the live ones are points of the prefix, and the needs, each with the place of a point that serves it.
///
/// A relation strikes out points; they are listed in order, with a mark for each relation where its own begin, so that going
/// back makes them live again. A point has the numbers of the needs that it serves; where it is struck out they wait for
/// another. The needs' places are hints: a need is served where it has its slot in the list of the point at its place. What is
/// drafted is a hint too.
pub struct Pool {
    pub cursor: Cursor,
    pub(crate) places: Places,
    pub(crate) struck: Vec<usize>,
    pub(crate) marks: Vec<usize>,
    pub(crate) witness: Vec<usize>,
    pub(crate) slots: Vec<usize>,
    pub(crate) serves: Vec<Numbers>,
    pub waiting: Waiting,
    pub(crate) drafts: Drafts,
    pub(crate) alloc: Global,
}

// Written out, so that letting one go is a call.
impl Drop for Pool {
    fn drop(self) {
        let Pool {
            cursor: _,
            places: _,
            struck: _,
            marks: _,
            witness: _,
            slots: _,
            serves: _,
            waiting: _,
            drafts: _,
            alloc: _,
        } = self;
    }
}

impl Pool {
    /// At the empty prefix of a problem, with points that meet the rules of its trees.
    pub fn new(alloc: Global, problem: Problem, points: Vec<Bits>) -> Result<Pool, AllocError>
        requires { All (λ bits. IsTrue (meets_trees problem bits)) points.items }
        ensures pool { IfOk result IsPool }
        ensures cursor { IfOk result (λ w. w.cursor ≡ record { problem = problem; path = [] }) }
    {
        let places = gathered_places(alloc, &problem, &points)?;
        Pool::at_start(alloc, problem, places)
    }

    // With points at their places.
    fn at_start(alloc: Global, problem: Problem, places: Places) -> Result<Pool, AllocError>
        requires trees { All (λ bits. IsTrue (meets_trees problem bits)) places.points }
        requires concepts { places.concepts ≡ concept_count problem }
        ensures pool { IfOk result IsPool }
        ensures cursor { IfOk result (λ w. w.cursor ≡ record { problem = problem; path = [] }) }
    {
        positions_narrow();
        let cursor = Cursor::new(alloc, problem)?;
        let mut places = places;
        places.revive_all();
        strike_others(&cursor, &mut places);
        let serves = no_numbers(alloc, places.len())?;
        let count = count_needs(cursor.problem());
        let waiting = all_needed(alloc, &cursor, count)?;
        Ok(Pool {
            cursor,
            places,
            struck: Vec::new(alloc),
            marks: Vec::new(alloc),
            witness: vec![in alloc; 0; count as usize]?,
            slots: vec![in alloc; 0; count as usize]?,
            serves,
            waiting,
            drafts: Drafts::new(alloc),
            alloc,
        })
    }

    /// A pool of these points at another problem of the shape, at its empty prefix; or as it is, if at this problem.
    pub fn moved_to(self, alloc: Global, problem: &Problem) -> Result<Pool, AllocError>
        requires pool { IsPool self }
        requires shape { SameShape self.cursor.problem problem.now }
        ensures { IfOk result (IsPoolAt problem.now) }
    {
        if is_same(self.cursor.problem(), problem) {
            return Ok(self);
        }
        let places = self.into_places()?;
        Pool::at_start(alloc, problem.copy()?, places)
    }

    // The points at their places, which meet the rules of the problem's trees.
    fn into_places(mut self) -> Result<Places, AllocError>
        requires { IsPool self }
        ensures trees { IfOk result (λ s. All (λ bits. IsTrue (meets_trees self.cursor.problem bits)) s.points) }
        ensures concepts { IfOk result (λ s. s.concepts ≡ concept_count self.cursor.problem) }
    {
        let none = Places::new(self.alloc, 0)?;
        Ok(mem::replace(&mut self.places, none))
    }

    /// What the problem allows the next pair.
    pub fn next_set(&self) -> RelSet
        requires { length self.now.cursor.path < pair_count self.now.cursor.problem }
        ensures { result ≡ allowed self.now.cursor.problem (pair_at self.now.cursor.problem (length self.now.cursor.path)) }
    {
        self.cursor.problem().allowed(self.cursor.len())
    }

    /// Takes off the relations after the first ones.
    pub fn back_to(&mut self, count: usize)
        requires pool { IsPool self.old }
        requires count { count ≤ length self.old.cursor.path }
        ensures pool { IsPool self.new }
        ensures cursor { self.new.cursor ≡ record self.old.cursor { path = take count self.old.cursor.path } }
    {
        positions_narrow();
        self.cursor.facts();
        let start = self.mark_at(count);
        unstrike(&mut self.places, &mut self.struck, start);
        self.marks.truncate(count);
        self.cursor.back_to(count);
        self.drafts.back_to(count);
    }

    // Where those begin that were struck out since the prefix had so many relations.
    fn mark_at(&self, count: usize) -> usize
        requires kept { IsKept self.now }
        requires count { count ≤ length self.now.cursor.path }
        ensures { (k : ℕ) → result ≤ k → k < length self.now.struck.items → IsPlaceOf (problem_at self.now.cursor.problem (take count self.now.cursor.path)) self.now.places.points (slice_index_or self.now.struck.items k 0) }
    {
        if count < self.marks.len() {
            self.marks[count]
        } else {
            self.struck.len()
        }
    }

    /// Adds a relation that the problem allows the next pair.
    pub fn push(&mut self, rel: Rel) -> Result<(), AllocError>
        requires pool { IsPool self.old }
        requires within { length self.old.cursor.path < pair_count self.old.cursor.problem }
        requires allowed { IsTrue (has (allowed self.old.cursor.problem (pair_at self.old.cursor.problem (length self.old.cursor.path))) rel) }
        ensures pool { OnOk result (IsPool self.new) }
        ensures cursor { OnOk result (self.new.cursor ≡ record self.old.cursor { path = self.old.cursor.path ++ rel ∷ [] }) }
    {
        positions_narrow();
        self.cursor.facts();
        let pair = self.cursor.len();
        self.strike(pair, rel.row())?;
        self.cursor.push(rel)?;
        self.want_pair(pair)?;
        Ok(())
    }

    /// Goes to a prefix, as far as the problem allows its relations, and answers the first pair that is left nothing.
    pub fn go_to(&mut self, prefix: &Position) -> Result<Option<u32>, AllocError>
        requires pool { IsPool self.old }
        requires prefix { length prefix.now ≤ pair_count self.old.cursor.problem }
        ensures pool { OnOk result (IsPool self.new) }
        ensures problem { OnOk result (self.new.cursor.problem ≡ self.old.cursor.problem) }
        ensures path { IfOk result (λ empty. IfNone empty (self.new.cursor.path ≡ prefix.now)) }
        ensures empty { IfOk result (IsEmptyPair (problem_at self.old.cursor.problem prefix.now)) }
    {
        positions_narrow();
        let common = common_len(self.cursor.path(), prefix.rels());
        self.back_to(common);
        while (self.cursor.len() as usize) < prefix.len() {
            let pair = self.cursor.len();
            let rel = prefix.at(pair as usize);
            if !self.cursor.problem().allowed(pair).has(rel) {
                self.cursor.facts();
                return Ok(Some(pair));
            }
            self.push(rel)?;
        }
        self.cursor.facts();
        Ok(self.cursor.empty())
    }
}

// All needs of a prefix wait.
fn all_needed(alloc: Global, cursor: &Cursor, count: u32) -> Result<Waiting, AllocError>
    requires { count ≡ need_count cursor.now.problem }
    ensures { IfOk result (λ waiting. (number : ℕ) → number < count → IsTrue (is_needed (problem_at cursor.now.problem cursor.now.path) number) → Contains waiting number) }
{
    let mut waiting = Waiting::new(alloc);
    for number in 0..count {
        push_if_needed(&mut waiting, cursor, number)?;
    }
    Ok(waiting)
}

// Adds a number to those that wait, if it is that of a need.
fn push_if_needed(waiting: &mut Waiting, cursor: &Cursor, number: u32) -> Result<(), AllocError>
    requires { number < need_count cursor.now.problem }
    ensures there { OnOk result (IsTrue (is_needed (problem_at cursor.now.problem cursor.now.path) number) → Contains waiting.new number) }
    ensures stay { OnOk result ((other : ℕ) → Contains waiting.old other → Contains waiting.new other) }
{
    if cursor.is_needed(number) {
        waiting.push(number)?;
    }
    Ok(())
}

// Makes the points live again that were struck out from one on.
fn unstrike(places: &mut Places, struck: &mut Vec<usize>, start: usize)
    requires { (k : ℕ) → start ≤ k → k < length struck.old.items → slice_index_or struck.old.items k 0 < length places.old.points }
    ensures concepts { places.new.concepts ≡ places.old.concepts }
    ensures points { places.new.points ≡ places.old.points }
    ensures used { places.new.used ≡ places.old.used }
    ensures stay { (place : ℕ) → has_bit places.old.live place ≡ true → has_bit places.new.live place ≡ true }
    ensures live { (place : ℕ) → has_bit places.new.live place ≡ true → (has_bit places.old.live place ≡ true) ⊎ IsListed struck.old.items start place }
    ensures struck { struck.new.items ≡ take start struck.old.items }
{
    for number in start..struck.len() {
        places.revive(struck[number]);
    }
    struck.truncate(start);
}

// So many empty lists.
fn no_numbers(alloc: Global, count: usize) -> Result<Vec<Numbers>, AllocError>
    ensures { IfOk result (λ lists. length lists.items ≡ count) }
{
    let mut lists = Vec::with_capacity(alloc, count)?;
    for _place in 0..count {
        lists.push(Numbers::new(alloc))?;
    }
    Ok(lists)
}
