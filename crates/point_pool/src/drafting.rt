//! What is drafted for a need at the prefix.
ghost use Rattle.point_pool.specs.Drafted.{AvoidsPair, AvoidsPairsOf};
ghost use Rattle.point_encode.specs.Model.Forced.{need_count};
ghost use Rattle.point_pool.specs.Cursors.{IsPointIn};
ghost use Rattle.point_pool.specs.Pools.{IsPoolBut};
ghost use Rattle.std.specs.Prelude.{IfOk, IfSome, IsTrue, length, true, ℕ, ◌<◌, ◌≡◌};
ghost use Rattle.world_model.specs.Alive.{bit_of, is_point, problem_at};
ghost use Rattle.world_model.specs.Problem.{concept_count};

use crate::cursor::Cursor;
use crate::pool::Pool;
use lits_core::Bits;
use point_draft::Draft;
use point_encode::{by_concepts, is_in, need_at};
use point_table::{avoids_by, bits_of, meets_structure};
use std::alloc::AllocError;

impl Cursor {
    // Whether bits are in no region of the pair of two concepts, the lower number first, that is forced empty at the prefix.
    fn avoids_two(&self, bits: &[bool], x: u32, y: u32) -> bool
        requires length { length bits.now ≡ concept_count self.now.problem }
        requires order { x < y }
        requires within { y < concept_count self.now.problem }
        ensures { result ≡ true → AvoidsPair (problem_at self.now.problem self.now.path) bits.now x y }
    {
        let regions = self.forced_at(self.problem().pair_index(x, y));
        let left = bits[x as usize];
        let right = bits[y as usize];
        avoids_by(regions, left, right)
    }

    // Whether bits are in no such region of two concepts, whichever comes first. A concept makes no pair with itself.
    fn avoids_pair(&self, bits: &[bool], one: u32, other: u32) -> bool
        requires length { length bits.now ≡ concept_count self.now.problem }
        requires one { one < concept_count self.now.problem }
        requires other { other < concept_count self.now.problem }
        ensures { result ≡ true → AvoidsPair (problem_at self.now.problem self.now.path) bits.now one other }
    {
        if one < other {
            return self.avoids_two(bits, one, other);
        }
        if other < one {
            return self.avoids_two(bits, other, one);
        }
        true
    }

    // Whether bits are in no such region of any pair of a concept.
    fn avoids_pairs_of(&self, bits: &[bool], concept: u32) -> bool
        requires length { length bits.now ≡ concept_count self.now.problem }
        requires concept { concept < concept_count self.now.problem }
        ensures { result ≡ true → AvoidsPairsOf (problem_at self.now.problem self.now.path) bits.now concept }
    {
        for other in 0..self.problem().concept_count() {
            if !self.avoids_pair(bits, concept, other) {
                return false;
            }
        }
        true
    }

    // Whether that is so of a concept, unless it is without the point.
    fn avoids_if_there(&self, bits: &[bool], concept: u32) -> bool
        requires length { length bits.now ≡ concept_count self.now.problem }
        requires concept { concept < concept_count self.now.problem }
        ensures { result ≡ true → bit_of bits.now concept ≡ true → AvoidsPairsOf (problem_at self.now.problem self.now.path) bits.now concept }
    {
        if !bits[concept as usize] {
            return true;
        }
        self.avoids_pairs_of(bits, concept)
    }

    // Whether bits are a point of the prefix. A pair without a concept that has the point has none in its regions.
    fn has_point(&self, bits: &[bool]) -> bool
        ensures { result ≡ true → IsTrue (is_point (problem_at self.now.problem self.now.path) bits.now) }
    {
        if !meets_structure(self.problem(), bits) {
            return false;
        }
        for concept in 0..self.problem().concept_count() {
            if !self.avoids_if_there(bits, concept) {
                return false;
            }
        }
        true
    }

    /// The point that was drafted for the need with a number, if it is a point of the prefix in it.
    pub fn drafted(&self, number: u32, draft: &Draft) -> Result<Option<Bits>, AllocError>
        requires { number < need_count self.now.problem }
        ensures { IfOk result (λ found. IfSome found (IsPointIn self.now number)) }
    {
        let Draft::Point(bits) = draft else {
            return Ok(None);
        };
        if !self.has_point(bits) {
            return Ok(None);
        }
        let point = bits_of(self.alloc, bits)?;
        if !is_in(by_concepts(self.problem(), number), &point) {
            return Ok(None);
        }
        Ok(Some(point))
    }
}

impl Pool {
    /// What a search by the rules at the prefix finds for the need with a number: a hint.
    pub fn draft(&mut self, number: u32) -> Result<Draft, AllocError>
        requires { number < need_count self.old.cursor.problem }
        ensures pool { (low high : ℕ) → IsPoolBut self.old low high → IsPoolBut self.new low high }
        ensures cursor { self.new.cursor ≡ self.old.cursor }
        ensures waiting { self.new.waiting ≡ self.old.waiting }
    {
        let need = need_at(self.cursor.problem(), number);
        self.drafts
            .search(self.cursor.problem(), self.cursor.path(), need)
    }
}
