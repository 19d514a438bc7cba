//! Families of sets: one set of numbers for each concept, the relations of these sets, and whether
//! they meet a problem.
#![tactic(auto)]

ghost use Rattle.std.specs.Prelude.{◌≡◌, ◌<◌, ◌≤◌, ◌^◌, ◌-◌, ℕ, All, IfOk, IsTrue, length, map, min};
ghost use Rattle.rcc5_core.specs.Relation.{relation_of, is_ascending};
ghost use Rattle.world_model.specs.Problem.{Problem, concept_count};
ghost use Rattle.world_model.specs.Alive.{family_of};
ghost use Rattle.world_model.specs.Family.{set_of};
ghost use Rattle.set_family.specs.Sets.{family_from, family_of_points};

mod lists;
mod merge;
mod rules;
mod statements;
mod tables;

use crate::lists::{all_sets_below, places_of};
use lits_core::Bits;
use rcc5_core::{Rel, rel_of};
use std::alloc::{AllocError, Global};
use std::marker::Model;

/// A number u, and sets of numbers below u, one for each concept.
///
/// Each set is a list of its numbers in ascending order, none twice.
#[derive(Drop)]
pub struct Family {
    universe: u32,
    sets: Vec<Vec<u32>>,
}

impl Model for Family {
    ghost use Rattle.std.specs.Prelude.{IsTrue, map};
    ghost use Rattle.std.specs.List.{list_all};
    ghost use Rattle.world_model.specs.Family.{Family};
    ghost use Rattle.set_family.specs.Sets.{is_set_below};

    ghost Value = { Family };

    ghost view = { λ f. record { universe = f.universe; sets = map (λ v. v.items) f.sets.items } };

    ghost invariant = { λ f. IsTrue (list_all (is_set_below f.universe) (map (λ v. v.items) f.sets.items)) };
}

impl Family {
    /// The family of some points: u is their number, and each of `count` concepts has the places of
    /// the points that have its bit.
    pub fn from_points(alloc: Global, count: u32, points: &[Bits]) -> Result<Family, AllocError>
        requires few { length points.now < 2 ^ 32 }
        requires wide { All (λ bits. count ≤ length bits) points.now }
        ensures places { IfOk result (λ f. f ≡ family_of_points count points.now) }

        // It is what a problem of so many concepts makes of these points.
        ensures of_problem { IfOk result (λ f. (p : Problem) → concept_count p ≡ count → f ≡ family_of p points.now) }
    {
        let mut sets = Vec::with_capacity(alloc, count as usize)?;
        for concept in 0..count {
            let places = places_of(alloc, points, concept)?;
            sets.push(places)?;
        }
        Ok(Family {
            universe: points.len() as u32,
            sets,
        })
    }

    /// The family of these lists. None exactly where one of them isn't strictly ascending or has a
    /// number that isn't below `u`.
    pub fn from_lists(u: u32, lists: Vec<Vec<u32>>) -> Option<Family>
        ensures { result ≡ family_from u (map (λ v. v.items) lists.items) }
    {
        if all_sets_below(u, &lists) {
            Some(Family {
                universe: u,
                sets: lists,
            })
        } else {
            None
        }
    }

    /// How many sets there are, or the greatest `u32` where there are more.
    pub fn count(&self) -> u32
        ensures { result ≡ min (length self.now.sets) (2 ^ 32 - 1) }
    {
        self.sets.len().min(u32::MAX as usize) as u32
    }

    /// The number that all numbers in the sets are below.
    pub fn universe(&self) -> u32
        ensures { result ≡ self.now.universe }
    {
        self.universe
    }

    /// A set, by the number of its concept.
    pub fn set(&self, i: u32) -> &[u32]
        requires { i < length self.now.sets }
        ensures numbers { result.now ≡ set_of self.now i }
        ensures ascending { IsTrue (is_ascending result.now) }
    {
        self.elements(i)
    }

    /// The relation of two sets, by the numbers of their concepts.
    pub fn relation(&self, i: u32, j: u32) -> Rel
        requires left { i < length self.now.sets }
        requires right { j < length self.now.sets }
        ensures { result ≡ relation_of (set_of self.now i) (set_of self.now j) }
    {
        self.rel(i, j)
    }

    // A concept's set, and the empty one for a number that is no concept's.
    fn elements(&self, i: u32) -> &[u32]
        ensures numbers { result.now ≡ set_of self.now i }
        ensures ascending { IsTrue (is_ascending result.now) }
    {
        if (i as usize) < self.sets.len() {
            self.sets[i as usize].as_slice()
        } else {
            &[]
        }
    }

    // The relation of two sets.
    fn rel(&self, i: u32, j: u32) -> Rel
        ensures { result ≡ relation_of (set_of self.now i) (set_of self.now j) }
    {
        rel_of(self.elements(i), self.elements(j))
    }
}
