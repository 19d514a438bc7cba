//! Problems, which share what stays the same.
ghost use Rattle.std.specs.Prelude.{◌≡◌, ◌<◌, ◌≤◌, ℕ, true, [], length, map, IfOk, OnOk, OnErr, IsTrue, slice_get, slice_index, sum_by};
ghost use Rattle.std.specs.List.{list_all};
ghost use Rattle.rcc5_core.specs.declared.RelSet.{RelSet};
ghost use Rattle.world_model.specs.Problem.{concept_count, owner_of, parent_of, children_of, pair_count, cross_pairs, restricted, narrowed, is_articulation};
ghost use Rattle.world_model.specs.Alive.{allowed};
ghost use Rattle.world_model.specs.Node.{pair_at};
ghost use Rattle.constraint_set.specs.Build.{size_of, problem_of};
ghost use Rattle.constraint_set.specs.Facts.{all_fit, is_said, IsBuilt};
ghost use Rattle.constraint_set.specs.Readers.{taxonomy_of, name_of, is_sum_at, sum_places, all_sums, rule_at};
ghost use Rattle.constraint_set.specs.Shape.{SameShape, OneShapeShares, with_state};

use crate::limits::{MAX_ARTICULATIONS, MAX_CONCEPTS, MAX_PAIRS, MAX_TAXONOMIES};
use crate::shape::Shape;
use crate::statements::{Kept, Narrowed, Narrowing};
use rcc5_core::RelSet;
use std::alloc::{AllocError, Global};
use std::marker::Model;
use std::rc::Rc;
use taxon_tree::Forest;
use world_model::{Articulation, Switches, pairs_stand_once};

/// Concepts of two to eight taxonomies and what experts say of them: which articulations are kept,
/// what pairs are narrowed to besides, and which rules hold.
///
/// Concepts are numbered from 0 taxonomy by taxonomy, and in each as its forest numbers them. Pairs
/// are numbered from 0 too: first those across taxonomies, then those inside one, each by the first
/// concept and then the second. The readers take no memory and a constant number of steps. Problems
/// that `restricted` and `narrowed` make share all that stays the same.
#[derive(Drop)]
pub struct Problem {
    shape: Rc<Shape>,
    kept: Rc<Kept>,
    narrowed: Rc<Narrowed>,
}

impl Model for Problem {
    ghost use Rattle.world_model.specs.Problem.{Problem};
    ghost use Rattle.constraint_set.specs.Shape.{with_state};
    ghost use Rattle.constraint_set.specs.Sets.{IsState};

    ghost Value = { Problem };

    ghost view = { λ s. with_state s.shape.value s.kept.value.flags.items s.narrowed.value.list.items };

    ghost invariant = { λ s. IsState s.shape.value s.kept.value.flags.items s.kept.value.sets s.narrowed.value.list.items s.narrowed.value.sets };
}

impl Problem {
    /// The problem as read: all articulations are kept, and nothing is narrowed.
    ///
    /// `ids` are the names of the taxonomies, in the order of their forests.
    pub fn new(
        alloc: Global,
        ids: Vec<Vec<u8>>,
        forests: Vec<Forest>,
        articulations: Vec<Articulation>,
        switches: Switches,
    ) -> Result<Problem, AllocError>
        requires two { 2 ≤ length forests.items }
        requires eight { length forests.items ≤ MAX_TAXONOMIES }
        requires named { length ids.items ≡ length forests.items }
        requires concepts { sum_by size_of forests.items ≤ MAX_CONCEPTS }
        requires few { length articulations.items ≤ MAX_ARTICULATIONS }

        // Numbers in range; a pair's left below its right, across taxonomies; a sum of two or more parts, none of the whole's taxonomy.
        requires fit { IsTrue (all_fit forests.items articulations.items switches) }

        // No pair's set is empty, and the parts of a sum are all different.
        requires said { IsTrue (list_all is_said articulations.items) }

        ensures { IfOk result (λ p. p ≡ problem_of (map (λ v. v.items) ids.items) forests.items articulations.items switches) }
    {
        let shape = Shape::new(alloc, ids, &forests, articulations, switches)?;
        Problem::of_shape(alloc, shape)
    }

    // The problem of a shape: all articulations are kept, and nothing is narrowed.
    fn of_shape(alloc: Global, shape: Shape) -> Result<Problem, AllocError>
        ensures { IfOk result (λ p. p ≡ with_state shape (map (λ _. true) shape.articulations) []) }
    {
        let kept = Kept::all(alloc, &shape)?;
        Ok(Problem {
            shape: Rc::new(alloc, shape)?,
            kept: Rc::new(alloc, kept)?,
            narrowed: Rc::new(alloc, Narrowed::none(alloc))?,
        })
    }

    /// What holds of every problem. A call does nothing: it tells the prover.
    pub fn facts(&self)
        ensures built { IsBuilt self.now }
        ensures pairs { pair_count self.now ≤ MAX_PAIRS }
        ensures concepts { concept_count self.now ≤ MAX_CONCEPTS }
    {
        pairs_stand_once();
        self.shape.facts();
    }

    /// How many taxonomies there are.
    pub fn taxonomy_count(&self) -> u32
        ensures { result ≡ length self.now.taxonomies }
    {
        self.shape.taxonomy_count()
    }

    /// How many concepts there are.
    pub fn concept_count(&self) -> u32
        ensures { result ≡ concept_count self.now }
    {
        self.shape.concept_count()
    }

    /// How many pairs of concepts there are.
    pub fn pair_count(&self) -> u32
        ensures { result ≡ pair_count self.now }
    {
        self.shape.pair_count()
    }

    /// How many pairs are across taxonomies: the pairs with a number below it.
    pub fn cross_count(&self) -> u32
        ensures { result ≡ length (cross_pairs self.now) }
    {
        self.shape.cross_count()
    }

    /// How many articulations there are, kept or not.
    pub fn articulation_count(&self) -> u32
        ensures { result ≡ length self.now.articulations }
    {
        self.shape.articulation_count()
    }

    /// How many of the articulations are sums, kept or not.
    pub fn sum_count(&self) -> u32
        ensures places { result ≡ length (sum_places self.now) }
        ensures rules { result ≡ length (all_sums self.now) }
    {
        self.shape.sum_count()
    }

    /// Which rules hold.
    pub fn switches(&self) -> Switches
        ensures { result ≡ self.now.switches }
    {
        self.shape.switches()
    }

    /// The name of a taxonomy.
    pub fn taxonomy_name(&self, which: usize) -> &[u8]
        requires { which < length self.now.taxonomies }
        ensures { result.now ≡ taxonomy_of self.now which }
    {
        self.shape.taxonomy_name(which)
    }

    /// The name of a concept.
    pub fn name(&self, concept: u32) -> &[u8]
        requires { concept < concept_count self.now }
        ensures { result.now ≡ name_of self.now concept }
    {
        self.shape.name(concept)
    }

    /// The place, from 0, of a concept's taxonomy.
    pub fn owner(&self, concept: u32) -> u32
        requires { concept < concept_count self.now }
        ensures { result ≡ owner_of self.now concept }
    {
        self.shape.owner(concept)
    }

    /// The parent of a concept, and none for a root.
    pub fn parent(&self, concept: u32) -> Option<u32>
        requires { concept < concept_count self.now }
        ensures { result ≡ parent_of self.now concept }
    {
        self.shape.parent(concept)
    }

    /// The children of a concept, in order.
    pub fn children(&self, concept: u32) -> &[u32]
        requires { concept < concept_count self.now }
        ensures { result.now ≡ children_of self.now concept }
    {
        self.shape.children(concept)
    }

    /// An articulation, kept or not, by its place in the order of the problem.
    pub fn articulation(&self, index: u32) -> &Articulation
        requires { index < length self.now.articulations }
        ensures value { slice_get self.now.articulations index ≡ Some result.now }

        // Its numbers are in range, a pair's left below its right; and it says something.
        ensures fit { IsTrue (is_articulation self.now result.now) }
        ensures said { IsTrue (is_said result.now) }
    {
        self.shape.articulation(index)
    }

    /// Whether an articulation is kept.
    pub fn is_kept(&self, index: u32) -> bool
        requires { index < length self.now.articulations }
        ensures { slice_get self.now.kept index ≡ Some result }
    {
        self.kept.flags[index as usize]
    }

    /// How many narrowings there are.
    pub fn narrowing_count(&self) -> usize
        ensures { result ≡ length self.now.narrowings }
    {
        self.narrowed.list.len()
    }

    /// A narrowing, by its place in the order in which they were made: the two concepts, and the set
    /// that their relation is in.
    pub fn narrowing(&self, index: usize) -> (u32, u32, RelSet)
        requires { index < length self.now.narrowings }
        ensures { slice_get self.now.narrowings index ≡ Some (record { left = result.0; right = result.1; set = result.2 }) }
    {
        let narrowing = self.narrowed.list[index];
        (narrowing.left, narrowing.right, narrowing.set)
    }

    /// The place of a sum among the articulations.
    pub fn sum_at(&self, sum: u32) -> u32
        requires { sum < length (sum_places self.now) }
        ensures value { result ≡ slice_index (sum_places self.now) sum }

        // There stands a sum, and it is the one of this number among all sums.
        ensures within { result < length self.now.articulations }
        ensures sum { IsTrue (is_sum_at self.now.articulations result) }
        ensures rule { slice_get (all_sums self.now) sum ≡ rule_at self.now.articulations result }
    {
        self.shape.sum_at(sum)
    }

    /// The concepts of a pair, the lower number first.
    pub fn pair_at(&self, pair: u32) -> (u32, u32)
        requires { pair < pair_count self.now }
        ensures value { result ≡ pair_at self.now pair }
        ensures order { result.0 < result.1 }
        ensures within { result.1 < concept_count self.now }
    {
        self.shape.pair_at(pair)
    }

    /// The number of the pair of two concepts, the lower number first.
    pub fn pair_index(&self, x: u32, y: u32) -> u32
        requires order { x < y }
        requires within { y < concept_count self.now }

        // It is the one number of this pair.
        ensures at { pair_at self.now result ≡ (x, y) }
        ensures within { result < pair_count self.now }
        ensures only { (k : ℕ) → k < pair_count self.now → pair_at self.now k ≡ (x, y) → k ≡ result }
    {
        self.shape.pair_index(x, y)
    }

    /// The relations that a pair may have by all that is said of it.
    pub fn allowed(&self, pair: u32) -> RelSet
        requires { pair < pair_count self.now }
        ensures { result ≡ allowed self.now (pair_at self.now pair) }
    {
        self.kept.sets.at(pair).meet(self.narrowed.sets.at(pair))
    }

    /// A second problem that is equal to this one, and shares all of it.
    pub fn copy(&self) -> Result<Problem, AllocError>
        ensures { IfOk result (λ copy. copy ≡ self.now) }
    {
        let shape = self.shape.clone()?;
        let kept = self.kept.clone()?;
        let narrowed = self.narrowed.clone()?;
        Ok(Problem {
            shape,
            kept,
            narrowed,
        })
    }

    /// The problem with other flags: just the articulations whose flag is true are kept.
    pub fn restricted(&self, alloc: Global, kept: &[bool]) -> Result<Problem, AllocError>
        requires { length kept.now ≡ length self.now.articulations }
        ensures value { IfOk result (λ p. p ≡ restricted self.now kept.now) }
        ensures shape { IfOk result (λ p. SameShape p self.now) }
    {
        let kept = Kept::new(alloc, &self.shape, kept)?;
        Ok(Problem {
            kept: Rc::new(alloc, kept)?,
            shape: self.shape.clone()?,
            narrowed: self.narrowed.clone()?,
        })
    }

    /// The problem with one more narrowing: the relation of the pair is in the set.
    pub fn narrowed(&self, alloc: Global, pair: u32, set: RelSet) -> Result<Problem, AllocError>
        requires { pair < pair_count self.now }
        ensures value { IfOk result (λ p. p ≡ narrowed self.now (pair_at self.now pair) set) }
        ensures shape { IfOk result (λ p. SameShape p self.now) }
    {
        let (left, right) = self.shape.pair_at(pair);
        let more = Narrowing { left, right, set };
        let narrowed = self.narrowed.with(alloc, &self.shape, more)?;
        Ok(Problem {
            shape: self.shape.clone()?,
            kept: self.kept.clone()?,
            narrowed: Rc::new(alloc, narrowed)?,
        })
    }

    /// Narrows a pair besides: its relation is in the set. What no other problem shares is not made anew.
    pub fn narrow(&mut self, alloc: Global, pair: u32, set: RelSet) -> Result<(), AllocError>
        requires { pair < pair_count self.old }
        ensures value { OnOk result (self.new ≡ narrowed self.old (pair_at self.old pair) set) }
        ensures same { OnErr result (self.new ≡ self.old) }
        ensures shape { SameShape self.new self.old }
    {
        let (left, right) = self.shape.pair_at(pair);
        let more = Narrowing { left, right, set };
        if let Some(narrowed) = Rc::get_mut(&mut self.narrowed) {
            return narrowed.add(&self.shape, more);
        }
        let narrowed = self.narrowed.with(alloc, &self.shape, more)?;
        self.narrowed = Rc::new(alloc, narrowed)?;
        Ok(())
    }
}

/// Problems of one shape have the same concepts, pairs and sums, by the same numbers.
pub fn one_shape_shares()
    ensures { OneShapeShares }
{}
