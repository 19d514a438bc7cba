//! What all problems of one shape share.
ghost use Rattle.std.specs.Prelude.{◌≡◌, ◌<◌, ◌≤◌, ℕ, All, List, length, map, filter, IfOk, OnOk, IsTrue, slice_get, slice_index, sum_by};
ghost use Rattle.std.specs.List.{range_with_len};
ghost use Rattle.taxon_tree.specs.Trees.{Trees, IsForest};
ghost use Rattle.world_model.specs.Problem.{concept_count, owner_of, parent_of, children_of, pair_count, cross_pairs, is_articulation};
ghost use Rattle.world_model.specs.Node.{pair_at};
ghost use Rattle.constraint_set.specs.Build.{size_of, problem_of};
ghost use Rattle.constraint_set.specs.Facts.{CanBuild, is_said, IsMadeOf, IsShape};
ghost use Rattle.constraint_set.specs.Readers.{taxonomy_of, name_of, is_sum, is_sum_at, sum_places};
ghost use Rattle.constraint_set.specs.Gather.{gathered};
ghost use Rattle.constraint_set.specs.Shape.{shape_of};

use crate::gather::Gathered;
use crate::limits::{MAX_ARTICULATIONS, MAX_CONCEPTS};
use crate::numbering::Numbering;
use std::alloc::{AllocError, Global};
use std::marker::Model;
use taxon_tree::Forest;
use world_model::{Articulation, Switches};

/// Taxonomies, concepts, articulations and switches, with the pairs by number and the places of the
/// sums.
pub(crate) struct Shape {
    taxonomies: Vec<Vec<u8>>,
    names: Vec<Vec<u8>>,
    numbering: Numbering,
    parents: Vec<Option<u32>>,
    children: Vec<Vec<u32>>,
    articulations: Vec<Articulation>,
    sums: Vec<u32>,
    switches: Switches,
}

// Written out, so that letting one go is a call.
impl Drop for Shape {
    fn drop(self) {
        let Shape {
            taxonomies: _,
            names: _,
            numbering: _,
            parents: _,
            children: _,
            articulations: _,
            sums: _,
            switches: _,
        } = self;
    }
}

impl Model for Shape {
    ghost use Rattle.std.specs.Prelude.{map};
    ghost use Rattle.world_model.specs.Problem.{Problem};
    ghost use Rattle.constraint_set.specs.Shape.{shape_from};
    ghost use Rattle.constraint_set.specs.Facts.{IsShape};

    ghost Value = { Problem };

    ghost view = { λ s. shape_from (map (λ v. v.items) s.taxonomies.items) (map (λ v. v.items) s.names.items) s.numbering s.parents.items (map (λ v. v.items) s.children.items) s.articulations.items s.switches };

    ghost invariant = { λ s. IsShape (shape_from (map (λ v. v.items) s.taxonomies.items) (map (λ v. v.items) s.names.items) s.numbering s.parents.items (map (λ v. v.items) s.children.items) s.articulations.items s.switches) s.sums.items };
}

impl Shape {
    pub(crate) fn new(
        alloc: Global,
        ids: Vec<Vec<u8>>,
        forests: &[Forest],
        articulations: Vec<Articulation>,
        switches: Switches,
    ) -> Result<Shape, AllocError>
        requires { CanBuild (map (λ v. v.items) ids.items) forests.now articulations.items switches }
        ensures { IfOk result (λ s. s ≡ shape_of (problem_of (map (λ v. v.items) ids.items) forests.now articulations.items switches)) }
    {
        let Gathered {
            names,
            owners,
            parents,
            children,
        } = gather(alloc, forests)?;
        let numbering = Numbering::new(alloc, owners)?;
        let sums = sum_indices(alloc, &articulations)?;
        Ok(Shape {
            taxonomies: ids,
            names,
            numbering,
            parents,
            children,
            articulations,
            sums,
            switches,
        })
    }

    pub(crate) fn facts(&self)
        ensures made { (forests : List Trees) × IsMadeOf self.now forests }
    {
        let _ = &self.taxonomies;
    }

    pub(crate) fn taxonomy_count(&self) -> u32
        ensures { result ≡ length self.now.taxonomies }
    {
        self.taxonomies.len() as u32
    }

    pub(crate) fn concept_count(&self) -> u32
        ensures { result ≡ concept_count self.now }
    {
        self.numbering.concept_count()
    }

    pub(crate) fn pair_count(&self) -> u32
        ensures { result ≡ pair_count self.now }
    {
        self.numbering.pair_count()
    }

    pub(crate) fn cross_count(&self) -> u32
        ensures { result ≡ length (cross_pairs self.now) }
    {
        self.numbering.cross_count()
    }

    pub(crate) fn articulation_count(&self) -> u32
        ensures count { result ≡ length self.now.articulations }
        ensures few { result ≤ MAX_ARTICULATIONS }
    {
        self.articulations.len() as u32
    }

    pub(crate) fn sum_count(&self) -> u32
        ensures { result ≡ length (sum_places self.now) }
    {
        self.sums.len() as u32
    }

    pub(crate) fn switches(&self) -> Switches
        ensures { result ≡ self.now.switches }
    {
        self.switches
    }

    pub(crate) fn taxonomy_name(&self, which: usize) -> &[u8]
        requires { which < length self.now.taxonomies }
        ensures { result.now ≡ taxonomy_of self.now which }
    {
        self.taxonomies[which].as_slice()
    }

    pub(crate) fn name(&self, concept: u32) -> &[u8]
        requires { concept < concept_count self.now }
        ensures { result.now ≡ name_of self.now concept }
    {
        self.names[concept as usize].as_slice()
    }

    pub(crate) fn owner(&self, concept: u32) -> u32
        requires { concept < concept_count self.now }
        ensures { result ≡ owner_of self.now concept }
    {
        self.numbering.owner(concept)
    }

    pub(crate) fn parent(&self, concept: u32) -> Option<u32>
        requires { concept < concept_count self.now }
        ensures { result ≡ parent_of self.now concept }
    {
        self.parents[concept as usize]
    }

    pub(crate) fn children(&self, concept: u32) -> &[u32]
        requires { concept < concept_count self.now }
        ensures { result.now ≡ children_of self.now concept }
    {
        self.children[concept as usize].as_slice()
    }

    pub(crate) fn articulation(&self, index: u32) -> &Articulation
        requires { index < length self.now.articulations }
        ensures value { slice_get self.now.articulations index ≡ Some result.now }
        ensures fit { IsTrue (is_articulation self.now result.now) }
        ensures said { IsTrue (is_said result.now) }
    {
        &self.articulations[index as usize]
    }

    pub(crate) fn sum_at(&self, sum: u32) -> u32
        requires { sum < length (sum_places self.now) }
        ensures { result ≡ slice_index (sum_places self.now) sum }
    {
        self.sums[sum as usize]
    }

    pub(crate) fn pair_at(&self, pair: u32) -> (u32, u32)
        requires { pair < pair_count self.now }
        ensures value { result ≡ pair_at self.now pair }
        ensures order { result.0 < result.1 }
        ensures within { result.1 < concept_count self.now }
    {
        self.numbering.pair_at(pair)
    }

    pub(crate) fn pair_index(&self, x: u32, y: u32) -> u32
        requires order { x < y }
        requires within { y < concept_count self.now }
        ensures at { pair_at self.now result ≡ (x, y) }
        ensures within { result < pair_count self.now }
        ensures only { (k : ℕ) → k < pair_count self.now → pair_at self.now k ≡ (x, y) → k ≡ result }
    {
        self.numbering.pair_index(x, y)
    }
}

// The concepts of all forests.
fn gather(alloc: Global, forests: &[Forest]) -> Result<Gathered, AllocError>
    requires eight { length forests.now ≤ 8 }
    requires few { sum_by size_of forests.now ≤ MAX_CONCEPTS }
    ensures concepts { IfOk result (λ g. g ≡ gathered forests.now) }
    ensures forests { OnOk result (All IsForest forests.now) }
{
    let mut all = Gathered::new(alloc);
    for which in 0..forests.len() {
        all.add_forest(alloc, which as u32, &forests[which])?;
    }
    Ok(all)
}

// Whether an articulation is a sum.
fn is_sum(articulation: &Articulation) -> bool
    ensures { result ≡ is_sum articulation.now }
{
    matches!(articulation, Articulation::Sum { .. })
}

// The places of the sums among articulations, in order.
fn sum_indices(alloc: Global, articulations: &[Articulation]) -> Result<Vec<u32>, AllocError>
    requires { length articulations.now ≤ MAX_ARTICULATIONS }
    ensures { IfOk result (λ sums. sums.items ≡ filter (is_sum_at articulations.now) (range_with_len 0 (length articulations.now))) }
{
    let mut sums = Vec::new(alloc);
    for index in 0..articulations.len() {
        if is_sum(&articulations[index]) {
            sums.push(index as u32)?;
        }
    }
    Ok(sums)
}
