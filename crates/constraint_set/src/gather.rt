//! The concepts of forests, taken in forest by forest.
ghost use Rattle.std.specs.Prelude.{◌≡◌, ◌+◌, ◌<◌, ◌≤◌, ◌^◌, length, map, All, IfOk, OnOk};
ghost use Rattle.std.specs.Option.{option_map, ForSome};
ghost use Rattle.taxon_tree.specs.Trees.{IsForest};
ghost use Rattle.constraint_set.specs.Build.{size_of};
ghost use Rattle.constraint_set.specs.Gather.{nothing_gathered, with_concept, with_forest};

use crate::limits::MAX_CONCEPTS;
use std::alloc::{AllocError, Global};
use std::marker::Model;
use taxon_tree::Forest;

/// By number: the name, the owner, the parent and the children of each concept.
#[derive(Drop)]
pub(crate) struct Gathered {
    pub(crate) names: Vec<Vec<u8>>,
    pub(crate) owners: Vec<u32>,
    pub(crate) parents: Vec<Option<u32>>,
    pub(crate) children: Vec<Vec<u32>>,
}

impl Model for Gathered {
    ghost use Rattle.std.specs.Prelude.{map};
    ghost use Rattle.constraint_set.specs.Gather.{Gathered};

    ghost Value = { Gathered };

    ghost view = { λ s. record { names = map (λ v. v.items) s.names.items; owners = s.owners.items; parents = s.parents.items; children = map (λ v. v.items) s.children.items } };
}

impl Gathered {
    pub(crate) fn new(alloc: Global) -> Gathered
        ensures { result ≡ nothing_gathered }
    {
        Gathered {
            names: Vec::new(alloc),
            owners: Vec::new(alloc),
            parents: Vec::new(alloc),
            children: Vec::new(alloc),
        }
    }

    // Takes in a whole forest.
    pub(crate) fn add_forest(
        &mut self,
        alloc: Global,
        which: u32,
        forest: &Forest,
    ) -> Result<(), AllocError>
        requires { length self.old.owners + size_of forest.now ≤ MAX_CONCEPTS }
        ensures ok { OnOk result (self.new ≡ with_forest self.old which forest.now) }
        ensures forest { IsForest forest.now }
    {
        let before = self.owners.len() as u32;
        for concept in 0..forest.len() {
            self.add_concept(alloc, before, which, forest, concept)?;
        }
        Ok(())
    }

    // Takes in a concept of a forest whose concepts are numbered on from `before`.
    fn add_concept(
        &mut self,
        alloc: Global,
        before: u32,
        which: u32,
        forest: &Forest,
        concept: u32,
    ) -> Result<(), AllocError>
        requires forest { IsForest forest.now }
        requires within { concept < size_of forest.now }
        requires few { before + size_of forest.now ≤ MAX_CONCEPTS }
        ensures { OnOk result (self.new ≡ with_concept self.old before which forest.now concept) }
    {
        let name = Vec::from_slice(alloc, forest.name(concept))?;
        let parent = shifted_parent(before, forest.parent(concept));
        let children = shifted(alloc, before, forest.children(concept))?;
        self.names.push(name)?;
        self.owners.push(which)?;
        self.parents.push(parent)?;
        self.children.push(children)?;
        Ok(())
    }
}

// A parent's number, from that in its forest.
fn shifted_parent(before: u32, parent: Option<u32>) -> Option<u32>
    requires { ForSome parent (λ q. before + q < 2 ^ 32) }
    ensures { result ≡ option_map (λ q. before + q) parent }
{
    match parent {
        Some(parent) => Some(before + parent),
        None => None,
    }
}

// The numbers of children, from those in their forest.
fn shifted(alloc: Global, before: u32, children: &[u32]) -> Result<Vec<u32>, AllocError>
    requires { All (λ q. before + q < 2 ^ 32) children.now }
    ensures { IfOk result (λ list. list.items ≡ map (λ q. before + q) children.now) }
{
    let mut list = Vec::with_capacity(alloc, children.len())?;
    for child in children {
        list.push(before + *child)?;
    }
    Ok(list)
}
