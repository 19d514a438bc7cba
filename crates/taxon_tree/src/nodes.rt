//! The concepts as they are kept, by number.
ghost use Rattle.std.specs.Prelude.{◌≡◌, ◌<◌, ◌≤◌, ◌+◌, ◌-◌, ◌↔◌, length, IsTrue, IsOk, OnOk, OnErr, None, take};
ghost use Rattle.taxon_tree.specs.Trees.{no_trees, name_of, parent_of, children_of, number_of, IsForest};
ghost use Rattle.taxon_tree.specs.Ancestry.{is_ancestor};
ghost use Rattle.taxon_tree.specs.Row.{with_root, with_child};
ghost use Rattle.taxon_tree.specs.Undo.{last_child, without_last_child, first_concepts};

use indexmap::IndexSet;
use std::alloc::{AllocError, Global};
use std::marker::Model;

/// The names in order, and for each concept its parent and its children.
#[derive(Drop)]
pub(crate) struct Nodes {
    names: IndexSet<Vec<u8>>,
    parents: Vec<Option<u32>>,
    children: Vec<Vec<u32>>,
}

impl Model for Nodes {
    ghost use Rattle.std.specs.Prelude.{map};
    ghost use Rattle.taxon_tree.specs.Trees.{Trees};

    ghost Value = { Trees };

    ghost view = { λ s. record { names = map (λ v. v.items) s.names.keys; parents = s.parents.items; children = map (λ v. v.items) s.children.items } };
}

impl Nodes {
    pub(crate) fn new(alloc: Global) -> Nodes
        ensures { result ≡ no_trees }
    {
        Nodes {
            names: IndexSet::new(alloc),
            parents: Vec::new(alloc),
            children: Vec::new(alloc),
        }
    }

    pub(crate) fn len(&self) -> usize
        ensures { result ≡ length self.now.names }
    {
        self.names.len()
    }

    pub(crate) fn find(&self, name: &[u8]) -> Option<usize>
        ensures { result ≡ number_of self.now name.now }
    {
        self.names.get_index_of(name)
    }

    pub(crate) fn name(&self, concept: u32) -> &[u8]
        requires { concept < length self.now.names }
        ensures { result.now ≡ name_of self.now concept }
    {
        self.names.as_slice()[concept as usize].as_slice()
    }

    pub(crate) fn parent(&self, concept: u32) -> Option<u32>
        requires { concept < length self.now.parents }
        ensures { result ≡ parent_of self.now concept }
    {
        self.parents[concept as usize]
    }

    pub(crate) fn children(&self, concept: u32) -> &[u32]
        requires { concept < length self.now.children }
        ensures { result.now ≡ children_of self.now concept }
    {
        self.children[concept as usize].as_slice()
    }

    // Goes up the parents: there are no more of them than concepts.
    #[tactic(auto, using(crate::proofs::AncestryLemmas::reaches_further, crate::proofs::AncestryLemmas::reaches_met, crate::proofs::AncestryLemmas::reaches_root, crate::proofs::AncestryLemmas::reaches_all))]
    pub(crate) fn is_ancestor(&self, upper: u32, lower: u32) -> bool
        requires forest { IsForest self.now }
        requires lower { lower < length self.now.names }
        ensures { result ≡ is_ancestor self.now upper lower }
    {
        let mut here = lower;
        for _ in 0..self.len() {
            match self.parent(here) {
                Some(above) if above == upper => return true,
                Some(above) => here = above,
                None => return false,
            }
        }
        false
    }

    // A new name goes last, and is a root.
    pub(crate) fn add_root(&mut self, name: &[u8]) -> Result<(), AllocError>
        requires { number_of self.old name.now ≡ None }
        ensures ok { OnOk result (self.new ≡ with_root self.old name.now) }
        ensures err { OnErr result (self.new ≡ self.old) }
    {
        let alloc = *self.names.allocator();
        let name = Vec::from_slice(alloc, name)?;
        self.parents.reserve(1)?;
        self.children.reserve(1)?;
        self.names.insert(name)?;
        self.parents.push(None).unwrap();
        self.children.push(Vec::new(alloc)).unwrap();
        Ok(())
    }

    // The child goes last among the children of the parent.
    pub(crate) fn link(&mut self, parent: u32, child: u32) -> Result<(), AllocError>
        requires parent { parent < length self.old.children }
        requires child { child < length self.old.parents }
        ensures ok { OnOk result (self.new ≡ with_child self.old parent child) }
        ensures err { OnErr result (self.new ≡ self.old) }
    {
        push_at(&mut self.children, parent as usize, child)?;
        self.parents[child as usize] = Some(parent);
        Ok(())
    }

    // The last child of the parent is a root again.
    pub(crate) fn unlink_last(&mut self, parent: u32)
        requires parent { parent < length self.old.children }
        requires some { 0 < length (children_of self.old parent) }
        requires child { last_child self.old parent < length self.old.parents }
        ensures { self.new ≡ without_last_child self.old parent }
    {
        let child = pop_at(&mut self.children, parent as usize);
        self.parents[child as usize] = None;
    }

    // Concepts from the number `n` on go.
    pub(crate) fn keep_first(&mut self, n: usize)
        ensures { self.new ≡ first_concepts n self.old }
    {
        self.names.truncate(n);
        self.parents.truncate(n);
        self.children.truncate(n);
    }
}

ghost use Rattle.std.specs.Prelude.{map, slice_index, slice_index_or, slice_set, [], ◌∷◌, ◌++◌};

// Puts a number last in one of the lists.
fn push_at(lists: &mut [Vec<u32>], at: usize, x: u32) -> Result<(), AllocError>
    requires { at < length lists.old }
    ensures ok { OnOk result (map (λ v. v.items) lists.new ≡ slice_set (map (λ v. v.items) lists.old) at (slice_index_or (map (λ v. v.items) lists.old) at [] ++ x ∷ [])) }
    ensures err { OnErr result (map (λ v. v.items) lists.new ≡ map (λ v. v.items) lists.old) }
{
    let list = &mut lists[at];
    list.push(x)?;
    Ok(())
}

// Takes the last number from one of the lists.
fn pop_at(lists: &mut [Vec<u32>], at: usize) -> u32
    requires within { at < length lists.old }
    requires some { 0 < length (slice_index_or (map (λ v. v.items) lists.old) at []) }
    ensures value { let list = slice_index_or (map (λ v. v.items) lists.old) at [] in result ≡ slice_index list (length list - 1) }
    ensures rest { let list = slice_index_or (map (λ v. v.items) lists.old) at [] in map (λ v. v.items) lists.new ≡ slice_set (map (λ v. v.items) lists.old) at (take (length list - 1) list) }
{
    let list = &mut lists[at];
    list.pop().unwrap()
}
