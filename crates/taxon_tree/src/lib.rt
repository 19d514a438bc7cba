//! Forests of concepts: what the rows of one taxonomy build, each name and each child in its place.
#![tactic(auto)]

ghost use Rattle.std.specs.Prelude.{◌≡◌, ◌≢◌, ◌<◌, ◌↔◌, length, map, Ok, Err, OnOk, OnErr, IfErr, IfSome, IfNone, IsTrue, Contains};
ghost use Rattle.taxon_tree.specs.Trees.{no_trees, name_of, parent_of, children_of, number_of, IsAncestor, IsForest};
ghost use Rattle.taxon_tree.specs.Row.{add_row};
ghost use Rattle.taxon_tree.specs.declared.ForestFault.TheVariants.{NoMemory};

mod nodes;
mod rows;

use crate::nodes::Nodes;
use std::alloc::{AllocError, Global};
use std::marker::Model;
use thiserror::Error;

/// Why a row is refused.
#[derive(Clone, Copy, Debug, PartialEq, Eq, Error)]
pub enum ForestFault {
    /// A child of the row has another parent already.
    #[error("a child has two parents")]
    TwoParents,
    /// A child of the row is a child of this parent already.
    #[error("a child stands twice under its parent")]
    ChildTwice,
    /// A child of the row is its parent, or an ancestor of its parent.
    #[error("a concept is its own ancestor")]
    Cycle,
    /// A name of the row is new, and as many concepts as may be are there.
    #[error("too many concepts")]
    TooManyConcepts,
    /// Memory ran out.
    #[error("out of memory")]
    NoMemory,
}

impl From<AllocError> for ForestFault {
    ghost from_gives = { λ _ fault. fault ≡ NoMemory };

    fn from(_refused: AllocError) -> ForestFault {
        ForestFault::NoMemory
    }
}

/// The concepts of one taxonomy, numbered from 0 in the order of their first appearance: each has a name, at most one parent, and its
/// children in order. No concept is above itself.
///
/// Rows build it, one at a time. The readers take no memory.
#[derive(Drop)]
pub struct Forest {
    nodes: Nodes,
}

impl Model for Forest {
    ghost use Rattle.taxon_tree.specs.Trees.{Trees, IsForest};

    ghost Value = { Trees };

    ghost view = { λ a. a.nodes };

    ghost invariant = { λ a. IsForest a.nodes };
}

impl Forest {
    /// A forest without concepts, which allocates nothing until the first row.
    pub fn new(alloc: Global) -> Forest
        ensures { result ≡ no_trees }
    {
        Forest {
            nodes: Nodes::new(alloc),
        }
    }

    /// Takes a row in: the first name is the parent, and the others are its children.
    ///
    /// A name that is new becomes a root with the next number, and then each child is put last among the children of the parent. The
    /// names are taken from the left, as if the earlier ones of the row were in place. There may be at most `limit` concepts
    /// afterwards where the row has a new name. A row that is refused changes nothing. But for the test that a child is not above
    /// the parent, which goes up the parents once for each child, the time follows the length of the row.
    pub fn add_row(&mut self, names: &[Vec<u8>], limit: u32) -> Result<(), ForestFault>
        requires { 0 < length names.now }

        // The row has no fault exactly where it gives new trees, and each fault but want of memory is the first one of the row.
        ensures ok { OnOk result (add_row limit self.old (map (λ v. v.items) names.now) ≡ Ok self.new) }
        ensures fault { IfErr result (λ k. k ≢ NoMemory → add_row limit self.old (map (λ v. v.items) names.now) ≡ Err k) }
        ensures err { OnErr result (self.new ≡ self.old) }

        ensures forest { IsForest self.new }
    {
        self.nodes.add_row(names, limit)
    }

    /// How many concepts there are.
    pub fn len(&self) -> u32
        ensures count { result ≡ length self.now.names }
        ensures forest { IsForest self.now }
    {
        self.nodes.len() as u32
    }

    /// The number of the concept that has this name.
    pub fn find(&self, name: &[u8]) -> Option<u32>
        ensures number { result ≡ number_of self.now name.now }
        ensures within { IfSome result (λ n. n < length self.now.names) }
        ensures found { IfSome result (λ n. name_of self.now n ≡ name.now) }
        ensures absent { IfNone result (¬ Contains self.now.names name.now) }
    {
        let number = self.nodes.find(name)?;
        Some(number as u32)
    }

    /// The name of a concept.
    pub fn name(&self, concept: u32) -> &[u8]
        requires { concept < length self.now.names }
        ensures { result.now ≡ name_of self.now concept }
    {
        self.nodes.name(concept)
    }

    /// The parent of a concept, and none for a root.
    pub fn parent(&self, concept: u32) -> Option<u32>
        requires { concept < length self.now.names }
        ensures { result ≡ parent_of self.now concept }
    {
        self.nodes.parent(concept)
    }

    /// The children of a concept, in the order of the rows.
    pub fn children(&self, concept: u32) -> &[u32]
        requires { concept < length self.now.names }
        ensures { result.now ≡ children_of self.now concept }
    {
        self.nodes.children(concept)
    }

    /// Whether `upper` is the parent of `lower`, the parent of its parent, and so on.
    pub fn is_ancestor(&self, upper: u32, lower: u32) -> bool
        requires { lower < length self.now.names }
        ensures { IsTrue result ↔ IsAncestor self.now upper lower }
    {
        self.nodes.is_ancestor(upper, lower)
    }
}
