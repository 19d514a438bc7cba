//! A walk along a tree, from one expected node to the next.

ghost use Rattle.std.specs.Prelude.{◌≡◌, ◌<◌, ◌≤◌, ◌++◌, ◌∷◌, [], true, false, length, IfOk, OnOk, IfSome, IfNone, None, Some, slice_get};
ghost use Rattle.rcc5_core.specs.RelationSet.{next_of};
ghost use Rattle.rcc5_core.specs.Relation.{same_rel};
ghost use Rattle.cert_rules.specs.Trees.{sets_of, same_position, same_last, is_node_at};
ghost use Rattle.cert_rules.specs.Order.{is_shown, onward};
ghost use Rattle.cert_rules.specs.FromTheEnd.{from_after, found_or};
ghost use Rattle.cert_tree.specs.Walks.{IsWalk, IsBeside, at_of, least_with};

use crate::relations::is_same;
use crate::tree::Branching;
use rcc5_core::{Position, Rel, RelSet};
use std::alloc::{AllocError, Global};

/// A tree with a path in it: where a node is expected, the path leads to it.
///
/// The start is not compared with the path: `on_way` says whether what comes in it at the path's depth lies below the path.
#[derive(Drop)]
pub struct Walk {
    pub tree: Branching,
    pub path: Position,
    pub expected: bool,
    pub on_way: bool,
}

impl Walk {
    /// The root is expected.
    pub fn new(alloc: Global, tree: Branching) -> Walk
        ensures walk { IsWalk result }
        ensures at { at_of result ≡ Some [] }
        ensures tree { result.tree ≡ tree }
    {
        Walk {
            tree,
            path: Position::new(alloc),
            expected: true,
            on_way: true,
        }
    }

    /// Goes on to the node that is expected after this one, which branches or not.
    pub fn advance(&mut self, branches: bool) -> Result<(), AllocError>
        requires { IsWalk self.old }
        ensures walk { OnOk result (IsWalk self.new) }
        ensures at { OnOk result (at_of self.new ≡ onward (sets_of self.old.tree) self.old.tree.from branches self.old.path) }
        ensures tree { OnOk result (self.new.tree ≡ self.old.tree) }
    {
        match self.below(branches) {
            Some(rel) => self.go_down(rel),
            None => self.climb(),
        }
    }

    /// The relation that leads to the least shown node below a branch.
    fn below(&self, branches: bool) -> Option<Rel>
        requires { IsWalk self.now }
        ensures next { onward (sets_of self.now.tree) self.now.tree.from branches self.now.path ≡ found_or self.now.path result (onward (sets_of self.now.tree) self.now.tree.from false self.now.path) }
        ensures short { IfSome result (λ _. length self.now.path < length self.now.tree.levels) }
    {
        let depth = self.path.len();
        if branches && depth < self.tree.depth_count() {
            least(self.tree.set_at(depth), self.start_below())
        } else {
            None
        }
    }

    /// The first relation of what of the start lies below the path.
    fn start_below(&self) -> Option<Rel>
        requires { IsWalk self.now }
        ensures { result ≡ slice_get (from_after self.now.tree.from self.now.path) 0 }
    {
        let depth = self.path.len();
        if self.on_way && depth < self.tree.from.len() {
            Some(self.tree.from.at(depth))
        } else {
            None
        }
    }

    /// Goes to a node below this one.
    fn go_down(&mut self, rel: Rel) -> Result<(), AllocError>
        requires walk { IsWalk self.old }
        requires short { length self.old.path < length self.old.tree.levels }
        requires shown { is_shown self.old.tree.from (self.old.path ++ rel ∷ []) ≡ true }
        ensures walk { OnOk result (IsWalk self.new) }
        ensures at { OnOk result (at_of self.new ≡ Some (self.old.path ++ rel ∷ [])) }
        ensures tree { OnOk result (self.new.tree ≡ self.old.tree) }
    {
        let on_way = is_there(self.start_below(), rel);
        self.path.push(rel)?;
        self.on_way = on_way;
        self.expected = true;
        Ok(())
    }

    /// Goes to the node that is expected after all below this one.
    fn climb(&mut self) -> Result<(), AllocError>
        requires { IsWalk self.old }
        ensures walk { OnOk result (IsWalk self.new) }
        ensures at { OnOk result (at_of self.new ≡ onward (sets_of self.old.tree) self.old.tree.from false self.old.path) }
        ensures tree { OnOk result (self.new.tree ≡ self.old.tree) }
    {
        match later(&self.tree, &mut self.path) {
            Some(rel) => self.go_beside(rel),
            None => {
                self.on_way = true;
                self.expected = false;
                Ok(())
            }
        }
    }

    /// Goes to a node off the way of the start.
    fn go_beside(&mut self, rel: Rel) -> Result<(), AllocError>
        requires short { length self.old.path < length self.old.tree.levels }
        requires beside { IsBeside self.old.tree.from self.old.path rel }
        ensures walk { OnOk result (IsWalk self.new) }
        ensures at { OnOk result (at_of self.new ≡ Some (self.old.path ++ rel ∷ [])) }
        ensures tree { OnOk result (self.new.tree ≡ self.old.tree) }
    {
        self.path.push(rel)?;
        self.on_way = false;
        self.expected = true;
        Ok(())
    }
}

/// Takes relations off a path up to one that has a later one in its set, and answers this one.
fn later(tree: &Branching, path: &mut Position) -> Option<Rel>
    requires short { length path.old ≤ length tree.now.levels }
    requires shown { is_shown tree.now.from path.old ≡ true }
    ensures next { onward (sets_of tree.now) tree.now.from false path.old ≡ found_or path.new result None }
    ensures short { IfSome result (λ _. length path.new < length tree.now.levels) }
    ensures beside { IfSome result (λ rel. IsBeside tree.now.from path.new rel) }
    ensures none { IfNone result (path.new ≡ []) }
{
    while let Some(rel) = path.pop() {
        let next = tree.set_at(path.len()).after(rel);
        if next.is_some() {
            return next;
        }
    }
    None
}

/// The least relation of a set that is not left of the first of the start.
fn least(set: RelSet, first: Option<Rel>) -> Option<Rel>
    ensures { result ≡ least_with set first }
{
    match first {
        Some(rel) if set.has(rel) => Some(rel),
        Some(rel) => set.after(rel),
        None => set.first(),
    }
}

fn is_there(first: Option<Rel>, rel: Rel) -> bool
    ensures { result ≡ same_last first (Some rel) }
{
    match first {
        Some(first) => is_same(first, rel),
        None => false,
    }
}
