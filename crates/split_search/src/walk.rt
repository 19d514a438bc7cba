//! Where a search stands in the tree over the split pairs, and how it goes on from there.
ghost use Rattle.std.specs.Prelude.{◌≡◌, ◌↔◌, ◌<◌, ◌≤◌, ◌==◌, ◌++◌, ◌∷◌, [], false, None, length, IfOk, IfSome, IsNone, OnOk};
ghost use Rattle.cert_rules.specs.ClaimLists.{split_pairs};
ghost use Rattle.cert_rules.specs.FromTheEnd.{found_or, set_at};
ghost use Rattle.cert_rules.specs.Trees.{node_problem, sets_of, last_of};
ghost use Rattle.split_search.specs.Walking.{IsWalk, split_tree, next_node, node_if};

use crate::pairs::split_of;
use constraint_set::Problem;
use rcc5_core::{Position, Rel, RelSet};
use std::alloc::{AllocError, Global};

/// A node of the tree: the relations on the way to it, and the problems at each node on this way, each that of the one before
/// with a split pair narrowed to a relation.
#[derive(Drop)]
pub(crate) struct NodePath {
    pub subject: Problem,
    pub pairs: Vec<u32>,
    pub path: Position,
    pub problems: Vec<Problem>,
}

impl NodePath {
    /// At the root.
    pub(crate) fn new(alloc: Global, problem: &Problem) -> Result<NodePath, AllocError>
        ensures walk { IfOk result IsWalk }
        ensures subject { IfOk result (λ walk. walk.subject ≡ problem.now) }
        ensures root { IfOk result (λ walk. walk.path ≡ []) }
    {
        let pairs = split_of(alloc, problem)?;
        let subject = problem.copy()?;
        let mut problems = Vec::new(alloc);
        problems.push(problem.copy()?)?;
        Ok(NodePath {
            subject,
            pairs,
            path: Position::new(alloc),
            problems,
        })
    }

    /// The problem at the node.
    pub(crate) fn node(&self) -> &Problem
        requires { IsWalk self.now }
        ensures { result.now ≡ node_problem (split_tree self.now.subject) self.now.path }
    {
        &self.problems[self.path.len()]
    }

    /// Whether all split pairs are narrowed to a relation.
    pub(crate) fn is_full(&self) -> bool
        requires { IsWalk self.now }
        ensures { result ≡ (length self.now.path == length (split_pairs self.now.subject)) }
    {
        self.path.len() == self.pairs.len()
    }

    // The relations at a depth.
    fn set_at(&self, depth: usize) -> RelSet
        requires walk { IsWalk self.now }
        requires within { depth < length self.now.pairs.items }
        ensures { result ≡ set_at (sets_of (split_tree self.now.subject)) depth }
    {
        self.subject.allowed(self.pairs[depth])
    }

    // Goes to a node below this one.
    fn go_down(&mut self, alloc: Global, rel: Rel) -> Result<(), AllocError>
        requires walk { IsWalk self.old }
        requires room { length self.old.path < length self.old.pairs.items }
        ensures walk { OnOk result (IsWalk self.new) }
        ensures path { OnOk result (self.new.path ≡ self.old.path ++ rel ∷ []) }
        ensures subject { OnOk result (self.new.subject ≡ self.old.subject) }
    {
        let pair = self.pairs[self.path.len()];
        let below = self.node().narrowed(alloc, pair, RelSet::one(rel))?;
        self.problems.push(below)?;
        self.path.push(rel)?;
        Ok(())
    }

    // Goes back to the node above this one. The relation by which it came.
    fn go_up(&mut self) -> Option<Rel>
        requires { IsWalk self.old }
        ensures walk { IsWalk self.new }
        ensures none { IsNone result ↔ (self.old.path ≡ []) }
        ensures some { IfSome result (λ rel. self.old.path ≡ self.new.path ++ rel ∷ []) }
        ensures subject { self.new.subject ≡ self.old.subject }
        ensures pairs { length self.new.pairs.items ≡ length self.old.pairs.items }
    {
        match self.path.pop() {
            Some(rel) => {
                self.problems.pop();
                Some(rel)
            }
            None => None,
        }
    }

    // Goes back to a node above this one from which a later relation leads on, and answers this one.
    fn later(&mut self) -> Option<Rel>
        requires { IsWalk self.old }
        ensures walk { IsWalk self.new }
        ensures subject { self.new.subject ≡ self.old.subject }
        ensures next { next_node self.old.subject false self.old.path ≡ found_or self.new.path result None }
        ensures room { IfSome result (λ _. length self.new.path < length self.new.pairs.items) }
    {
        while let Some(rel) = self.go_up() {
            let next = self.set_at(self.path.len()).after(rel);
            if next.is_some() {
                return next;
            }
        }
        None
    }

    // The least relation that leads on from a branch.
    fn below(&self, branches: bool) -> Option<Rel>
        requires { IsWalk self.now }
        ensures next { next_node self.now.subject branches self.now.path ≡ found_or self.now.path result (next_node self.now.subject false self.now.path) }
        ensures room { IfSome result (λ _. length self.now.path < length self.now.pairs.items) }
    {
        if branches && self.path.len() < self.pairs.len() {
            self.set_at(self.path.len()).first()
        } else {
            None
        }
    }

    // Goes to the node behind all below this one, if there is one.
    fn climb(&mut self, alloc: Global) -> Result<bool, AllocError>
        requires { IsWalk self.old }
        ensures walk { OnOk result (IsWalk self.new) }
        ensures subject { OnOk result (self.new.subject ≡ self.old.subject) }
        ensures next { IfOk result (λ on. next_node self.old.subject false self.old.path ≡ node_if on self.new.path) }
    {
        match self.later() {
            Some(rel) => {
                self.go_down(alloc, rel)?;
                Ok(true)
            }
            None => Ok(false),
        }
    }

    /// Goes to the next node, if there is one: behind a branch to one below it.
    pub(crate) fn advance(&mut self, alloc: Global, branches: bool) -> Result<bool, AllocError>
        requires { IsWalk self.old }
        ensures walk { OnOk result (IsWalk self.new) }
        ensures subject { OnOk result (self.new.subject ≡ self.old.subject) }
        ensures next { IfOk result (λ on. next_node self.old.subject branches self.old.path ≡ node_if on self.new.path) }
    {
        match self.below(branches) {
            Some(rel) => {
                self.go_down(alloc, rel)?;
                Ok(true)
            }
            None => self.climb(alloc),
        }
    }

    /// The depth of the node.
    pub(crate) fn depth(&self) -> u32
        requires { IsWalk self.now }
        ensures { result ≡ length self.now.path }
    {
        self.subject.facts();
        self.path.len() as u32
    }

    /// The last relation on the way to the node, which the root lacks.
    pub(crate) fn last(&self) -> Option<Rel>
        ensures { result ≡ last_of self.now.path }
    {
        if self.path.is_empty() {
            return None;
        }
        Some(self.path.at(self.path.len() - 1))
    }
}
