//! Lines of a tree.

ghost use Rattle.std.specs.Prelude.{◌≡◌, ◌≤◌, length, OnOk};
ghost use Rattle.cert_rules.specs.Trees.{names, is_branch, branch_fault, node_fault, tree_fault, end_fault, tree_next};
ghost use Rattle.cert_tree.specs.Walks.{IsWalk, at_of, name_fault};

use crate::path::Walk;
use crate::relations::{is_node_at, is_same_position};
use cert_rules::RejectKind;
use cert_text::CertLine;
use proof_check::Book;
use rcc5_core::Position;
use std::alloc::AllocError;

/// Whether a line says that its node branches.
pub fn is_branch(line: &CertLine) -> bool
    ensures { result ≡ is_branch line.now }
{
    matches!(line, CertLine::Branch { .. })
}

impl Walk {
    /// What is wrong with a line of the tree.
    pub fn tree_fault(&self, book: &Book, line: CertLine) -> Option<RejectKind>
        requires { IsWalk self.now }
        ensures { result ≡ tree_fault self.now.tree book.now (at_of self.now) line }
    {
        // What it says is looked at in any case, so that no early end lets go of the line.
        self.name_fault(&line).or(self.node_fault(book, line))
    }

    /// What is wrong with the name that a line has for the expected node.
    fn name_fault(&self, line: &CertLine) -> Option<RejectKind>
        ensures { result ≡ name_fault (at_of self.now) line.now }
    {
        if !self.expected {
            Some(RejectKind::ExtraBranch)
        } else if self.is_named(line) {
            None
        } else {
            Some(RejectKind::MissingBranch)
        }
    }

    /// Whether a line names the node at the path.
    fn is_named(&self, line: &CertLine) -> bool
        ensures { result ≡ names self.now.path line.now }
    {
        match line {
            CertLine::Branch { depth, last }
            | CertLine::NoPoint { depth, last, .. }
            | CertLine::NoRelation { depth, last, .. }
            | CertLine::World { depth, last, .. } => is_node_at(&self.path, *depth, *last),
            _ => false,
        }
    }

    /// What is wrong with what a line says of the node at the path.
    fn node_fault(&self, book: &Book, line: CertLine) -> Option<RejectKind>
        requires { IsWalk self.now }
        ensures { result ≡ node_fault self.now.tree book.now self.now.path line }
    {
        match line {
            CertLine::Branch { .. } => self.branch_fault(),
            CertLine::NoPoint { need, clause, .. } => {
                self.tree.point_fault(&self.path, book, need, clause)
            }
            CertLine::NoRelation { pair, .. } => self.tree.pair_fault(&self.path, pair),
            CertLine::World { family, .. } => self.tree.world_fault(&self.path, family),
            _ => None,
        }
    }

    fn branch_fault(&self) -> Option<RejectKind>
        ensures { result ≡ branch_fault self.now.tree self.now.path }
    {
        if self.path.len() == self.tree.depth_count() {
            Some(RejectKind::BranchTooDeep)
        } else {
            None
        }
    }

    /// What is wrong with an end of the tree.
    pub fn end_fault(&self, to: &Option<Position>) -> Option<RejectKind>
        ensures { result ≡ end_fault (at_of self.now) to.now }
    {
        match to {
            None if self.expected => Some(RejectKind::MissingBranch),
            None => None,
            Some(_) if !self.expected => Some(RejectKind::ExtraBranch),
            Some(to) if is_same_position(&self.path, to) => None,
            Some(_) => Some(RejectKind::MissingBranch),
        }
    }
}
