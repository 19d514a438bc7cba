//! The tree of a claim that is not yet at its end.

ghost use Rattle.std.specs.Prelude.{◌≡◌, [], IfOk, false};
ghost use Rattle.cert_rules.specs.ClaimLists.{stray_kind};
ghost use Rattle.cert_check.specs.declared.fault.Stop.TheVariants.{Rejected};
ghost use Rattle.cert_tree.specs.Levels.{tree_over};
ghost use Rattle.cert_tree.specs.Walks.{at_of};

use crate::fault::Stop;
use cert_rules::RejectKind;
use cert_text::Subject;
use cert_tree::{Branching, Walk};
use rcc5_core::Position;
use std::alloc::{AllocError, Global};

/// A tree that is not yet at its end.
pub(crate) struct OpenTree {
    pub(crate) subject: Subject,
    pub(crate) walk: Walk,
}

// Written out, so that letting one go is a call.
impl Drop for OpenTree {
    fn drop(self) {
        let OpenTree {
            subject: _,
            walk: _,
        } = self;
    }
}

impl OpenTree {
    /// What it is about.
    pub(crate) fn into_subject(self) -> Subject
        ensures { result ≡ self.subject }
    {
        let OpenTree { subject, walk: _ } = self;
        subject
    }

    /// The tree of the same subject, with the pairs on which it branches.
    pub(crate) fn over_splits(self, alloc: Global) -> Result<OpenTree, AllocError>
        ensures { IfOk result (λ new. new ≡ record self { walk = record self.walk { tree = tree_over self.walk.tree.subject false [] } }) }
    {
        let OpenTree { subject, mut walk } = self;
        let problem = walk.tree.into_subject();
        let tree = Branching::new(alloc, problem, false, Position::new(alloc))?;
        walk.tree = tree;
        Ok(OpenTree { subject, walk })
    }

    /// Why a line that is none of a tree is not taken.
    pub(crate) fn stray(&self) -> Stop
        ensures { result ≡ Rejected (stray_kind (at_of self.now.walk)) }
    {
        if self.walk.expected {
            Stop::Rejected(RejectKind::MissingBranch)
        } else {
            Stop::Rejected(RejectKind::ExtraBranch)
        }
    }
}
