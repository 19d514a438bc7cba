//! A listing, line by line.

ghost use Rattle.std.specs.Prelude.{◌≡◌, ◌++◌, ◌∷◌, [], false, IfOk, OnOk, None, Some};
ghost use Rattle.lits_core.specs.Derivation.{State, first_state};
ghost use Rattle.point_encode.specs.Model.Clauses.{given_clauses};
ghost use Rattle.cert_rules.specs.Listings.{listing_tree, start, with_world, role_of, ForTree};
ghost use Rattle.cert_text.specs.declared.line.CertLine.TheVariants.{End};
ghost use Rattle.cert_check.specs.declared.accepted.Accepted.TheVariants.{Listing as AcceptedListing};
ghost use Rattle.cert_tree.specs.Walks.{IsWalk, at_of};
ghost use Rattle.cert_check.specs.Checkers.{is_proof, stand_of, IsStep};

use crate::accepted::{Accepted, Worlds};
use crate::fault::Stop;
use cert_text::CertLine;
use cert_tree::{Branching, Walk, is_branch};
use constraint_set::Problem;
use proof_check::Book;
use rcc5_core::Position;
use std::alloc::{AllocError, Global};

/// What a line that was taken leads to.
#[derive(Drop)]
pub(crate) enum Turn {
    /// Further lines.
    Further,
    /// The end, before a position or after all.
    Ended(Option<Position>),
}

/// The lines of a listing that were taken so far.
pub(crate) struct Listing {
    alloc: Global,
    pub(crate) walk: Walk,
    pub(crate) worlds: Vec<Position>,
}

// Written out, so that letting one go is a call.
impl Drop for Listing {
    fn drop(self) {
        let Listing {
            alloc: _,
            walk: _,
            worlds: _,
        } = self;
    }
}

impl Listing {
    /// No line yet.
    pub(crate) fn new(
        alloc: Global,
        problem: &Problem,
        from: Position,
    ) -> Result<Listing, AllocError>
        ensures walk { IfOk result (λ listing. IsWalk listing.walk) }
        ensures tree { IfOk result (λ listing. listing.walk.tree ≡ listing_tree problem.now from) }
        ensures start { IfOk result (λ listing. stand_of (first_state (given_clauses problem.now)) listing ≡ start problem.now) }
    {
        let tree = Branching::new(alloc, problem.copy()?, true, from)?;
        Ok(Listing {
            alloc,
            walk: Walk::new(alloc, tree),
            worlds: Vec::new(alloc),
        })
    }

    /// Takes the next line, which is none of the derivation.
    pub(crate) fn take(&mut self, book: &Book, line: CertLine) -> Result<Turn, Stop>
        requires walk { IsWalk self.old.walk }
        requires other { is_proof line ≡ false }
        ensures step { IsStep self.old.walk.tree (stand_of book.now self.old) line (stand_of book.now self.new) result }
        ensures walk { OnOk result (IsWalk self.new.walk) }
        ensures tree { OnOk result (self.new.walk.tree ≡ self.old.walk.tree) }
    {
        match line {
            CertLine::End(to) => self.take_end(to),
            line => self.take_node(book, line),
        }
    }

    /// What is accepted where the listing ends so.
    pub(crate) fn accepted(self, to: Option<Position>) -> Accepted
        ensures { result ≡ AcceptedListing self.walk.tree.from to self.worlds.items }
    {
        let Listing {
            alloc: _,
            walk,
            worlds,
        } = self;
        let tree = walk.tree;
        Accepted::Listing {
            from: tree.into_start(),
            to,
            worlds: Worlds::new(worlds),
        }
    }

    fn take_end(&mut self, to: Option<Position>) -> Result<Turn, Stop>
        requires { IsWalk self.old.walk }
        ensures step { (proof : State) → IsStep self.old.walk.tree (stand_of proof self.old) (End to) (stand_of proof self.new) result }
        ensures walk { self.new.walk ≡ self.old.walk }
    {
        match self.walk.end_fault(&to) {
            Some(kind) => Err(Stop::Rejected(kind)),
            None => Ok(Turn::Ended(to)),
        }
    }

    fn take_node(&mut self, book: &Book, line: CertLine) -> Result<Turn, Stop>
        requires walk { IsWalk self.old.walk }
        requires role { role_of line ≡ ForTree }
        ensures step { IsStep self.old.walk.tree (stand_of book.now self.old) line (stand_of book.now self.new) result }
        ensures walk { OnOk result (IsWalk self.new.walk) }
        ensures tree { OnOk result (self.new.walk.tree ≡ self.old.walk.tree) }
    {
        let branches = is_branch(&line);
        let is_world = matches!(&line, CertLine::World { .. });
        if let Some(kind) = self.walk.tree_fault(book, line) {
            return Err(Stop::Rejected(kind));
        }
        if is_world {
            self.worlds.push(self.walk.path.copy(self.alloc)?)?;
        }
        self.walk.advance(branches)?;
        Ok(Turn::Further)
    }
}
