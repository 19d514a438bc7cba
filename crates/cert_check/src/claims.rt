//! A list of claims, line by line.

ghost use Rattle.std.specs.Prelude.{◌≡◌, ◌<◌, [], IfOk, OnOk, OnErr, None, Some, true, false, Contains, IsTrue};
ghost use Rattle.rcc5_core.specs.RelationSet.{only};
ghost use Rattle.lits_core.specs.Derivation.{State, first_state};
ghost use Rattle.world_model.specs.Problem.{Problem, pair_count, narrowed};
ghost use Rattle.world_model.specs.Family.{meets};
ghost use Rattle.world_model.specs.Node.{pair_at};
ghost use Rattle.point_encode.specs.Model.Clauses.{given_clauses};
ghost use Rattle.set_family.specs.Sets.{family_from};
ghost use Rattle.cert_rules.specs.Trees.{fault_or, family_fault};
ghost use Rattle.cert_rules.specs.ClaimLists.{claim_start, claim_role, ForNode, holds_fault, subject_fault, subject_problem, subject_tree};
ghost use Rattle.cert_text.specs.declared.line.CertLine.TheVariants.{Holds as HoldsLine, Fails as FailsLine, End};
ghost use Rattle.cert_check.specs.declared.accepted.Accepted.TheVariants.{Claims as AcceptedClaims};
ghost use Rattle.cert_tree.specs.Walks.{IsWalk, at_of};
ghost use Rattle.cert_check.specs.Checkers.{is_proof};
ghost use Rattle.cert_check.specs.Claiming.{AreClaims, IsOpen, IsBlock, AreMet, claim_stand, block_of, with_block, is_node, IsClaimStep};

use crate::accepted::{Accepted, Claim, ClaimList};
use crate::fault::Stop;
use crate::known::Known;
use crate::listing::Turn;
use crate::open_tree::OpenTree;
use cert_rules::RejectKind;
use cert_text::{CertLine, RawFamily, Subject};
use cert_tree::{Branching, Walk, family_fault, is_branch};
use constraint_set::Problem;
use proof_check::Book;
use rcc5_core::{Rel, RelSet};
use set_family::Family;
use std::alloc::{AllocError, Global};

/// The lines of a list of claims that were taken so far.
pub(crate) struct Claims {
    alloc: Global,
    pub(crate) problem: Problem,
    pub(crate) block: Option<OpenTree>,
    pub(crate) claims: Vec<Claim>,
    pub(crate) known: Known,
}

// Written out, so that letting one go is a call.
impl Drop for Claims {
    fn drop(self) {
        let Claims {
            alloc: _,
            problem: _,
            block: _,
            claims: _,
            known: _,
        } = self;
    }
}

impl Claims {
    /// No line yet.
    pub(crate) fn new(alloc: Global, problem: &Problem) -> Result<Claims, AllocError>
        ensures problem { IfOk result (λ claims. claims.problem ≡ problem.now) }
        ensures claims { IfOk result AreClaims }
        ensures start { IfOk result (λ claims. claim_stand (first_state (given_clauses problem.now)) claims ≡ claim_start problem.now) }
    {
        Ok(Claims {
            alloc,
            problem: problem.copy()?,
            block: None,
            claims: Vec::new(alloc),
            known: Known::new(alloc),
        })
    }

    /// Takes the next line, which is none of the derivation.
    pub(crate) fn take(&mut self, book: &Book, line: CertLine) -> Result<Turn, Stop>
        requires claims { AreClaims self.old }
        requires other { is_proof line ≡ false }
        ensures step { IsClaimStep self.old.problem (claim_stand book.now self.old) line (claim_stand book.now self.new) result }
        ensures claims { OnOk result (AreClaims self.new) }
        ensures problem { self.new.problem ≡ self.old.problem }
    {
        match self.block.take() {
            Some(block) => self.take_inside(book, block, line),
            None => self.take_outside(line),
        }
    }

    /// What is accepted at the end.
    pub(crate) fn accepted(self) -> Accepted
        ensures { result ≡ AcceptedClaims self.claims.items }
    {
        let Claims {
            alloc: _,
            problem: _,
            block: _,
            claims,
            known: _,
        } = self;
        Accepted::Claims(ClaimList::new(claims))
    }

    /// Takes a line where no tree is open.
    fn take_outside(&mut self, line: CertLine) -> Result<Turn, Stop>
        requires claims { AreClaims self.old }
        requires closed { self.old.block ≡ None }
        requires other { is_proof line ≡ false }
        ensures step { (proof : State) → IsClaimStep self.old.problem (claim_stand proof self.old) line (claim_stand proof self.new) result }
        ensures claims { OnOk result (AreClaims self.new) }
        ensures problem { self.new.problem ≡ self.old.problem }
    {
        match line {
            CertLine::Holds { subject, family } => self.take_holding(subject, family),
            CertLine::Fails { subject } => self.take_failing(subject),
            CertLine::Done => Ok(Turn::Ended(None)),
            _ => Err(Stop::Rejected(RejectKind::ExtraBranch)),
        }
    }

    fn take_holding(&mut self, subject: Subject, family: RawFamily) -> Result<Turn, Stop>
        requires known { AreMet self.old.problem self.old.known }
        requires closed { self.old.block ≡ None }
        ensures step { (proof : State) → IsClaimStep self.old.problem (claim_stand proof self.old) (HoldsLine subject family) (claim_stand proof self.new) result }
        ensures known { AreMet self.old.problem self.new.known }
        ensures same { self.new ≡ record self.old { known = self.new.known; claims = self.new.claims } }
    {
        if let Some(kind) = self.holds_fault(&subject, family)? {
            return Err(Stop::Rejected(kind));
        }
        let holds = true;
        self.claims.push(Claim { subject, holds })?;
        Ok(Turn::Further)
    }

    /// What is wrong with a claim that holds, by the words of a family.
    fn holds_fault(
        &mut self,
        subject: &Subject,
        family: RawFamily,
    ) -> Result<Option<RejectKind>, AllocError>
        requires known { AreMet self.old.problem self.old.known }
        ensures fault { IfOk result (λ fault. fault ≡ holds_fault self.old.problem subject.now family) }
        ensures known { AreMet self.old.problem self.new.known }
        ensures same { self.new ≡ record self.old { known = self.new.known } }
    {
        if let Some(kind) = self.subject_fault(subject) {
            return Ok(Some(kind));
        }
        if let Subject::Narrowed { pair, rel } = subject {
            return self.shown_fault(*pair, *rel, family);
        }
        let problem = self.problem_of(subject)?;
        Ok(family_fault(&problem, family))
    }

    /// What is wrong with the words of a family that is to show a relation of a pair: it must meet the problem and have the relation.
    fn shown_fault(
        &mut self,
        pair: u32,
        rel: Rel,
        words: RawFamily,
    ) -> Result<Option<RejectKind>, AllocError>
        requires within { pair < pair_count self.old.problem }
        requires known { AreMet self.old.problem self.old.known }
        ensures fault { IfOk result (λ fault. fault ≡ family_fault (narrowed self.old.problem (pair_at self.old.problem pair) (only rel)) (family_from words.universe words.sets)) }
        ensures known { AreMet self.old.problem self.new.known }
        ensures same { self.new ≡ record self.old { known = self.new.known } }
    {
        let (universe, lists) = words.into_parts();
        let Some(family) = Family::from_lists(universe, lists) else {
            return Ok(Some(RejectKind::FamilyDoesNotMeet));
        };
        if !self.is_shown(pair, rel, &family) {
            return Ok(Some(RejectKind::FamilyDoesNotMeet));
        }
        self.keep(family)?;
        Ok(None)
    }

    /// Whether a family meets the problem and has a relation at a pair.
    fn is_shown(&self, pair: u32, rel: Rel, family: &Family) -> bool
        requires within { pair < pair_count self.now.problem }
        requires known { AreMet self.now.problem self.now.known }
        ensures shown { result ≡ meets (narrowed self.now.problem (pair_at self.now.problem pair) (only rel)) family.now }
        ensures met { IsTrue result → IsTrue (meets self.now.problem family.now) }
    {
        if !self.is_met(family) {
            return false;
        }
        let (left, right) = self.problem.pair_at(pair);
        RelSet::one(rel).has(family.relation(left, right))
    }

    /// Whether a family meets the problem.
    fn is_met(&self, family: &Family) -> bool
        requires { AreMet self.now.problem self.now.known }
        ensures { result ≡ meets self.now.problem family.now }
    {
        self.is_known(family) || family.meets(&self.problem)
    }

    /// Whether a family is one that met the problem before.
    fn is_known(&self, family: &Family) -> bool
        ensures { IsTrue result → Contains self.now.known family.now }
    {
        let count = family.count();
        count < u32::MAX && self.known.has(family, count)
    }

    /// Keeps a family that meets the problem.
    fn keep(&mut self, family: Family) -> Result<(), AllocError>
        requires known { AreMet self.old.problem self.old.known }
        requires met { IsTrue (meets self.old.problem family) }
        ensures known { AreMet self.old.problem self.new.known }
        ensures same { self.new ≡ record self.old { known = self.new.known } }
    {
        if self.is_known(&family) {
            return Ok(());
        }
        self.known.keep(family)
    }

    fn take_failing(&mut self, subject: Subject) -> Result<Turn, Stop>
        requires { self.old.block ≡ None }
        ensures step { (proof : State) → IsClaimStep self.old.problem (claim_stand proof self.old) (FailsLine subject) (claim_stand proof self.new) result }
        ensures block { OnOk result (IsOpen self.new.problem self.new.block) }
        ensures same { self.new ≡ record self.old { block = self.new.block } }
    {
        if let Some(kind) = self.subject_fault(&subject) {
            return Err(Stop::Rejected(kind));
        }
        self.block = Some(self.block_at(subject)?);
        Ok(Turn::Further)
    }

    /// The tree of a subject, with its root expected, and without the pairs on which it branches.
    fn block_at(&self, subject: Subject) -> Result<OpenTree, AllocError>
        requires { subject_fault self.now.problem subject ≡ None }
        ensures tree { IfOk result (λ block. IsBlock self.now.problem block) }
        ensures subject { IfOk result (λ block. block.subject ≡ subject) }
        ensures at { IfOk result (λ block. at_of block.walk ≡ Some []) }
    {
        let problem = self.problem_of(&subject)?;
        let walk = Walk::new(self.alloc, Branching::root(self.alloc, problem));
        Ok(OpenTree { subject, walk })
    }

    fn subject_fault(&self, subject: &Subject) -> Option<RejectKind>
        ensures { result ≡ subject_fault self.now.problem subject.now }
    {
        let is_right = match subject {
            Subject::Narrowed { pair, .. } => *pair < self.problem.pair_count(),
            Subject::Kept(flags) => {
                flags.list().len() == self.problem.articulation_count() as usize
            }
        };
        if is_right {
            None
        } else {
            Some(RejectKind::WrongSubject)
        }
    }

    fn problem_of(&self, subject: &Subject) -> Result<Problem, AllocError>
        requires { subject_fault self.now.problem subject.now ≡ None }
        ensures { IfOk result (λ problem. problem ≡ subject_problem self.now.problem subject.now) }
    {
        match subject {
            Subject::Narrowed { pair, rel } => {
                self.problem.narrowed(self.alloc, *pair, RelSet::one(*rel))
            }
            Subject::Kept(flags) => self.problem.restricted(self.alloc, flags.list()),
        }
    }

    /// Takes a line of a tree.
    fn take_inside(&mut self, book: &Book, block: OpenTree, line: CertLine) -> Result<Turn, Stop>
        requires closed { self.old.block ≡ None }
        requires block { IsBlock self.old.problem block }
        requires other { is_proof line ≡ false }
        ensures step { IsClaimStep self.old.problem (with_block book.now self.old block) line (claim_stand book.now self.new) result }
        ensures block { OnOk result (IsOpen self.new.problem self.new.block) }
        ensures same { self.new ≡ record self.old { block = self.new.block; claims = self.new.claims } }
    {
        if is_node(&line) {
            return self.take_node(book, block, line);
        }
        self.take_other(block, line)
    }

    fn take_node(&mut self, book: &Book, block: OpenTree, line: CertLine) -> Result<Turn, Stop>
        requires block { IsBlock self.old.problem block }
        requires node { claim_role line ≡ ForNode }
        ensures step { IsClaimStep self.old.problem (with_block book.now self.old block) line (claim_stand book.now self.new) result }
        ensures block { OnOk result (IsOpen self.new.problem self.new.block) }
        ensures same { self.new ≡ record self.old { block = self.new.block } }
    {
        let branches = is_branch(&line);
        let mut block = self.for_line(block, branches)?;
        if let Some(kind) = block.walk.tree_fault(book, line) {
            return Err(Stop::Rejected(kind));
        }
        block.walk.advance(branches)?;
        self.block = Some(block);
        Ok(Turn::Further)
    }

    /// The tree for a line: where the root branches, it is made anew with the pairs on which it branches.
    fn for_line(&self, block: OpenTree, branches: bool) -> Result<OpenTree, AllocError>
        requires { IsBlock self.now.problem block }
        ensures block { IfOk result (λ new. IsBlock self.now.problem new) }
        ensures same { IfOk result (λ new. block_of new ≡ block_of block) }
        ensures whole { IfOk result (λ new. branches ≡ true → new.walk.tree ≡ subject_tree self.now.problem new.subject) }
    {
        if !branches || !block.walk.path.is_empty() {
            return Ok(block);
        }
        block.over_splits(self.alloc)
    }

    fn take_other(&mut self, block: OpenTree, line: CertLine) -> Result<Turn, Stop>
        requires closed { self.old.block ≡ None }
        requires block { IsBlock self.old.problem block }
        requires other { is_proof line ≡ false }
        requires node { is_node line ≡ false }
        ensures step { (proof : State) → IsClaimStep self.old.problem (with_block proof self.old block) line (claim_stand proof self.new) result }
        ensures block { OnOk result (IsOpen self.new.problem self.new.block) }
        ensures same { self.new ≡ record self.old { claims = self.new.claims } }
    {
        match line {
            CertLine::End(None) => self.take_end(block),
            CertLine::Quit => Ok(Turn::Further),
            _ => Err(block.stray()),
        }
    }

    fn take_end(&mut self, block: OpenTree) -> Result<Turn, Stop>
        requires { self.old.block ≡ None }
        ensures step { (proof : State) → IsClaimStep self.old.problem (with_block proof self.old block) (End None) (claim_stand proof self.new) result }
        ensures same { self.new ≡ record self.old { claims = self.new.claims } }
    {
        if block.walk.expected {
            return Err(Stop::Rejected(RejectKind::MissingBranch));
        }
        let subject = block.into_subject();
        let holds = false;
        self.claims.push(Claim { subject, holds })?;
        Ok(Turn::Further)
    }
}

/// Whether a line is about a node of a tree of claims.
fn is_node(line: &CertLine) -> bool
    ensures { result ≡ is_node line.now }
{
    match line {
        CertLine::Branch { .. } | CertLine::NoPoint { .. } | CertLine::NoRelation { .. } => true,
        _ => false,
    }
}
