//! A certificate of either kind, line by line.

ghost use Rattle.std.specs.Prelude.{◌≡◌, ◌&&◌, ◌∷◌, not, false, IfOk, OnOk};
ghost use Rattle.world_model.specs.Alive.{same_bool};
ghost use Rattle.cert_rules.specs.Listings.{same_switches, header_fault};
ghost use Rattle.cert_text.specs.declared.line.CertLine.TheVariants.{Certificate, Claims as ClaimsLine};
ghost use Rattle.cert_rules.specs.declared.RejectKind.TheVariants.{WrongHeader};
ghost use Rattle.cert_check.specs.declared.fault.CheckFault.TheVariants.{Rejected};
ghost use Rattle.cert_check.specs.Answers.{verdict_of};
ghost use Rattle.cert_check.specs.Checkers.{is_proof};
ghost use Rattle.cert_check.specs.Whole.{IsReady, IsTaken, Starts, verdict_from};

use crate::accepted::Accepted;
use crate::claims::Claims;
use crate::fault::{CheckFault, Stop};
use crate::listing::{Listing, Turn};
use cert_rules::RejectKind;
use cert_text::CertLine;
use constraint_set::Problem;
use proof_check::Book;
use rcc5_core::Position;
use std::alloc::Global;
use world_model::Switches;

/// The lines of a certificate that were taken so far.
#[derive(Drop)]
pub(crate) enum Checker {
    Listing(Listing),
    Claims(Claims),
}

impl Checker {
    /// By the first line of a certificate, which tells its kind.
    pub(crate) fn new(
        alloc: Global,
        problem: &Problem,
        first: CertLine,
    ) -> Result<Checker, CheckFault>
        ensures exact { Starts problem.now first result }
        ensures ready { IfOk result IsReady }
    {
        match first {
            CertLine::Certificate { switches, from } => {
                Checker::of_listing(alloc, problem, switches, from)
            }
            CertLine::Claims { switches } => Checker::of_claims(alloc, problem, switches),
            _ => Err(wrong_header()),
        }
    }

    fn of_listing(
        alloc: Global,
        problem: &Problem,
        switches: Switches,
        from: Position,
    ) -> Result<Checker, CheckFault>
        ensures exact { Starts problem.now (Certificate switches from) result }
        ensures ready { IfOk result IsReady }
    {
        let fits = from.len() <= problem.pair_count() as usize;
        if !(is_same(problem.switches(), switches) && fits) {
            return Err(wrong_header());
        }
        let listing = Listing::new(alloc, problem, from)?;
        Ok(Checker::Listing(listing))
    }

    fn of_claims(
        alloc: Global,
        problem: &Problem,
        switches: Switches,
    ) -> Result<Checker, CheckFault>
        ensures exact { Starts problem.now (ClaimsLine switches) result }
        ensures ready { IfOk result IsReady }
    {
        if !is_same(problem.switches(), switches) {
            return Err(wrong_header());
        }
        let claims = Claims::new(alloc, problem)?;
        Ok(Checker::Claims(claims))
    }

    /// Takes the next line, which is none of the derivation.
    pub(crate) fn take(&mut self, book: &Book, line: CertLine) -> Result<Turn, Stop>
        requires ready { IsReady self.old }
        requires other { is_proof line ≡ false }
        ensures step { IsTaken book.now self.old line book.now self.new result }
        ensures ready { OnOk result (IsReady self.new) }
    {
        match self {
            Checker::Listing(listing) => listing.take(book, line),
            Checker::Claims(claims) => claims.take(book, line),
        }
    }

    /// What is accepted at the end.
    pub(crate) fn accepted(self, to: Option<Position>) -> Accepted
        ensures { verdict_of result ≡ verdict_from self to }
    {
        match self {
            Checker::Listing(listing) => listing.accepted(to),
            Checker::Claims(claims) => claims.accepted(),
        }
    }
}

/// The refusal of a first line.
pub(crate) fn wrong_header() -> CheckFault
    ensures { result ≡ Rejected 1 WrongHeader }
{
    CheckFault::Rejected {
        line: 1,
        kind: RejectKind::WrongHeader,
    }
}

fn is_same(a: Switches, b: Switches) -> bool
    ensures { result ≡ same_switches a b }
{
    is_same_switch(a.nonempty, b.nonempty)
        && is_same_switch(a.sibling, b.sibling)
        && is_same_switch(a.coverage, b.coverage)
}

fn is_same_switch(a: bool, b: bool) -> bool
    ensures { result ≡ same_bool a b }
{
    (a && b) || !(a || b)
}
