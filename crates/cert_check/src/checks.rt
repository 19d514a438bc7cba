//! Certificates of one problem, checked one after the other.

ghost use Rattle.std.specs.Prelude.{◌≡◌, IfOk, OnOk};
ghost use Rattle.cert_reader.specs.Bytes.{IsSpent, MayHold, ForSome};
ghost use Rattle.cert_reader.specs.Reading.{reading};
ghost use Rattle.cert_rules.specs.Laws.{VerdictIsSo};
ghost use Rattle.cert_check.specs.Answers.{verdict_of, IsAnswerOf, SourceGoes};

use crate::accepted::Accepted;
use crate::checking::check_lines;
use crate::derivation::given_book;
use crate::fault::CheckFault;
use cert_reader::{CertReader, CertTextKind};
use cert_rules::accepted_is_so;
use constraint_set::Problem;
use outer_store::Source;
use proof_check::Book;
use std::alloc::{AllocError, Global};
use std::marker::Model;

/// Checks certificates of a problem. The clauses that it gives are made once, and what one certificate derived is forgotten
/// before the next.
#[derive(Drop)]
pub struct Checks<'a> {
    alloc: Global,
    problem: &'a Problem,
    book: Book,
}

impl<'a> Model for Checks<'a> {
    ghost use Rattle.std.specs.Prelude.{◌≡◌};
    ghost use Rattle.world_model.specs.Problem.{Problem};
    ghost use Rattle.point_encode.specs.Model.Clauses.{given_clauses};

    ghost Value = { Problem };

    ghost view = { λ checks. checks.problem.now };

    ghost invariant = { λ checks. checks.book.given ≡ given_clauses checks.problem.now };
}

impl<'a> Checks<'a> {
    /// None yet.
    pub fn new(alloc: Global, problem: &'a Problem) -> Result<Checks<'a>, AllocError>
        ensures { IfOk result (λ checks. checks ≡ problem.now) }
    {
        Ok(Checks {
            alloc,
            problem,
            book: given_book(alloc, problem)?,
        })
    }

    /// Whether a source's certificate is one of the problem: what it says, or the first line that has a fault of the text or
    /// is rejected.
    pub fn check<R: Source>(&mut self, source: &mut R) -> Result<Accepted, CheckFault>
        ensures answer { ForSome (MayHold (R.left source.old)) (λ bytes. IsAnswerOf self.old (reading bytes) result) }
        ensures so { IfOk result (λ said. VerdictIsSo self.old (verdict_of said)) }
        ensures spent { OnOk result (IsSpent (R.left source.new)) }
        ensures source { SourceGoes R.faults R.steady R.quiet result source.old source.new }
        ensures problem { self.new ≡ self.old }
    {
        self.problem.facts();
        accepted_is_so::<CertTextKind>();
        self.book.restart();
        let mut reader = CertReader::new(self.alloc)?;
        check_lines(
            self.alloc,
            self.problem,
            &mut self.book,
            &mut reader,
            source,
        )
    }
}

/// Checks one certificate, as `Checks` does.
pub fn check<R: Source>(
    alloc: Global,
    problem: &Problem,
    source: &mut R,
) -> Result<Accepted, CheckFault>
    ensures answer { ForSome (MayHold (R.left source.old)) (λ bytes. IsAnswerOf problem.now (reading bytes) result) }
    ensures so { IfOk result (λ said. VerdictIsSo problem.now (verdict_of said)) }
    ensures spent { OnOk result (IsSpent (R.left source.new)) }
    ensures source { SourceGoes R.faults R.steady R.quiet result source.old source.new }
{
    let mut checks = Checks::new(alloc, problem)?;
    checks.check(source)
}
