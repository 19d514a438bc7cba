//! The derivation of a certificate, of either kind.

ghost use Rattle.std.specs.Prelude.{◌≡◌, IfOk};
ghost use Rattle.lits_core.specs.Derivation.{first_state};
ghost use Rattle.point_encode.specs.Model.Clauses.{given_clauses};
ghost use Rattle.cert_text.specs.declared.line.CertLine.TheVariants.{Proof};
ghost use Rattle.cert_check.specs.declared.checker.Checker.{Checker};
ghost use Rattle.cert_check.specs.Whole.{IsTaken};

use crate::fault::{Stop, stop_at};
use crate::listing::Turn;
use constraint_set::Problem;
use lits_core::Line;
use point_encode::given_clauses;
use proof_check::Book;
use std::alloc::{AllocError, Global};

/// A derivation without a line, over the clauses that a problem gives.
pub(crate) fn given_book(alloc: Global, problem: &Problem) -> Result<Book, AllocError>
    ensures { IfOk result (λ book. book ≡ first_state (given_clauses problem.now)) }
{
    Book::new(alloc, given_clauses(alloc, problem)?)
}

/// Takes a line of the derivation, wherever the certificate stands.
pub(crate) fn take_proof(book: &mut Book, line: &Line) -> Result<Turn, Stop>
    ensures taken { (checker : Checker) → IsTaken book.old checker (Proof line.now) book.new checker result }
    ensures given { book.new.given ≡ book.old.given }
{
    match book.add_line(line) {
        Ok(()) => Ok(Turn::Further),
        Err(fault) => Err(stop_at(fault)),
    }
}
