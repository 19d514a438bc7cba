//! A certificate, checked from its first line to the end of its text.

ghost use Rattle.std.specs.Prelude.{◌≡◌, ◌≤◌, ◌+◌, ◌^◌, ◌<◌, None, Err, IfOk, OnOk, IfNone};
ghost use Rattle.lits_core.specs.Derivation.{first_state};
ghost use Rattle.point_encode.specs.Model.Clauses.{given_clauses};
ghost use Rattle.cert_reader.specs.Bytes.{IsSpent, ForSome, GoesOn};
ghost use Rattle.cert_reader.specs.Reading.{Reading, with_first};
ghost use Rattle.cert_reader.specs.Reader.{MayRead};
ghost use Rattle.cert_check.specs.Answers.{IsAnswerOf, IsNextLine, SourceGoes, Tells};
ghost use Rattle.cert_check.specs.Whole.{IsReady, IsTaken, TellsFrom, AreFew, IsTurn, IsEnd, verdict_from, ended_answer, fault_at};
ghost use Rattle.cert_check.specs.declared.fault.CheckFault.TheVariants.{Text, ReadFault};
ghost use Rattle.cert_reader.specs.declared.fault.CertTextKind.TheVariants.{TooLong};

use crate::accepted::Accepted;
use crate::checker::{Checker, wrong_header};
use crate::derivation::take_proof;
use crate::fault::{CheckFault, Stop};
use crate::listing::Turn;
use cert_reader::{CertReader, CertTextFault, CertTextKind};
use cert_rules::RejectKind;
use cert_text::CertLine;
use constraint_set::Problem;
use outer_store::Source;
use proof_check::Book;
use rcc5_core::Position;
use std::alloc::Global;

/// A certificate has no more bytes than these, and so no more lines.
const LIMIT: u64 = 1 << 36;

/// What the lines of a certificate come to. Nothing is derived yet.
pub(crate) fn check_lines<R: Source>(
    alloc: Global,
    problem: &Problem,
    book: &mut Book,
    reader: &mut CertReader,
    source: &mut R,
) -> Result<Accepted, CheckFault>
    requires start { book.old ≡ first_state (given_clauses problem.now) }
    requires fresh { reader.old.refusal ≡ None }
    requires few { AreFew 0 (MayRead reader.old (R.left source.old)) }
    ensures answer { ForSome (MayRead reader.old (R.left source.old)) (λ read. IsAnswerOf problem.now read result) }
    ensures spent { OnOk result (IsSpent (R.left source.new)) }
    ensures given { book.new.given ≡ book.old.given }
    ensures source { SourceGoes R.faults R.steady R.quiet result source.old source.new }
{
    match next_line(reader, source) {
        Ok(Some(first)) => check_behind(alloc, problem, first, book, reader, source),
        Ok(None) => Err(wrong_header()),
        Err(fault) => Err(fault),
    }
}

/// Takes the first line, and those behind it.
fn check_behind<R: Source>(
    alloc: Global,
    problem: &Problem,
    first: CertLine,
    book: &mut Book,
    reader: &mut CertReader,
    source: &mut R,
) -> Result<Accepted, CheckFault>
    requires start { book.old ≡ first_state (given_clauses problem.now) }
    requires fresh { reader.old.refusal ≡ None }
    requires few { AreFew 1 (MayRead reader.old (R.left source.old)) }
    ensures answer { ForSome (MayRead reader.old (R.left source.old)) (λ read. IsAnswerOf problem.now (with_first first read) result) }
    ensures spent { OnOk result (IsSpent (R.left source.new)) }
    ensures given { book.new.given ≡ book.old.given }
    ensures source { SourceGoes R.faults R.steady R.quiet result source.old source.new }
{
    match Checker::new(alloc, problem, first) {
        Ok(checker) => check_rest(checker, book, reader, source),
        Err(fault) => Err(fault),
    }
}

/// Takes the lines behind the first.
fn check_rest<R: Source>(
    checker: Checker,
    book: &mut Book,
    reader: &mut CertReader,
    source: &mut R,
) -> Result<Accepted, CheckFault>
    requires ready { IsReady checker }
    requires fresh { reader.old.refusal ≡ None }
    requires few { AreFew 1 (MayRead reader.old (R.left source.old)) }
    ensures answer { TellsFrom book.old checker 1 (MayRead reader.old (R.left source.old)) result }
    ensures spent { OnOk result (IsSpent (R.left source.new)) }
    ensures given { book.new.given ≡ book.old.given }
    ensures source { SourceGoes R.faults R.steady R.quiet result source.old source.new }
{
    let mut checker = checker;
    for read in 1..LIMIT + 1 {
        match take_next(&mut checker, book, read, reader, source) {
            Ok(Turn::Further) => {}
            Ok(Turn::Ended(to)) => return finish(checker, to, reader, source),
            Err(fault) => return Err(fault),
        }
    }
    Err(too_long())
}

/// Reads a line, where so many were read, and takes it.
fn take_next<R: Source>(
    checker: &mut Checker,
    book: &mut Book,
    read: u64,
    reader: &mut CertReader,
    source: &mut R,
) -> Result<Turn, CheckFault>
    requires ready { IsReady checker.old }
    requires read { read ≤ 2 ^ 36 }
    requires fresh { reader.old.refusal ≡ None }
    ensures turn { GoesOn (MayRead reader.old (R.left source.old)) (MayRead reader.new (R.left source.new)) (λ told left. IsTurn book.old checker.old read told book.new checker.new left result) }
    ensures ready { OnOk result (IsReady checker.new) }
    ensures fresh { OnOk result (reader.new.refusal ≡ None) }
    ensures few { OnOk result (AreFew read (MayRead reader.old (R.left source.old)) → AreFew (read + 1) (MayRead reader.new (R.left source.new))) }
    ensures given { book.new.given ≡ book.old.given }
    ensures source { SourceGoes R.faults R.steady R.quiet result source.old source.new }
{
    match next_line(reader, source) {
        Ok(Some(line)) => take(checker, book, read, line),
        Ok(None) => Err(CheckFault::Rejected {
            line: read,
            kind: RejectKind::MissingBranch,
        }),
        Err(fault) => Err(fault),
    }
}

/// Takes a line, where so many were taken.
fn take(
    checker: &mut Checker,
    book: &mut Book,
    read: u64,
    line: CertLine,
) -> Result<Turn, CheckFault>
    requires ready { IsReady checker.old }
    requires read { read ≤ 2 ^ 36 }
    ensures turn { (left : Reading) → IsTurn book.old checker.old read (with_first line left) book.new checker.new left result }
    ensures ready { OnOk result (IsReady checker.new) }
    ensures given { book.new.given ≡ book.old.given }
    ensures unread { result ≡ Err ReadFault → ⊥ }
{
    match take_by_kind(checker, book, line) {
        Ok(turn) => Ok(turn),
        Err(stop) => Err(fault_at(read + 1, stop)),
    }
}

/// Takes a line, by whether it is one of the derivation.
fn take_by_kind(checker: &mut Checker, book: &mut Book, line: CertLine) -> Result<Turn, Stop>
    requires { IsReady checker.old }
    ensures step { IsTaken book.old checker.old line book.new checker.new result }
    ensures ready { OnOk result (IsReady checker.new) }
    ensures given { book.new.given ≡ book.old.given }
{
    match line {
        CertLine::Proof(line) => take_proof(book, &line),
        line => checker.take(book, line),
    }
}

/// Reads to the end of the text, behind the last line.
fn finish<R: Source>(
    checker: Checker,
    to: Option<Position>,
    reader: &mut CertReader,
    source: &mut R,
) -> Result<Accepted, CheckFault>
    requires fresh { reader.old.refusal ≡ None }
    requires few { AreFew 1 (MayRead reader.old (R.left source.old)) }
    ensures answer { ForSome (MayRead reader.old (R.left source.old)) (λ read. Tells (ended_answer (verdict_from checker to) read.ends) result) }
    ensures spent { OnOk result (IsSpent (R.left source.new)) }
    ensures source { SourceGoes R.faults R.steady R.quiet result source.old source.new }
{
    match end_reading(reader, source) {
        Ok(()) => Ok(checker.accepted(to)),
        Err(fault) => Err(fault),
    }
}

fn end_reading<R: Source>(reader: &mut CertReader, source: &mut R) -> Result<(), CheckFault>
    requires fresh { reader.old.refusal ≡ None }
    requires few { AreFew 1 (MayRead reader.old (R.left source.old)) }
    ensures answer { ForSome (MayRead reader.old (R.left source.old)) (λ read. IsEnd read result) }
    ensures spent { OnOk result (IsSpent (R.left source.new)) }
    ensures source { SourceGoes R.faults R.steady R.quiet result source.old source.new }
{
    for _read in 1..LIMIT + 1 {
        match next_line(reader, source) {
            Ok(Some(_)) => {}
            Ok(None) => return Ok(()),
            Err(fault) => return Err(fault),
        }
    }
    Err(too_long())
}

/// The next line, if there is one.
fn next_line<R: Source>(
    reader: &mut CertReader,
    source: &mut R,
) -> Result<Option<CertLine>, CheckFault>
    requires { reader.old.refusal ≡ None }
    ensures answer { GoesOn (MayRead reader.old (R.left source.old)) (MayRead reader.new (R.left source.new)) (IsNextLine result) }
    ensures fresh { OnOk result (reader.new.refusal ≡ None) }
    ensures spent { IfOk result (λ line. IfNone line (IsSpent (R.left source.new))) }
    ensures source { SourceGoes R.faults R.steady R.quiet result source.old source.new }
{
    match reader.next(source) {
        Ok(Some(line)) => Ok(Some(line)),
        Ok(None) => Ok(None),
        Err(CertTextFault::Text { line, kind }) => Err(CheckFault::Text { line, kind }),
        Err(CertTextFault::ReadFault) => Err(CheckFault::ReadFault),
        Err(CertTextFault::NoMemory) => Err(CheckFault::NoMemory),
    }
}

fn fault_at(line: u64, stop: Stop) -> CheckFault
    ensures { result ≡ fault_at line stop }
{
    match stop {
        Stop::Rejected(kind) => CheckFault::Rejected { line, kind },
        Stop::NoMemory => CheckFault::NoMemory,
    }
}

/// The fault of a text with more lines than a certificate may have bytes.
fn too_long() -> CheckFault
    ensures { result ≡ Text (2 ^ 36 + 1) TooLong }
{
    CheckFault::Text {
        line: LIMIT + 1,
        kind: CertTextKind::TooLong,
    }
}
