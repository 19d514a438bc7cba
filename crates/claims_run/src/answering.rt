//! Answers, and their claims in a log.
ghost use Rattle.std.specs.Prelude.{◌≡◌, ◌∷◌, [], false, Some, IfOk};
ghost use Rattle.constraint_set.specs.Facts.{IsAsRead};
ghost use Rattle.constraint_set.specs.Shape.{shape_of};
ghost use Rattle.point_query.specs.Asking.{IsNewAsker};
ghost use Rattle.cert_text.specs.declared.line.CertLine.TheVariants.{Claims};
ghost use Rattle.search_log.specs.Logging.{LogGoes};
ghost use Rattle.pick_search.specs.Blocks.Blocks.{KeepsClaims};
ghost use Rattle.claims_run.specs.declared.question.Question.TheVariants as question;
ghost use Rattle.claims_run.specs.Answering.{IsRight, IsClaimed, has_too_many};
ghost use Rattle.claims_run.specs.Certifying.{AreAllTold, IsToldWhole};

use crate::question::{Answer, Question};
use cert_text::{CertLine, Flags, TreeLog};
use conflict_lattice::{LatticeFault, all_conflicts};
use conflict_min::{ConflictFault, least_conflict};
use constraint_set::Problem;
use mir_report::{has_world, mir};
use point_query::Asker;
use search_log::{StepFault, put_one, put_waiting};
use std::alloc::Global;

// Which relations are possible, and whether there is a world.
fn possible<L: TreeLog>(
    alloc: Global,
    problem: &Problem,
    asker: &mut Asker,
    log: &mut L,
) -> Result<Answer, StepFault>
    requires shape { asker.old.shape ≡ shape_of problem.now }
    ensures right { IfOk result (IsRight problem.now question.Relations) }
    ensures keeps { KeepsClaims problem.now result (IsClaimed problem.now) (L.lines log.old) (L.lines log.new) asker.old asker.new }
    ensures log { LogGoes L.drops L.lines L.faults L.steady L.quiet result log.old log.new }
{
    let mir = mir(alloc, problem, asker, log)?;
    let some = has_world(alloc, problem, &mir, asker, log)?;
    Ok(Answer::Possible { mir, some })
}

// The least conflict, if there is one.
fn conflict<L: TreeLog>(
    alloc: Global,
    problem: &Problem,
    asker: &mut Asker,
    log: &mut L,
) -> Result<Answer, StepFault>
    requires shape { asker.old.shape ≡ shape_of problem.now }
    requires as_read { IsAsRead problem.now }
    ensures right { IfOk result (IsRight problem.now question.Conflicts) }
    ensures keeps { KeepsClaims problem.now result (IsClaimed problem.now) (L.lines log.old) (L.lines log.new) asker.old asker.new }
    ensures log { LogGoes L.drops L.lines L.faults L.steady L.quiet result log.old log.new }
{
    match least_conflict(alloc, problem, asker, log) {
        Ok(conflict) => Ok(Answer::Conflict(Flags::new(conflict.kept))),
        Err(ConflictFault::Consistent(_)) => Ok(Answer::Consistent),
        Err(ConflictFault::LogFailed) => Err(StepFault::LogFailed),
        Err(ConflictFault::NoMemory) => Err(StepFault::NoMemory),
    }
}

// All minimal conflicts, and all maximal consistent sets.
fn lattice<L: TreeLog>(
    alloc: Global,
    problem: &Problem,
    asker: &mut Asker,
    log: &mut L,
) -> Result<Answer, StepFault>
    requires shape { asker.old.shape ≡ shape_of problem.now }
    requires few { has_too_many problem.now question.Lattice ≡ false }
    ensures right { IfOk result (IsRight problem.now question.Lattice) }
    ensures keeps { KeepsClaims problem.now result (IsClaimed problem.now) (L.lines log.old) (L.lines log.new) asker.old asker.new }
    ensures log { LogGoes L.drops L.lines L.faults L.steady L.quiet result log.old log.new }
{
    match all_conflicts(alloc, problem, asker, log) {
        Ok(lattice) => Ok(Answer::Lattice(lattice)),
        Err(LatticeFault::TooMany) => unreachable!(),
        Err(LatticeFault::LogFailed) => Err(StepFault::LogFailed),
        Err(LatticeFault::NoMemory) => Err(StepFault::NoMemory),
    }
}

// The answer to a question.
fn answer<L: TreeLog>(
    alloc: Global,
    problem: &Problem,
    asked: Question,
    asker: &mut Asker,
    log: &mut L,
) -> Result<Answer, StepFault>
    requires shape { asker.old.shape ≡ shape_of problem.now }
    requires as_read { IsAsRead problem.now }
    requires few { has_too_many problem.now asked ≡ false }
    ensures right { IfOk result (IsRight problem.now asked) }
    ensures keeps { KeepsClaims problem.now result (IsClaimed problem.now) (L.lines log.old) (L.lines log.new) asker.old asker.new }
    ensures log { LogGoes L.drops L.lines L.faults L.steady L.quiet result log.old log.new }
{
    match asked {
        Question::Relations => possible(alloc, problem, asker, log),
        Question::Conflicts => conflict(alloc, problem, asker, log),
        Question::Lattice => lattice(alloc, problem, asker, log),
    }
}

// The answer to a question, behind the first line of a certificate, which then ends.
fn tell_rest<L: TreeLog>(
    alloc: Global,
    problem: &Problem,
    asked: Question,
    asker: &mut Asker,
    log: &mut L,
) -> Result<Answer, StepFault>
    requires new { IsNewAsker problem.now asker.old }
    requires as_read { IsAsRead problem.now }
    requires few { has_too_many problem.now asked ≡ false }
    ensures right { IfOk result (IsRight problem.now asked) }
    ensures told { IfOk result (λ answer. L.lines log.old ≡ Some (Claims problem.now.switches ∷ []) → AreAllTold problem.now (IsClaimed problem.now answer) (L.lines log.new)) }
    ensures log { LogGoes L.drops L.lines L.faults L.steady L.quiet result log.old log.new }
{
    let answer = answer(alloc, problem, asked, asker, log)?;
    put_waiting(alloc, asker, log)?;
    put_one(log, &CertLine::Done)?;
    Ok(answer)
}

/// The answer to a question. A log is told its claims as a whole certificate.
pub(crate) fn tell<L: TreeLog>(
    alloc: Global,
    problem: &Problem,
    asked: Question,
    log: &mut L,
) -> Result<Answer, StepFault>
    requires as_read { IsAsRead problem.now }
    requires few { has_too_many problem.now asked ≡ false }
    ensures right { IfOk result (IsRight problem.now asked) }
    ensures told { IfOk result (λ answer. IsToldWhole problem.now (IsClaimed problem.now answer) (L.lines log.old) (L.lines log.new)) }
    ensures log { LogGoes L.drops L.lines L.faults L.steady L.quiet result log.old log.new }
    ensures steady { L.steady log.old log.new }
{
    let first = CertLine::Claims {
        switches: problem.switches(),
    };
    put_one(log, &first)?;
    let mut asker = Asker::new(alloc, problem)?;
    tell_rest(alloc, problem, asked, &mut asker, log)
}
