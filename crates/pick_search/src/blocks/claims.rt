//! Whole claims.
ghost use Rattle.std.specs.Prelude.{◌≡◌, ◌<◌, ◌^◌, ◌++◌, true, false, List, [], length, Option, Some, None, IfOk, OnOk};
ghost use Rattle.rcc5_core.specs.declared.Rel.{Rel};
ghost use Rattle.world_model.specs.Problem.{Problem};
ghost use Rattle.constraint_set.specs.Shape.{shape_of};
ghost use Rattle.cert_text.specs.declared.line.CertLine.TheVariants.{Holds};
ghost use Rattle.cert_text.specs.Lines.{IdsFromOne};
ghost use Rattle.cert_rules.specs.Trees.{is_branch};
ghost use Rattle.cert_rules.specs.ClaimLists.{subject_fault, Claim, Block};
ghost use Rattle.cert_rules.specs.ClaimWriting.{ShowsSubject, open_at};
ghost use Rattle.search_log.specs.Leading.{KeepsLeading, derivation_of};
ghost use Rattle.search_log.specs.Logging.{LogGoes, IsSameButLines};
ghost use Rattle.split_search.specs.Choosing.{IsChoice, IsTidy};
ghost use Rattle.pick_search.specs.Blocks.Blocks.{IsProblemOf, claimed, settled, KeepsClaims};
ghost use Rattle.pick_search.specs.Blocks.Steps.{LineLeads, LeadsIf, MayEndAt};

use crate::choose_by_picks;
use cert_text::{CertLine, Subject, TreeLog, copy_subject};
use constraint_set::Problem;
use point_query::Asker;
use search_log::{StepFault, put_one, put_waiting, raw_family};
use set_family::Family;
use split_search::{Choice, choose};
use std::alloc::{AllocError, Global};

// Puts a line behind the lines that wait.
pub(crate) fn put_behind<L: TreeLog>(
    alloc: Global,
    asker: &mut Asker,
    log: &mut L,
    line: &CertLine,
) -> Result<(), StepFault>
    requires ids { IdsFromOne line.now }
    requires no_branch { is_branch line.now ≡ false }
    requires no_derivation { derivation_of line.now ≡ [] }
    ensures same { IsSameButLines asker.old asker.new }
    ensures ready { OnOk result (asker.new.solver.waiting ≡ []) }
    ensures keeps { (p : Problem) (block next : Option Block) (claims more : List Claim) → LineLeads p asker.old.solver.state line.now block claims next more →
        LeadsIf p result (L.lines log.old) (L.lines log.new) asker.old asker.new block claims next more }
    ensures leads { KeepsLeading (L.lines log.old) (L.lines log.new) asker.old asker.new }
    ensures log { LogGoes L.drops L.lines L.faults L.steady L.quiet result log.old log.new }
{
    put_waiting(alloc, asker, log)?;
    put_one(log, line)
}

// The line that claims that a family meets the problem of a subject.
fn holding_line(alloc: Global, subject: &Subject, family: &Family) -> Result<CertLine, AllocError>
    requires { length family.now.sets < 2 ^ 32 }
    ensures { IfOk result (λ line. line ≡ Holds subject.now family.now) }
{
    Ok(CertLine::Holds {
        subject: copy_subject(alloc, subject)?,
        family: raw_family(alloc, family)?,
    })
}

/// Claims that a family meets the problem of a subject. The lines that wait in the asker are put before it.
pub fn show<L: TreeLog>(
    alloc: Global,
    subject: &Subject,
    family: &Family,
    asker: &mut Asker,
    log: &mut L,
) -> Result<(), StepFault>
    requires { length family.now.sets < 2 ^ 32 }
    ensures same { IsSameButLines asker.old asker.new }
    ensures ready { OnOk result (asker.new.solver.waiting ≡ []) }
    ensures keeps { (p : Problem) → ShowsSubject p subject.now family.now →
        KeepsClaims p result (λ _ more. more ≡ claimed subject.now true) (L.lines log.old) (L.lines log.new) asker.old asker.new }
    ensures leads { KeepsLeading (L.lines log.old) (L.lines log.new) asker.old asker.new }
    ensures log { LogGoes L.drops L.lines L.faults L.steady L.quiet result log.old log.new }
{
    if log.is_dropping() {
        asker.clear_lines();
        return Ok(());
    }
    let line = holding_line(alloc, subject, family)?;
    put_behind(alloc, asker, log, &line)
}

// Begins the tree of a subject, which is to show that no family meets its problem.
pub(crate) fn begin_tree<L: TreeLog>(
    alloc: Global,
    subject: &Subject,
    asker: &mut Asker,
    log: &mut L,
) -> Result<(), StepFault>
    ensures same { IsSameButLines asker.old asker.new }
    ensures keeps { (p : Problem) (claims : List Claim) → subject_fault p subject.now ≡ None →
        LeadsIf p result (L.lines log.old) (L.lines log.new) asker.old asker.new None claims (open_at subject.now (Some [])) claims }
    ensures leads { KeepsLeading (L.lines log.old) (L.lines log.new) asker.old asker.new }
    ensures log { LogGoes L.drops L.lines L.faults L.steady L.quiet result log.old log.new }
{
    let line = CertLine::Fails {
        subject: copy_subject(alloc, subject)?,
    };
    put_behind(alloc, asker, log, &line)
}

// Leaves the tree of a subject, and claims that a family meets its problem.
fn leave_tree<L: TreeLog>(
    alloc: Global,
    subject: &Subject,
    family: &Family,
    asker: &mut Asker,
    log: &mut L,
) -> Result<(), StepFault>
    requires { length family.now.sets < 2 ^ 32 }
    ensures same { IsSameButLines asker.old asker.new }
    ensures ready { OnOk result (asker.new.solver.waiting ≡ []) }
    ensures keeps { (p : Problem) (at : Option (List Rel)) (claims : List Claim) → ShowsSubject p subject.now family.now →
        LeadsIf p result (L.lines log.old) (L.lines log.new) asker.old asker.new (open_at subject.now at) claims None (claims ++ claimed subject.now true) }
    ensures leads { KeepsLeading (L.lines log.old) (L.lines log.new) asker.old asker.new }
    ensures log { LogGoes L.drops L.lines L.faults L.steady L.quiet result log.old log.new }
{
    put_behind(alloc, asker, log, &CertLine::Quit)?;
    show(alloc, subject, family, asker, log)
}

// Ends the tree of a subject with what was found: it is whole, or it is left.
fn end_tree<L: TreeLog>(
    alloc: Global,
    subject: &Subject,
    problem: &Problem,
    choice: &Choice,
    asker: &mut Asker,
    log: &mut L,
) -> Result<(), StepFault>
    requires { IsChoice problem.now choice.now }
    ensures same { IsSameButLines asker.old asker.new }
    ensures ready { OnOk result (asker.new.solver.waiting ≡ []) }
    ensures keeps { (p : Problem) (at : Option (List Rel)) (claims : List Claim) → IsProblemOf p subject.now problem.now → MayEndAt choice.now at →
        LeadsIf p result (L.lines log.old) (L.lines log.new) asker.old asker.new (open_at subject.now at) claims None (claims ++ settled subject.now choice.now) }
    ensures leads { KeepsLeading (L.lines log.old) (L.lines log.new) asker.old asker.new }
    ensures log { LogGoes L.drops L.lines L.faults L.steady L.quiet result log.old log.new }
{
    problem.facts();
    match choice {
        Choice::Met(family) => leave_tree(alloc, subject, family, asker, log),
        Choice::Refuted => put_behind(alloc, asker, log, &CertLine::End(None)),
    }
}

/// Whether a family meets the problem of a subject, and the claim that says so.
///
/// The tree of the subject is put while it is searched: where it turns out that a family meets the problem, it is left, and claims nothing.
/// Where nobody reads the log no tree is walked.
pub fn settle<L: TreeLog>(
    alloc: Global,
    subject: &Subject,
    problem: &Problem,
    asker: &mut Asker,
    log: &mut L,
) -> Result<Choice, StepFault>
    requires shape { asker.old.shape ≡ shape_of problem.now }
    ensures shape { asker.new.shape ≡ asker.old.shape }
    ensures answer { IfOk result (IsChoice problem.now) }
    ensures ready { OnOk result (IsTidy asker.new) }
    ensures keeps { (p : Problem) → IsProblemOf p subject.now problem.now →
        KeepsClaims p result (λ choice more. more ≡ settled subject.now choice) (L.lines log.old) (L.lines log.new) asker.old asker.new }
    ensures leads { KeepsLeading (L.lines log.old) (L.lines log.new) asker.old asker.new }
    ensures log { LogGoes L.drops L.lines L.faults L.steady L.quiet result log.old log.new }
{
    if log.is_dropping() {
        return Ok(choose_by_picks(alloc, problem, asker)?);
    }
    begin_tree(alloc, subject, asker, log)?;
    let choice = choose(alloc, problem, asker, log)?;
    end_tree(alloc, subject, problem, &choice, asker, log)?;
    Ok(choice)
}
