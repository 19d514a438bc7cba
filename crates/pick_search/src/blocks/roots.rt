//! A claim whose tree is its root.
ghost use Rattle.std.specs.Prelude.{◌≡◌, ◌≤◌, false, [], List, Some, None, OnOk};
ghost use Rattle.world_model.specs.Problem.{Problem};
ghost use Rattle.cert_rules.specs.ClaimLists.{Claim};
ghost use Rattle.cert_rules.specs.ClaimWriting.{open_at};
ghost use Rattle.search_log.specs.Leading.{KeepsLeading};
ghost use Rattle.search_log.specs.Logging.{LogGoes, IsSameButLines};
ghost use Rattle.pick_search.specs.Blocks.Blocks.{IsClosedSubject, claimed, KeepsClaims};
ghost use Rattle.pick_search.specs.Blocks.Steps.{LeadsIf};

use crate::blocks::claims::{begin_tree, put_behind};
use cert_text::{CertLine, Subject, TreeLog};
use point_query::Asker;
use search_log::StepFault;
use std::alloc::Global;

// Puts the root of the tree of a subject as a dead node.
fn put_root<L: TreeLog>(
    alloc: Global,
    subject: &Subject,
    need: u64,
    clause: u64,
    asker: &mut Asker,
    log: &mut L,
) -> Result<(), StepFault>
    requires { 1 ≤ clause }
    ensures same { IsSameButLines asker.old asker.new }
    ensures keeps { (p : Problem) (claims : List Claim) → IsClosedSubject p subject.now asker.old.solver.state need clause →
        LeadsIf p result (L.lines log.old) (L.lines log.new) asker.old asker.new (open_at subject.now (Some [])) claims (open_at subject.now None) claims }
    ensures leads { KeepsLeading (L.lines log.old) (L.lines log.new) asker.old asker.new }
    ensures log { LogGoes L.drops L.lines L.faults L.steady L.quiet result log.old log.new }
{
    let _subject = subject;
    let line = CertLine::NoPoint {
        depth: 0,
        last: None,
        need,
        clause,
    };
    put_behind(alloc, asker, log, &line)
}

/// Claims that no family meets the problem of a subject, since a need of it, by its number, has no point by the live clause with an
/// id. The lines that wait in the asker are put before it.
pub fn refute<L: TreeLog>(
    alloc: Global,
    subject: &Subject,
    need: u64,
    clause: u64,
    asker: &mut Asker,
    log: &mut L,
) -> Result<(), StepFault>
    requires { 1 ≤ clause }
    ensures same { IsSameButLines asker.old asker.new }
    ensures ready { OnOk result (asker.new.solver.waiting ≡ []) }
    ensures keeps { (p : Problem) → IsClosedSubject p subject.now asker.old.solver.state need clause →
        KeepsClaims p result (λ _ more. more ≡ claimed subject.now false) (L.lines log.old) (L.lines log.new) asker.old asker.new }
    ensures leads { KeepsLeading (L.lines log.old) (L.lines log.new) asker.old asker.new }
    ensures log { LogGoes L.drops L.lines L.faults L.steady L.quiet result log.old log.new }
{
    begin_tree(alloc, subject, asker, log)?;
    put_root(alloc, subject, need, clause, asker, log)?;
    put_behind(alloc, asker, log, &CertLine::End(None))
}
