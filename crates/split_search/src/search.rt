//! The search for a family.
ghost use Rattle.std.specs.Prelude.{◌≡◌, List, IfOk, OnOk};
ghost use Rattle.world_model.specs.Problem.{Problem};
ghost use Rattle.constraint_set.specs.Shape.{shape_of};
ghost use Rattle.cert_text.specs.declared.line.Subject.{Subject};
ghost use Rattle.cert_rules.specs.ClaimLists.{subject_problem, Claim};
ghost use Rattle.search_log.specs.Leading.{KeepsLeading};
ghost use Rattle.search_log.specs.Logging.{LogGoes};
ghost use Rattle.split_search.specs.Choosing.{IsChoice, IsTidy};
ghost use Rattle.split_search.specs.Claiming.{KeepsWithin};

use crate::choice::Choice;
use crate::visit::{VisitEnd, take_turn};
use crate::walk::NodePath;
use cert_text::TreeLog;
use constraint_set::Problem;
use point_query::Asker;
use search_log::{StepFault, put_waiting, tidy, tidy_by_turns};
use std::alloc::Global;

// Goes from node to node up to a family, or until no node is left.
fn search<L: TreeLog>(
    alloc: Global,
    problem: &Problem,
    asker: &mut Asker,
    log: &mut L,
) -> Result<Choice, StepFault>
    requires shape { asker.old.shape ≡ shape_of problem.now }
    ensures shape { asker.new.shape ≡ asker.old.shape }
    ensures answer { IfOk result (IsChoice problem.now) }
    ensures keeps { (p : Problem) (subject : Subject) (claims : List Claim) → subject_problem p subject ≡ problem.now →
        KeepsWithin p subject claims result (L.lines log.old) (L.lines log.new) asker.old asker.new }
    ensures leads { KeepsLeading (L.lines log.old) (L.lines log.new) asker.old asker.new }
    ensures log { LogGoes L.drops L.lines L.faults L.steady L.quiet result log.old log.new }
{
    problem.facts();
    let mut walk = NodePath::new(alloc, problem)?;
    let mut turns = 0;
    'nodes: loop {
        turns = tidy_by_turns(asker, turns)?;
        match take_turn(alloc, &mut walk, asker, log)? {
            VisitEnd::Met(family) => return Ok(Choice::Met(family)),
            VisitEnd::Done => return Ok(Choice::Refuted),
            VisitEnd::On => {}
        }
    }
}

/// A family that meets the problem, where one does.
///
/// The log is told the tree of the problem over its split pairs, as far as it is walked: the whole tree where none does.
pub fn choose<L: TreeLog>(
    alloc: Global,
    problem: &Problem,
    asker: &mut Asker,
    log: &mut L,
) -> Result<Choice, StepFault>
    requires shape { asker.old.shape ≡ shape_of problem.now }
    ensures shape { asker.new.shape ≡ asker.old.shape }
    ensures answer { IfOk result (IsChoice problem.now) }
    ensures ready { OnOk result (IsTidy asker.new) }
    ensures keeps { (p : Problem) (subject : Subject) (claims : List Claim) → subject_problem p subject ≡ problem.now →
        KeepsWithin p subject claims result (L.lines log.old) (L.lines log.new) asker.old asker.new }
    ensures leads { KeepsLeading (L.lines log.old) (L.lines log.new) asker.old asker.new }
    ensures log { LogGoes L.drops L.lines L.faults L.steady L.quiet result log.old log.new }
{
    let choice = search(alloc, problem, asker, log)?;
    tidy(asker)?;
    put_waiting(alloc, asker, log)?;
    Ok(choice)
}
