//! The least conflict, and what shows that it is one.
ghost use Rattle.std.specs.Prelude.{◌≡◌, IfOk};
ghost use Rattle.constraint_set.specs.Shape.{shape_of};
ghost use Rattle.search_log.specs.Leading.{KeepsLeading};
ghost use Rattle.search_log.specs.Logging.{LogGoes};
ghost use Rattle.pick_search.specs.Blocks.Blocks.{KeepsClaims};
ghost use Rattle.conflict_min.specs.Conflicts.{IsFound, IsClaimedOf, as_step};

use crate::shrink::find;
use cert_text::TreeLog;
use constraint_set::Problem;
use point_query::Asker;
use search_log::StepFault;
use set_family::Family;
use std::alloc::Global;

/// Articulations that are in conflict.
#[derive(Drop)]
pub struct Conflict {
    /// A flag for each articulation of the problem, in input order: whether it is one of them.
    pub kept: Vec<bool>,
    /// A family for each of them, in order, that meets the problem with just the others of them.
    pub families: Vec<Family>,
}

/// Why there is no conflict.
#[derive(Drop)]
pub enum ConflictFault {
    /// This family meets the problem with all its articulations.
    Consistent(Family),
    LogFailed,
    NoMemory,
}

/// What is found of all articulations.
#[derive(Drop)]
pub(crate) enum Outcome {
    /// They hold together.
    Consistent(Family),
    /// They don't.
    Least(Conflict),
}

/// The inconsistent subset of the articulations whose list of flags, in input order, is the least.
///
/// The articulations are gone through in input order, and each is dropped without which those left are still in conflict. Whether
/// the problem keeps all of them itself doesn't matter. A log is told the claims of the answer, with one more for each set that was
/// tried where no solver over points could tell, and no tree is left open.
pub fn least_conflict<L: TreeLog>(
    alloc: Global,
    problem: &Problem,
    asker: &mut Asker,
    log: &mut L,
) -> Result<Conflict, ConflictFault>
    requires shape { asker.old.shape ≡ shape_of problem.now }
    ensures shape { asker.new.shape ≡ asker.old.shape }
    ensures answer { IfOk (as_step result) (IsFound problem.now) }
    ensures keeps { KeepsClaims problem.now (as_step result) (IsClaimedOf problem.now) (L.lines log.old) (L.lines log.new) asker.old asker.new }
    ensures leads { KeepsLeading (L.lines log.old) (L.lines log.new) asker.old asker.new }
    ensures log { LogGoes L.drops L.lines L.faults L.steady L.quiet (as_step result) log.old log.new }
{
    match find(alloc, problem, asker, log) {
        Ok(Outcome::Least(conflict)) => Ok(conflict),
        Ok(Outcome::Consistent(family)) => Err(ConflictFault::Consistent(family)),
        Err(StepFault::LogFailed) => Err(ConflictFault::LogFailed),
        Err(StepFault::NoMemory) => Err(ConflictFault::NoMemory),
    }
}
