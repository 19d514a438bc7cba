//! All minimal conflicts, and all maximal consistent sets.
ghost use Rattle.pick_search.specs.Blocks.Blocks.{KeepsClaims};
ghost use Rattle.conflict_lattice.specs.Lattice.{IsClaimedOf, IsFound, as_step};
ghost use Rattle.constraint_set.specs.Shape.{shape_of};
ghost use Rattle.search_log.specs.Leading.{KeepsLeading};
ghost use Rattle.search_log.specs.Logging.{LogGoes};
ghost use Rattle.std.specs.Prelude.{IfOk, ◌≡◌};

use crate::claims::claim_all;
use crate::decide::new_judge;
use crate::rounds::all_rounds;
use crate::subset::Lattice;
use cert_text::TreeLog;
use constraint_set::Problem;
use point_query::Asker;
use search_log::StepFault;
use std::alloc::Global;

/// With more articulations than these nothing is searched.
pub const MOST_ARTICULATIONS: u32 = 128;

/// Why there is no lattice.
#[derive(Drop)]
pub enum LatticeFault {
    /// There are more than 128 articulations.
    TooMany,
    LogFailed,
    NoMemory,
}

/// What is found.
#[derive(Drop)]
pub(crate) enum Outcome {
    Lists(Lattice),
    /// There are more than 128 articulations.
    Many,
}

// All of both, where these are asked for, and the claims of them.
fn find<L: TreeLog>(
    alloc: Global,
    problem: &Problem,
    asker: &mut Asker,
    log: &mut L,
) -> Result<Outcome, StepFault>
    requires shape { asker.old.shape ≡ shape_of problem.now }
    ensures shape { asker.new.shape ≡ asker.old.shape }
    ensures answer { IfOk result (IsFound problem.now) }
    ensures keeps { KeepsClaims problem.now result IsClaimedOf (L.lines log.old) (L.lines log.new) asker.old asker.new }
    ensures leads { KeepsLeading (L.lines log.old) (L.lines log.new) asker.old asker.new }
    ensures log { LogGoes L.drops L.lines L.faults L.steady L.quiet result log.old log.new }
{
    if problem.articulation_count() > MOST_ARTICULATIONS {
        return Ok(Outcome::Many);
    }
    let mut judge = new_judge(alloc, problem)?;
    if log.is_dropping() {
        let lattice = all_rounds(alloc, problem, &mut judge, asker)?;
        return Ok(Outcome::Lists(lattice));
    }
    let mut own = Asker::new(alloc, problem)?;
    let lattice = all_rounds(alloc, problem, &mut judge, &mut own)?;
    claim_all(alloc, problem, &lattice, &mut judge, &mut own, asker, log)?;
    Ok(Outcome::Lists(lattice))
}

/// All sets of articulations that are in conflict, though not without any one of them; and all that hold together, though not with any
/// one more. Both lists are ascending, and have each once.
///
/// Which articulations the problem keeps itself doesn't matter. A log is told that each conflict doesn't hold and that each consistent
/// set does, in order; that the lists have all is not claimed.
pub fn all_conflicts<L: TreeLog>(
    alloc: Global,
    problem: &Problem,
    asker: &mut Asker,
    log: &mut L,
) -> Result<Lattice, LatticeFault>
    requires shape { asker.old.shape ≡ shape_of problem.now }
    ensures shape { asker.new.shape ≡ asker.old.shape }
    ensures answer { IfOk (as_step result) (IsFound problem.now) }
    ensures keeps { KeepsClaims problem.now (as_step result) IsClaimedOf (L.lines log.old) (L.lines log.new) asker.old asker.new }
    ensures leads { KeepsLeading (L.lines log.old) (L.lines log.new) asker.old asker.new }
    ensures log { LogGoes L.drops L.lines L.faults L.steady L.quiet (as_step result) log.old log.new }
{
    match find(alloc, problem, asker, log) {
        Ok(Outcome::Lists(lattice)) => Ok(lattice),
        Ok(Outcome::Many) => Err(LatticeFault::TooMany),
        Err(StepFault::LogFailed) => Err(LatticeFault::LogFailed),
        Err(StepFault::NoMemory) => Err(LatticeFault::NoMemory),
    }
}
