//! Why a relation of a pair follows.
ghost use Rattle.pick_search.specs.Blocks.Blocks.{KeepsClaims};
ghost use Rattle.conflict_lattice.specs.Explaining.{IsExplained, as_step};
ghost use Rattle.constraint_set.specs.Shape.{shape_of};
ghost use Rattle.search_log.specs.Leading.{KeepsLeading};
ghost use Rattle.search_log.specs.Logging.{LogGoes};
ghost use Rattle.rcc5_core.specs.RelationSet.{has, rels_that};
ghost use Rattle.std.specs.Prelude.{IfOk, [], not, ◌<◌, ◌≡◌};
ghost use Rattle.world_model.specs.Node.{pair_at};
ghost use Rattle.world_model.specs.Problem.{pair_count};

use crate::subset::Subset;
use cert_text::{NoLog, TreeLog};
use conflict_min::{ConflictFault, least_conflict};
use constraint_set::Problem;
use point_query::Asker;
use rcc5_core::RelSet;
use search_log::StepFault;
use set_family::Family;
use std::alloc::{AllocError, Global};

/// Articulations from which it follows that the relation of a pair is in a set.
#[derive(Drop)]
pub struct Explanation {
    /// Which articulations these are.
    pub kept: Subset,
    /// A family for each of them, in order: it meets the problem with just the others of them, and has another relation.
    pub families: Vec<Family>,
}

/// Why there is no explanation.
#[derive(Drop)]
pub enum ExplainFault {
    /// This family meets the problem with all its articulations, and has another relation.
    NotEntailed(Family),
    LogFailed,
    NoMemory,
}

/// What is found.
#[derive(Drop)]
pub(crate) enum Explained {
    Least(Explanation),
    Not(Family),
}

// The relations that a set hasn't.
fn others(set: RelSet) -> RelSet
    ensures { result ≡ rels_that (λ rel. not (has set rel)) }
{
    RelSet {
        equals: !set.equals,
        includes: !set.includes,
        included_in: !set.included_in,
        overlaps: !set.overlaps,
        disjoint: !set.disjoint,
    }
}

// The least explanation, if it follows, by an asker whose lines nobody reads.
fn find_with(
    alloc: Global,
    problem: &Problem,
    asker: &mut Asker,
    pair: u32,
    set: RelSet,
) -> Result<Explained, AllocError>
    requires shape { asker.old.shape ≡ shape_of problem.now }
    requires within { pair < pair_count problem.now }
    ensures shape { asker.new.shape ≡ asker.old.shape }
    ensures answer { IfOk result (IsExplained problem.now (pair_at problem.now pair) set) }
{
    let narrowed = problem.narrowed(alloc, pair, others(set))?;
    match least_conflict(alloc, &narrowed, asker, &mut NoLog::new()) {
        Ok(conflict) => Ok(Explained::Least(Explanation {
            kept: Subset::new(conflict.kept),
            families: conflict.families,
        })),
        Err(ConflictFault::Consistent(family)) => Ok(Explained::Not(family)),
        Err(_fault) => Err(AllocError),
    }
}

// The least explanation, if it follows. Where somebody reads the log, the given asker is left as it is.
fn find<L: TreeLog>(
    alloc: Global,
    problem: &Problem,
    asker: &mut Asker,
    pair: u32,
    set: RelSet,
    log: &mut L,
) -> Result<Explained, StepFault>
    requires shape { asker.old.shape ≡ shape_of problem.now }
    requires within { pair < pair_count problem.now }
    ensures shape { asker.new.shape ≡ asker.old.shape }
    ensures answer { IfOk result (IsExplained problem.now (pair_at problem.now pair) set) }
    ensures keeps { KeepsClaims problem.now result (λ _ more. more ≡ []) (L.lines log.old) (L.lines log.new) asker.old asker.new }
    ensures leads { KeepsLeading (L.lines log.old) (L.lines log.new) asker.old asker.new }
    ensures log { LogGoes L.drops L.lines L.faults L.steady L.quiet result log.old log.new }
{
    if log.is_dropping() {
        return Ok(find_with(alloc, problem, asker, pair, set)?);
    }
    let mut own = Asker::new(alloc, problem)?;
    Ok(find_with(alloc, problem, &mut own, pair, set)?)
}

/// The articulations from which it follows that the relation of a pair is in a set, whose list of flags is the least.
///
/// They are the least conflict of the problem in which the pair is narrowed to the other relations. Where no articulations can be met
/// at all, every set follows. Nothing is put in the log.
pub fn explain<L: TreeLog>(
    alloc: Global,
    problem: &Problem,
    asker: &mut Asker,
    pair: u32,
    set: RelSet,
    log: &mut L,
) -> Result<Explanation, ExplainFault>
    requires shape { asker.old.shape ≡ shape_of problem.now }
    requires within { pair < pair_count problem.now }
    ensures shape { asker.new.shape ≡ asker.old.shape }
    ensures answer { IfOk (as_step result) (IsExplained problem.now (pair_at problem.now pair) set) }
    ensures keeps { KeepsClaims problem.now (as_step result) (λ _ more. more ≡ []) (L.lines log.old) (L.lines log.new) asker.old asker.new }
    ensures leads { KeepsLeading (L.lines log.old) (L.lines log.new) asker.old asker.new }
    ensures log { LogGoes L.drops L.lines L.faults L.steady L.quiet (as_step result) log.old log.new }
{
    match find(alloc, problem, asker, pair, set, log) {
        Ok(Explained::Least(explanation)) => Ok(explanation),
        Ok(Explained::Not(family)) => Err(ExplainFault::NotEntailed(family)),
        Err(StepFault::LogFailed) => Err(ExplainFault::LogFailed),
        Err(StepFault::NoMemory) => Err(ExplainFault::NoMemory),
    }
}
