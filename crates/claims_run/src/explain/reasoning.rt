//! The least statements from which a relation follows.
ghost use Rattle.std.specs.Prelude.{◌≡◌, ◌<◌, [], IfOk, IfErr};
ghost use Rattle.world_model.specs.Node.{pair_at};
ghost use Rattle.world_model.specs.Problem.{pair_count};
ghost use Rattle.world_model.specs.Questions.{HasFlags};
ghost use Rattle.run_ends.specs.declared.Status.TheVariants.{Done};
ghost use Rattle.claims_run.specs.Explain.Answering.{named_pair, reason_text, IsPairAnswer};
ghost use Rattle.claims_run.specs.Explain.Steps.{IsReason, IsEndOf};

use crate::explain::naming::{named_pair, turned};
use cert_text::{Flags, NoLog};
use command_line::ExplainArgs;
use conflict_lattice::{ExplainFault, Subset, explain};
use constraint_set::Problem;
use point_query::Asker;
use rcc5_core::RelSet;
use run_ends::Status;
use std::alloc::{AllocError, Global};

// The flags of some articulations.
fn flags_of(alloc: Global, problem: &Problem, kept: &Subset) -> Result<Flags, AllocError>
    requires { HasFlags problem.now kept.now }
    ensures { IfOk result (λ flags. flags ≡ kept.now) }
{
    let count = problem.articulation_count();
    let mut flags = Vec::with_capacity(alloc, count as usize)?;
    for index in 0..count {
        flags.push(kept.has(index))?;
    }
    Ok(Flags::new(flags))
}

// The least statements from which it follows that the relation of a pair is in a set, where it follows.
fn reason(
    alloc: Global,
    problem: &Problem,
    pair: u32,
    set: RelSet,
) -> Result<Option<Flags>, AllocError>
    requires { pair < pair_count problem.now }
    ensures { IfOk result (IsReason problem.now (pair_at problem.now pair) set) }
{
    let mut asker = Asker::new(alloc, problem)?;
    match explain(alloc, problem, &mut asker, pair, set, &mut NoLog::new()) {
        Ok(explanation) => Ok(Some(flags_of(alloc, problem, &explanation.kept)?)),
        Err(ExplainFault::NotEntailed(_family)) => Ok(None),
        Err(_fault) => Err(AllocError),
    }
}

/// The least statements from which it follows that the relation of two concepts is in a set, or how the run ends without them.
pub(crate) fn answer(alloc: Global, problem: &Problem, args: &ExplainArgs) -> Result<Flags, Status>
    ensures told { IfOk result (λ kept. IsPairAnswer problem.now (named_pair problem.now args.now.left args.now.right) args.now.set Done (reason_text problem.now kept) []) }
    ensures flags { IfOk result (HasFlags problem.now) }
    ensures ended { IfErr result (IsEndOf (IsPairAnswer problem.now (named_pair problem.now args.now.left args.now.right) args.now.set)) }
{
    let left = args.left.text().as_bytes();
    let right = args.right.text().as_bytes();
    let pair = match named_pair(problem, left, right) {
        Ok(pair) => pair,
        Err(kind) => return Err(Status::RefusedPair(kind)),
    };
    let (pair, set) = turned(problem, pair, args.set);
    match reason(alloc, problem, pair, set) {
        Ok(Some(kept)) => Ok(kept),
        Ok(None) => Err(Status::NotEntailed),
        Err(AllocError) => Err(Status::NoMemory),
    }
}
