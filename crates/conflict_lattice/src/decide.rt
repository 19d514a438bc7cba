//! Whether some of the articulations hold together.
ghost use Rattle.conflict_lattice.specs.Rounds.{IsJudge, IsJudged};
ghost use Rattle.constraint_set.specs.Shape.{shape_of};
ghost use Rattle.family_solver.specs.Kept.Keeping.{IsKeptSolver, IsVerdict};
ghost use Rattle.std.specs.Prelude.{IfOk, IfSome, OnOk, ◌≡◌};
ghost use Rattle.world_model.specs.Questions.{HasFlags};

use constraint_set::Problem;
use family_solver::{KeptSolver, Verdict};
use pick_search::choose_by_picks;
use point_query::Asker;
use set_family::Family;
use split_search::Choice;
use std::alloc::{AllocError, Global};

/// What judges: a solver over points, if these are few. Where it can't say, picks do.
#[derive(Drop)]
pub(crate) struct Judge {
    pub(crate) solver: Option<KeptSolver>,
}

/// What is judged of some articulations.
#[derive(Drop)]
pub(crate) enum Judged {
    /// This family meets the problem with just these.
    Met(Family),
    /// None does: those with these flags, which are some of them, are in conflict.
    Clash(Vec<bool>),
}

/// A judge of a problem.
pub(crate) fn new_judge(alloc: Global, problem: &Problem) -> Result<Judge, AllocError>
    ensures { IfOk result (IsJudge problem.now) }
{
    let solver = KeptSolver::new(alloc, problem)?;
    Ok(Judge { solver })
}

// By picks.
fn judge_by_picks(
    alloc: Global,
    problem: &Problem,
    kept: &[bool],
    asker: &mut Asker,
) -> Result<Judged, AllocError>
    requires shape { asker.old.shape ≡ shape_of problem.now }
    requires flags { HasFlags problem.now kept.now }
    ensures shape { asker.new.shape ≡ asker.old.shape }
    ensures answer { IfOk result (IsJudged problem.now kept.now) }
{
    let restricted = problem.restricted(alloc, kept)?;
    match choose_by_picks(alloc, &restricted, asker)? {
        Choice::Met(family) => Ok(Judged::Met(family)),
        Choice::Refuted => {
            let core = Vec::from_slice(alloc, kept)?;
            Ok(Judged::Clash(core))
        }
    }
}

// What a verdict says, if anything.
fn judged_by(problem: &Problem, kept: &[bool], verdict: Verdict) -> Option<Judged>
    requires { IsVerdict problem.now kept.now verdict }
    ensures { IfSome result (IsJudged problem.now kept.now) }
{
    match verdict {
        Verdict::Met(family) => Some(Judged::Met(family)),
        Verdict::Clash(core) => Some(Judged::Clash(core)),
        Verdict::Unclear => None,
    }
}

// By the solver, if there is one.
fn judge_by_points(
    alloc: Global,
    problem: &Problem,
    kept: &[bool],
    judge: &mut Judge,
) -> Result<Option<Judged>, AllocError>
    requires flags { HasFlags problem.now kept.now }
    requires judge { IsJudge problem.now judge.old }
    ensures judge { IsJudge problem.now judge.new }
    ensures answer { IfOk result (λ found. IfSome found (IsJudged problem.now kept.now)) }
{
    let Some(solver) = &mut judge.solver else {
        return Ok(None);
    };
    let verdict = solver.ask(alloc, problem, kept)?;
    Ok(judged_by(problem, kept, verdict))
}

/// Whether the articulations with these flags hold together.
pub(crate) fn decide(
    alloc: Global,
    problem: &Problem,
    kept: &[bool],
    judge: &mut Judge,
    asker: &mut Asker,
) -> Result<Judged, AllocError>
    requires shape { asker.old.shape ≡ shape_of problem.now }
    requires flags { HasFlags problem.now kept.now }
    requires judge { IsJudge problem.now judge.old }
    ensures shape { asker.new.shape ≡ asker.old.shape }
    ensures judge { IsJudge problem.now judge.new }
    ensures answer { IfOk result (IsJudged problem.now kept.now) }
{
    match judge_by_points(alloc, problem, kept, judge)? {
        Some(judged) => Ok(judged),
        None => judge_by_picks(alloc, problem, kept, asker),
    }
}
