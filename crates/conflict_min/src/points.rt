//! The least conflict by a solver over points, of which it is asked what stands in conflict.
ghost use Rattle.std.specs.Prelude.{◌≡◌, ◌+◌, ◌<◌, true, length, IfOk, IfSome};
ghost use Rattle.family_solver.specs.Kept.Keeping.{IsClash, IsKeptSolver};
ghost use Rattle.conflict_min.specs.Conflicts.{all_kept, IsFound, IsLeast};
ghost use Rattle.conflict_min.specs.Shrinking.{IsCourse};

use crate::conflict::{Conflict, Outcome};
use crate::tries::{add_family, all_flags};
use constraint_set::Problem;
use family_solver::{KeptSolver, Verdict};
use set_family::Family;
use std::alloc::{AllocError, Global};

/// What is known where the first articulations have been gone through.
#[derive(Drop)]
pub(crate) struct Course {
    /// A flag for each articulation: whether it is kept still.
    pub(crate) kept: Vec<bool>,
    /// A family for each of the first that was kept, which shows that it is needed.
    pub(crate) families: Vec<Family>,
    /// Some of those kept, which are in conflict already.
    pub(crate) core: Vec<bool>,
}

// Asks without the articulation at a place: it is dropped where those left are in conflict still, and else kept with a family that
// shows why. Whether the solver could tell.
fn ask_without(
    alloc: Global,
    problem: &Problem,
    place: usize,
    solver: &mut KeptSolver,
    course: &mut Course,
) -> Result<bool, AllocError>
    requires solver { IsKeptSolver problem.now solver.old }
    requires within { place < length problem.now.articulations }
    requires before { IsCourse problem.now place course.old }
    ensures solver { IsKeptSolver problem.now solver.new }
    ensures after { IfOk result (λ told. told ≡ true → IsCourse problem.now (place + 1) course.new) }
{
    course.kept[place] = false;
    match solver.ask(alloc, problem, &course.kept)? {
        Verdict::Clash(core) => {
            course.core = core;
            Ok(true)
        }
        Verdict::Met(family) => {
            course.kept[place] = true;
            add_family(&mut course.families, family)?;
            Ok(true)
        }
        Verdict::Unclear => Ok(false),
    }
}

// Goes past the articulation at a place. Where those that are known to be in conflict stand without it, it is dropped unasked.
// Whether the solver could tell.
fn pass_one(
    alloc: Global,
    problem: &Problem,
    place: usize,
    solver: &mut KeptSolver,
    course: &mut Course,
) -> Result<bool, AllocError>
    requires solver { IsKeptSolver problem.now solver.old }
    requires within { place < length problem.now.articulations }
    requires before { IsCourse problem.now place course.old }
    ensures solver { IsKeptSolver problem.now solver.new }
    ensures after { IfOk result (λ told. told ≡ true → IsCourse problem.now (place + 1) course.new) }
{
    if course.core[place] {
        return ask_without(alloc, problem, place, solver, course);
    }
    course.kept[place] = false;
    Ok(true)
}

// Goes through all articulations, some of which are known to be in conflict, as long as the solver can tell.
fn go_through(
    alloc: Global,
    problem: &Problem,
    all: Vec<bool>,
    core: Vec<bool>,
    solver: &mut KeptSolver,
) -> Result<Option<Conflict>, AllocError>
    requires solver { IsKeptSolver problem.now solver.old }
    requires all { all.items ≡ all_kept problem.now }
    requires core { IsClash problem.now all.items core.items }
    ensures { IfOk result (λ found. IfSome found (IsLeast problem.now)) }
{
    let count = all.len();
    let mut course = Course {
        kept: all,
        families: Vec::new(alloc),
        core,
    };
    'places: for place in 0..count {
        if !pass_one(alloc, problem, place, solver, &mut course)? {
            return Ok(None);
        }
    }
    Ok(Some(Conflict {
        kept: course.kept,
        families: course.families,
    }))
}

/// What is found of all articulations by a solver over points, if there is one that can tell.
pub(crate) fn find_by_points(
    alloc: Global,
    problem: &Problem,
) -> Result<Option<Outcome>, AllocError>
    ensures { IfOk result (λ found. IfSome found (IsFound problem.now)) }
{
    let Some(mut solver) = KeptSolver::new(alloc, problem)? else {
        return Ok(None);
    };
    let all = all_flags(alloc, problem)?;
    match solver.ask(alloc, problem, &all)? {
        Verdict::Met(family) => Ok(Some(Outcome::Consistent(family))),
        Verdict::Unclear => Ok(None),
        Verdict::Clash(core) => match go_through(alloc, problem, all, core, &mut solver)? {
            Some(conflict) => Ok(Some(Outcome::Least(conflict))),
            None => Ok(None),
        },
    }
}
