//! One asker in turn at problems of a shape, beside the plain walk.

ghost use Rattle.std.specs.Prelude.{◌≡◌, IfOk};
ghost use Rattle.constraint_set.specs.Shape.{SameShape, shape_of};

use crate::askers::walk;
use crate::problems::problem_of;
use constraint_set::Problem;
use plain_walk::worlds_between;
use point_query::Asker;
use rcc5_core::{Position, Rel, RelSet};
use std::alloc::{AllocError, Global};
use world_model::Switches;

/// Which of two articulations are kept.
const KEPT: [[bool; 2]; 4] = [[true, true], [true, false], [false, true], [false, false]];

/// To what the first pair is narrowed; nothing for leaving it whole.
const NARROWED: [Option<Rel>; 6] = [
    None,
    Some(Rel::Equals),
    Some(Rel::Includes),
    Some(Rel::IncludedIn),
    Some(Rel::Overlaps),
    Some(Rel::Disjoint),
];

/// The problem that keeps some of two articulations.
fn kept_of(alloc: Global, problem: &Problem, kept: [bool; 2]) -> Result<Problem, AllocError>
    ensures { IfOk result (λ p. SameShape p problem.now) }
{
    if problem.articulation_count() != 2 {
        return Err(AllocError);
    }
    problem.restricted(alloc, &kept)
}

/// The problem with the first pair narrowed to a relation, or to all.
fn narrowed_of(alloc: Global, problem: &Problem, rel: Option<Rel>) -> Result<Problem, AllocError>
    ensures { IfOk result (λ p. SameShape p problem.now) }
{
    if problem.pair_count() == 0 {
        return Err(AllocError);
    }
    let set = match rel {
        Some(rel) => RelSet::one(rel),
        None => RelSet::all(),
    };
    problem.narrowed(alloc, 0, set)
}

// Here and below no `?` comes after an asker is made: it would be one more place that lets it go, and proving those is dear.
/// Whether a walk with an asker that may have been asked about others meets as many worlds as the plain walk, and both askers say the
/// same.
fn is_met(
    alloc: Global,
    asker: &mut Asker,
    problem: &Problem,
    kept: [bool; 2],
    rel: Option<Rel>,
) -> Result<bool, AllocError>
    requires { asker.old.shape ≡ shape_of problem.now }
    ensures { asker.new.shape ≡ asker.old.shape }
{
    let kept = kept_of(alloc, problem, kept)?;
    let narrowed = narrowed_of(alloc, &kept, rel)?;
    let met = walk(alloc, asker, &narrowed)?;
    let worlds = worlds_between(alloc, &narrowed, &Position::new(alloc), None)?;
    Ok(met.unlike == 0 && met.worlds as usize == worlds.len())
}

/// Whether walks agree on all problems that keep these articulations: a sign for each.
fn put_kept(
    out: &mut String,
    alloc: Global,
    asker: &mut Asker,
    problem: &Problem,
    kept: [bool; 2],
) -> Result<(), AllocError>
    requires { asker.old.shape ≡ shape_of problem.now }
    ensures { asker.new.shape ≡ asker.old.shape }
{
    for rel in NARROWED {
        let met = is_met(alloc, asker, problem, kept, rel)?;
        out.push(if met { '+' } else { '-' })?;
    }
    Ok(())
}

fn put_all(
    out: &mut String,
    alloc: Global,
    asker: &mut Asker,
    problem: &Problem,
) -> Result<(), AllocError>
    requires { asker.old.shape ≡ shape_of problem.now }
    ensures { asker.new.shape ≡ asker.old.shape }
{
    for kept in KEPT {
        put_kept(out, alloc, asker, problem, kept)?;
    }
    Ok(())
}

/// Twice over, since what an asker remembers of one problem must not be taken for another.
fn in_turn(
    out: &mut String,
    alloc: Global,
    asker: &mut Asker,
    problem: &Problem,
) -> Result<(), AllocError>
    requires { asker.old.shape ≡ shape_of problem.now }
{
    put_all(out, alloc, asker, problem)?;
    put_all(out, alloc, asker, problem)
}

fn put_turns(out: &mut String, alloc: Global, problem: &Problem) -> Result<(), AllocError> {
    let mut asker = Asker::new(alloc, problem)?;
    in_turn(out, alloc, &mut asker, problem)
}

pub(crate) fn compared(
    alloc: Global,
    text: &str,
    switches: Switches,
) -> Result<String, AllocError> {
    let mut out = String::new(alloc);
    let problem = problem_of(alloc, text, switches)?;
    put_turns(&mut out, alloc, &problem)?;
    Ok(out)
}
