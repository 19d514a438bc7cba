//! The summary of a trial.
ghost use Rattle.std.specs.Prelude.{◌≡◌, ◌≤◌, ◌<◌, ◌++◌, All, length, not, IfOk, OnOk};
ghost use Rattle.std.specs.List.{list_any};
ghost use Rattle.rcc5_core.specs.Relation.{same_rel};
ghost use Rattle.world_model.specs.Problem.{cross_pairs};
ghost use Rattle.world_model.specs.Listing.{rel_at};
ghost use Rattle.trial_run.specs.Trials.{is_varied, varied_count, count_line, problem_lines, world_lines, summary};

use constraint_set::Problem;
use rcc5_core::{Position, Rel};
use std::alloc::{AllocError, Global};

fn is_same(one: Rel, other: Rel) -> bool
    ensures { result ≡ same_rel one other }
{
    match (one, other) {
        (Rel::Equals, Rel::Equals) => true,
        (Rel::Includes, Rel::Includes) => true,
        (Rel::IncludedIn, Rel::IncludedIn) => true,
        (Rel::Overlaps, Rel::Overlaps) => true,
        (Rel::Disjoint, Rel::Disjoint) => true,
        _ => false,
    }
}

// Whether some of the worlds has another relation at a place than this one.
fn differs(worlds: &[Position], place: usize, rel: Rel) -> bool
    requires { All (λ world. place < length world) worlds.now }
    ensures { result ≡ list_any (λ world. not (same_rel (rel_at world place) rel)) worlds.now }
{
    for world in worlds {
        if !is_same(world.at(place), rel) {
            return true;
        }
    }
    false
}

// Whether some world has another relation at a place than the first one.
fn is_varied(worlds: &[Position], place: usize) -> bool
    requires { All (λ world. place < length world) worlds.now }
    ensures { result ≡ is_varied worlds.now place }
{
    if worlds.is_empty() {
        return false;
    }
    differs(&worlds[1..], place, worlds[0].at(place))
}

// How many pairs across taxonomies have not the same relation in all worlds.
fn varied_count(problem: &Problem, worlds: &[Position]) -> u32
    requires { All (λ world. length (cross_pairs problem.now) ≤ length world) worlds.now }
    ensures { result ≡ varied_count problem.now worlds.now }
{
    let mut count = 0;
    for place in 0..problem.cross_count() {
        if is_varied(worlds, place as usize) {
            count += 1;
        }
    }
    count
}

// Puts a line of a word and a count behind a text.
fn push_count(text: &mut Vec<u8>, alloc: Global, word: &str, count: u64) -> Result<(), AllocError>
    ensures { OnOk result (text.new.items ≡ text.old.items ++ count_line word.now count) }
{
    let line = format!(in alloc; "{word} {count}\n")?;
    text.extend_from_slice(line.as_bytes())?;
    Ok(())
}

// Puts the lines of the problem itself.
fn push_problem(text: &mut Vec<u8>, alloc: Global, problem: &Problem) -> Result<(), AllocError>
    ensures { OnOk result (text.new.items ≡ text.old.items ++ problem_lines problem.now) }
{
    push_count(text, alloc, "concepts", u64::from(problem.concept_count()))?;
    push_count(
        text,
        alloc,
        "articulations",
        u64::from(problem.articulation_count()),
    )?;
    push_count(text, alloc, "pairs", u64::from(problem.pair_count()))
}

// Puts the lines of its worlds.
fn push_worlds(
    text: &mut Vec<u8>,
    alloc: Global,
    problem: &Problem,
    found: u64,
    worlds: &[Position],
) -> Result<(), AllocError>
    requires { All (λ world. length (cross_pairs problem.now) ≤ length world) worlds.now }
    ensures { OnOk result (text.new.items ≡ text.old.items ++ world_lines problem.now found worlds.now) }
{
    push_count(text, alloc, "worlds", found)?;
    push_count(
        text,
        alloc,
        "varied",
        u64::from(varied_count(problem, worlds)),
    )?;
    push_count(text, alloc, "accepted", worlds.len() as u64)
}

/// The summary of a problem of a seed and a size, of how many worlds were listed, and of those of the certificate.
pub(crate) fn summary(
    alloc: Global,
    seed: u64,
    size: u32,
    problem: &Problem,
    found: u64,
    worlds: &[Position],
) -> Result<Vec<u8>, AllocError>
    requires { All (λ world. length (cross_pairs problem.now) ≤ length world) worlds.now }
    ensures { IfOk result (λ text. text.items ≡ summary seed size problem.now found worlds.now) }
{
    let mut text = format!(in alloc; "trial {seed} {size}\n")?.into_bytes();
    push_problem(&mut text, alloc, problem)?;
    push_worlds(&mut text, alloc, problem, found, worlds)?;
    Ok(text)
}
