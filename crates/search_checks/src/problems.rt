//! Problems as texts, their switches, and positions in letters.

ghost use Rattle.std.specs.Prelude.{◌≤◌, length, IfOk};
ghost use Rattle.world_model.specs.Problem.{pair_count};

use cleantax_text::read_problem;
use constraint_set::Problem;
use rcc5_core::{Position, Rel};
use std::alloc::{AllocError, Global};
use world_model::Switches;

/// All switches are on but for the one with this name.
pub(crate) fn switches_of(off: &str) -> Switches {
    Switches {
        nonempty: off != "nonempty",
        sibling: off != "sibling",
        coverage: off != "coverage",
    }
}

/// The problem of a text.
pub(crate) fn problem_of(
    alloc: Global,
    text: &str,
    switches: Switches,
) -> Result<Problem, AllocError> {
    match read_problem(alloc, text.as_bytes(), switches) {
        Ok(problem) => Ok(problem),
        Err(_) => Err(AllocError),
    }
}

/// A position that is no longer than the problem has pairs, by its letters.
pub(crate) fn position_of(
    alloc: Global,
    problem: &Problem,
    letters: &str,
) -> Result<Position, AllocError>
    ensures { IfOk result (λ position. length position ≤ pair_count problem.now) }
{
    let mut position = Position::new(alloc);
    for letter in letters.bytes() {
        position.push(Rel::from_letter(letter).ok_or(AllocError)?)?;
    }
    if position.len() > problem.pair_count() as usize {
        return Err(AllocError);
    }
    Ok(position)
}

/// Adds a position in letters and a blank; the empty one is a point.
pub(crate) fn push_position(text: &mut String, position: &Position) -> Result<(), AllocError> {
    if position.is_empty() {
        text.push('.')?;
    }
    for rel in position.rels() {
        text.push(char::from(rel.letter()))?;
    }
    text.push(' ')
}
