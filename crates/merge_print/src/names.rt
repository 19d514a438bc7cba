//! The names of a class, and of the parts of a split.

ghost use Rattle.std.specs.Prelude.{◌≡◌, ◌<◌, All, map, IfOk};
ghost use Rattle.world_model.specs.Problem.{concept_count};
ghost use Rattle.cleantax_text.specs.Canonical.{concept_text};
ghost use Rattle.merge_print.specs.Text.{joined_names, part_names};

use cleantax_text::concept_text;
use constraint_set::Problem;
use std::alloc::{AllocError, Global};

/// The names of concepts.
pub(crate) fn class_names(
    alloc: Global,
    problem: &Problem,
    class: &[u32],
) -> Result<Vec<Vec<u8>>, AllocError>
    requires { All (λ c. c < concept_count problem.now) class.now }
    ensures { IfOk result (λ names. map (λ v. v.items) names.items ≡ map (concept_text problem.now) class.now) }
{
    let mut names = Vec::new(alloc);
    for concept in class {
        names.push(concept_text(alloc, problem, *concept)?)?;
    }
    Ok(names)
}

// Two names with a sign between them.
fn joined(
    alloc: Global,
    problem: &Problem,
    sign: &[u8],
    x: u32,
    y: u32,
) -> Result<Vec<u8>, AllocError>
    requires x { x < concept_count problem.now }
    requires y { y < concept_count problem.now }
    ensures { IfOk result (λ name. name.items ≡ joined_names problem.now sign.now (x, y)) }
{
    let mut name = concept_text(alloc, problem, x)?;
    name.extend_from_slice(sign)?;
    name.extend_from_slice(&concept_text(alloc, problem, y)?)?;
    Ok(name)
}

/// The names of the parts of two concepts that overlap.
pub(crate) fn part_names(
    alloc: Global,
    problem: &Problem,
    x: u32,
    y: u32,
) -> Result<Vec<Vec<u8>>, AllocError>
    requires x { x < concept_count problem.now }
    requires y { y < concept_count problem.now }
    ensures { IfOk result (λ names. map (λ v. v.items) names.items ≡ part_names problem.now (x, y)) }
{
    let mut names = Vec::new(alloc);
    names.push(joined(alloc, problem, b"*", x, y)?)?;
    names.push(joined(alloc, problem, b"\\", x, y)?)?;
    names.push(joined(alloc, problem, b"\\", y, x)?)?;
    Ok(names)
}
